//! From a file that is put to a unit that is shown.
use crate::script::{Script, front, play_script, rest, served};
use crate::texts::{BAD_REQUEST, DEAD_A, DONE, NO_A, PUT_A, RELOAD, SHOW_A};
use um_asserts::{frames, same};

// The requests in turn, and their replies.

const A_FILE_THAT_IS_PUT_IS_SHOWN_AFTER_A_RELOAD: Script = Script {
    shows: "a file that is put is shown after a reload",
    steps: &[(PUT_A, DONE), (RELOAD, DONE), (SHOW_A, DEAD_A)],
};

const A_FILE_THAT_IS_PUT_IS_NOT_SHOWN_BEFORE_A_RELOAD: Script = Script {
    shows: "a file that is put is not shown before a reload",
    steps: &[
        (PUT_A, DONE),
        (SHOW_A, NO_A),
        (RELOAD, DONE),
        (SHOW_A, DEAD_A),
    ],
};

const A_PUT_THAT_IS_REFUSED_LEAVES_THE_TREE: Script = Script {
    shows: "a put that is refused leaves the tree",
    steps: &[
        (PUT_A, DONE),
        (
            r#"{"verb":"put-file","path":"lib/a.service/x","text":""}"#,
            r#"{"detail":["lib/a.service/x"],"error":12,"ok":false}"#,
        ),
        (r#"{"verb":"put-file","path":"lib/a.service"}"#, BAD_REQUEST),
        (RELOAD, DONE),
        (SHOW_A, DEAD_A),
    ],
};

const AN_INSTANCE_HAS_THE_FILE_OF_ITS_TEMPLATE: Script = Script {
    shows: "an instance has the file of its template",
    steps: &[
        (
            r#"{"verb":"put-file","path":"lib/app@.service","text":"[Unit]\nDescription=app\n[Service]\nExecStart=/bin/sleep 9\n"}"#,
            DONE,
        ),
        (RELOAD, DONE),
        (
            r#"{"verb":"show","unit":"app@x.service"}"#,
            r#"{"ok":true,"value":{"ActiveState":"inactive","Description":"app","Id":"app@x.service","LoadState":"loaded","MainNumber":0,"Result":"success","SubState":"dead","Warnings":[]}}"#,
        ),
    ],
};

const AN_EMPTY_FILE_MASKS_ITS_UNIT: Script = Script {
    shows: "an empty file masks its unit",
    steps: &[
        (
            r#"{"verb":"put-file","path":"etc/a.service","text":""}"#,
            DONE,
        ),
        (PUT_A, DONE),
        (RELOAD, DONE),
        (
            SHOW_A,
            r#"{"ok":true,"value":{"ActiveState":"inactive","Description":"","Id":"a.service","LoadState":"masked","MainNumber":0,"Result":"success","SubState":"dead","Warnings":[]}}"#,
        ),
    ],
};

#[test]
fn scripts_have_their_replies(rt: HostRuntime) {
    play_script(&rt, &A_FILE_THAT_IS_PUT_IS_SHOWN_AFTER_A_RELOAD);
    play_script(&rt, &A_FILE_THAT_IS_PUT_IS_NOT_SHOWN_BEFORE_A_RELOAD);
    play_script(&rt, &A_PUT_THAT_IS_REFUSED_LEAVES_THE_TREE);
    play_script(&rt, &AN_INSTANCE_HAS_THE_FILE_OF_ITS_TEMPLATE);
    play_script(&rt, &AN_EMPTY_FILE_MASKS_ITS_UNIT);
}

/// The first bytes of the replies: two whole frames and the length of the third.
const OUTPUT: &[u8] = b"\x00\x00\x00\x0b{\"ok\":true}\x00\x00\x00\x0b{\"ok\":true}\x00\x00\x00\xa7";

#[test]
fn the_length_of_each_text_stands_before_it(rt: HostRuntime) {
    let input = frames(rt.alloc(), &[PUT_A, RELOAD, SHOW_A]).expect(&rt, "no memory");
    let second = front(rest(input.as_slice(), 91), 5);
    same!(&rt, second, b"\x00\x00\x00\x18{".as_slice());
    let (output, _) = served(rt.alloc(), input.as_slice()).expect(&rt, "not served");
    same!(&rt, front(output.as_slice(), 34), OUTPUT);
}

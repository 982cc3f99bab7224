//! Lines that a backslash joins.
use crate::script::{Script, play_script};
use crate::texts::{DONE, RELOAD};

// The requests in turn, and their replies.

const A_LINE_IS_JOINED_TO_THE_NEXT_OVER_A_COMMENT: Script = Script {
    shows: "a line is joined to the next over a comment",
    steps: &[
        (
            r#"{"verb":"put-file","path":"lib/a.service","text":"[Service]\nExecStart=/bin/c\n[Unit]\nDescription=a\\\n# c\n   b\n"}"#,
            DONE,
        ),
        (RELOAD, DONE),
        (
            r#"{"verb":"show","unit":"a.service"}"#,
            r#"{"ok":true,"value":{"ActiveState":"inactive","Description":"a    b","Id":"a.service","LoadState":"loaded","MainNumber":0,"Result":"success","SubState":"dead","Warnings":[]}}"#,
        ),
    ],
};

const A_BACKSLASH_AT_THE_END_OF_A_TEXT_JOINS_NOTHING: Script = Script {
    shows: "a backslash at the end of a text joins nothing",
    steps: &[
        (
            r#"{"verb":"put-file","path":"lib/a.service","text":"[Service]\nExecStart=/bin/c\n[Unit]\nDescription=x\\"}"#,
            DONE,
        ),
        (RELOAD, DONE),
        (
            r#"{"verb":"show","unit":"a.service"}"#,
            r#"{"ok":true,"value":{"ActiveState":"inactive","Description":"x","Id":"a.service","LoadState":"loaded","MainNumber":0,"Result":"success","SubState":"dead","Warnings":[]}}"#,
        ),
    ],
};

#[test]
fn scripts_have_their_replies(rt: HostRuntime) {
    play_script(&rt, &A_LINE_IS_JOINED_TO_THE_NEXT_OVER_A_COMMENT);
    play_script(&rt, &A_BACKSLASH_AT_THE_END_OF_A_TEXT_JOINS_NOTHING);
}

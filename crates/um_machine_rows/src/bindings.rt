//! Units that are bound to others or require them, as replies show them.
use crate::script::{Script, play_script};
use crate::texts::{
    A_FAILED_BY_CODE, ACTIONS, B_LACKS_ANOTHER, DONE, FIRST_FAILS, INACTIVE, JOBS, NOTHING, PUT_A,
    RELOAD, SHOW_A, SHOW_B, START_B, START_C,
};

/// A service that is bound to a and comes after it.
const B_BOUND_TO_A: &str =
    r#"{"verb":"put-file","path":"lib/b.service","text":"[Unit]\nBindsTo=a.service\nAfter=a.service\n[Service]\nExecStart=/bin/sleep 9\n"}"#;

const SPAWNED_BOTH: &str =
    r#"{"ok":true,"value":[["spawn",1,["/bin/sleep","9"]],["spawn",2,["/bin/sleep","9"]]]}"#;

/// A target that is bound to a.
const T_BOUND_TO_A: &str =
    r#"{"verb":"put-file","path":"lib/t.target","text":"[Unit]\nBindsTo=a.service\n"}"#;

/// A service that is bound to the target.
const C_BOUND_TO_T: &str =
    r#"{"verb":"put-file","path":"lib/c.service","text":"[Unit]\nBindsTo=t.target\n[Service]\nExecStart=/bin/c\n"}"#;

/// A service that is bound to a, with a name after that of the target.
const Z_BOUND_TO_A: &str =
    r#"{"verb":"put-file","path":"lib/z.service","text":"[Unit]\nBindsTo=a.service\n[Service]\nExecStart=/bin/z\n"}"#;

// The requests in turn, and their replies.

const A_UNIT_IS_STOPPED_AT_ONCE_WHERE_THE_ONE_IT_IS_BOUND_TO_FAILS: Script = Script {
    shows: "a unit is stopped at once where the one it is bound to fails",
    steps: &[
        (PUT_A, DONE),
        (B_BOUND_TO_A, DONE),
        (RELOAD, DONE),
        (START_B, DONE),
        (ACTIONS, SPAWNED_BOTH),
        (FIRST_FAILS, DONE),
        (SHOW_A, A_FAILED_BY_CODE),
        (ACTIONS, r#"{"ok":true,"value":[["signal",2,"TERM"]]}"#),
        (JOBS, NOTHING),
    ],
};

const WHAT_IS_BOUND_TO_WHAT_FALLS_COMES_BEFORE_THE_NEXT_BY_NAME: Script = Script {
    shows: "what is bound to what falls comes before the next by name",
    steps: &[
        (PUT_A, DONE),
        (T_BOUND_TO_A, DONE),
        (C_BOUND_TO_T, DONE),
        (Z_BOUND_TO_A, DONE),
        (RELOAD, DONE),
        (r#"{"verb":"start","unit":"z"}"#, DONE),
        (START_C, DONE),
        (
            ACTIONS,
            r#"{"ok":true,"value":[["spawn",1,["/bin/sleep","9"]],["spawn",2,["/bin/z"]],["spawn",3,["/bin/c"]]]}"#,
        ),
        (FIRST_FAILS, DONE),
        (
            ACTIONS,
            r#"{"ok":true,"value":[["signal",3,"TERM"],["signal",2,"TERM"]]}"#,
        ),
        (r#"{"verb":"is-active","unit":"t.target"}"#, INACTIVE),
    ],
};

const A_START_FAILS_WITH_THE_START_THAT_IT_REQUIRES: Script = Script {
    shows: "a start fails with the start that it requires",
    steps: &[
        (
            r#"{"verb":"put-file","path":"lib/o.service","text":"[Service]\nType=oneshot\nExecStart=/bin/o\n"}"#,
            DONE,
        ),
        (
            r#"{"verb":"put-file","path":"lib/b.service","text":"[Unit]\nRequires=o.service\nAfter=o.service\n[Service]\nExecStart=/bin/sleep 9\n"}"#,
            DONE,
        ),
        (RELOAD, DONE),
        (START_B, DONE),
        (ACTIONS, r#"{"ok":true,"value":[["spawn",1,["/bin/o"]]]}"#),
        (FIRST_FAILS, DONE),
        (
            r#"{"verb":"show","unit":"o"}"#,
            r#"{"ok":true,"value":{"ActiveState":"failed","Description":"","Id":"o.service","LoadState":"loaded","MainNumber":0,"Result":"exit-code","SubState":"failed","Warnings":[]}}"#,
        ),
        (SHOW_B, B_LACKS_ANOTHER),
        (JOBS, NOTHING),
    ],
};

#[test]
fn scripts_have_their_replies(rt: HostRuntime) {
    play_script(
        &rt,
        &A_UNIT_IS_STOPPED_AT_ONCE_WHERE_THE_ONE_IT_IS_BOUND_TO_FAILS,
    );
    play_script(
        &rt,
        &WHAT_IS_BOUND_TO_WHAT_FALLS_COMES_BEFORE_THE_NEXT_BY_NAME,
    );
    play_script(&rt, &A_START_FAILS_WITH_THE_START_THAT_IT_REQUIRES);
}

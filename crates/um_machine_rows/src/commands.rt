//! Commands for a unit with jobs pending, and the jobs as replies show them.
use crate::script::{Script, play_script};
use crate::texts::{
    ACTIONS, BAD_REQUEST, CANCEL_A, DONE, FIRST_ENDS, FIRST_TOLD_TO_END, JOBS, NOTHING, PUT_A,
    RELOAD, RESTART_A, SPAWNED_FIRST, SPAWNED_SECOND, START_A,
};

/// The list of jobs of a restart whose stop runs.
const RESTARTS: &str =
    r#"{"ok":true,"value":[["a.service","stop","running"],["a.service","start","waiting"]]}"#;

// The requests in turn, and their replies.

const A_RESTART_IS_A_STOP_AND_THEN_A_START: Script = Script {
    shows: "a restart is a stop and then a start",
    steps: &[
        (PUT_A, DONE),
        (RELOAD, DONE),
        (START_A, DONE),
        (ACTIONS, SPAWNED_FIRST),
        (JOBS, NOTHING),
        (RESTART_A, DONE),
        (ACTIONS, FIRST_TOLD_TO_END),
        (JOBS, RESTARTS),
        (FIRST_ENDS, DONE),
        (JOBS, NOTHING),
        (ACTIONS, SPAWNED_SECOND),
    ],
};

const A_CANCEL_DROPS_WHAT_WAITS_AND_LEAVES_WHAT_RUNS: Script = Script {
    shows: "a cancel drops what waits and leaves what runs",
    steps: &[
        (PUT_A, DONE),
        (RELOAD, DONE),
        (START_A, DONE),
        (ACTIONS, SPAWNED_FIRST),
        (
            CANCEL_A,
            r#"{"detail":["a.service"],"error":21,"ok":false}"#,
        ),
        (RESTART_A, DONE),
        (ACTIONS, FIRST_TOLD_TO_END),
        (CANCEL_A, DONE),
        (
            JOBS,
            r#"{"ok":true,"value":[["a.service","stop","running"]]}"#,
        ),
        (FIRST_ENDS, DONE),
        (JOBS, NOTHING),
        (ACTIONS, NOTHING),
    ],
};

const MODE_FAIL_DROPS_NO_JOB: Script = Script {
    shows: "mode fail drops no job",
    steps: &[
        (PUT_A, DONE),
        (RELOAD, DONE),
        (START_A, DONE),
        (RESTART_A, DONE),
        (
            r#"{"verb":"stop","unit":"a","mode":"fail"}"#,
            r#"{"detail":["a.service"],"error":10,"ok":false}"#,
        ),
        (JOBS, RESTARTS),
        (r#"{"verb":"stop","unit":"a","mode":"replace"}"#, DONE),
        (
            JOBS,
            r#"{"ok":true,"value":[["a.service","stop","running"]]}"#,
        ),
        (
            r#"{"verb":"stop","unit":"a","mode":"isolate"}"#,
            BAD_REQUEST,
        ),
        (r#"{"verb":"cancel","unit":"a","mode":"fail"}"#, BAD_REQUEST),
    ],
};

const WHAT_IS_NOT_THERE_IS_NOT_RESTARTED_NOR_CANCELLED: Script = Script {
    shows: "what is not there is not restarted nor cancelled",
    steps: &[
        (
            r#"{"verb":"try-restart","unit":"gone"}"#,
            r#"{"detail":["gone.service"],"error":7,"ok":false}"#,
        ),
        (
            r#"{"verb":"cancel","unit":"gone"}"#,
            r#"{"detail":["gone.service"],"error":7,"ok":false}"#,
        ),
        (
            r#"{"verb":"restart","unit":"gone"}"#,
            r#"{"detail":["gone.service"],"error":4,"ok":false}"#,
        ),
        (PUT_A, DONE),
        (RELOAD, DONE),
        (r#"{"verb":"try-restart","unit":"a"}"#, DONE),
        (ACTIONS, NOTHING),
        (RESTART_A, DONE),
        (ACTIONS, SPAWNED_FIRST),
    ],
};

#[test]
fn scripts_have_their_replies(rt: HostRuntime) {
    play_script(&rt, &A_RESTART_IS_A_STOP_AND_THEN_A_START);
    play_script(&rt, &A_CANCEL_DROPS_WHAT_WAITS_AND_LEAVES_WHAT_RUNS);
    play_script(&rt, &MODE_FAIL_DROPS_NO_JOB);
    play_script(&rt, &WHAT_IS_NOT_THERE_IS_NOT_RESTARTED_NOR_CANCELLED);
}

//! One simple service: started, stopped, killed on its time-out, and its end seen.
use crate::script::{Script, play_script};
use crate::texts::{
    A_FAILED_BY_CODE, A_RUNS_AS_FIRST, A_RUNS_AS_SECOND, A_TIMED_OUT, ACTIONS, DONE, FIRST_ENDS,
    FIRST_EXITS, FIRST_FAILS, FIRST_KILLED, FIRST_TOLD_TO_END, INACTIVE, NOTHING, PUT_A, RELOAD,
    SECOND_EXITS, SHOW_A, SPAWNED_FIRST, SPAWNED_SECOND, START_A, START_B, STOP_A,
};

// The requests in turn, and their replies.

const A_STARTED_SERVICE_RUNS: Script = Script {
    shows: "a started service runs",
    steps: &[
        (PUT_A, DONE),
        (RELOAD, DONE),
        (START_A, DONE),
        (SHOW_A, A_RUNS_AS_FIRST),
        (ACTIONS, SPAWNED_FIRST),
    ],
};

const A_START_DURING_A_STOP_WAITS_FOR_THE_END: Script = Script {
    shows: "a start during a stop waits for the end",
    steps: &[
        (PUT_A, DONE),
        (RELOAD, DONE),
        (START_A, DONE),
        (ACTIONS, SPAWNED_FIRST),
        (STOP_A, DONE),
        (ACTIONS, FIRST_TOLD_TO_END),
        (START_A, DONE),
        (FIRST_ENDS, DONE),
        (ACTIONS, SPAWNED_SECOND),
        (FIRST_ENDS, DONE),
        (SHOW_A, A_RUNS_AS_SECOND),
    ],
};

const A_SERVICE_THAT_DOES_NOT_END_IS_KILLED_AND_THEN_FAILED: Script = Script {
    shows: "a service that does not end is killed and then failed",
    steps: &[
        (PUT_A, DONE),
        (RELOAD, DONE),
        (START_A, DONE),
        (ACTIONS, SPAWNED_FIRST),
        (r#"{"verb":"stop","unit":"a","at":0}"#, DONE),
        (ACTIONS, FIRST_TOLD_TO_END),
        (r#"{"verb":"tick","at":90000000}"#, DONE),
        (ACTIONS, FIRST_KILLED),
        (r#"{"verb":"tick","at":180000000}"#, DONE),
        (SHOW_A, A_TIMED_OUT),
        (FIRST_EXITS, DONE),
        (SHOW_A, A_TIMED_OUT),
    ],
};

const WHAT_CAN_NOT_BE_STARTED_OR_STOPPED_IS_REFUSED: Script = Script {
    shows: "what can not be started or stopped is refused",
    steps: &[
        (
            r#"{"verb":"put-file","path":"etc/m.service","text":""}"#,
            DONE,
        ),
        (RELOAD, DONE),
        (START_B, r#"{"detail":["b.service"],"error":4,"ok":false}"#),
        (
            r#"{"verb":"start","unit":"m"}"#,
            r#"{"detail":["m.service"],"error":5,"ok":false}"#,
        ),
        (
            r#"{"verb":"stop","unit":"b"}"#,
            r#"{"detail":["b.service"],"error":7,"ok":false}"#,
        ),
        (r#"{"verb":"is-active","unit":"b"}"#, INACTIVE),
    ],
};

const A_MOMENT_BEFORE_THE_CLOCK_COUNTS_AS_THE_CLOCK: Script = Script {
    shows: "a moment before the clock counts as the clock",
    steps: &[
        (PUT_A, DONE),
        (r#"{"verb":"daemon-reload","at":100000000}"#, DONE),
        (START_A, DONE),
        (ACTIONS, SPAWNED_FIRST),
        // it is stopped at 100 seconds, and has 90 seconds from then
        (r#"{"verb":"stop","unit":"a","at":5}"#, DONE),
        (ACTIONS, FIRST_TOLD_TO_END),
        (r#"{"verb":"tick","at":189999999}"#, DONE),
        (ACTIONS, NOTHING),
        (r#"{"verb":"tick","at":190000000}"#, DONE),
        (ACTIONS, FIRST_KILLED),
    ],
};

const AN_END_OF_A_NUMBER_THAT_NO_PROCESS_HAS_CHANGES_NOTHING: Script = Script {
    shows: "an end of a number that no process has changes nothing",
    steps: &[
        (PUT_A, DONE),
        (RELOAD, DONE),
        (START_A, DONE),
        (SECOND_EXITS, DONE),
        (
            r#"{"verb":"end","number":9223372036854775808,"code":0}"#,
            DONE,
        ),
        (
            r#"{"verb":"end","number":9223372036854775809,"signal":9}"#,
            DONE,
        ),
        (
            r#"{"verb":"end","number":18446744073709551615,"lost":true}"#,
            DONE,
        ),
        (SHOW_A, A_RUNS_AS_FIRST),
        (ACTIONS, SPAWNED_FIRST),
    ],
};

const A_RUNNING_SERVICE_BEHIND_A_LINK_TO_A_TEMPLATE_HAS_NO_SETTINGS: Script = Script {
    shows: "a running service behind a link to a template has no settings",
    steps: &[
        (PUT_A, DONE),
        (RELOAD, DONE),
        (START_A, DONE),
        (ACTIONS, SPAWNED_FIRST),
        // by its own settings the template would take each end for a success
        (
            r#"{"verb":"put-file","path":"lib/t@.service","text":"[Service]\nExecStart=-/bin/x\n"}"#,
            DONE,
        ),
        (
            r#"{"verb":"put-link","path":"etc/a.service","target":"t@.service"}"#,
            DONE,
        ),
        (RELOAD, DONE),
        (FIRST_FAILS, DONE),
        (r#"{"verb":"remove","path":"etc/a.service"}"#, DONE),
        (RELOAD, DONE),
        (SHOW_A, A_FAILED_BY_CODE),
        (ACTIONS, NOTHING),
    ],
};

#[test]
fn scripts_have_their_replies(rt: HostRuntime) {
    play_script(&rt, &A_STARTED_SERVICE_RUNS);
    play_script(&rt, &A_START_DURING_A_STOP_WAITS_FOR_THE_END);
    play_script(&rt, &A_SERVICE_THAT_DOES_NOT_END_IS_KILLED_AND_THEN_FAILED);
    play_script(&rt, &WHAT_CAN_NOT_BE_STARTED_OR_STOPPED_IS_REFUSED);
    play_script(&rt, &A_MOMENT_BEFORE_THE_CLOCK_COUNTS_AS_THE_CLOCK);
    play_script(&rt, &AN_END_OF_A_NUMBER_THAT_NO_PROCESS_HAS_CHANGES_NOTHING);
    play_script(
        &rt,
        &A_RUNNING_SERVICE_BEHIND_A_LINK_TO_A_TEMPLATE_HAS_NO_SETTINGS,
    );
}

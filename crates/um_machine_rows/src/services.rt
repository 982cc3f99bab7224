//! Services of all types by all their settings, as replies show them.
use crate::script::{Script, play_script};
use crate::texts::{
    A_RUNS_AS_FIRST, A_TIMED_OUT, ACTIONS, DEAD_A, DONE, FIRST_ENDS, FIRST_EXITS, FIRST_KILLED,
    FIRST_TOLD_TO_END, JOBS, NOTHING, RELOAD, SECOND_EXITS, SHOW_A, SPAWNED_FIRST, START_A, STOP_A,
    UNITS,
};

const STARTS: &str = r#"{"ok":true,"value":[["a.service","start","running"]]}"#;

const STOPS: &str = r#"{"ok":true,"value":[["a.service","stop","running"]]}"#;

/// A service that sleeps.
const PUT: &str =
    r#"{"verb":"put-file","path":"lib/a.service","text":"[Service]\nExecStart=/bin/sleep 9\nExecStop=/bin/x\n"}"#;

// The requests in turn, and their replies.

const A_START_THAT_NO_REPORT_ENDS_IN_TIME_FAILS: Script = Script {
    shows: "a start that no report ends in time fails",
    steps: &[
        (
            r#"{"verb":"put-file","path":"lib/a.service","text":"[Service]\nExecStart=/bin/sleep 9\nType=exec\nTimeoutStartSec=1\n"}"#,
            DONE,
        ),
        (RELOAD, DONE),
        (START_A, DONE),
        (ACTIONS, SPAWNED_FIRST),
        (r#"{"verb":"tick","at":999999}"#, DONE),
        (JOBS, STARTS),
        (ACTIONS, NOTHING),
        (r#"{"verb":"tick","at":1000000}"#, DONE),
        (JOBS, NOTHING),
        (
            SHOW_A,
            r#"{"ok":true,"value":{"ActiveState":"deactivating","Description":"","Id":"a.service","LoadState":"loaded","MainNumber":1,"Result":"timeout","SubState":"stop-sigterm","Warnings":[]}}"#,
        ),
        (ACTIONS, FIRST_TOLD_TO_END),
        (FIRST_ENDS, DONE),
        (SHOW_A, A_TIMED_OUT),
    ],
};

const THE_REPORT_THAT_THE_PROGRAM_RUNS_ENDS_A_START: Script = Script {
    shows: "the report that the program runs ends a start",
    steps: &[
        (
            r#"{"verb":"put-file","path":"lib/a.service","text":"[Service]\nExecStart=/bin/sleep 9\nType=exec\n"}"#,
            DONE,
        ),
        (RELOAD, DONE),
        (START_A, DONE),
        (r#"{"verb":"executed","number":2}"#, DONE),
        (JOBS, STARTS),
        (r#"{"verb":"executed","number":1}"#, DONE),
        (JOBS, NOTHING),
        (SHOW_A, A_RUNS_AS_FIRST),
    ],
};

const A_ONESHOT_HAS_EXITED_AFTER_ITS_LAST_COMMAND: Script = Script {
    shows: "a oneshot has exited after its last command",
    steps: &[
        (
            r#"{"verb":"put-file","path":"lib/a.service","text":"[Service]\nType=oneshot\nExecStart=/bin/a\nExecStart=-/bin/b\nRemainAfterExit=yes\n"}"#,
            DONE,
        ),
        (RELOAD, DONE),
        (START_A, DONE),
        (ACTIONS, r#"{"ok":true,"value":[["spawn",1,["/bin/a"]]]}"#),
        (FIRST_EXITS, DONE),
        (ACTIONS, r#"{"ok":true,"value":[["spawn",2,["/bin/b"]]]}"#),
        (JOBS, STARTS),
        (r#"{"verb":"end","number":2,"code":3}"#, DONE),
        (JOBS, NOTHING),
        (
            SHOW_A,
            r#"{"ok":true,"value":{"ActiveState":"active","Description":"","Id":"a.service","LoadState":"loaded","MainNumber":0,"Result":"success","SubState":"exited","Warnings":[]}}"#,
        ),
    ],
};

const A_SERVICE_IS_STOPPED_BY_ITS_OWN_COMMAND: Script = Script {
    shows: "a service is stopped by its own command",
    steps: &[
        (
            r#"{"verb":"put-file","path":"lib/a.service","text":"[Service]\nExecStart=/bin/sleep 9\nExecStop=/bin/x\n"}"#,
            DONE,
        ),
        (RELOAD, DONE),
        (START_A, DONE),
        (ACTIONS, SPAWNED_FIRST),
        (STOP_A, DONE),
        (ACTIONS, r#"{"ok":true,"value":[["spawn",2,["/bin/x"]]]}"#),
        (FIRST_EXITS, DONE),
        (JOBS, STOPS),
        (
            SHOW_A,
            r#"{"ok":true,"value":{"ActiveState":"deactivating","Description":"","Id":"a.service","LoadState":"loaded","MainNumber":0,"Result":"success","SubState":"stop","Warnings":[]}}"#,
        ),
        (SECOND_EXITS, DONE),
        (JOBS, NOTHING),
        (SHOW_A, DEAD_A),
        (ACTIONS, NOTHING),
    ],
};

const A_SERVICE_THAT_DOES_NOT_END_IS_KILLED_AFTER_IT_WAS_TOLD_TO: Script = Script {
    shows: "a service that does not end is killed after it was told to",
    steps: &[
        (
            r#"{"verb":"put-file","path":"lib/a.service","text":"[Service]\nExecStart=/bin/sleep 9\nTimeoutStopSec=2\n"}"#,
            DONE,
        ),
        (RELOAD, DONE),
        (START_A, DONE),
        (ACTIONS, SPAWNED_FIRST),
        (STOP_A, DONE),
        (ACTIONS, FIRST_TOLD_TO_END),
        (r#"{"verb":"tick","at":1999999}"#, DONE),
        (ACTIONS, NOTHING),
        (r#"{"verb":"tick","at":2000000}"#, DONE),
        (ACTIONS, FIRST_KILLED),
        (r#"{"verb":"end","number":1,"signal":9}"#, DONE),
        (SHOW_A, A_TIMED_OUT),
        (JOBS, NOTHING),
    ],
};

const A_PROCESS_ENDS_BY_THE_SETTINGS_THAT_ARE_LOADED_THEN: Script = Script {
    shows: "a process ends by the settings that are loaded then",
    steps: &[
        (PUT, DONE),
        (RELOAD, DONE),
        (START_A, DONE),
        (ACTIONS, SPAWNED_FIRST),
        (
            r#"{"verb":"put-file","path":"lib/a.service","text":"[Service]\nType=oneshot\nExecStart=/bin/a\n"}"#,
            DONE,
        ),
        (RELOAD, DONE),
        (FIRST_ENDS, DONE),
        (
            SHOW_A,
            r#"{"ok":true,"value":{"ActiveState":"failed","Description":"","Id":"a.service","LoadState":"loaded","MainNumber":0,"Result":"signal","SubState":"failed","Warnings":[]}}"#,
        ),
    ],
};

const A_UNIT_THAT_BECAME_A_TEMPLATE_ACTS_AS_A_SIMPLE_SERVICE: Script = Script {
    shows: "a unit that became a template acts as a simple service",
    steps: &[
        (PUT, DONE),
        (RELOAD, DONE),
        (START_A, DONE),
        (ACTIONS, SPAWNED_FIRST),
        (
            r#"{"verb":"put-file","path":"lib/g@.service","text":"[Service]\nType=oneshot\nExecStart=/bin/a\nExecStop=/bin/x\nRemainAfterExit=yes\n"}"#,
            DONE,
        ),
        (
            r#"{"verb":"put-link","path":"etc/a.service","target":"g@.service"}"#,
            DONE,
        ),
        (RELOAD, DONE),
        (FIRST_ENDS, DONE),
        (ACTIONS, NOTHING),
        (
            UNITS,
            r#"{"ok":true,"value":[["a.service","inactive","dead"]]}"#,
        ),
    ],
};

#[test]
fn scripts_have_their_replies(rt: HostRuntime) {
    play_script(&rt, &A_START_THAT_NO_REPORT_ENDS_IN_TIME_FAILS);
    play_script(&rt, &THE_REPORT_THAT_THE_PROGRAM_RUNS_ENDS_A_START);
    play_script(&rt, &A_ONESHOT_HAS_EXITED_AFTER_ITS_LAST_COMMAND);
    play_script(&rt, &A_SERVICE_IS_STOPPED_BY_ITS_OWN_COMMAND);
    play_script(
        &rt,
        &A_SERVICE_THAT_DOES_NOT_END_IS_KILLED_AFTER_IT_WAS_TOLD_TO,
    );
    play_script(&rt, &A_PROCESS_ENDS_BY_THE_SETTINGS_THAT_ARE_LOADED_THEN);
    play_script(&rt, &A_UNIT_THAT_BECAME_A_TEMPLATE_ACTS_AS_A_SIMPLE_SERVICE);
}

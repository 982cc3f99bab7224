//! Restarts of services that ended by themselves, as replies show them.
use crate::script::{Script, play, play_script};
use crate::texts::{
    A_FAILED_BY_CODE, A_RUNS_AS_SECOND, ACTIONS, DEAD_A, DONE, FIRST_EXITS, FIRST_FAILS, INACTIVE,
    JOBS, NOTHING, RELOAD, SECOND_EXITS, SHOW_A, SPAWNED_FIRST, SPAWNED_SECOND, START_A, STOP_A,
};

/// How the unit is shown that waits for its restart after it exited with a code that isn't 0.
const AWAITS_RESTART: &str =
    r#"{"ok":true,"value":{"ActiveState":"activating","Description":"","Id":"a.service","LoadState":"loaded","MainNumber":0,"Result":"exit-code","SubState":"auto-restart","Warnings":[]}}"#;

const ENDS_WITH_CODE_3: &str = r#"{"verb":"end","number":1,"code":3}"#;

const ENDS_BY_SIGNAL_9: &str = r#"{"verb":"end","number":1,"signal":9}"#;

const ON_ABNORMAL: &str =
    r#"{"verb":"put-file","path":"lib/a.service","text":"[Service]\nExecStart=/bin/sleep 9\nRestart=on-abnormal\n"}"#;

const PREVENTED_BY_3: &str =
    r#"{"verb":"put-file","path":"lib/a.service","text":"[Service]\nExecStart=/bin/sleep 9\nRestart=on-failure\nRestartPreventExitStatus=3\n"}"#;

const FORCED_BY_3: &str =
    r#"{"verb":"put-file","path":"lib/a.service","text":"[Service]\nExecStart=/bin/sleep 9\nRestartForceExitStatus=3\n"}"#;

const PREVENTED_AND_FORCED_BY_3: &str =
    r#"{"verb":"put-file","path":"lib/a.service","text":"[Service]\nExecStart=/bin/sleep 9\nRestartForceExitStatus=3\nRestartPreventExitStatus=3\n"}"#;

const WITH_DASH: &str =
    r#"{"verb":"put-file","path":"lib/a.service","text":"[Service]\nExecStart=-/bin/sleep 9\n"}"#;

const AWAITS_RESTART_AFTER_SIGNAL: &str =
    r#"{"ok":true,"value":{"ActiveState":"activating","Description":"","Id":"a.service","LoadState":"loaded","MainNumber":0,"Result":"signal","SubState":"auto-restart","Warnings":[]}}"#;

// The requests in turn, and their replies.

const A_RESTART_COMES_WITH_THE_TICK_AT_WHICH_IT_IS_DUE: Script = Script {
    shows: "a restart comes with the tick at which it is due",
    steps: &[
        (
            r#"{"verb":"put-file","path":"lib/a.service","text":"[Service]\nExecStart=/bin/sleep 9\nRestart=on-failure\n"}"#,
            DONE,
        ),
        (RELOAD, DONE),
        (START_A, DONE),
        (ACTIONS, SPAWNED_FIRST),
        (r#"{"verb":"end","number":1,"code":1,"at":1000000}"#, DONE),
        (SHOW_A, AWAITS_RESTART),
        (r#"{"verb":"tick","at":1099999}"#, DONE),
        (SHOW_A, AWAITS_RESTART),
        (ACTIONS, NOTHING),
        (r#"{"verb":"tick","at":1100000}"#, DONE),
        (ACTIONS, SPAWNED_SECOND),
        (SHOW_A, A_RUNS_AS_SECOND),
    ],
};

const RESTARTS_END_AT_THE_LIMIT_OF_STARTS: Script = Script {
    shows: "restarts end at the limit of starts",
    steps: &[
        (
            r#"{"verb":"put-file","path":"lib/a.service","text":"[Service]\nExecStart=/bin/sleep 9\nRestart=always\n"}"#,
            DONE,
        ),
        (RELOAD, DONE),
        (START_A, DONE),
        (ACTIONS, SPAWNED_FIRST),
        (r#"{"verb":"end","number":1,"code":0,"at":0}"#, DONE),
        (r#"{"verb":"tick","at":100000}"#, DONE),
        (ACTIONS, SPAWNED_SECOND),
        (r#"{"verb":"end","number":2,"code":0,"at":100000}"#, DONE),
        (r#"{"verb":"tick","at":200000}"#, DONE),
        (
            ACTIONS,
            r#"{"ok":true,"value":[["spawn",3,["/bin/sleep","9"]]]}"#,
        ),
        (r#"{"verb":"end","number":3,"code":0,"at":200000}"#, DONE),
        (r#"{"verb":"tick","at":300000}"#, DONE),
        (
            ACTIONS,
            r#"{"ok":true,"value":[["spawn",4,["/bin/sleep","9"]]]}"#,
        ),
        (r#"{"verb":"end","number":4,"code":0,"at":300000}"#, DONE),
        (r#"{"verb":"tick","at":400000}"#, DONE),
        (
            ACTIONS,
            r#"{"ok":true,"value":[["spawn",5,["/bin/sleep","9"]]]}"#,
        ),
        (r#"{"verb":"end","number":5,"code":0,"at":400000}"#, DONE),
        (r#"{"verb":"tick","at":500000}"#, DONE),
        (ACTIONS, NOTHING),
        (
            SHOW_A,
            r#"{"ok":true,"value":{"ActiveState":"failed","Description":"","Id":"a.service","LoadState":"loaded","MainNumber":0,"Result":"start-limit-hit","SubState":"failed","Warnings":[]}}"#,
        ),
        (
            r#"{"verb":"is-failed","unit":"a"}"#,
            r#"{"ok":true,"value":"failed"}"#,
        ),
        (r#"{"verb":"reset-failed"}"#, DONE),
        (r#"{"verb":"is-failed","unit":"a"}"#, INACTIVE),
        (START_A, DONE),
        (
            ACTIONS,
            r#"{"ok":true,"value":[["spawn",6,["/bin/sleep","9"]]]}"#,
        ),
    ],
};

const A_RESTART_BY_ITSELF_STARTS_THAT_UNIT_ALONE: Script = Script {
    shows: "a restart by itself starts that unit alone",
    steps: &[
        (
            r#"{"verb":"put-file","path":"lib/o.service","text":"[Service]\nType=oneshot\nExecStart=/bin/o\n"}"#,
            DONE,
        ),
        (
            r#"{"verb":"put-file","path":"lib/r.service","text":"[Unit]\nRequires=o.service\nAfter=o.service\n[Service]\nExecStart=/bin/sleep 9\nRestart=always\n"}"#,
            DONE,
        ),
        (RELOAD, DONE),
        (r#"{"verb":"start","unit":"r"}"#, DONE),
        (ACTIONS, r#"{"ok":true,"value":[["spawn",1,["/bin/o"]]]}"#),
        (FIRST_EXITS, DONE),
        (ACTIONS, SPAWNED_SECOND),
        (SECOND_EXITS, DONE),
        (ACTIONS, NOTHING),
        (r#"{"verb":"tick","at":100000}"#, DONE),
        (
            ACTIONS,
            r#"{"ok":true,"value":[["spawn",3,["/bin/sleep","9"]]]}"#,
        ),
        (r#"{"verb":"is-active","unit":"o"}"#, INACTIVE),
        (JOBS, NOTHING),
        (r#"{"verb":"restart","unit":"r"}"#, DONE),
        (ACTIONS, r#"{"ok":true,"value":[["signal",3,"TERM"]]}"#),
        (r#"{"verb":"end","number":3,"signal":15}"#, DONE),
        (ACTIONS, r#"{"ok":true,"value":[["spawn",4,["/bin/o"]]]}"#),
    ],
};

const A_RESTART_IS_NOT_PUT_WHILE_A_JOB_OF_THE_UNIT_IS_PENDING: Script = Script {
    shows: "a restart is not put while a job of the unit is pending",
    steps: &[
        (
            r#"{"verb":"put-file","path":"lib/s.service","text":"[Service]\nExecStart=/bin/s\n"}"#,
            DONE,
        ),
        (
            r#"{"verb":"put-file","path":"lib/a.service","text":"[Unit]\nConflicts=s.service\nAfter=s.service\n[Service]\nExecStart=/bin/sleep 9\nRestart=always\n"}"#,
            DONE,
        ),
        (RELOAD, DONE),
        (START_A, DONE),
        (ACTIONS, SPAWNED_FIRST),
        (FIRST_EXITS, DONE),
        (
            r#"{"verb":"is-active","unit":"a"}"#,
            r#"{"ok":true,"value":"activating"}"#,
        ),
        (STOP_A, DONE),
        (SHOW_A, DEAD_A),
        (r#"{"verb":"tick","at":100000}"#, DONE),
        (ACTIONS, NOTHING),
    ],
};

#[test]
fn scripts_have_their_replies(rt: HostRuntime) {
    play_script(&rt, &A_RESTART_COMES_WITH_THE_TICK_AT_WHICH_IT_IS_DUE);
    play_script(&rt, &RESTARTS_END_AT_THE_LIMIT_OF_STARTS);
    play_script(&rt, &A_RESTART_BY_ITSELF_STARTS_THAT_UNIT_ALONE);
    play_script(
        &rt,
        &A_RESTART_IS_NOT_PUT_WHILE_A_JOB_OF_THE_UNIT_IS_PENDING,
    );
}

/// A service, how its first process ends, and how the service is shown then.
const ENDS: &[(&str, &str, &str)] = &[
    (ON_ABNORMAL, FIRST_FAILS, A_FAILED_BY_CODE),
    (ON_ABNORMAL, ENDS_BY_SIGNAL_9, AWAITS_RESTART_AFTER_SIGNAL),
    (PREVENTED_BY_3, FIRST_FAILS, AWAITS_RESTART),
    (PREVENTED_BY_3, ENDS_WITH_CODE_3, A_FAILED_BY_CODE),
    (FORCED_BY_3, FIRST_FAILS, A_FAILED_BY_CODE),
    (FORCED_BY_3, ENDS_WITH_CODE_3, AWAITS_RESTART),
    (
        PREVENTED_AND_FORCED_BY_3,
        ENDS_WITH_CODE_3,
        A_FAILED_BY_CODE,
    ),
    (WITH_DASH, FIRST_FAILS, DEAD_A),
];

#[test]
fn an_end_is_followed_by_a_restart_where_one_is_wanted(rt: HostRuntime) {
    for (service, end, wanted) in ENDS {
        let steps = [
            (*service, DONE),
            (RELOAD, DONE),
            (START_A, DONE),
            (*end, DONE),
            (SHOW_A, *wanted),
        ];
        play(&rt, service, &steps);
    }
}

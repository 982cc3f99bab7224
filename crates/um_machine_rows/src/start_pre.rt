//! Services with commands of `ExecStartPre=`, as replies show them.
use crate::script::{Script, play_script};
use crate::texts::{
    A_FAILED_BY_CODE, A_RUNS_AS_SECOND, A_TIMED_OUT, ACTIONS, DEAD_A, DONE, FIRST_ENDS,
    FIRST_EXITS, FIRST_FAILS, FIRST_TOLD_TO_END, JOBS, NOTHING, RELOAD, SECOND_EXITS, SHOW_A,
    START_A, STOP_A,
};

/// The start of `a.service` runs.
const STARTS: &str = r#"{"ok":true,"value":[["a.service","start","running"]]}"#;

/// How `a.service` is shown in start-pre.
const A_IS_PREPARED: &str =
    r#"{"ok":true,"value":{"ActiveState":"activating","Description":"","Id":"a.service","LoadState":"loaded","MainNumber":0,"Result":"success","SubState":"start-pre","Warnings":[]}}"#;

/// The reply that `/bin/a` is to be started as the first process.
const SPAWNED_A: &str = r#"{"ok":true,"value":[["spawn",1,["/bin/a"]]]}"#;

// The requests in turn, and their replies.

const A_SERVICE_STARTS_BEHIND_THE_COMMANDS_OF_EXECSTARTPRE_THE_SECOND_OF_WHICH_MAY_FAIL: Script =
    Script {
        shows: "a service starts behind the commands of ExecStartPre=, the second of which may fail",
        steps: &[
            (
                r#"{"verb":"put-file","path":"lib/a.service","text":"[Service]\nExecStart=/bin/sleep 9\nExecStartPre=/bin/a\nExecStartPre=-/bin/b\n"}"#,
                DONE,
            ),
            (RELOAD, DONE),
            (START_A, DONE),
            (ACTIONS, SPAWNED_A),
            (SHOW_A, A_IS_PREPARED),
            (JOBS, STARTS),
            (FIRST_EXITS, DONE),
            (ACTIONS, r#"{"ok":true,"value":[["spawn",2,["/bin/b"]]]}"#),
            (SHOW_A, A_IS_PREPARED),
            (JOBS, STARTS),
            (r#"{"verb":"end","number":2,"code":5}"#, DONE),
            (
                ACTIONS,
                r#"{"ok":true,"value":[["spawn",3,["/bin/sleep","9"]]]}"#,
            ),
            (JOBS, NOTHING),
            (
                SHOW_A,
                r#"{"ok":true,"value":{"ActiveState":"active","Description":"","Id":"a.service","LoadState":"loaded","MainNumber":3,"Result":"success","SubState":"running","Warnings":[]}}"#,
            ),
        ],
    };

const A_SERVICE_WHOSE_FIRST_COMMAND_OF_EXECSTARTPRE_FAILS_DOES_NOT_START: Script = Script {
    shows: "a service whose first command of ExecStartPre= fails doesn't start",
    steps: &[
        (
            r#"{"verb":"put-file","path":"lib/a.service","text":"[Service]\nExecStart=/bin/sleep 9\nExecStartPre=/bin/a\nExecStartPre=-/bin/b\n"}"#,
            DONE,
        ),
        (RELOAD, DONE),
        (START_A, DONE),
        (ACTIONS, SPAWNED_A),
        (FIRST_FAILS, DONE),
        (JOBS, NOTHING),
        (ACTIONS, NOTHING),
        (SHOW_A, A_FAILED_BY_CODE),
    ],
};

const A_STOP_IN_START_PRE_TELLS_THE_COMMAND_TO_END_AND_RUNS_NONE_OF_EXECSTOP: Script = Script {
    shows: "a stop in start-pre tells the command to end and runs none of ExecStop=",
    steps: &[
        (
            r#"{"verb":"put-file","path":"lib/a.service","text":"[Service]\nExecStart=/bin/sleep 9\nExecStartPre=/bin/a\nExecStop=/bin/x\n"}"#,
            DONE,
        ),
        (RELOAD, DONE),
        (START_A, DONE),
        (ACTIONS, SPAWNED_A),
        (STOP_A, DONE),
        (ACTIONS, FIRST_TOLD_TO_END),
        (
            SHOW_A,
            r#"{"ok":true,"value":{"ActiveState":"deactivating","Description":"","Id":"a.service","LoadState":"loaded","MainNumber":0,"Result":"success","SubState":"stop-sigterm","Warnings":[]}}"#,
        ),
        (
            JOBS,
            r#"{"ok":true,"value":[["a.service","stop","running"]]}"#,
        ),
        (FIRST_ENDS, DONE),
        (ACTIONS, NOTHING),
        (JOBS, NOTHING),
        (SHOW_A, DEAD_A),
    ],
};

const THE_TIME_FOR_A_START_IS_THAT_OF_ALL_COMMANDS_OF_EXECSTARTPRE_AND_BEGINS_ANEW_WITH_THAT_OF_EXECSTART: Script =
    Script {
        shows: "the time for a start is that of all commands of ExecStartPre=, and begins anew with that of ExecStart=",
        steps: &[
            (
                r#"{"verb":"put-file","path":"lib/a.service","text":"[Service]\nExecStart=/bin/sleep 9\nType=exec\nTimeoutStartSec=2\nExecStartPre=/bin/a\nExecStartPre=/bin/b\n"}"#,
                DONE,
            ),
            (RELOAD, DONE),
            (START_A, DONE),
            (r#"{"verb":"end","number":1,"code":0,"at":1000000}"#, DONE),
            (r#"{"verb":"tick","at":1999999}"#, DONE),
            (
                ACTIONS,
                r#"{"ok":true,"value":[["spawn",1,["/bin/a"]],["spawn",2,["/bin/b"]]]}"#,
            ),
            (JOBS, STARTS),
            (r#"{"verb":"tick","at":2000000}"#, DONE),
            (ACTIONS, r#"{"ok":true,"value":[["signal",2,"TERM"]]}"#),
            (JOBS, NOTHING),
            (
                SHOW_A,
                r#"{"ok":true,"value":{"ActiveState":"deactivating","Description":"","Id":"a.service","LoadState":"loaded","MainNumber":0,"Result":"timeout","SubState":"stop-sigterm","Warnings":[]}}"#,
            ),
            (r#"{"verb":"end","number":2,"signal":15}"#, DONE),
            (SHOW_A, A_TIMED_OUT),
            (START_A, DONE),
            (r#"{"verb":"end","number":3,"code":0}"#, DONE),
            (r#"{"verb":"end","number":4,"code":0,"at":3000000}"#, DONE),
            (
                ACTIONS,
                r#"{"ok":true,"value":[["spawn",3,["/bin/a"]],["spawn",4,["/bin/b"]],["spawn",5,["/bin/sleep","9"]]]}"#,
            ),
            (r#"{"verb":"tick","at":4999999}"#, DONE),
            (ACTIONS, NOTHING),
            (
                SHOW_A,
                r#"{"ok":true,"value":{"ActiveState":"activating","Description":"","Id":"a.service","LoadState":"loaded","MainNumber":5,"Result":"success","SubState":"start","Warnings":[]}}"#,
            ),
            (r#"{"verb":"tick","at":5000000}"#, DONE),
            (ACTIONS, r#"{"ok":true,"value":[["signal",5,"TERM"]]}"#),
        ],
    };

const AN_EXEC_SERVICE_WITH_A_COMMAND_OF_EXECSTARTPRE_WAITS_FOR_THE_REPORT_OF_ITS_MAIN_PROCESS_ALONE: Script =
    Script {
        shows: "an exec service with a command of ExecStartPre= waits for the report of its main process alone",
        steps: &[
            (
                r#"{"verb":"put-file","path":"lib/a.service","text":"[Service]\nExecStart=/bin/sleep 9\nType=exec\nExecStartPre=/bin/a\n"}"#,
                DONE,
            ),
            (RELOAD, DONE),
            (START_A, DONE),
            (r#"{"verb":"executed","number":1}"#, DONE),
            (SHOW_A, A_IS_PREPARED),
            (FIRST_ENDS, DONE),
            (
                SHOW_A,
                r#"{"ok":true,"value":{"ActiveState":"activating","Description":"","Id":"a.service","LoadState":"loaded","MainNumber":2,"Result":"success","SubState":"start","Warnings":[]}}"#,
            ),
            (JOBS, STARTS),
            (r#"{"verb":"executed","number":2}"#, DONE),
            (JOBS, NOTHING),
            (SHOW_A, A_RUNS_AS_SECOND),
        ],
    };

const A_ONESHOT_RUNS_ITS_COMMANDS_OF_EXECSTARTPRE_ONCE_AND_WITHOUT_A_LIMIT_OF_TIME: Script =
    Script {
        shows: "a oneshot runs its commands of ExecStartPre= once and without a limit of time",
        steps: &[
            (
                r#"{"verb":"put-file","path":"lib/a.service","text":"[Service]\nType=oneshot\nRemainAfterExit=yes\nExecStartPre=/bin/p\nExecStart=/bin/a\nExecStart=/bin/b\n"}"#,
                DONE,
            ),
            (RELOAD, DONE),
            (START_A, DONE),
            (r#"{"verb":"tick","at":1000000000}"#, DONE),
            (
                r#"{"verb":"end","number":1,"code":0,"at":1000000000}"#,
                DONE,
            ),
            (SECOND_EXITS, DONE),
            (r#"{"verb":"end","number":3,"code":0}"#, DONE),
            (
                ACTIONS,
                r#"{"ok":true,"value":[["spawn",1,["/bin/p"]],["spawn",2,["/bin/a"]],["spawn",3,["/bin/b"]]]}"#,
            ),
            (JOBS, NOTHING),
            (
                SHOW_A,
                r#"{"ok":true,"value":{"ActiveState":"active","Description":"","Id":"a.service","LoadState":"loaded","MainNumber":0,"Result":"success","SubState":"exited","Warnings":[]}}"#,
            ),
        ],
    };

const A_ONESHOT_WITHOUT_A_COMMAND_OF_ITS_OWN_HAS_EXITED_BEHIND_THOSE_OF_EXECSTARTPRE: Script =
    Script {
        shows: "a oneshot without a command of its own has exited behind those of ExecStartPre=",
        steps: &[
            (
                r#"{"verb":"put-file","path":"lib/a.service","text":"[Service]\nType=oneshot\nRemainAfterExit=yes\nExecStartPre=/bin/p\nExecStop=/bin/x\n"}"#,
                DONE,
            ),
            (RELOAD, DONE),
            (START_A, DONE),
            (SHOW_A, A_IS_PREPARED),
            (FIRST_EXITS, DONE),
            (ACTIONS, r#"{"ok":true,"value":[["spawn",1,["/bin/p"]]]}"#),
            (JOBS, NOTHING),
            (
                SHOW_A,
                r#"{"ok":true,"value":{"ActiveState":"active","Description":"","Id":"a.service","LoadState":"loaded","MainNumber":0,"Result":"success","SubState":"exited","Warnings":[]}}"#,
            ),
        ],
    };

const A_BOUND_STOP_IN_START_PRE_FAILS_THE_START: Script = Script {
    shows: "a bound stop in start-pre fails the start",
    steps: &[
        (
            r#"{"verb":"put-file","path":"lib/a.service","text":"[Unit]\nBindsTo=b.service\nAfter=b.service\n[Service]\nExecStart=/bin/sleep 9\nExecStartPre=/bin/a\n"}"#,
            DONE,
        ),
        (
            r#"{"verb":"put-file","path":"lib/b.service","text":"[Service]\nExecStart=/bin/sleep 9\n"}"#,
            DONE,
        ),
        (RELOAD, DONE),
        (START_A, DONE),
        (
            ACTIONS,
            r#"{"ok":true,"value":[["spawn",1,["/bin/sleep","9"]],["spawn",2,["/bin/a"]]]}"#,
        ),
        (JOBS, STARTS),
        (FIRST_FAILS, DONE),
        (ACTIONS, r#"{"ok":true,"value":[["signal",2,"TERM"]]}"#),
        (JOBS, NOTHING),
        (
            SHOW_A,
            r#"{"ok":true,"value":{"ActiveState":"deactivating","Description":"","Id":"a.service","LoadState":"loaded","MainNumber":0,"Result":"success","SubState":"stop-sigterm","Warnings":[]}}"#,
        ),
        (r#"{"verb":"end","number":2,"signal":15}"#, DONE),
        (SHOW_A, DEAD_A),
    ],
};

const A_RELOAD_IN_START_PRE_THAT_TAKES_THE_COMMANDS_AWAY_LEAVES_THE_ONE_UNDER_WAY_AS_THE_LAST: Script =
    Script {
        shows: "a reload in start-pre that takes the commands away leaves the one under way as the last",
        steps: &[
            (
                r#"{"verb":"put-file","path":"lib/a.service","text":"[Service]\nExecStart=/bin/sleep 9\nExecStartPre=/bin/a\nExecStartPre=/bin/b\n"}"#,
                DONE,
            ),
            (RELOAD, DONE),
            (START_A, DONE),
            (
                r#"{"verb":"put-file","path":"lib/a.service","text":"[Service]\nExecStart=/bin/sleep 9\nExecStartPre=\nExecStop=/bin/x\n"}"#,
                DONE,
            ),
            (RELOAD, DONE),
            (FIRST_EXITS, DONE),
            (
                ACTIONS,
                r#"{"ok":true,"value":[["spawn",1,["/bin/a"]],["spawn",2,["/bin/sleep","9"]]]}"#,
            ),
            (JOBS, NOTHING),
            (SHOW_A, A_RUNS_AS_SECOND),
        ],
    };

const A_START_FAILS_WHOSE_UNIT_CANNOT_BE_LOADED_BEHIND_ITS_COMMANDS_OF_EXECSTARTPRE: Script =
    Script {
        shows: "a start fails whose unit can't be loaded behind its commands of ExecStartPre=",
        steps: &[
            (
                r#"{"verb":"put-file","path":"lib/a.service","text":"[Service]\nExecStart=/bin/sleep 9\nExecStartPre=/bin/a\nExecStartPre=/bin/b\n"}"#,
                DONE,
            ),
            (RELOAD, DONE),
            (START_A, DONE),
            (
                r#"{"verb":"put-file","path":"lib/a.service","text":"[Service]\nExecStart=/bin/sleep 9\nUser=x\n"}"#,
                DONE,
            ),
            (RELOAD, DONE),
            (FIRST_EXITS, DONE),
            (ACTIONS, SPAWNED_A),
            (JOBS, NOTHING),
            (
                SHOW_A,
                r#"{"ok":true,"value":{"ActiveState":"failed","Description":"","Id":"a.service","LoadState":"bad-setting","MainNumber":0,"Result":"not-loaded","SubState":"failed","Warnings":[]}}"#,
            ),
        ],
    };

const A_START_THAT_BEGINS_IN_START_PRE_GOES_ON_WITH_THE_ONE_UNDER_WAY: Script = Script {
    shows: "a start that begins in start-pre goes on with the one under way",
    steps: &[
        (
            r#"{"verb":"put-file","path":"lib/a.service","text":"[Service]\nExecStart=/bin/sleep 9\nExecStartPre=/bin/a\nRestart=always\n"}"#,
            DONE,
        ),
        (RELOAD, DONE),
        (START_A, DONE),
        (START_A, DONE),
        (JOBS, STARTS),
        (FIRST_EXITS, DONE),
        (SECOND_EXITS, DONE),
        (
            SHOW_A,
            r#"{"ok":true,"value":{"ActiveState":"activating","Description":"","Id":"a.service","LoadState":"loaded","MainNumber":0,"Result":"success","SubState":"auto-restart","Warnings":[]}}"#,
        ),
        (r#"{"verb":"tick","at":100000}"#, DONE),
        (
            ACTIONS,
            r#"{"ok":true,"value":[["spawn",1,["/bin/a"]],["spawn",2,["/bin/sleep","9"]],["spawn",3,["/bin/a"]]]}"#,
        ),
        (SHOW_A, A_IS_PREPARED),
        (JOBS, STARTS),
    ],
};

const AN_EMPTY_EXECSTARTPRE_TAKES_BACK_THOSE_BEFORE_IT_AND_ONE_OUTSIDE_OF_SERVICE_IS_AN_UNKNOWN_KEY: Script =
    Script {
        shows: "an empty ExecStartPre= takes back those before it, and one outside of [Service] is an unknown key",
        steps: &[
            (
                r#"{"verb":"put-file","path":"lib/a.service","text":"[Unit]\nExecStartPre=/bin/u\n[Service]\nExecStart=/bin/sleep 9\nExecStartPre=/bin/a\nExecStartPre=\nExecStartPre=\"/bin/b\nExecStartPre=/bin/c\n"}"#,
                DONE,
            ),
            (RELOAD, DONE),
            (START_A, DONE),
            (ACTIONS, r#"{"ok":true,"value":[["spawn",1,["/bin/c"]]]}"#),
            (
                SHOW_A,
                r#"{"ok":true,"value":{"ActiveState":"activating","Description":"","Id":"a.service","LoadState":"loaded","MainNumber":0,"Result":"success","SubState":"start-pre","Warnings":[[4,"lib/a.service",2],[5,"lib/a.service",7]]}}"#,
            ),
        ],
    };

#[test]
fn scripts_have_their_replies(rt: HostRuntime) {
    play_script(
        &rt,
        &A_SERVICE_STARTS_BEHIND_THE_COMMANDS_OF_EXECSTARTPRE_THE_SECOND_OF_WHICH_MAY_FAIL,
    );
    play_script(
        &rt,
        &A_SERVICE_WHOSE_FIRST_COMMAND_OF_EXECSTARTPRE_FAILS_DOES_NOT_START,
    );
    play_script(
        &rt,
        &A_STOP_IN_START_PRE_TELLS_THE_COMMAND_TO_END_AND_RUNS_NONE_OF_EXECSTOP,
    );
    play_script(
        &rt,
        &THE_TIME_FOR_A_START_IS_THAT_OF_ALL_COMMANDS_OF_EXECSTARTPRE_AND_BEGINS_ANEW_WITH_THAT_OF_EXECSTART,
    );
    play_script(
        &rt,
        &AN_EXEC_SERVICE_WITH_A_COMMAND_OF_EXECSTARTPRE_WAITS_FOR_THE_REPORT_OF_ITS_MAIN_PROCESS_ALONE,
    );
    play_script(
        &rt,
        &A_ONESHOT_RUNS_ITS_COMMANDS_OF_EXECSTARTPRE_ONCE_AND_WITHOUT_A_LIMIT_OF_TIME,
    );
    play_script(
        &rt,
        &A_ONESHOT_WITHOUT_A_COMMAND_OF_ITS_OWN_HAS_EXITED_BEHIND_THOSE_OF_EXECSTARTPRE,
    );
    play_script(&rt, &A_BOUND_STOP_IN_START_PRE_FAILS_THE_START);
    play_script(
        &rt,
        &A_RELOAD_IN_START_PRE_THAT_TAKES_THE_COMMANDS_AWAY_LEAVES_THE_ONE_UNDER_WAY_AS_THE_LAST,
    );
    play_script(
        &rt,
        &A_START_FAILS_WHOSE_UNIT_CANNOT_BE_LOADED_BEHIND_ITS_COMMANDS_OF_EXECSTARTPRE,
    );
    play_script(
        &rt,
        &A_START_THAT_BEGINS_IN_START_PRE_GOES_ON_WITH_THE_ONE_UNDER_WAY,
    );
    play_script(
        &rt,
        &AN_EMPTY_EXECSTARTPRE_TAKES_BACK_THOSE_BEFORE_IT_AND_ONE_OUTSIDE_OF_SERVICE_IS_AN_UNKNOWN_KEY,
    );
}

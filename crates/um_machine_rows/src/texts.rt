//! Requests and replies of several scripts.

/// A request to load the tree.
pub const RELOAD: &str = r#"{"verb":"daemon-reload"}"#;

/// A request for the actions since the last such request.
pub const ACTIONS: &str = r#"{"verb":"actions"}"#;

/// A request for the pending jobs.
pub const JOBS: &str = r#"{"verb":"list-jobs"}"#;

/// A request for the known units.
pub const UNITS: &str = r#"{"verb":"list-units"}"#;

/// A request to put the file of a service that sleeps.
pub const PUT_A: &str =
    r#"{"verb":"put-file","path":"lib/a.service","text":"[Service]\nExecStart=/bin/sleep 9\n"}"#;

/// A start of `a.service`.
pub const START_A: &str = r#"{"verb":"start","unit":"a"}"#;

/// A start of `b.service`.
pub const START_B: &str = r#"{"verb":"start","unit":"b"}"#;

/// A start of `c.service`.
pub const START_C: &str = r#"{"verb":"start","unit":"c"}"#;

/// A start of `s.service`.
pub const START_S: &str = r#"{"verb":"start","unit":"s"}"#;

/// A stop of `a.service`.
pub const STOP_A: &str = r#"{"verb":"stop","unit":"a"}"#;

/// A restart of `a.service`.
pub const RESTART_A: &str = r#"{"verb":"restart","unit":"a"}"#;

/// A request to drop the waiting jobs of `a.service`.
pub const CANCEL_A: &str = r#"{"verb":"cancel","unit":"a"}"#;

/// A request to show `a.service`.
pub const SHOW_A: &str = r#"{"verb":"show","unit":"a"}"#;

/// A request to show `b.service`.
pub const SHOW_B: &str = r#"{"verb":"show","unit":"b"}"#;

/// The end of the first process, by the signal to end.
pub const FIRST_ENDS: &str = r#"{"verb":"end","number":1,"signal":15}"#;

/// The end of the first process, with the code 0.
pub const FIRST_EXITS: &str = r#"{"verb":"end","number":1,"code":0}"#;

/// The end of the first process, with the code 1.
pub const FIRST_FAILS: &str = r#"{"verb":"end","number":1,"code":1}"#;

/// The end of the second process, with the code 0.
pub const SECOND_EXITS: &str = r#"{"verb":"end","number":2,"code":0}"#;

/// The reply to an event that was taken.
pub const DONE: &str = r#"{"ok":true}"#;

/// The reply to a frame that is no request.
pub const BAD_REQUEST: &str = r#"{"detail":[],"error":1,"ok":false}"#;

/// The reply that lists nothing.
pub const NOTHING: &str = r#"{"ok":true,"value":[]}"#;

/// The reply that a unit is inactive.
pub const INACTIVE: &str = r#"{"ok":true,"value":"inactive"}"#;

/// The reply that a unit is active.
pub const ACTIVE: &str = r#"{"ok":true,"value":"active"}"#;

/// The reply that the first process is to be started, and to sleep.
pub const SPAWNED_FIRST: &str = r#"{"ok":true,"value":[["spawn",1,["/bin/sleep","9"]]]}"#;

/// The reply that the second process is to be started, and to sleep.
pub const SPAWNED_SECOND: &str = r#"{"ok":true,"value":[["spawn",2,["/bin/sleep","9"]]]}"#;

/// The reply that the first process is sent the signal to end.
pub const FIRST_TOLD_TO_END: &str = r#"{"ok":true,"value":[["signal",1,"TERM"]]}"#;

/// The reply that the first process is to be killed.
pub const FIRST_KILLED: &str = r#"{"ok":true,"value":[["signal",1,"KILL"]]}"#;

/// The refusal of more known units than there may be.
pub const TOO_MANY_UNITS: &str = r#"{"detail":["units"],"error":13,"ok":false}"#;

/// How `a.service` is shown that doesn't run.
pub const DEAD_A: &str =
    r#"{"ok":true,"value":{"ActiveState":"inactive","Description":"","Id":"a.service","LoadState":"loaded","MainNumber":0,"Result":"success","SubState":"dead","Warnings":[]}}"#;

/// How `a.service` is shown when it is missing.
pub const NO_A: &str =
    r#"{"ok":true,"value":{"ActiveState":"inactive","Description":"","Id":"a.service","LoadState":"not-found","MainNumber":0,"Result":"success","SubState":"dead","Warnings":[]}}"#;

/// How `a.service` is shown that runs as the first process.
pub const A_RUNS_AS_FIRST: &str =
    r#"{"ok":true,"value":{"ActiveState":"active","Description":"","Id":"a.service","LoadState":"loaded","MainNumber":1,"Result":"success","SubState":"running","Warnings":[]}}"#;

/// How `a.service` is shown that runs as the second process.
pub const A_RUNS_AS_SECOND: &str =
    r#"{"ok":true,"value":{"ActiveState":"active","Description":"","Id":"a.service","LoadState":"loaded","MainNumber":2,"Result":"success","SubState":"running","Warnings":[]}}"#;

/// How `a.service` is shown that failed by the code of its process's end.
pub const A_FAILED_BY_CODE: &str =
    r#"{"ok":true,"value":{"ActiveState":"failed","Description":"","Id":"a.service","LoadState":"loaded","MainNumber":0,"Result":"exit-code","SubState":"failed","Warnings":[]}}"#;

/// How `a.service` is shown whose time was out.
pub const A_TIMED_OUT: &str =
    r#"{"ok":true,"value":{"ActiveState":"failed","Description":"","Id":"a.service","LoadState":"loaded","MainNumber":0,"Result":"timeout","SubState":"failed","Warnings":[]}}"#;

/// How `b.service` is shown when a unit that it requires failed.
pub const B_LACKS_ANOTHER: &str =
    r#"{"ok":true,"value":{"ActiveState":"inactive","Description":"","Id":"b.service","LoadState":"loaded","MainNumber":0,"Result":"dependency","SubState":"dead","Warnings":[]}}"#;

//! Plans over several units, as replies show them.
use crate::script::{Script, play_script};
use crate::texts::{
    ACTIONS, ACTIVE, B_LACKS_ANOTHER, CANCEL_A, DONE, FIRST_ENDS, FIRST_TOLD_TO_END, INACTIVE,
    JOBS, NOTHING, PUT_A, RELOAD, RESTART_A, SHOW_B, SPAWNED_FIRST, SPAWNED_SECOND, START_A,
    START_B, START_C, START_S, STOP_A, UNITS,
};
use std::process::Abort;

const START_T: &str = r#"{"verb":"start","unit":"t.target"}"#;

const PUT_B: &str =
    r#"{"verb":"put-file","path":"lib/b.service","text":"[Service]\nExecStart=/bin/sleep 9\n"}"#;

const PUT_S: &str =
    r#"{"verb":"put-file","path":"lib/s.service","text":"[Service]\nExecStart=/bin/sleep 9\n"}"#;

/// Three services, each before the next, and the last before the first.
const A_BEFORE_B: &str =
    r#"{"verb":"put-file","path":"lib/a.service","text":"[Service]\nExecStart=/bin/sleep 9\n[Unit]\nBefore=b.service\n"}"#;

const B_BEFORE_C: &str =
    r#"{"verb":"put-file","path":"lib/b.service","text":"[Service]\nExecStart=/bin/sleep 9\n[Unit]\nBefore=c.service\n"}"#;

const C_BEFORE_A: &str =
    r#"{"verb":"put-file","path":"lib/c.service","text":"[Service]\nExecStart=/bin/sleep 9\n[Unit]\nBefore=a.service\n"}"#;

const PUT_OLD: &str =
    r#"{"verb":"put-file","path":"lib/old.service","text":"[Service]\nExecStart=/bin/sleep 9\n"}"#;

/// A service in conflict with the old one, and before it.
const PUT_NEW: &str =
    r#"{"verb":"put-file","path":"lib/new.service","text":"[Service]\nExecStart=/bin/sleep 9\n[Unit]\nConflicts=old.service\nBefore=old.service\n"}"#;

const START_OLD: &str = r#"{"verb":"start","unit":"old"}"#;

const START_NEW: &str = r#"{"verb":"start","unit":"new"}"#;

const NEW_WAITS_FOR_OLD: &str =
    r#"{"ok":true,"value":[["new.service","start","waiting"],["old.service","stop","running"]]}"#;

/// A service in conflict with s and after it.
const A_AFTER_S: &str =
    r#"{"verb":"put-file","path":"lib/a.service","text":"[Service]\nExecStart=/bin/sleep 9\n[Unit]\nConflicts=s.service\nAfter=s.service\n"}"#;

/// A service after a.
const B_AFTER_A: &str =
    r#"{"verb":"put-file","path":"lib/b.service","text":"[Service]\nExecStart=/bin/sleep 9\n[Unit]\nAfter=a.service\n"}"#;

const T_WANTS_BOTH: &str =
    r#"{"verb":"put-file","path":"lib/t.target","text":"[Unit]\nWants=a.service b.service\n"}"#;

/// A service that requires a and comes after it.
const B_NEEDS_A: &str =
    r#"{"verb":"put-file","path":"lib/b.service","text":"[Service]\nExecStart=/bin/sleep 9\n[Unit]\nRequires=a.service\nAfter=a.service\n"}"#;

/// A service that requires a in no order.
const C_REQUIRES_A: &str =
    r#"{"verb":"put-file","path":"lib/c.service","text":"[Service]\nExecStart=/bin/sleep 9\n[Unit]\nRequires=a.service\n"}"#;

// Orders in a circle.

const UNITS_THAT_ARE_WANTED_IN_A_CIRCLE_OF_ORDERS_ARE_REFUSED: Script = Script {
    shows: "units that are wanted in a circle of orders are refused",
    steps: &[
        (A_BEFORE_B, DONE),
        (B_BEFORE_C, DONE),
        (C_BEFORE_A, DONE),
        (
            r#"{"verb":"put-file","path":"lib/t.target","text":"[Unit]\nWants=a.service b.service c.service\n"}"#,
            DONE,
        ),
        (RELOAD, DONE),
        (
            START_T,
            r#"{"detail":["a.service","b.service","c.service"],"error":9,"ok":false}"#,
        ),
        (JOBS, NOTHING),
    ],
};

const A_UNIT_OF_THE_CIRCLE_THAT_IS_STOPPED_BREAKS_IT: Script = Script {
    shows: "a unit of the circle that is stopped breaks it",
    steps: &[
        (A_BEFORE_B, DONE),
        (B_BEFORE_C, DONE),
        (C_BEFORE_A, DONE),
        (
            r#"{"verb":"put-file","path":"lib/t.target","text":"[Unit]\nConflicts=a.service\nWants=b.service c.service\n"}"#,
            DONE,
        ),
        (RELOAD, DONE),
        (START_A, DONE),
        (ACTIONS, SPAWNED_FIRST),
        (START_T, DONE),
        (ACTIONS, FIRST_TOLD_TO_END),
        (
            JOBS,
            r#"{"ok":true,"value":[["a.service","stop","running"],["b.service","start","waiting"],["c.service","start","waiting"],["t.target","start","waiting"]]}"#,
        ),
        (FIRST_ENDS, DONE),
        (
            ACTIONS,
            r#"{"ok":true,"value":[["spawn",2,["/bin/sleep","9"]],["spawn",3,["/bin/sleep","9"]]]}"#,
        ),
        (JOBS, NOTHING),
    ],
};

const A_TREE_BY_WHICH_PENDING_JOBS_WAIT_IN_A_CIRCLE_IS_NOT_LOADED: Script = Script {
    shows: "a tree by which pending jobs wait in a circle is not loaded",
    steps: &[
        (PUT_S, DONE),
        (A_AFTER_S, DONE),
        (B_AFTER_A, DONE),
        (T_WANTS_BOTH, DONE),
        (RELOAD, DONE),
        (START_S, DONE),
        (START_T, DONE),
        (
            r#"{"verb":"put-file","path":"lib/a.service","text":"[Service]\nExecStart=/bin/sleep 9\n[Unit]\nConflicts=s.service\nAfter=s.service\nAfter=b.service\n"}"#,
            DONE,
        ),
        (
            RELOAD,
            r#"{"detail":["a.service","b.service"],"error":9,"ok":false}"#,
        ),
        (
            r#"{"verb":"cat","unit":"a"}"#,
            r#"{"ok":true,"value":[["lib/a.service","[Service]\nExecStart=/bin/sleep 9\n[Unit]\nConflicts=s.service\nAfter=s.service\nAfter=b.service\n"]]}"#,
        ),
        (
            JOBS,
            r#"{"ok":true,"value":[["a.service","start","waiting"],["b.service","start","waiting"],["s.service","stop","running"],["t.target","start","waiting"]]}"#,
        ),
    ],
};

// Units in conflict.

const A_START_WAITS_FOR_THE_STOP_OF_WHAT_IS_IN_CONFLICT: Script = Script {
    shows: "a start waits for the stop of what is in conflict",
    steps: &[
        (PUT_OLD, DONE),
        (PUT_NEW, DONE),
        (RELOAD, DONE),
        (START_OLD, DONE),
        (ACTIONS, SPAWNED_FIRST),
        (START_NEW, DONE),
        (JOBS, NEW_WAITS_FOR_OLD),
        (ACTIONS, FIRST_TOLD_TO_END),
        (FIRST_ENDS, DONE),
        (r#"{"verb":"is-active","unit":"old"}"#, INACTIVE),
        (ACTIONS, SPAWNED_SECOND),
    ],
};

const A_PLAN_THAT_DROPS_A_JOB_OF_ANOTHER_UNIT_IS_REFUSED_IN_MODE_FAIL: Script = Script {
    shows: "a plan that drops a job of another unit is refused in mode fail",
    steps: &[
        (PUT_OLD, DONE),
        (PUT_NEW, DONE),
        (RELOAD, DONE),
        (START_OLD, DONE),
        (START_NEW, DONE),
        (
            r#"{"verb":"start","unit":"old","mode":"fail"}"#,
            r#"{"detail":["new.service"],"error":10,"ok":false}"#,
        ),
        (JOBS, NEW_WAITS_FOR_OLD),
        (r#"{"verb":"start","unit":"old","mode":"replace"}"#, DONE),
        (
            JOBS,
            r#"{"ok":true,"value":[["old.service","stop","running"],["old.service","start","waiting"]]}"#,
        ),
    ],
};

const WHAT_IS_REQUIRED_AND_IN_CONFLICT_CLASHES: Script = Script {
    shows: "what is required and in conflict clashes",
    steps: &[
        (PUT_B, DONE),
        (
            r#"{"verb":"put-file","path":"lib/a.service","text":"[Service]\nExecStart=/bin/sleep 9\n[Unit]\nRequires=b.service\nConflicts=b.service\n"}"#,
            DONE,
        ),
        (RELOAD, DONE),
        (START_A, r#"{"detail":["a.service"],"error":8,"ok":false}"#),
    ],
};

// The starts and stops that a job takes along.

const A_FAILED_START_TAKES_ALONG_WHAT_NEEDS_IT: Script = Script {
    shows: "a failed start takes along what needs it",
    steps: &[
        (PUT_S, DONE),
        (A_AFTER_S, DONE),
        (B_NEEDS_A, DONE),
        (C_REQUIRES_A, DONE),
        (RELOAD, DONE),
        (START_S, DONE),
        (ACTIONS, SPAWNED_FIRST),
        (START_B, DONE),
        (START_C, DONE),
        (
            ACTIONS,
            r#"{"ok":true,"value":[["signal",1,"TERM"],["spawn",2,["/bin/sleep","9"]]]}"#,
        ),
        (
            r#"{"verb":"put-file","path":"etc/a.service","text":""}"#,
            DONE,
        ),
        (RELOAD, DONE),
        (FIRST_ENDS, DONE),
        (JOBS, NOTHING),
        (ACTIONS, NOTHING),
        (SHOW_B, B_LACKS_ANOTHER),
        (r#"{"verb":"is-active","unit":"c"}"#, ACTIVE),
    ],
};

const A_STOP_AND_A_RESTART_COME_OVER_TO_WHAT_LEANS_ON_THE_UNIT: Script = Script {
    shows: "a stop and a restart come over to what leans on the unit",
    steps: &[
        (PUT_A, DONE),
        (
            r#"{"verb":"put-file","path":"lib/b.service","text":"[Service]\nExecStart=/bin/sleep 9\n[Unit]\nPartOf=a.service\n"}"#,
            DONE,
        ),
        (
            r#"{"verb":"put-file","path":"lib/c.service","text":"[Service]\nExecStart=/bin/sleep 9\n[Unit]\nBindsTo=a.service\n"}"#,
            DONE,
        ),
        (
            r#"{"verb":"put-file","path":"lib/d.service","text":"[Service]\nExecStart=/bin/sleep 9\n[Unit]\nWants=a.service\n"}"#,
            DONE,
        ),
        (RELOAD, DONE),
        (START_A, DONE),
        (START_B, DONE),
        (START_C, DONE),
        (r#"{"verb":"start","unit":"d"}"#, DONE),
        (
            ACTIONS,
            r#"{"ok":true,"value":[["spawn",1,["/bin/sleep","9"]],["spawn",2,["/bin/sleep","9"]],["spawn",3,["/bin/sleep","9"]],["spawn",4,["/bin/sleep","9"]]]}"#,
        ),
        (RESTART_A, DONE),
        (
            JOBS,
            r#"{"ok":true,"value":[["a.service","stop","running"],["a.service","start","waiting"],["b.service","stop","running"],["b.service","start","waiting"],["c.service","stop","running"],["c.service","start","waiting"]]}"#,
        ),
        (STOP_A, DONE),
        (
            JOBS,
            r#"{"ok":true,"value":[["a.service","stop","running"],["b.service","stop","running"],["c.service","stop","running"]]}"#,
        ),
        (r#"{"verb":"is-active","unit":"d"}"#, ACTIVE),
    ],
};

// Units that are pulled in, left or listed.

const WHAT_IS_WANTED_AND_CANNOT_START_IS_LEFT: Script = Script {
    shows: "what is wanted and cannot start is left",
    steps: &[
        (
            r#"{"verb":"put-file","path":"lib/t.target","text":"[Unit]\nWants=a.service\n"}"#,
            DONE,
        ),
        (
            r#"{"verb":"put-file","path":"lib/a.service","text":"[Service]\nExecStart=/bin/sleep 9\n[Unit]\nRequires=gone.service\n"}"#,
            DONE,
        ),
        (RELOAD, DONE),
        (START_T, DONE),
        (r#"{"verb":"is-active","unit":"t.target"}"#, ACTIVE),
        (r#"{"verb":"is-active","unit":"a"}"#, INACTIVE),
        (ACTIONS, NOTHING),
        (
            START_A,
            r#"{"detail":["gone.service"],"error":4,"ok":false}"#,
        ),
    ],
};

const KNOWN_UNITS_ARE_LISTED_BY_NAME: Script = Script {
    shows: "known units are listed by name",
    steps: &[
        (PUT_A, DONE),
        (RELOAD, DONE),
        (START_A, DONE),
        (
            UNITS,
            r#"{"ok":true,"value":[["a.service","active","running"],["shutdown.target","inactive","dead"]]}"#,
        ),
        (
            CANCEL_A,
            r#"{"detail":["a.service"],"error":21,"ok":false}"#,
        ),
    ],
};

const AN_INSTANCE_THAT_NO_ENTRY_NAMES_IS_PULLED_IN: Script = Script {
    shows: "an instance that no entry names is pulled in",
    steps: &[
        (
            r#"{"verb":"put-file","path":"lib/w@.service","text":"[Service]\nExecStart=/bin/sleep %i\n"}"#,
            DONE,
        ),
        (
            r#"{"verb":"put-file","path":"lib/t.target","text":"[Unit]\nWants=w@7.service\n"}"#,
            DONE,
        ),
        (RELOAD, DONE),
        (START_T, DONE),
        (
            ACTIONS,
            r#"{"ok":true,"value":[["spawn",1,["/bin/sleep","7"]]]}"#,
        ),
        (
            r#"{"verb":"put-file","path":"lib/t.target","text":"[Unit]\n"}"#,
            DONE,
        ),
        (RELOAD, DONE),
        (
            UNITS,
            r#"{"ok":true,"value":[["shutdown.target","inactive","dead"],["t.target","active","active"],["w@7.service","active","running"]]}"#,
        ),
    ],
};

/// Scripts of orders in a circle.
fn orders_in_a_circle(rt: &(impl AllocGlobal + Abort)) {
    play_script(rt, &UNITS_THAT_ARE_WANTED_IN_A_CIRCLE_OF_ORDERS_ARE_REFUSED);
    play_script(rt, &A_UNIT_OF_THE_CIRCLE_THAT_IS_STOPPED_BREAKS_IT);
    play_script(
        rt,
        &A_TREE_BY_WHICH_PENDING_JOBS_WAIT_IN_A_CIRCLE_IS_NOT_LOADED,
    );
}

/// Scripts of units in conflict.
fn units_in_conflict(rt: &(impl AllocGlobal + Abort)) {
    play_script(rt, &A_START_WAITS_FOR_THE_STOP_OF_WHAT_IS_IN_CONFLICT);
    play_script(
        rt,
        &A_PLAN_THAT_DROPS_A_JOB_OF_ANOTHER_UNIT_IS_REFUSED_IN_MODE_FAIL,
    );
    play_script(rt, &WHAT_IS_REQUIRED_AND_IN_CONFLICT_CLASHES);
}

/// Scripts of the starts and stops that a job takes along.
fn jobs_along(rt: &(impl AllocGlobal + Abort)) {
    play_script(rt, &A_FAILED_START_TAKES_ALONG_WHAT_NEEDS_IT);
    play_script(
        rt,
        &A_STOP_AND_A_RESTART_COME_OVER_TO_WHAT_LEANS_ON_THE_UNIT,
    );
}

/// Scripts of units that are pulled in, left or listed.
fn units_pulled_in(rt: &(impl AllocGlobal + Abort)) {
    play_script(rt, &WHAT_IS_WANTED_AND_CANNOT_START_IS_LEFT);
    play_script(rt, &KNOWN_UNITS_ARE_LISTED_BY_NAME);
    play_script(rt, &AN_INSTANCE_THAT_NO_ENTRY_NAMES_IS_PULLED_IN);
}

#[test]
fn scripts_have_their_replies(rt: HostRuntime) {
    orders_in_a_circle(&rt);
    units_in_conflict(&rt);
    jobs_along(&rt);
    units_pulled_in(&rt);
}

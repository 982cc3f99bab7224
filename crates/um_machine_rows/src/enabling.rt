//! Enabling, disabling and the like, as replies show them.
use crate::script::{Script, play_script};
use crate::texts::{DONE, RELOAD, START_S};

/// A reply to a verb that changes no link.
const NO_LINKS: &str = r#"{"ok":true,"value":{"made":[],"removed":[]}}"#;

// The requests in turn, and their replies.

const ENABLING_MAKES_LINKS_AND_DISABLING_REMOVES_THOSE_MADE_BY_HAND_TOO: Script = Script {
    shows: "enabling makes links and disabling removes those made by hand too",
    steps: &[
        (
            r#"{"verb":"put-file","path":"lib/s.service","text":"[Service]\nExecStart=/bin/sleep 9\n[Install]\nWantedBy=m.target\nAlias=z.service\n"}"#,
            DONE,
        ),
        (
            r#"{"verb":"is-enabled","unit":"s"}"#,
            r#"{"ok":true,"value":"disabled"}"#,
        ),
        (
            r#"{"verb":"enable","unit":"s"}"#,
            r#"{"ok":true,"value":{"made":["etc/m.target.wants/s.service","etc/z.service"],"removed":[]}}"#,
        ),
        (
            r#"{"verb":"is-enabled","unit":"s"}"#,
            r#"{"ok":true,"value":"enabled"}"#,
        ),
        (
            r#"{"verb":"is-enabled","unit":"z"}"#,
            r#"{"ok":true,"value":"alias"}"#,
        ),
        (
            r#"{"verb":"show","unit":"z"}"#,
            r#"{"ok":true,"value":{"ActiveState":"inactive","Description":"","Id":"s.service","LoadState":"loaded","MainNumber":0,"Result":"success","SubState":"dead","Warnings":[]}}"#,
        ),
        (
            r#"{"verb":"put-link","path":"etc/n.target.wants/s.service","target":"lib/s.service"}"#,
            DONE,
        ),
        (
            r#"{"verb":"disable","unit":"s"}"#,
            r#"{"ok":true,"value":{"made":[],"removed":["etc/m.target.wants/s.service","etc/n.target.wants/s.service","etc/z.service"]}}"#,
        ),
        (r#"{"verb":"disable","unit":"s"}"#, NO_LINKS),
        (
            r#"{"verb":"put-file","path":"etc/s.service","text":"[Service]\nExecStart=/bin/sleep 8\n"}"#,
            DONE,
        ),
        (
            r#"{"verb":"mask","unit":"s"}"#,
            r#"{"detail":["etc/s.service"],"error":11,"ok":false}"#,
        ),
    ],
};

const A_TEMPLATE_IS_ENABLED_AS_ITS_DEFAULT_INSTANCE: Script = Script {
    shows: "a template is enabled as its default instance",
    steps: &[
        (
            r#"{"verb":"put-file","path":"lib/t@.service","text":"[Service]\nExecStart=/bin/sleep 9\n[Install]\nWantedBy=m.target\nDefaultInstance=1\n"}"#,
            DONE,
        ),
        (
            r#"{"verb":"enable","unit":"t@"}"#,
            r#"{"ok":true,"value":{"made":["etc/m.target.wants/t@1.service"],"removed":[]}}"#,
        ),
        (
            r#"{"verb":"put-link","path":"etc/m.target.wants/t@1.service","target":"lib/t@.service"}"#,
            DONE,
        ),
        (
            r#"{"verb":"is-enabled","unit":"t@"}"#,
            r#"{"ok":true,"value":"enabled"}"#,
        ),
        (
            r#"{"verb":"disable","unit":"t@"}"#,
            r#"{"ok":true,"value":{"made":[],"removed":["etc/m.target.wants/t@1.service"]}}"#,
        ),
        (
            r#"{"verb":"put-file","path":"lib/t@.service","text":"[Service]\nExecStart=/bin/sleep 9\n[Install]\nWantedBy=m.target\n"}"#,
            DONE,
        ),
        (
            r#"{"verb":"enable","unit":"t@"}"#,
            r#"{"detail":["t@.service","default-instance"],"error":6,"ok":false}"#,
        ),
    ],
};

const UNITS_OF_ALSO_ARE_ENABLED_ALONG: Script = Script {
    shows: "units of also are enabled along",
    steps: &[
        (
            r#"{"verb":"put-file","path":"lib/a.service","text":"[Service]\nExecStart=/bin/sleep 9\n[Install]\nAlso=b.service\n"}"#,
            DONE,
        ),
        (
            r#"{"verb":"put-file","path":"lib/b.service","text":"[Service]\nExecStart=/bin/sleep 9\n[Install]\nAlso=a.service\nWantedBy=m.target\n"}"#,
            DONE,
        ),
        (
            r#"{"verb":"is-enabled","unit":"a"}"#,
            r#"{"ok":true,"value":"indirect"}"#,
        ),
        (
            r#"{"verb":"is-enabled","unit":"b"}"#,
            r#"{"ok":true,"value":"disabled"}"#,
        ),
        (
            r#"{"verb":"enable","unit":"a"}"#,
            r#"{"ok":true,"value":{"made":["etc/m.target.wants/b.service"],"removed":[]}}"#,
        ),
        (
            r#"{"verb":"is-enabled","unit":"a"}"#,
            r#"{"ok":true,"value":"enabled"}"#,
        ),
        (
            r#"{"verb":"disable","unit":"a"}"#,
            r#"{"ok":true,"value":{"made":[],"removed":["etc/m.target.wants/b.service"]}}"#,
        ),
    ],
};

const A_SECOND_ENABLING_MAKES_NOTHING: Script = Script {
    shows: "a second enabling makes nothing",
    steps: &[
        (
            r#"{"verb":"put-file","path":"lib/s.service","text":"[Service]\nExecStart=/bin/sleep 9\n[Install]\nWantedBy=m.target\nRequiredBy=o.target\n"}"#,
            DONE,
        ),
        (
            r#"{"verb":"enable","unit":"s"}"#,
            r#"{"ok":true,"value":{"made":["etc/m.target.wants/s.service","etc/o.target.requires/s.service"],"removed":[]}}"#,
        ),
        (r#"{"verb":"enable","unit":"s"}"#, NO_LINKS),
        (
            r#"{"verb":"remove","path":"etc/m.target.wants/s.service"}"#,
            DONE,
        ),
        (
            r#"{"verb":"put-link","path":"etc/m.target.wants/s.service","target":"elsewhere"}"#,
            DONE,
        ),
        (
            r#"{"verb":"enable","unit":"s"}"#,
            r#"{"detail":["etc/m.target.wants/s.service"],"error":11,"ok":false}"#,
        ),
    ],
};

const A_REFUSED_ENABLING_MAKES_NOTHING: Script = Script {
    shows: "a refused enabling makes nothing",
    steps: &[
        (
            r#"{"verb":"put-file","path":"lib/s.service","text":"[Service]\nExecStart=/bin/sleep 9\n[Install]\nWantedBy=m.target\nAlias=s.service\n"}"#,
            DONE,
        ),
        (
            r#"{"verb":"enable","unit":"s"}"#,
            r#"{"detail":["etc/s.service"],"error":12,"ok":false}"#,
        ),
        (
            r#"{"verb":"put-file","path":"lib/s.service","text":"[Service]\nExecStart=/bin/sleep 9\n[Install]\nWantedBy=m.target m@.target\n"}"#,
            DONE,
        ),
        (
            r#"{"verb":"enable","unit":"s"}"#,
            r#"{"detail":["etc/m@.target.wants/s.service"],"error":12,"ok":false}"#,
        ),
        (
            r#"{"verb":"remove","path":"etc/m.target.wants/s.service"}"#,
            r#"{"detail":["etc/m.target.wants/s.service"],"error":12,"ok":false}"#,
        ),
        (
            r#"{"verb":"enable","unit":"gone"}"#,
            r#"{"detail":["gone.service"],"error":4,"ok":false}"#,
        ),
    ],
};

const A_MASKED_UNIT_IS_UNMASKED_AGAIN: Script = Script {
    shows: "a masked unit is unmasked again",
    steps: &[
        (
            r#"{"verb":"put-file","path":"lib/s.service","text":"[Service]\nExecStart=/bin/sleep 9\n[Install]\nWantedBy=m.target\n"}"#,
            DONE,
        ),
        (RELOAD, DONE),
        (
            r#"{"verb":"mask","unit":"s"}"#,
            r#"{"ok":true,"value":{"made":["etc/s.service"],"removed":[]}}"#,
        ),
        (r#"{"verb":"mask","unit":"s"}"#, NO_LINKS),
        (
            r#"{"verb":"is-enabled","unit":"s"}"#,
            r#"{"ok":true,"value":"masked"}"#,
        ),
        (
            r#"{"verb":"enable","unit":"s"}"#,
            r#"{"detail":["s.service"],"error":5,"ok":false}"#,
        ),
        (START_S, r#"{"detail":["s.service"],"error":5,"ok":false}"#),
        (
            r#"{"verb":"unmask","unit":"s"}"#,
            r#"{"ok":true,"value":{"made":[],"removed":["etc/s.service"]}}"#,
        ),
        (r#"{"verb":"unmask","unit":"s"}"#, NO_LINKS),
        (START_S, DONE),
        (
            r#"{"verb":"is-enabled","unit":"gone"}"#,
            r#"{"ok":true,"value":"not-found"}"#,
        ),
    ],
};

const OF_SEVERAL_UNITS_THAT_CANNOT_BE_ENABLED_THE_LEAST_IS_NAMED: Script = Script {
    shows: "of several units that cannot be enabled the least is named",
    steps: &[
        (
            r#"{"verb":"put-file","path":"lib/s.service","text":"[Service]\nExecStart=/bin/sleep 9\n[Install]\nWantedBy=m.target\nAlso=z.service y.service\n"}"#,
            DONE,
        ),
        (
            r#"{"verb":"put-link","path":"etc/z.service","target":"/dev/null"}"#,
            DONE,
        ),
        (
            r#"{"verb":"enable","unit":"s"}"#,
            r#"{"detail":["y.service"],"error":4,"ok":false}"#,
        ),
        (
            r#"{"verb":"is-enabled","unit":"s"}"#,
            r#"{"ok":true,"value":"disabled"}"#,
        ),
    ],
};

#[test]
fn scripts_have_their_replies(rt: HostRuntime) {
    play_script(
        &rt,
        &ENABLING_MAKES_LINKS_AND_DISABLING_REMOVES_THOSE_MADE_BY_HAND_TOO,
    );
    play_script(&rt, &A_TEMPLATE_IS_ENABLED_AS_ITS_DEFAULT_INSTANCE);
    play_script(&rt, &UNITS_OF_ALSO_ARE_ENABLED_ALONG);
    play_script(&rt, &A_SECOND_ENABLING_MAKES_NOTHING);
    play_script(&rt, &A_REFUSED_ENABLING_MAKES_NOTHING);
    play_script(&rt, &A_MASKED_UNIT_IS_UNMASKED_AGAIN);
    play_script(
        &rt,
        &OF_SEVERAL_UNITS_THAT_CANNOT_BE_ENABLED_THE_LEAST_IS_NAMED,
    );
}

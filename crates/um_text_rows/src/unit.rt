//! Units by their files: settings, warnings, and why they can't be loaded.
use crate::answers::{Wanted, commands_of, list, put, variables_of};
use std::process::Abort;
use um_asserts::{same_at, unit};
use um_model::{End, Profile, RestartPolicy, Span, UnitKind};
use um_tree::{Entry, Tree};
use um_unit::{
    FileWarnings, InstallSettings, LoadedUnit, Loading, Reading, ServiceSettings, Warning, load,
};
use um_value::ExitSet;
use um_words::Command;

/// A tree of these files.
fn tree_with(rt: &(impl AllocGlobal + Abort), files: &[(&str, &str)]) -> Tree {
    let mut tree = Tree::new(rt.alloc());
    for (path, text) in files {
        put(&mut tree, path, Entry::File(text)).expect(rt, "not put");
    }
    tree
}

/// The loading of a unit in a tree of these files that is read by the profile. It is boxed because it is large: the prover takes it apart,
/// field by field, wherever it is dropped.
fn loaded_by(
    rt: &(impl AllocGlobal + Abort),
    profile: Profile,
    name: &str,
    files: &[(&str, &str)],
) -> Box<Loading> {
    let tree = tree_with(rt, files);
    let reading = Reading {
        tree: &tree,
        profile,
    };
    let loading = load(rt.alloc(), reading, &unit!(rt, name)).expect(rt, "no memory");
    Box::new(rt.alloc(), loading).expect(rt, "no memory")
}

/// The loading of a unit in a tree of these files, as they are read now.
fn loaded(rt: &(impl AllocGlobal + Abort), name: &str, files: &[(&str, &str)]) -> Box<Loading> {
    loaded_by(rt, Profile::current(), name, files)
}

/// The loading of `a.service` with this text.
fn service_of(rt: &(impl AllocGlobal + Abort), text: &str) -> Box<Loading> {
    loaded(rt, "a.service", &[("etc/a.service", text)])
}

/// The unit that was found.
fn found<'l>(rt: &impl Abort, loading: &'l Loading) -> &'l LoadedUnit {
    match loading {
        Loading::Found(unit) => unit,
        _ => panic!(rt; "the unit is not found"),
    }
}

/// The warnings of a file: its path, and of each its number and its line.
type WarnedIn = (&'static str, &'static [(u64, usize)]);

/// A unit, its files, and the warnings of those that have some.
struct Warned {
    name: &'static str,
    files: &'static [(&'static str, &'static str)],
    warnings: &'static [WarnedIn],
}

/// A service with words that are quoted and variables.
const ECHO: &str =
    "[Service]\nEnvironment=\"X=p  q\"\nExecStart=-/bin/echo \"a b\" $X ${X}c $$ \\x41\n";

/// A target with a line of each kind that gives a warning.
const ILL_TARGET: &str =
    "Description=x\n[Unit]\nfoo\nFrob=1\nDefaultDependencies=maybe\nDescription=%z\n[Zed]\na=b\n";

/// A unit with specifiers in its settings.
const SPECIFIERS: &str =
    "[Unit]\nDescription=%p %i %I %j %%\nAfter=db@%i.service cache.service %z x\nAfter=\"%N.target\"\nAfter=\n[Service]\nExecStart=run-%p %I\n[Install]\nAlias=a.target b@%i.service c\nWantedBy=x.target\nWantedBy=\nWantedBy=y.target\nDefaultInstance=z\nDefaultInstance=/\n";

/// A service with restarts and exits.
const RESTARTS: &str =
    "[Unit]\nStartLimitBurst=7\n[Service]\nExecStart=a\nRestart=on-abort\nRestart=often\nSuccessExitStatus=1\nSuccessExitStatus=\nSuccessExitStatus=2 SIGKILL\nSuccessExitStatus=3 x\nSuccessExitStatus=4\nStartLimitInterval=infinity\n";

const WARNED: &[Warned] = &[
    Warned {
        name: "a.service",
        files: &[("etc/a.service", ECHO)],
        warnings: &[],
    },
    // a span that can't be read
    Warned {
        name: "a.service",
        files: &[("etc/a.service", "[Service]\nExecStart=a\nRestartSec=1.5s\n")],
        warnings: &[("etc/a.service", &[(5, 3)])],
    },
    Warned {
        name: "w.target",
        files: &[("lib/w.target", ILL_TARGET)],
        warnings: &[(
            "lib/w.target",
            &[(1, 1), (2, 3), (4, 4), (5, 5), (6, 6), (3, 7)],
        )],
    },
    // a foreign section or key gives no warning
    Warned {
        name: "w.target",
        files: &[(
            "lib/w.target",
            "X-a=b\n[X-Zed]\na=b\n[Unit]\nX-Frob=1\nDocumentation=%z\n[Service]\nExecStart=a\n",
        )],
        warnings: &[("lib/w.target", &[(1, 1), (3, 7)])],
    },
    Warned {
        name: "app@x-y.service",
        files: &[("etc/app@x-y.service", SPECIFIERS)],
        warnings: &[("etc/app@x-y.service", &[(6, 3), (5, 9), (5, 14)])],
    },
    Warned {
        name: "a.service",
        files: &[("etc/a.service", RESTARTS)],
        warnings: &[("etc/a.service", &[(5, 6), (5, 10)])],
    },
    // drop-ins by their names; one without a warning isn't listed
    Warned {
        name: "w.target",
        files: &[
            ("etc/w.target.d/b.conf", "[Unit]\nDescription=x\n"),
            ("etc/w.target.d/c.conf", "a\n[Unit]\nb\n"),
            ("lib/w.target", "a=b\n"),
            ("lib/w.target.d/a.conf", "[Zed]\na\n"),
        ],
        warnings: &[
            ("lib/w.target", &[(1, 1)]),
            ("lib/w.target.d/a.conf", &[(3, 1)]),
            ("etc/w.target.d/c.conf", &[(2, 1), (2, 3)]),
        ],
    },
];

/// Asserts that these are the warnings.
fn warns(rt: &impl Abort, warnings: &[Warning], wanted: &[(u64, usize)], name: &str) {
    same_at!(rt, warnings.len(), wanted.len(), name);
    for (warning, wanted) in warnings.iter().zip(wanted) {
        let told = (warning.kind.number(), warning.line);
        same_at!(rt, told, *wanted, name);
    }
}

/// Asserts that these are the warnings of the row, by file.
fn warns_by_file(rt: &impl Abort, files: &[FileWarnings], row: &Warned) {
    same_at!(rt, files.len(), row.warnings.len(), row.name);
    for (file, wanted) in files.iter().zip(row.warnings) {
        same_at!(rt, file.path.as_str(), wanted.0, row.name);
        warns(rt, &file.warnings, wanted.1, row.name);
    }
}

#[test]
fn each_line_is_warned_of_by_its_kind(rt: HostRuntime) {
    for row in WARNED {
        let loading = loaded(&rt, row.name, row.files);
        let unit = found(&rt, loading.as_ref());
        warns_by_file(&rt, unit.warnings.as_slice(), row);
    }
}

/// A unit, its files, and the commands of its service.
struct Commanded {
    name: &'static str,
    files: &'static [(&'static str, &'static str)],
    start: &'static [Wanted],
    stop: &'static [Wanted],
}

/// A service of one shot, with three commands for its start and one for its stop.
const ONE_SHOT: &str = "[Service]\nType=oneshot\nExecStart=a\nExecStart=b ; c\nExecStop=d\n";

const CLEARED: (&str, &str) = (
    "etc/a.service.d/x.conf",
    "[Service]\nExecStart=\nExecStart=e\nTimeoutStartSec=7\n",
);

const COMMANDED: &[Commanded] = &[
    Commanded {
        name: "a.service",
        files: &[("etc/a.service", ECHO)],
        start: &[Wanted::Ignoring(&["/bin/echo", "a b", "$X", "${X}c", "$$", "A"])],
        stop: &[],
    },
    Commanded {
        name: "a.service",
        files: &[("etc/a.service", ONE_SHOT)],
        start: &[
            Wanted::Plain(&["a"]),
            Wanted::Plain(&["b"]),
            Wanted::Plain(&["c"]),
        ],
        stop: &[Wanted::Plain(&["d"])],
    },
    // an empty value in a drop-in clears the commands
    Commanded {
        name: "a.service",
        files: &[("etc/a.service", ONE_SHOT), CLEARED],
        start: &[Wanted::Plain(&["e"])],
        stop: &[Wanted::Plain(&["d"])],
    },
    // of drop-ins of a name, that of the earlier layer is read alone
    Commanded {
        name: "o.service",
        files: &[
            (
                "lib/o.service",
                "[Service]\nType=oneshot\nExecStart=/bin/a\nExecStart=/bin/b\n",
            ),
            ("lib/o.service.d/10.conf", "[Service]\nExecStart=/bin/l\n"),
            (
                "etc/o.service.d/10.conf",
                "[Service]\nExecStart=\nExecStart=/bin/c\n",
            ),
        ],
        start: &[Wanted::Plain(&["/bin/c"])],
        stop: &[],
    },
    Commanded {
        name: "app@x-y.service",
        files: &[("etc/app@x-y.service", SPECIFIERS)],
        start: &[Wanted::Plain(&["run-app", "x/y"])],
        stop: &[],
    },
];

/// Asserts that these are the wanted commands.
fn runs(rt: &(impl AllocGlobal + Abort), commands: &[Command], wanted: &[Wanted], name: &str) {
    let wanted = commands_of(rt, wanted);
    same_at!(rt, commands, wanted.as_slice(), name);
}

/// Asserts that the service has the commands of the row.
fn has_commands(rt: &(impl AllocGlobal + Abort), service: &ServiceSettings, row: &Commanded) {
    runs(rt, &service.start, row.start, row.name);
    runs(rt, &service.stop, row.stop, row.name);
}

#[test]
fn the_commands_of_a_service_are_kept(rt: HostRuntime) {
    for row in COMMANDED {
        let loading = loaded(&rt, row.name, row.files);
        let unit = found(&rt, loading.as_ref());
        has_commands(&rt, &unit.settings.service, row);
    }
}

#[test]
fn the_environment_of_a_service_is_kept(rt: HostRuntime) {
    let loading = service_of(&rt, ECHO);
    let unit = found(&rt, loading.as_ref());
    let wanted = variables_of(&rt, &[("X", "p  q")]);
    let environment = unit.settings.service.environment.as_slice();
    same_at!(&rt, environment, wanted.as_slice(), "a.service");
}

/// A unit, its files, and the plain settings of its service; each span in microseconds, where there is one.
struct Kept {
    name: &'static str,
    files: &'static [(&'static str, &'static str)],
    kind: UnitKind,
    restart: RestartPolicy,
    burst: u32,
    interval: Option<u32>,
    delay: Option<u32>,
    start: Option<u32>,
    stop: Option<u32>,
}

const KEPT: &[Kept] = &[
    Kept {
        name: "a.service",
        files: &[("etc/a.service", ECHO)],
        kind: UnitKind::Simple,
        restart: RestartPolicy::No,
        burst: 5,
        interval: Some(10_000_000),
        delay: Some(100_000),
        start: Some(90_000_000),
        stop: Some(90_000_000),
    },
    Kept {
        name: "a.service",
        files: &[(
            "etc/a.service",
            "[Service]\nExecStart=a\nRestartSec=1min 200ms\nTimeoutStartSec=0\nTimeoutSec=infinity\nTimeoutStopSec=5\n",
        )],
        kind: UnitKind::Simple,
        restart: RestartPolicy::No,
        burst: 5,
        interval: Some(10_000_000),
        delay: Some(60_200_000),
        start: None,
        stop: Some(5_000_000),
    },
    // a span that can't be read leaves the one before
    Kept {
        name: "a.service",
        files: &[("etc/a.service", "[Service]\nExecStart=a\nRestartSec=1.5s\n")],
        kind: UnitKind::Simple,
        restart: RestartPolicy::No,
        burst: 5,
        interval: Some(10_000_000),
        delay: Some(100_000),
        start: Some(90_000_000),
        stop: Some(90_000_000),
    },
    Kept {
        name: "a.service",
        files: &[("etc/a.service", ONE_SHOT)],
        kind: UnitKind::Oneshot,
        restart: RestartPolicy::No,
        burst: 5,
        interval: Some(10_000_000),
        delay: Some(100_000),
        start: None,
        stop: Some(90_000_000),
    },
    Kept {
        name: "a.service",
        files: &[("etc/a.service", ONE_SHOT), CLEARED],
        kind: UnitKind::Oneshot,
        restart: RestartPolicy::No,
        burst: 5,
        interval: Some(10_000_000),
        delay: Some(100_000),
        start: Some(7_000_000),
        stop: Some(90_000_000),
    },
    Kept {
        name: "a.service",
        files: &[("etc/a.service", RESTARTS)],
        kind: UnitKind::Simple,
        restart: RestartPolicy::OnAbort,
        burst: 7,
        interval: None,
        delay: Some(100_000),
        start: Some(90_000_000),
        stop: Some(90_000_000),
    },
];

/// A span of this number of microseconds.
fn micros(count: Option<u32>) -> Option<Span> {
    Some(Span::from_micros(count?))
}

/// Asserts that the service has the plain settings of the row.
fn keeps(rt: &impl Abort, service: &ServiceSettings, row: &Kept) {
    let got = (service.kind, service.restart, service.limit_burst);
    same_at!(rt, got, (row.kind, row.restart, row.burst), row.files);
    let spans = [service.limit_interval, service.restart_delay];
    let wanted = [micros(row.interval), micros(row.delay)];
    same_at!(rt, &spans, &wanted, row.files);
    let spans = [service.timeout_start, service.timeout_stop];
    let wanted = [micros(row.start), micros(row.stop)];
    same_at!(rt, &spans, &wanted, row.files);
}

#[test]
fn the_plain_settings_of_a_service_are_kept(rt: HostRuntime) {
    for row in KEPT {
        let loading = loaded(&rt, row.name, row.files);
        let unit = found(&rt, loading.as_ref());
        keeps(&rt, &unit.settings.service, row);
    }
}

/// A unit, its files, and their settings beside those of its service.
struct Told {
    name: &'static str,
    files: &'static [(&'static str, &'static str)],
    path: Option<&'static str>,
    description: &'static str,
    after: &'static [&'static str],
    alias: &'static [&'static str],
    wanted_by: &'static [&'static str],
    default_instance: Option<&'static str>,
}

const TOLD: &[Told] = &[
    Told {
        name: "w.target",
        files: &[("lib/w.target", ILL_TARGET)],
        path: Some("lib/w.target"),
        description: "",
        after: &[],
        alias: &[],
        wanted_by: &[],
        default_instance: None,
    },
    // an empty value in a drop-in clears no dependencies
    Told {
        name: "u.target",
        files: &[
            ("lib/u.target", "[Unit]\nAfter=a.service\n"),
            (
                "etc/u.target.d/10.conf",
                "[Unit]\nAfter=\nAfter=b.service\n",
            ),
        ],
        path: Some("lib/u.target"),
        description: "",
        after: &["a.service", "b.service"],
        alias: &[],
        wanted_by: &[],
        default_instance: None,
    },
    // specifiers stand for parts of the unit's name
    Told {
        name: "app@x-y.service",
        files: &[("etc/app@x-y.service", SPECIFIERS)],
        path: Some("etc/app@x-y.service"),
        description: "app x-y x/y app %",
        after: &["db@x-y.service", "cache.service", "app@x-y.target"],
        alias: &["b@x-y.service"],
        wanted_by: &["y.target"],
        default_instance: Some("z"),
    },
    // a unit without a file has its drop-ins alone
    Told {
        name: "shutdown.target",
        files: &[(
            "etc/shutdown.target.d/x.conf",
            "[Unit]\nUser=x\nDescription=y\n[Install]\nWantedBy=z.target\n",
        )],
        path: None,
        description: "y",
        after: &[],
        alias: &[],
        wanted_by: &[],
        default_instance: None,
    },
];

/// Asserts that the texts are these.
fn names(rt: &(impl AllocGlobal + Abort), texts: &[String], wanted: &[&str], row: &str) {
    let list = list(rt, wanted);
    same_at!(rt, texts, list.as_slice(), row);
}

/// Asserts that enabling makes the links of the row.
fn installs(rt: &(impl AllocGlobal + Abort), install: &InstallSettings, row: &Told) {
    names(rt, &install.alias, row.alias, row.name);
    names(rt, &install.wanted_by, row.wanted_by, row.name);
    let instance = install.default_instance.as_deref();
    same_at!(rt, instance, row.default_instance, row.name);
}

/// Asserts that the unit has the settings of the row.
fn tells(rt: &(impl AllocGlobal + Abort), unit: &LoadedUnit, row: &Told) {
    let settings = &unit.settings;
    let got = (unit.path.as_deref(), settings.description.as_str());
    same_at!(rt, got, (row.path, row.description), row.name);
    names(rt, &settings.dependencies.after, row.after, row.name);
    installs(rt, &settings.install, row);
}

#[test]
fn what_a_unit_tells_beside_its_service_is_kept(rt: HostRuntime) {
    for row in TOLD {
        let loading = loaded(&rt, row.name, row.files);
        tells(&rt, found(&rt, loading.as_ref()), row);
    }
}

#[test]
fn a_target_that_tells_no_truth_value_has_default_dependencies(rt: HostRuntime) {
    let loading = loaded(&rt, "w.target", &[("lib/w.target", ILL_TARGET)]);
    let unit = found(&rt, loading.as_ref());
    let defaults = unit.settings.dependencies.default_dependencies;
    let got = (defaults, unit.settings.service.kind);
    same_at!(&rt, got, (true, UnitKind::Target), "w.target");
}

/// Why the service can't be loaded; None if it can.
fn reason<'l>(rt: &impl Abort, loading: &'l Loading) -> Option<&'l str> {
    match loading {
        Loading::BadSetting { reason, .. } => Some(reason.as_str()),
        Loading::Found(_) => None,
        _ => panic!(rt; "the unit is not found"),
    }
}

/// A service with two commands that run before its own; an empty value took back those before them.
const PREPARED: &str =
    "[Service]\nExecStart=/bin/sleep 9\nExecStartPre=/bin/z\nExecStartPre=\nExecStartPre=/bin/a\nExecStartPre=-/bin/b\n";

/// The first words of the commands, and whether each may fail.
fn are_commands(rt: &impl Abort, commands: &[Command], wanted: &[(&str, bool)]) {
    same_at!(rt, commands.len(), wanted.len(), "commands");
    for (command, (word, ignores_failure)) in commands.iter().zip(wanted) {
        same_at!(rt, command.ignores_failure, *ignores_failure, word);
        same_at!(
            rt,
            command.words.first().map(|w| w.as_str()),
            Some(*word),
            word
        );
    }
}

#[test]
fn commands_before_the_start_are_read_by_profile_2_alone(rt: HostRuntime) {
    let files = [("lib/p.service", PREPARED)];
    let loading = loaded_by(&rt, Profile::One, "p.service", &files);
    let why = reason(&rt, loading.as_ref());
    same_at!(&rt, why, Some("setting ExecStartPre"), "profile 1");
    let loading = loaded_by(&rt, Profile::Two, "p.service", &files);
    let unit = found(&rt, loading.as_ref());
    let commands = unit.settings.service.start_pre.as_slice();
    are_commands(&rt, commands, &[("/bin/a", false), ("/bin/b", true)]);
}

/// Services, and why each can't be loaded; None if it can.
const REASONS: &[(&str, Option<&str>)] = &[
    (
        "[Service]\nExecStart=a\nUser=x\nUser=\nExecStartPre=b\n",
        Some("setting User"),
    ),
    (
        "[Unit]\nConditionHost=\nAssertHost=x\n[Service]\nType=idle\n",
        Some("setting AssertHost"),
    ),
    (
        "[Service]\nType=forking\nExecStart=a\nRestart=always\n",
        Some("type"),
    ),
    (
        "[Service]\nType=forking\nType=simple\nType=other\nExecStart=a\n",
        None,
    ),
    ("[Service]\nExecStart=a\nExecStart=b\n", Some("exec-count")),
    ("[Service]\nExecStart=bin/a\n", Some("exec-count")),
    ("[Unit]\nDescription=a\n", Some("exec-count")),
    ("[Service]\nRemainAfterExit=yes\nExecStop=a\n", None),
    (
        "[Service]\nType=simple\nRemainAfterExit=yes\nExecStop=a\n",
        Some("exec-count"),
    ),
    (
        "[Service]\nType=oneshot\nExecStart=a\nRestart=always\n",
        Some("restart"),
    ),
    (
        "[Service]\nType=oneshot\nExecStart=a\nRestart=on-failure\n",
        None,
    ),
    ("[Service]\nUser=\nExecStart=a\n", None),
];

#[test]
fn the_first_reason_counts(rt: HostRuntime) {
    for (text, wanted) in REASONS {
        let loading = service_of(&rt, text);
        same_at!(&rt, reason(&rt, loading.as_ref()), *wanted, text);
    }
}

/// Ends, and whether the service takes each as success.
const ENDS: &[(End, bool)] = &[
    (End::Code(1), false),
    (End::Code(2), true),
    (End::Signal(9), true),
    (End::Code(3), false),
    (End::Code(4), true),
];

/// Asserts that exactly these ends are taken as success, and none as a reason to restart.
fn takes_ends(rt: &impl Abort, success: &ExitSet, forces_restart: &ExitSet) {
    for (end, wanted) in ENDS {
        let held = (success.holds(*end), forces_restart.holds(*end));
        same_at!(rt, held, (*wanted, false), end);
    }
}

#[test]
fn exits_are_read(rt: HostRuntime) {
    let loading = service_of(&rt, RESTARTS);
    let service = &found(&rt, loading.as_ref()).settings.service;
    takes_ends(&rt, &service.success, &service.forces_restart);
}

/// The name of the unit that is masked; None if it isn't.
fn masked(loading: &Loading) -> Option<&str> {
    match loading {
        Loading::Masked { unit } => Some(unit.as_str()),
        _ => None,
    }
}

#[test]
fn a_unit_is_masked_by_an_empty_file_and_not_found_without_one(rt: HostRuntime) {
    let empty = service_of(&rt, "");
    same_at!(
        &rt,
        masked(empty.as_ref()),
        Some("a.service"),
        "an empty file",
    );
    let lost = loaded(&rt, "a.service", &[]);
    assert!(rt;
        matches!(lost.as_ref(), Loading::NotFound),
        "a unit is found without a file"
    );
}

//! The meaning of a command line's words.
use std::process::Abort;
use um_asserts::{same, same_at, text};
use um_line::{Line, a_runner_s_words_are_run, read_line};

/// The words of the text, the first of which is the program's name.
fn words_of(rt: &(impl AllocGlobal + Abort), line: &str) -> Vec<String> {
    let mut words = Vec::new(rt.alloc());
    for word in line.split(' ') {
        words.push(text!(rt, word)).expect(rt, "no memory");
    }
    words
}

/// The kind of the line, and its text if it only prints one.
fn asked<'a>(line: &'a Line<'_>) -> (&'static str, &'a str) {
    match line {
        Line::Memory => ("memory", ""),
        Line::Run(_) => ("run", ""),
        Line::Check(_) => ("check", ""),
        Line::Ctl(_) => ("ctl", ""),
        Line::Serve(_) => ("serve", ""),
        Line::Logs(_) => ("logs", ""),
        Line::Status(_) => ("status", ""),
        Line::Verify(_) => ("verify", ""),
        Line::Topic(_) => ("topic", ""),
        Line::Told(told) => ("to be told", told.as_str()),
        Line::Wrong(told) => ("wrong", told.as_str()),
        Line::Help(1) => ("E1", ""),
        Line::Help(9) => ("E9", ""),
        Line::Help(22) => ("E22", ""),
        _ => ("another", ""),
    }
}

/// Words, the kind of their line, and a part of its text.
type Row = (&'static str, &'static str, &'static str);

/// Words that only print something, and a part of it.
const TOLD: &[Row] = &[
    ("umd --help", "to be told", "--memory"),
    ("umd -h", "to be told", "--version"),
    ("umd --version", "to be told", "umd 0.1.0"),
    ("umd run --help", "to be told", "--number 7"),
    ("umd ctl --help", "to be told", "\n  reset-failed [unit]\n"),
    (
        "umd check --help",
        "to be told",
        "umd check /var/lib/umd/store",
    ),
    ("umd help", "to be told", "umd help E9"),
    ("umd help --help", "to be told", "umd help E9"),
];

/// Words for a check of a file.
const CHECKS: &[Row] = &[
    ("umd check f", "check", ""),
    ("umd check --units f", "check", ""),
    ("umd check f --units", "check", ""),
    ("umd check", "wrong", "umd check"),
    ("umd check --units", "wrong", "umd check"),
    ("umd check f f", "wrong", ""),
    ("umd check --units --units f", "wrong", ""),
];

/// Words to a manager, and of one.
const MANAGERS: &[Row] = &[
    ("umd ctl --socket s list-units", "ctl", ""),
    ("umd ctl --socket s --retry 1 list-units", "ctl", ""),
    ("umd ctl list-units --timeout=86400 --socket=s", "ctl", ""),
    (
        "umd ctl --socket s --retry 0 list-units",
        "wrong",
        "1 to 86400",
    ),
    (
        "umd ctl --socket s --retry 86401 list-units",
        "wrong",
        "1 to 86400",
    ),
    (
        "umd ctl --socket s --timeout 01 show a",
        "wrong",
        "1 to 86400",
    ),
    (
        "umd ctl --socket s --timeout 1s show a",
        "wrong",
        "1 to 86400",
    ),
    ("umd ctl --socket s --retry 1 --retry 1 show a", "wrong", ""),
    ("umd ctl --retry 1 show a", "ctl", ""),
    ("umd ctl --wait start a", "ctl", ""),
    ("umd ctl start a --wait --socket s", "ctl", ""),
    ("umd ctl --wait --wait start a", "wrong", ""),
    ("umd ctl --wait=1 start a", "wrong", ""),
    ("umd ctl --socket s", "wrong", ""),
    ("umd status", "status", ""),
    ("umd status a b", "status", ""),
    (
        "umd status --socket s --dir d a --output o --retry 1 --timeout 86400",
        "status",
        "",
    ),
    ("umd status --timeout 0", "wrong", "1 to 86400"),
    ("umd status --retry x a", "wrong", "1 to 86400"),
    ("umd status --dir d --dir d", "wrong", ""),
    ("umd status --wait", "wrong", ""),
    ("umd verify f", "verify", ""),
    ("umd verify f g/ h", "verify", ""),
    ("umd verify", "wrong", "umd verify"),
    ("umd verify --units f", "wrong", ""),
    (
        "umd serve --boot b --socket s --dir d --runner r f",
        "serve",
        "",
    ),
    (
        "umd serve --boot b --socket s --dir d --runner r --start u f",
        "serve",
        "",
    ),
    (
        "umd serve --boot b --socket s --dir d --runner r --start f",
        "wrong",
        "--start <UNIT>",
    ),
];

/// Words about output.
const OUTPUTS: &[Row] = &[
    ("umd logs x", "logs", ""),
    ("umd logs x -f --raw -n 0 --output o", "logs", ""),
    ("umd logs -n1000000 x", "logs", ""),
    ("umd logs -n 1000001 x", "wrong", "0 to 1000000"),
    ("umd logs -n 01 x", "wrong", "0 to 1000000"),
    ("umd logs", "wrong", "<UNIT>"),
    ("umd logs x y", "wrong", ""),
    ("umd logs -f -f x", "wrong", ""),
    (
        "umd serve --boot b --socket s --dir d --runner r --output o --output-size 4096 f",
        "serve",
        "",
    ),
    (
        "umd serve --boot b --socket s --dir d --runner r --output o --output-size 4095 f",
        "wrong",
        "4096 to 16777216",
    ),
    (
        "umd serve --boot b --socket s --dir d --runner r --output-size 16777217 f",
        "wrong",
        "4096 to 16777216",
    ),
];

/// Words about the help for a refusal.
const HELPS: &[Row] = &[
    ("umd help E1", "E1", ""),
    ("umd help E9", "E9", ""),
    ("umd help E22", "E22", ""),
    ("umd help E0", "wrong", ""),
    ("umd help E23", "wrong", ""),
    ("umd help E09", "wrong", ""),
    ("umd help e9", "E9", ""),
    ("umd help e22", "E22", ""),
    ("umd help e09", "wrong", ""),
    ("umd help e23", "wrong", ""),
    ("umd help setting", "topic", ""),
    ("umd help exec-count", "topic", ""),
    ("umd help default-instance", "topic", ""),
    ("umd help start-limit-hit", "topic", ""),
    ("umd help Setting", "wrong", ""),
    ("umd help setting type", "wrong", ""),
    ("umd help serve", "to be told", "umd serve --boot"),
    ("umd help run", "to be told", "--number 7"),
    ("umd help help", "to be told", "umd help E9"),
    ("umd help memory", "wrong", ""),
    ("umd help 9", "wrong", ""),
    ("umd help E", "wrong", ""),
    ("umd help E9 E9", "wrong", ""),
];

/// Words about a runner.
const RUNS: &[Row] = &[
    ("umd run", "wrong", ""),
    ("umd run --number 7 --dir d --env 0 -- x", "wrong", ""),
    ("umd run --dir d --number 0 --env 0 -- x", "wrong", ""),
    ("umd run --dir d --number 07 --env 0 -- x", "wrong", ""),
    ("umd run --dir d --number +7 --env 0 -- x", "wrong", ""),
    (
        "umd run --dir d --number 9223372036854775808 --env 0 -- x",
        "wrong",
        "",
    ),
    ("umd run --dir d --number 7 --env 1 -- x", "wrong", ""),
    ("umd run --dir d --number 7 --env 1 -- x y", "wrong", ""),
    ("umd run --dir d --number 7 --env 1 -- =x y", "wrong", ""),
    ("umd run --dir d --number 7 --env 2 -- a=x y", "wrong", ""),
    ("umd run --dir d --number 7 --env 0 --", "wrong", ""),
    ("umd run --dir d --number 7 --env 0 x", "wrong", ""),
    ("umd run --memory", "wrong", ""),
    (
        "umd run --dir d --number 7 --env 1 -- A=b x --help",
        "run",
        "",
    ),
    ("umd run --dir d --number 7 --env-file -- x", "run", ""),
    ("umd run --dir d --number 7 --env-file -- A=b", "run", ""),
    ("umd run --dir d --number 7 --env-file --", "wrong", ""),
    ("umd run --dir d --number 7 --env-file x", "wrong", ""),
    ("umd run --dir d --number 7 --env-file 0 -- x", "wrong", ""),
    ("umd run --dir d --number 0 --env-file -- x", "wrong", ""),
    ("umd run --number 7 --dir d --env-file -- x", "wrong", ""),
    (
        "umd run --dir d --number 7 --env 0 --env-file -- x",
        "wrong",
        "",
    ),
];

/// Other words.
const OTHERS: &[Row] = &[
    ("umd --memory", "memory", ""),
    ("umd", "wrong", "\n  umd serve "),
    ("umd memory", "wrong", "\n  umd ctl "),
    ("umd --memories", "wrong", ""),
    ("umd --memory x", "wrong", ""),
    ("umd --memory --memory", "wrong", ""),
    ("umd --memory=1", "wrong", ""),
];

/// Asserts that the words of the text are a line of that kind, and that its text has this part.
fn asks(rt: &(impl AllocGlobal + Abort), text: &str, wanted: &str, part: &str) {
    let words = words_of(rt, text);
    let read = read_line(rt.alloc(), words.as_slice());
    let line = read.as_ref().expect(rt, "no memory");
    let (kind, told) = asked(line);
    let got = (kind, told.contains(part));
    same_at!(rt, got, (wanted, true), (text, part, line));
    drop(read);
}

#[test]
fn words_ask_for_one_thing(rt: HostRuntime) {
    for rows in [TOLD, CHECKS, MANAGERS, OUTPUTS, HELPS, RUNS, OTHERS] {
        for (text, wanted, part) in rows {
            asks(&rt, text, wanted, part);
        }
    }
}

#[test]
fn a_runner_s_words_are_run_under_its_number(rt: HostRuntime) {
    // the law that this shows
    a_runner_s_words_are_run();
    let words = words_of(&rt, "umd run --dir d --number 7 --env 1 -- A=b x --help");
    let read = read_line(rt.alloc(), words.as_slice());
    let Line::Run(line) = read.as_ref().expect(&rt, "no memory") else {
        rt.abort()
    };
    same!(&rt, (line.folder, line.number.get()), ("d", 7));
    same!(&rt, line.has_file, false);
    drop(read);
}

#[test]
fn entries_may_stand_in_a_file(rt: HostRuntime) {
    let words = words_of(&rt, "umd run --dir d --number 7 --env-file -- A=b x");
    let read = read_line(rt.alloc(), words.as_slice());
    let Line::Run(line) = read.as_ref().expect(&rt, "no memory") else {
        rt.abort()
    };
    same!(&rt, (line.folder, line.number.get()), ("d", 7));
    same!(&rt, line.has_file, true);
    drop(read);
}

/// Asserts that the words are a request to a manager, with these seconds to retry and to wait.
fn waits(rt: &(impl AllocGlobal + Abort), text: &str, retry: Option<u32>, timeout: Option<u32>) {
    let words = words_of(rt, text);
    let read = read_line(rt.alloc(), words.as_slice());
    let Line::Ctl(line) = read.as_ref().expect(rt, "no memory") else {
        rt.abort()
    };
    same!(rt, (line.retry, line.timeout), (retry, timeout));
    drop(read);
}

#[test]
fn a_client_waits_as_long_as_it_is_told(rt: HostRuntime) {
    waits(&rt, "umd ctl --socket s show a", None, None);
    let both = "umd ctl --socket s --timeout 86400 --retry 1 show a";
    waits(&rt, both, Some(1), Some(86_400));
    let behind = "umd ctl --socket s show a --timeout 60";
    waits(&rt, behind, None, Some(60));
}

/// Asserts that the words serve the store `f`, and start this unit.
fn starts(rt: &(impl AllocGlobal + Abort), text: &str, start: Option<&str>) {
    let words = words_of(rt, text);
    let read = read_line(rt.alloc(), words.as_slice());
    let Line::Serve(line) = read.as_ref().expect(rt, "no memory") else {
        rt.abort()
    };
    same!(rt, (line.start, line.file), (start, "f"));
    drop(read);
}

#[test]
fn a_manager_starts_what_it_is_told(rt: HostRuntime) {
    starts(
        &rt,
        "umd serve --boot b --socket s --dir d --runner r f",
        None,
    );
    let started = "umd serve --start u --boot b --socket s --dir d --runner r f";
    starts(&rt, started, Some("u"));
}

/// Asserts that the words check the file `f`, with or without its units.
fn looks(rt: &(impl AllocGlobal + Abort), text: &str, units: bool) {
    let words = words_of(rt, text);
    let read = read_line(rt.alloc(), words.as_slice());
    let Line::Check(line) = read.as_ref().expect(rt, "no memory") else {
        rt.abort()
    };
    same!(rt, line.units, units);
    same!(rt, line.file, "f");
    drop(read);
}

#[test]
fn a_store_is_looked_at(rt: HostRuntime) {
    looks(&rt, "umd check f", false);
    looks(&rt, "umd check --units f", true);
    looks(&rt, "umd check f --units", true);
}

//! The help on verbs and refusals, and text as it is shown.
use std::process::Abort;
use um_asserts::{same, same_at};
use um_ctl::{meaning_line, on_terminal, shown, verb_lines};

/// How each verb is called.
const VERBS: &str = "  put-file <path> < FILE
  put-link <path> <target>
  remove <path>
  daemon-reload
  start [--mode <MODE>] <unit>
  stop [--mode <MODE>] <unit>
  restart [--mode <MODE>] <unit>
  try-restart [--mode <MODE>] <unit>
  cancel <unit>
  reset-failed [unit]
  enable <unit>
  disable <unit>
  mask <unit>
  unmask <unit>
  show <unit>
  is-active <unit>
  is-failed <unit>
  is-enabled <unit>
  cat <unit>
  list-units
  list-jobs
";

#[test]
fn each_verb_has_a_line_with_its_arguments(rt: HostRuntime) {
    let lines = verb_lines(rt.alloc()).expect(&rt, "no memory");
    same!(&rt, lines.as_str(), VERBS);
}

/// How the line of each refusal begins, the first first.
const REFUSALS: &[&str] = &[
    "E1 BadRequest: ",
    "E2 UnknownVerb: ",
    "E3 BadName: ",
    "E4 NotFound: ",
    "E5 Masked: ",
    "E6 BadSetting: ",
    "E7 NotLoaded: ",
    "E8 Clash: ",
    "E9 OrderingCycle: ",
    "E10 JobConflict: ",
    "E11 Exists: ",
    "E12 BadPath: ",
    "E13 TooLarge: ",
    "E14 NoRoom: ",
    "E15 NoMemory: ",
    "E16 Device: ",
    "E17 Reopen: ",
    "E18 Damaged: ",
    "E19 NotFormatted: ",
    "E20 GenerationsSpent: ",
    "E21 NoSuchJob: ",
    "E22 OtherLayout: ",
];

#[test]
fn each_refusal_has_a_sentence_and_no_other_number_has_one(rt: HostRuntime) {
    for (at, front) in REFUSALS.iter().enumerate() {
        let line = meaning_line(rt.alloc(), at as u64 + 1).expect(&rt, "no memory");
        let line = line.expect(&rt, "no sentence");
        let ends = (line.starts_with(*front), line.ends_with(".\n"));
        same_at!(&rt, ends, (true, true), line.as_str());
    }
    for number in [0, 23, u64::MAX] {
        let line = meaning_line(rt.alloc(), number).expect(&rt, "no memory");
        same_at!(&rt, line.is_none(), true, number);
    }
}

/// Texts, and how they are shown.
const SHOWN: &[(&str, &str)] = &[
    ("", ""),
    ("a b.service", "a b.service"),
    ("a\\x0a", "a\\x0a"),
    ("a\nb", "a\\x0ab"),
    ("\0\u{1f} \u{7f}", "\\x00\\x1f \\x7f"),
    (
        "\u{80}\u{9f}\u{a0}\u{e4}",
        "\\xc2\\x80\\xc2\\x9f\u{a0}\u{e4}",
    ),
    (
        "\u{61b}\u{61c}\u{200d}\u{200e}\u{200f}\u{2010}",
        "\u{61b}\\xd8\\x9c\u{200d}\\xe2\\x80\\x8e\\xe2\\x80\\x8f\u{2010}",
    ),
    (
        "\u{2029}\u{202a}\u{202e}\u{202f}",
        "\u{2029}\\xe2\\x80\\xaa\\xe2\\x80\\xae\u{202f}",
    ),
    (
        "\u{2065}\u{2066}\u{2069}\u{206a}",
        "\u{2065}\\xe2\\x81\\xa6\\xe2\\x81\\xa9\u{206a}",
    ),
];

/// Texts of JSON, and how they go to a terminal.
const ON_TERMINAL: &[(&str, &str)] = &[
    ("", ""),
    ("[\"a\\n\"]\n", "[\"a\\n\"]\n"),
    ("~\u{7f}\u{80}", "~\\u007f\\u0080"),
    ("\u{9b}\u{9f}\u{a0}\u{e4}", "\\u009b\\u009f\u{a0}\u{e4}"),
    ("\u{61b}\u{61c}\u{61d}", "\u{61b}\\u061c\u{61d}"),
    (
        "\u{200d}\u{200e}\u{200f}\u{2010}",
        "\u{200d}\\u200e\\u200f\u{2010}",
    ),
    (
        "\u{2029}\u{202a}\u{202b}\u{202e}\u{202f}",
        "\u{2029}\\u202a\\u202b\\u202e\u{202f}",
    ),
    (
        "\u{2065}\u{2066}\u{2069}\u{206a}",
        "\u{2065}\\u2066\\u2069\u{206a}",
    ),
    ("\u{1f600}", "\u{1f600}"),
];

#[test]
fn what_misleads_a_terminal_goes_there_as_json_escapes_it(rt: HostRuntime) {
    for (text, wanted) in ON_TERMINAL {
        let found = on_terminal(rt.alloc(), text).expect(&rt, "no memory");
        same!(&rt, found.as_str(), *wanted);
    }
}

#[test]
fn control_characters_are_shown_by_their_bytes(rt: HostRuntime) {
    for (text, wanted) in SHOWN {
        let found = shown(rt.alloc(), text).expect(&rt, "no memory");
        same!(&rt, found.as_str(), *wanted);
    }
}

//! Spaces and tabs, and runs of a class of characters.
use um_asserts::{same, same_at};
use um_text::{Class, is_blank, split_run, trim, trim_end, trim_start};

/// A text, the rest of it after its start, its end and both are trimmed, and whether it is blank.
struct Trimmed {
    text: &'static str,
    start: &'static str,
    end: &'static str,
    both: &'static str,
    blank: bool,
}

const TRIMMED: &[Trimmed] = &[
    Trimmed {
        text: "\t a b \t",
        start: "a b \t",
        end: "\t a b",
        both: "a b",
        blank: false,
    },
    Trimmed {
        text: " \ta b\t ",
        start: "a b\t ",
        end: " \ta b",
        both: "a b",
        blank: false,
    },
    Trimmed {
        text: "\u{a0}a\r",
        start: "\u{a0}a\r",
        end: "\u{a0}a\r",
        both: "\u{a0}a\r",
        blank: false,
    },
    Trimmed {
        text: " \t ",
        start: "",
        end: "",
        both: "",
        blank: true,
    },
    Trimmed {
        text: " \t",
        start: "",
        end: "",
        both: "",
        blank: true,
    },
    Trimmed {
        text: "",
        start: "",
        end: "",
        both: "",
        blank: true,
    },
    Trimmed {
        text: "\r",
        start: "\r",
        end: "\r",
        both: "\r",
        blank: false,
    },
];

#[test]
fn trimming_takes_spaces_and_tabs_alone(rt: HostRuntime) {
    for row in TRIMMED {
        let text = row.text;
        let got = (trim_start(text), trim_end(text), trim(text), is_blank(text));
        same_at!(&rt, got, (row.start, row.end, row.both, row.blank), text);
    }
}

/// A text, a class, and the text cut after the run of that class at its start.
struct Run {
    text: &'static str,
    class: Class,
    cut: (&'static str, &'static str),
}

const RUNS: &[Run] = &[
    Run {
        text: "12h",
        class: Class::Digit,
        cut: ("12", "h"),
    },
    Run {
        text: "h12",
        class: Class::Digit,
        cut: ("", "h12"),
    },
    Run {
        text: " \t\u{e9}",
        class: Class::Space,
        cut: (" \t", "\u{e9}"),
    },
    Run {
        text: "minZ",
        class: Class::SmallLetter,
        cut: ("min", "Z"),
    },
    Run {
        text: "minZ[",
        class: Class::Letter,
        cut: ("minZ", "["),
    },
    Run {
        text: "azAZ",
        class: Class::Letter,
        cut: ("azAZ", ""),
    },
];

#[test]
fn a_run_ends_before_the_first_character_of_another_class(rt: HostRuntime) {
    for row in RUNS {
        same_at!(&rt, split_run(row.text, row.class), row.cut, row.text);
    }
}

#[test]
fn the_digits_end_at_9(rt: HostRuntime) {
    let held = [Class::Digit.contains(b'9'), Class::Digit.contains(b':')];
    same!(&rt, held, [true, false]);
}

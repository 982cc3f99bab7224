//! Words, commands and the variables in them.
use crate::answers::{Wanted, commands_of, list, variables_of};
use std::process::Abort;
use um_asserts::same_at;
use um_words::{
    Command, Room, Variable, commands, is_executable_word, names, room_after, substitute, words,
};

/// A text, and the words or names in it; None if it can't be read.
struct Parted {
    text: &'static str,
    wanted: Option<&'static [&'static str]>,
}

/// Asserts that these are the wanted texts.
fn is_parted(rt: &(impl AllocGlobal + Abort), got: Option<Vec<String>>, row: &Parted) {
    let wanted = match row.wanted {
        Some(texts) => Some(list(rt, texts)),
        None => None,
    };
    same_at!(rt, got, wanted, row.text);
}

/// Words are split at whitespace, and quoted.
const SPLIT: &[Parted] = &[
    Parted {
        text: "",
        wanted: Some(&[]),
    },
    Parted {
        text: " \t",
        wanted: Some(&[]),
    },
    Parted {
        text: "a\tb  c ",
        wanted: Some(&["a", "b", "c"]),
    },
    Parted {
        text: "a\"b c\"d",
        wanted: Some(&["ab cd"]),
    },
    Parted {
        text: "'a \"b' \"c 'd\"",
        wanted: Some(&["a \"b", "c 'd"]),
    },
    Parted {
        text: "\"\" a ''",
        wanted: Some(&["", "a", ""]),
    },
    Parted {
        text: "\"a b\" c\u{a0}d",
        wanted: Some(&["a b", "c\u{a0}d"]),
    },
];

/// Escapes are read inside quotes and outside.
const ESCAPED: &[Parted] = &[
    Parted {
        text: "\\a\\b\\f\\n\\r\\t\\v",
        wanted: Some(&["\u{7}\u{8}\u{c}\n\r\t\u{b}"]),
    },
    Parted {
        text: "\\\\\\\"\\'\\s",
        wanted: Some(&["\\\"' "]),
    },
    Parted {
        text: "'\\'\\\"\\x7F\\x01'",
        wanted: Some(&["'\"\u{7f}\u{1}"]),
    },
    Parted {
        text: "a\\ b",
        wanted: Some(&["a\\ b"]),
    },
    Parted {
        text: "\\\u{e9} \\q\\",
        wanted: Some(&["\\\u{e9}", "\\q\\"]),
    },
    Parted {
        text: "\\x4 \\18 \\u123 \\U1234567",
        wanted: Some(&["\\x4", "\\18", "\\u123", "\\U1234567"]),
    },
    Parted {
        text: "\\x41",
        wanted: Some(&["A"]),
    },
];

/// A quote that isn't closed, and escapes that are left out.
const REFUSED: &[Parted] = &[
    Parted {
        text: "a \"b",
        wanted: None,
    },
    Parted {
        text: "'",
        wanted: None,
    },
    Parted {
        text: "\\x00",
        wanted: None,
    },
    Parted {
        text: "\\x80",
        wanted: None,
    },
    Parted {
        text: "\\101",
        wanted: None,
    },
    Parted {
        text: "\\u0041",
        wanted: None,
    },
    Parted {
        text: "\\U00000041",
        wanted: None,
    },
    Parted {
        text: "b \"\\x80\"",
        wanted: None,
    },
];

/// Asserts that the texts of the rows have the wanted words.
fn all_are_words(rt: &(impl AllocGlobal + Abort), rows: &[Parted]) {
    for row in rows {
        let got: Result<_, _> = words(rt.alloc(), row.text);
        is_parted(rt, got.expect(rt, "no memory"), row);
    }
}

#[test]
fn words_are_split_quoted_and_escaped(rt: HostRuntime) {
    all_are_words(&rt, SPLIT);
    all_are_words(&rt, ESCAPED);
    all_are_words(&rt, REFUSED);
}

const NAMES: &[Parted] = &[
    Parted {
        text: "",
        wanted: Some(&[]),
    },
    Parted {
        text: "a.service\tb.target",
        wanted: Some(&["a.service", "b.target"]),
    },
    Parted {
        text: "a\\x2db.service \\",
        wanted: Some(&["a\\x2db.service", "\\"]),
    },
    Parted {
        text: "\"a\\\" 'b c'd",
        wanted: Some(&["a\\", "b cd"]),
    },
    Parted {
        text: "\\\"a b\"",
        wanted: Some(&["\\a b"]),
    },
    // a quote that isn't closed
    Parted {
        text: "a 'b",
        wanted: None,
    },
    Parted {
        text: "\"a\\\"\"",
        wanted: None,
    },
];

#[test]
fn names_are_quoted_and_keep_each_backslash(rt: HostRuntime) {
    for row in NAMES {
        let got: Result<_, _> = names(rt.alloc(), row.text);
        is_parted(&rt, got.expect(&rt, "no memory"), row);
    }
}

/// The variables of the rows.
const VARIABLES: &[(&str, &str)] = &[
    ("Y", "no"),
    ("X", "p  q"),
    ("Y", "'two two' too"),
    ("Z", "a\\ \"b  c"),
    ("_1", "one"),
];

/// Texts, and their words after substitution in that environment.
const SUBSTITUTED: &[Parted] = &[
    Parted {
        text: "/bin/echo \"a b\" $X ${X}c $$ \\x41",
        wanted: Some(&["/bin/echo", "a b", "p", "q", "p  qc", "$", "A"]),
    },
    Parted {
        text: "echo $Y",
        wanted: Some(&["echo", "two two", "too"]),
    },
    Parted {
        text: "echo $Z",
        wanted: Some(&["echo", "a\\", "b  c"]),
    },
    Parted {
        text: "$X ${Y}",
        wanted: Some(&["$X", "'two two' too"]),
    },
    Parted {
        text: "echo a$X $X- ${X",
        wanted: Some(&["echo", "a$X", "$X-", "${X"]),
    },
    Parted {
        text: "echo $UNSET ${UNSET}",
        wanted: Some(&["echo", ""]),
    },
    Parted {
        text: "echo $$X ${_1}$${1} $",
        wanted: Some(&["echo", "$X", "one${1}", "$"]),
    },
    Parted {
        text: "",
        wanted: Some(&[]),
    },
];

/// The words of the text.
fn words_of(rt: &(impl AllocGlobal + Abort), text: &str) -> Vec<String> {
    let read: Result<_, _> = words(rt.alloc(), text);
    read.expect(rt, "no memory").expect(rt, "no words")
}

/// Asserts that the words of the row are substituted as wanted in this environment.
fn is_substituted(rt: &(impl AllocGlobal + Abort), environment: &[Variable], row: &Parted) {
    let words = words_of(rt, row.text);
    let got: Result<_, _> = substitute(rt.alloc(), &words, environment);
    is_parted(rt, Some(got.expect(rt, "no memory")), row);
}

#[test]
fn variables_stand_for_their_values(rt: HostRuntime) {
    let environment = variables_of(&rt, VARIABLES);
    for row in SUBSTITUTED {
        is_substituted(&rt, &environment, row);
    }
}

/// A text whose words are put into a room for this number of bytes in all and in each word, with one byte more for each, with the variables
/// of that environment; and the number of bytes left then.
struct Counted {
    text: &'static str,
    total: u32,
    longest: u32,
    wanted: Option<u32>,
}

const COUNTED: &[Counted] = &[
    // 10 and 4 and 2 and 2 and 6 and 2 and 2
    Counted {
        text: "/bin/echo \"a b\" $X ${X}c $$ \\x41",
        total: 28,
        longest: 10,
        wanted: Some(0),
    },
    Counted {
        text: "/bin/echo \"a b\" $X ${X}c $$ \\x41",
        total: 27,
        longest: 10,
        wanted: None,
    },
    Counted {
        text: "/bin/echo \"a b\" $X ${X}c $$ \\x41",
        total: 28,
        longest: 9,
        wanted: None,
    },
    // 5 and 8 and 4: quotes take no room
    Counted {
        text: "echo $Y",
        total: 100,
        longest: 8,
        wanted: Some(83),
    },
    Counted {
        text: "echo $Y",
        total: 100,
        longest: 7,
        wanted: None,
    },
    // an empty word takes its one byte, and a value without words none
    Counted {
        text: "echo $UNSET ${UNSET}",
        total: 100,
        longest: 5,
        wanted: Some(94),
    },
    Counted {
        text: "",
        total: 0,
        longest: 0,
        wanted: Some(0),
    },
];

/// The number of bytes left of the row's room, with the variables of this environment; None if it is too small.
fn left(rt: &(impl AllocGlobal + Abort), environment: &[Variable], row: &Counted) -> Option<u32> {
    let room = Room {
        total: row.total,
        longest: row.longest,
        beside: 1,
    };
    let words = words_of(rt, row.text);
    let left: Result<_, _> = room_after(rt.alloc(), room, &words, environment);
    let left = left.expect(rt, "no memory");
    left.map(|left| left.total)
}

#[test]
fn the_room_of_words_is_counted_with_their_variables(rt: HostRuntime) {
    let environment = variables_of(&rt, VARIABLES);
    for row in COUNTED {
        same_at!(&rt, left(&rt, &environment, row), row.wanted, row.text);
    }
}

/// A text, and the commands in it; None if it can't be read.
struct Commanded {
    text: &'static str,
    wanted: Option<&'static [Wanted]>,
}

const COMMANDS: &[Commanded] = &[
    // commands are parted at lone semicolons
    Commanded {
        text: "a b ; c",
        wanted: Some(&[Wanted::Plain(&["a", "b"]), Wanted::Plain(&["c"])]),
    },
    Commanded {
        text: "; a ; ; b ;",
        wanted: Some(&[Wanted::Plain(&["a"]), Wanted::Plain(&["b"])]),
    },
    Commanded {
        text: "a \";\" \\x3b ;b",
        wanted: Some(&[Wanted::Plain(&["a", ";", ";", ";b"])]),
    },
    Commanded {
        text: "a \\; \"\\;\" \\\\;",
        wanted: Some(&[Wanted::Plain(&["a", ";", "\\;", "\\;"])]),
    },
    Commanded {
        text: "a 'b ; c'",
        wanted: Some(&[Wanted::Plain(&["a", "b ; c"])]),
    },
    Commanded {
        text: "@a",
        wanted: Some(&[Wanted::Plain(&["@a"])]),
    },
    Commanded {
        text: " ",
        wanted: Some(&[]),
    },
    Commanded {
        text: "a ; \"b",
        wanted: None,
    },
    // signs are cut off the first word
    Commanded {
        text: "-+/bin/x -y",
        wanted: Some(&[Wanted::Ignoring(&["/bin/x", "-y"])]),
    },
    Commanded {
        text: "!:--a b",
        wanted: Some(&[Wanted::IgnoringVerbatim(&["a", "b"])]),
    },
    Commanded {
        text: "\"-a\" b",
        wanted: Some(&[Wanted::Ignoring(&["a", "b"])]),
    },
    Commanded {
        text: ":b c",
        wanted: Some(&[Wanted::Verbatim(&["b", "c"])]),
    },
    Commanded {
        text: "- x",
        wanted: Some(&[Wanted::Ignoring(&["", "x"])]),
    },
    // each command has signs of its own
    Commanded {
        text: "\"-a\" ; :b",
        wanted: Some(&[Wanted::Ignoring(&["a"]), Wanted::Verbatim(&["b"])]),
    },
];

/// The wanted commands; None if the text can't be read.
fn wanted(rt: &(impl AllocGlobal + Abort), row: &Commanded) -> Option<Vec<Command>> {
    match row.wanted {
        Some(wanted) => Some(commands_of(rt, wanted)),
        None => None,
    }
}

#[test]
fn commands_have_words_and_signs(rt: HostRuntime) {
    for row in COMMANDS {
        let got: Result<_, _> = commands(rt.alloc(), row.text);
        same_at!(
            &rt,
            got.expect(&rt, "no memory"),
            wanted(&rt, row),
            row.text,
        );
    }
}

/// Words, and whether they can be run.
const RUNNABLE: &[(&str, bool)] = &[("/bin/x", true), ("x", true), ("bin/x", false), ("", false)];

#[test]
fn paths_and_names_can_be_run(rt: HostRuntime) {
    for (word, wanted) in RUNNABLE {
        same_at!(&rt, is_executable_word(word), *wanted, word);
    }
}

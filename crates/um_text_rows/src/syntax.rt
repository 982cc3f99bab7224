//! The items in the lines of a unit file.
use crate::answers::repeated;
use std::process::Abort;
use um_asserts::{same, same_at};
use um_syntax::{Item, WarningKind, parse};

/// An item of a line, with the line's number first.
#[derive(Clone, Copy, Debug, PartialEq, Eq)]
enum Said<'t> {
    /// The head of the section of this name.
    Head(usize, &'t str),
    /// A key and a value, which lies from the first byte up to the second.
    Pair(usize, &'t str, &'t str, usize, usize),
    /// A key and a value of a line that was joined.
    Joined(usize, &'t str, &'t str),
    Warned(usize, WarningKind),
}

impl<'t> Said<'t> {
    /// The item in this form.
    fn of(item: &'t Item<'_>) -> Said<'t> {
        match item {
            Item::Section { name, line } => Said::Head(*line, name.as_str()),
            Item::Assignment {
                key,
                value,
                line,
                span,
            } => match span {
                Some(span) => Said::Pair(*line, key.as_str(), value.as_str(), span.start, span.end),
                None => Said::Joined(*line, key.as_str(), value.as_str()),
            },
            Item::Warning { kind, line } => Said::Warned(*line, *kind),
        }
    }
}

/// The items of the text.
fn items_of<'t>(rt: &(impl AllocGlobal + Abort), text: &'t str) -> Vec<Item<'t>> {
    parse(rt.alloc(), text).expect(rt, "no memory")
}

/// Asserts that the text has these items.
fn says(rt: &(impl AllocGlobal + Abort), text: &str, wanted: &[Said<'_>]) {
    let items = items_of(rt, text);
    same_at!(rt, items.len(), wanted.len(), text);
    for (item, wanted) in items.iter().zip(wanted) {
        same_at!(rt, Said::of(item), *wanted, text);
    }
}

const NO_SECTION: WarningKind = WarningKind::BeforeAnySection;

const NO_SIGN: WarningKind = WarningKind::NoEqualsSign;

/// A text, and the items of its lines.
struct Row {
    text: &'static str,
    says: &'static [Said<'static>],
}

/// A continuation keeps the space for its backslash.
const CONTINUATIONS: &[Row] = &[
    Row {
        text: "[Unit]\nDescription=a\\\n# c\n   b\n",
        says: &[
            Said::Head(1, "Unit"),
            Said::Joined(2, "Description", "a    b"),
        ],
    },
    Row {
        text: "[Unit]\nDescription=x\\",
        says: &[Said::Head(1, "Unit"), Said::Joined(2, "Description", "x")],
    },
    Row {
        text: "[Unit]\nk=a\\\n# c\\\nb\nl=d",
        says: &[
            Said::Head(1, "Unit"),
            Said::Joined(2, "k", "a b"),
            Said::Pair(5, "l", "d", 21, 22),
        ],
    },
    Row {
        text: "[Unit]\nk=a\\\n \t\nl=d\n",
        says: &[
            Said::Head(1, "Unit"),
            Said::Joined(2, "k", "a"),
            Said::Pair(4, "l", "d", 17, 18),
        ],
    },
    Row {
        text: "[Unit]\n\\\n\nk=a\\\r\nb\r\n",
        says: &[Said::Head(1, "Unit"), Said::Joined(4, "k", "a b")],
    },
    Row {
        text: "[Un\\\nit]\nDescr\\\n iption=x\n",
        says: &[
            Said::Head(1, "Un it"),
            Said::Joined(3, "Descr  iption", "x"),
        ],
    },
];

/// An odd number of backslashes joins.
const BACKSLASHES: &[Row] = &[
    Row {
        text: "[Unit]\nk=a\\\\\nl=d\n",
        says: &[
            Said::Head(1, "Unit"),
            Said::Pair(2, "k", "a\\\\", 9, 12),
            Said::Pair(3, "l", "d", 15, 16),
        ],
    },
    Row {
        text: "[Unit]\nk=a\\\\\\\nd\n",
        says: &[Said::Head(1, "Unit"), Said::Joined(2, "k", "a\\\\ d")],
    },
];

/// A head stands in brackets.
const HEADS: &[Row] = &[
    Row {
        text: "",
        says: &[],
    },
    Row {
        text: "\n \n; c\n\t# d",
        says: &[],
    },
    Row {
        text: "[Unit\n",
        says: &[Said::Warned(1, NO_SIGN)],
    },
    Row {
        text: "[",
        says: &[Said::Warned(1, NO_SIGN)],
    },
    Row {
        text: "[]\n",
        says: &[Said::Head(1, "")],
    },
    Row {
        text: " [Unit] \t\na\n",
        says: &[Said::Head(1, "Unit"), Said::Warned(2, NO_SIGN)],
    },
    Row {
        text: "[Unit ]\n=x\n",
        says: &[Said::Head(1, "Unit "), Said::Pair(2, "", "x", 9, 10)],
    },
];

/// A line is cut at its first equals sign.
const PAIRS: &[Row] = &[
    Row {
        text: "[a]\r\nkey \t=\t b = c \r\n",
        says: &[Said::Head(1, "a"), Said::Pair(2, "key", "b = c", 13, 18)],
    },
    Row {
        text: "[a]\nk=\n k=[b]\n",
        says: &[
            Said::Head(1, "a"),
            Said::Pair(2, "k", "", 6, 6),
            Said::Pair(3, "k", "[b]", 10, 13),
        ],
    },
    Row {
        text: "[a]\nk=\r",
        says: &[Said::Head(1, "a"), Said::Pair(2, "k", "\r", 6, 7)],
    },
    Row {
        text: "[a=b]\n\u{e9}=\u{a0}\u{17e} # x\n",
        says: &[
            Said::Head(1, "a=b"),
            Said::Pair(2, "\u{e9}", "\u{a0}\u{17e} # x", 9, 17),
        ],
    },
];

/// A line without effect is a warning in its section.
const WITHOUT_EFFECT: &[Row] = &[
    Row {
        text: "a=b\nc\n[Unit]\nd\ne=f\n[Install]\ng",
        says: &[
            Said::Warned(1, NO_SECTION),
            Said::Warned(2, NO_SIGN),
            Said::Head(3, "Unit"),
            Said::Warned(4, NO_SIGN),
            Said::Pair(5, "e", "f", 17, 18),
            Said::Head(6, "Install"),
            Said::Warned(7, NO_SIGN),
        ],
    },
    Row {
        text: "X-a=b\\\nc",
        says: &[Said::Warned(1, NO_SECTION)],
    },
    Row {
        text: "# a=b\\\nc=d",
        says: &[Said::Warned(2, NO_SECTION)],
    },
];

/// Asserts that the texts of the rows have these items.
fn all_say(rt: &(impl AllocGlobal + Abort), rows: &[Row]) {
    for row in rows {
        says(rt, row.text, row.says);
    }
}

#[test]
fn texts_say_what_their_lines_say(rt: HostRuntime) {
    all_say(&rt, CONTINUATIONS);
    all_say(&rt, BACKSLASHES);
    all_say(&rt, HEADS);
    all_say(&rt, PAIRS);
    all_say(&rt, WITHOUT_EFFECT);
}

#[test]
fn each_warning_has_its_number(rt: HostRuntime) {
    same!(&rt, [NO_SECTION.number(), NO_SIGN.number()], [1, 2]);
}

#[test]
fn a_line_at_the_limit_is_read(rt: HostRuntime) {
    for size in [65_535, 65_536] {
        let text = repeated(&rt, "\\", size);
        says(&rt, text.as_str(), &[Said::Warned(1, NO_SIGN)]);
    }
}

#[test]
fn lines_at_the_limit_are_read(rt: HostRuntime) {
    let text = repeated(&rt, "a\n", 32_768);
    let items = items_of(&rt, text.as_str());
    same!(&rt, items.len(), 32_768);
    for (index, item) in items.iter().enumerate() {
        same!(&rt, Said::of(item), Said::Warned(index + 1, NO_SIGN));
    }
}

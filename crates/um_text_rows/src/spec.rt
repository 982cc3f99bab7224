//! Specifiers in a text, under the name of a unit.
use um_asserts::{same_at, unit};
use um_spec::expand;

/// A text, and its expansion under the name; None if it has none.
struct Row {
    name: &'static str,
    text: &'static str,
    wanted: Option<&'static str>,
}

const ROWS: &[Row] = &[
    // specifiers stand for parts of the name
    Row {
        name: "app@x-y.service",
        text: "%p %i %I %j %%",
        wanted: Some("app x-y x/y app %"),
    },
    Row {
        name: "app@x-y.service",
        text: "%n|%N",
        wanted: Some("app@x-y.service|app@x-y"),
    },
    Row {
        name: "a-b-c.service",
        text: "%j %p [%i] [%I] %N",
        wanted: Some("c a-b-c [] [] a-b-c"),
    },
    Row {
        name: "a-@b-c.service",
        text: "[%j] %N",
        wanted: Some("[] a-@b-c"),
    },
    // a percent sign before no letter stays
    Row {
        name: "a@b.service",
        text: "100%",
        wanted: Some("100%"),
    },
    Row {
        name: "a@b.service",
        text: "% %1%\u{e9}%-",
        wanted: Some("% %1%\u{e9}%-"),
    },
    Row {
        name: "a@b.service",
        text: "%%n",
        wanted: Some("%n"),
    },
    Row {
        name: "a@b.service",
        text: "",
        wanted: Some(""),
    },
    // other letters and ill instances have no expansion
    Row {
        name: "a@b.service",
        text: "x%z",
        wanted: None,
    },
    Row {
        name: "a@b.service",
        text: "%n %P",
        wanted: None,
    },
    Row {
        name: "a@a\\xff.service",
        text: "%I",
        wanted: None,
    },
    Row {
        name: "a@a\\xff.service",
        text: "%i",
        wanted: Some("a\\xff"),
    },
    Row {
        name: "a@\\y.service",
        text: "%I",
        wanted: None,
    },
    Row {
        name: "a@\\xc3\\xa9.service",
        text: "%I",
        wanted: Some("\u{e9}"),
    },
];

#[test]
fn texts_are_expanded_under_a_name(rt: HostRuntime) {
    for row in ROWS {
        let name = unit!(&rt, row.name);
        let expansion: Result<_, _> = expand(rt.alloc(), row.text, &name);
        let got = expansion.expect(&rt, "no memory");
        same_at!(&rt, got.as_deref(), row.wanted, (row.name, row.text));
    }
}

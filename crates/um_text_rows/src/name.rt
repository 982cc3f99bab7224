//! Unit names, their parts and escapes.
use crate::answers::repeated;
use std::collections::BTreeMap;
use std::process::Abort;
use um_asserts::{is_refused_at, same, same_at, unit};
use um_name::{Suffix, UnitName, escape, is_unit_name, suffix_of, unescape};

/// Names.
const TAKEN: &[&str] = &[
    // with each suffix
    "a.service",
    "a.socket",
    "a.device",
    "a.mount",
    "a.automount",
    "a.swap",
    "a.target",
    "a.path",
    "a.timer",
    "a.slice",
    "a.scope",
    // with each kind of byte, and at the edges of their form
    "AMZamz059:-_.\\.service",
    "a@AMZamz059:-_.\\@.service",
    "a@b@c.service",
    "a@.service",
    "-.mount",
    "..service",
    "a.service.target",
];

#[test]
fn names_are_taken(rt: HostRuntime) {
    for text in TAKEN {
        let name = unit!(&rt, text);
        same!(&rt, (name.as_str(), is_unit_name(text)), (*text, true));
    }
}

/// Texts that are no names.
const REFUSED: &[&str] = &[
    // without the form of a name
    "",
    "a",
    "a.b",
    "service",
    ".service",
    "@.service",
    "@x.service",
    "a.Service",
    "a.services",
    "a.service ",
    "a@b.conf",
    // with bytes that no name has
    "a b.service",
    "a/b.service",
    "a[b.service",
    "a`b.service",
    "a{b.service",
    "a;b.service",
    "a,b.service",
    "a^b.service",
    "a\n.service",
    "a\u{0}.service",
    "\u{e9}.service",
    "a@b/c.service",
    "a@b%i.service",
    "a@\u{e9}.service",
];

#[test]
fn other_texts_are_refused_as_names(rt: HostRuntime) {
    for text in REFUSED {
        let wanted = format!(in rt.alloc(); "E3 BadName {text}").expect(&rt, "no memory");
        let refused = UnitName::parse(rt.alloc(), text);
        is_refused_at!(&rt, refused, Some(wanted.as_str()), text);
        same_at!(&rt, is_unit_name(text), false, text);
    }
}

#[test]
fn a_name_has_at_most_255_bytes(rt: HostRuntime) {
    for size in 0..300_usize {
        let prefix = repeated(&rt, "a", size);
        let text = format!(in rt.alloc(); "{prefix}.service").expect(&rt, "no memory");
        let taken = 9 <= size + 8 && size + 8 <= 255;
        same_at!(&rt, is_unit_name(text.as_str()), taken, size);
    }
}

/// A name, its parts and its template.
struct Parts {
    name: &'static str,
    prefix: &'static str,
    instance: Option<&'static str>,
    suffix: Suffix,
    template: Option<&'static str>,
}

const PARTS: &[Parts] = &[
    Parts {
        name: "a.service",
        prefix: "a",
        instance: None,
        suffix: Suffix::Service,
        template: None,
    },
    Parts {
        name: "a@b@c.timer",
        prefix: "a",
        instance: Some("b@c"),
        suffix: Suffix::Timer,
        template: Some("a@.timer"),
    },
    Parts {
        name: "a@.service",
        prefix: "a",
        instance: Some(""),
        suffix: Suffix::Service,
        template: Some("a@.service"),
    },
    Parts {
        name: "a.b@c.d.automount",
        prefix: "a.b",
        instance: Some("c.d"),
        suffix: Suffix::Automount,
        template: Some("a.b@.automount"),
    },
    Parts {
        name: "x.service.target",
        prefix: "x.service",
        instance: None,
        suffix: Suffix::Target,
        template: None,
    },
];

/// Asserts that the made name is that one; None: that there is none.
fn is_named(rt: &impl Abort, made: Option<UnitName>, wanted: Option<&str>, row: &str) {
    same_at!(rt, made.as_ref().map(|made| made.as_str()), wanted, row);
}

/// Asserts that the name has the parts of the row.
fn has_parts(rt: &impl Abort, name: &UnitName, row: &Parts) {
    let parts = (name.prefix(), name.instance(), Some(name.suffix()));
    let wanted = (row.prefix, row.instance, suffix_of(row.name));
    same_at!(rt, parts, wanted, row.name);
    let is_template = row.instance == Some("");
    let told = (name.suffix(), name.is_template());
    same_at!(rt, told, (row.suffix, is_template), row.name);
}

#[test]
fn the_parts_of_a_name_are_told(rt: HostRuntime) {
    for row in PARTS {
        let name = unit!(&rt, row.name);
        has_parts(&rt, &name, row);
        let made = name.template().expect(&rt, "no memory");
        is_named(&rt, made, row.template, row.name);
    }
}

/// A name, an instance, and the name with that instance; None if it has none.
struct Instance {
    name: &'static str,
    instance: &'static str,
    made: Option<&'static str>,
}

const INSTANCES: &[Instance] = &[
    Instance {
        name: "a@.service",
        instance: "x",
        made: Some("a@x.service"),
    },
    Instance {
        name: "a@b.service",
        instance: "x@y",
        made: Some("a@x@y.service"),
    },
    Instance {
        name: "a.service",
        instance: "x",
        made: Some("a@x.service"),
    },
    Instance {
        name: "a@b.service",
        instance: "",
        made: Some("a@.service"),
    },
    Instance {
        name: "a@.service",
        instance: "x y",
        made: None,
    },
    Instance {
        name: "a@.service",
        instance: "x/y",
        made: None,
    },
];

/// The name with the instance; None if it has none.
fn with_instance(
    rt: &(impl AllocGlobal + Abort),
    name: &UnitName,
    instance: &str,
) -> Option<UnitName> {
    let made: Result<_, _> = name.with_instance(instance);
    made.expect(rt, "no memory")
}

#[test]
fn an_instance_is_put_into_a_name(rt: HostRuntime) {
    for row in INSTANCES {
        let made = with_instance(&rt, &unit!(&rt, row.name), row.instance);
        is_named(&rt, made, row.made, row.name);
    }
}

#[test]
fn an_instance_leaves_a_name_of_255_bytes_at_most(rt: HostRuntime) {
    let name = unit!(&rt, "a@.service");
    for size in 0..300_usize {
        let instance = repeated(&rt, "x", size);
        let made = with_instance(&rt, &name, instance.as_str());
        same_at!(&rt, made.is_some(), size + 10 <= 255, size);
    }
}

/// Asserts that the copy is a copy of the name.
fn is_copy(rt: &impl Abort, copy: &UnitName, name: &UnitName) {
    same!(rt, copy, name);
    let told = (copy.as_str(), copy.suffix());
    same!(rt, told, ("b@x.service", Suffix::Service));
}

#[test]
fn names_are_copied_and_shown(rt: HostRuntime) {
    let name = unit!(&rt, "b@x.service");
    let copied: Result<_, _> = name.copy();
    is_copy(&rt, copied.as_ref().expect(&rt, "no memory"), &name);
    let shown = format!(in rt.alloc(); "{name} {name:?}").expect(&rt, "no memory");
    same!(&rt, shown.as_str(), r#"b@x.service "b@x.service""#);
}

/// A map of units, from each name to its text.
fn units(rt: &(impl AllocGlobal + Abort)) -> BTreeMap<UnitName, &'static str> {
    let mut units = BTreeMap::new(rt.alloc());
    for text in [
        "b@x.service",
        "b.service",
        "Z.service",
        "a.target",
        "a.service",
    ] {
        let inserted: Result<_, _> = units.insert(unit!(rt, text), text);
        inserted.expect(rt, "no memory");
    }
    units
}

/// The names of the units, in the order of the map.
fn names<'u>(
    rt: &(impl AllocGlobal + Abort),
    units: &'u BTreeMap<UnitName, &'static str>,
) -> Vec<&'u str> {
    let mut names = Vec::new(rt.alloc());
    for unit in units.keys() {
        names.push(unit.as_str()).expect(rt, "no memory");
    }
    names
}

/// The names of those units, by bytes.
const ASCENDING: &[&str] = &[
    "Z.service",
    "a.service",
    "a.target",
    "b.service",
    "b@x.service",
];

#[test]
fn names_are_ordered_by_bytes(rt: HostRuntime) {
    let units = units(&rt);
    same!(&rt, names(&rt, &units).as_slice(), ASCENDING);
    let found = units.get(&unit!(&rt, "b@x.service")).copied();
    same!(&rt, found, Some("b@x.service"));
}

/// Bytes, and the text that they are escaped as.
const ESCAPED: &[(&str, &str)] = &[
    ("", ""),
    ("/", "-"),
    (".x", "\\x2ex"),
    ("x.y", "x.y"),
    ("..", "\\x2e."),
    ("AZaz09:_", "AZaz09:_"),
    ("home/a b", "home-a\\x20b"),
    ("a-b\\@~", "a\\x2db\\x5c\\x40\\x7e"),
    ("\u{e9}\n\u{0}", "\\xc3\\xa9\\x0a\\x00"),
];

/// The text that the bytes are escaped as.
fn escaped_text(rt: &(impl AllocGlobal + Abort), bytes: &[u8]) -> String {
    escape(rt.alloc(), bytes).expect(rt, "no memory")
}

#[test]
fn bytes_are_escaped(rt: HostRuntime) {
    for (bytes, wanted) in ESCAPED {
        let text = escaped_text(&rt, bytes.as_bytes());
        same_at!(&rt, text.as_str(), *wanted, bytes);
    }
}

/// Escaped texts, and the bytes of each; None if it can't be read.
const ESCAPES: &[(&str, Option<&str>)] = &[
    ("", Some("")),
    ("-", Some("/")),
    ("\\x2ex", Some(".x")),
    ("x.y", Some("x.y")),
    ("home-a\\x20b", Some("home/a b")),
    ("a@b\\x00", Some("a@b\u{0}")),
    ("\\xc3\\xa9", Some("\u{e9}")),
    ("\u{e9}", Some("\u{e9}")),
    ("\\x5cx41", Some("\\x41")),
    ("\\x2E", None),
    ("\\X2e", None),
    ("a\\", None),
    ("\\x4", None),
    ("\\x", None),
    ("\\n", None),
    ("\\\\", None),
    ("\\x4g", None),
    ("\\x:0", None),
];

/// The bytes of the escaped text; None if it can't be read.
fn read_back(rt: &(impl AllocGlobal + Abort), text: &str) -> Option<Vec<u8>> {
    unescape(rt.alloc(), text).expect(rt, "no memory")
}

#[test]
fn escapes_are_read_back(rt: HostRuntime) {
    for (text, wanted) in ESCAPES {
        let bytes = read_back(&rt, text);
        let wanted = wanted.map(|wanted| wanted.as_bytes());
        same_at!(&rt, bytes.as_deref(), wanted, text);
    }
}

#[test]
fn each_byte_is_read_back(rt: HostRuntime) {
    let mut bytes = Vec::new(rt.alloc());
    for b in 0..=255_u8 {
        bytes.push(b).expect(&rt, "no memory");
    }
    let text = escaped_text(&rt, bytes.as_slice());
    same!(&rt, read_back(&rt, text.as_str()), Some(bytes));
}

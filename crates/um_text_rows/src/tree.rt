//! Served paths, and the tree of files and links.
use crate::answers::{put, repeated, tree_of};
use std::process::Abort;
use um_asserts::{is_refused_at, same, same_at};
use um_tree::{Entry, Layer, Place, ServedPath, Tree};
use um_wire::Refusal;

/// Paths, and whether they are served.
const PATHS: &[(&str, bool)] = &[
    ("etc/a.service", true),
    ("run/app@x-y.service", true),
    ("lib/app@.service", true),
    ("lib/a.service.d/10-x_y.z:w.conf", true),
    ("lib/app@.service.d/10.conf", true),
    ("etc/m.target.wants/a.service", true),
    ("etc/m.target.requires/app@x.service", true),
    ("", false),
    ("a.service", false),
    ("opt/a.service", false),
    ("etc/a", false),
    ("etc//a.service", false),
    ("lib/../x", false),
    ("etc/a.service/b", false),
    ("etc/a.service.d/.conf", false),
    ("etc/a.service.d/x", false),
    ("etc/a.service.d/a b.conf", false),
    ("etc/a.service.d/x/y.conf", false),
    ("etc/a.service.d/x.conf/", false),
    ("etc/a.d/x.conf", false),
    ("etc/a@.service.wants/b.service", false),
    ("etc/a.service.wants/b@.service", false),
    ("etc/a@.service.requires/b.service", false),
    ("etc/a.service.requires/b", false),
    ("etc/a.service.wants/", false),
];

#[test]
fn paths_have_four_forms(rt: HostRuntime) {
    for (path, served) in PATHS {
        same_at!(&rt, ServedPath::parse(path).is_some(), *served, path);
    }
}

#[test]
fn a_drop_in_has_a_name_of_1_to_200_bytes(rt: HostRuntime) {
    for (count, served) in [(0, false), (1, true), (200, true), (201, false)] {
        let name = repeated(&rt, "x", count);
        let path = format!(in rt.alloc(); "etc/a.service.d/{name}.conf").expect(&rt, "no memory");
        let parsed = ServedPath::parse(path.as_str()).is_some();
        same_at!(&rt, parsed, served, count);
    }
}

/// A path and its parts.
struct Parts {
    path: &'static str,
    layer: Layer,
    unit: &'static str,
    place: Place<'static>,
}

const PARTS: &[Parts] = &[
    Parts {
        path: "etc/a.service",
        layer: Layer::Etc,
        unit: "a.service",
        place: Place::Unit,
    },
    Parts {
        path: "run/a.service.d/10.conf",
        layer: Layer::Run,
        unit: "a.service",
        place: Place::DropIn("10"),
    },
    Parts {
        path: "lib/m.target.wants/b.service",
        layer: Layer::Lib,
        unit: "m.target",
        place: Place::Wants("b.service"),
    },
    Parts {
        path: "lib/m.target.requires/b.service",
        layer: Layer::Lib,
        unit: "m.target",
        place: Place::Requires("b.service"),
    },
];

#[test]
fn a_path_is_told_by_its_parts(rt: HostRuntime) {
    for row in PARTS {
        let parts = ServedPath::parse(row.path).expect(&rt, "no served path");
        let told = (parts.layer(), parts.unit(), parts.place());
        same_at!(&rt, told, (row.layer, row.unit, row.place), row.path);
    }
}

/// Files, one of which is replaced, and a link.
const FILLED: &[(&str, Entry<'static>)] = &[
    ("lib/b.service", Entry::File("one")),
    ("etc/a.service", Entry::File("two")),
    ("lib/b.service", Entry::File("three")),
    ("etc/m.target.wants/b.service", Entry::Link("lib/b.service")),
    ("etc/n.target.wants/b.service", Entry::File("")),
];

/// Paths, and the entry at each then.
const STANDING: &[(&str, Option<Entry<'static>>)] = &[
    ("lib/b.service", Some(Entry::File("three"))),
    (
        "etc/m.target.wants/b.service",
        Some(Entry::Link("lib/b.service")),
    ),
    ("lib/c.service", None),
];

#[test]
fn a_file_is_put_and_replaced(rt: HostRuntime) {
    let tree = tree_of(&rt, FILLED);
    same!(&rt, tree.len(), 4);
    for (path, wanted) in STANDING {
        same_at!(&rt, tree.get(path), *wanted, path);
    }
}

/// The paths of the tree.
fn paths<'t>(rt: &(impl AllocGlobal + Abort), tree: &'t Tree) -> Vec<&'t str> {
    let mut paths = Vec::new(rt.alloc());
    for (path, _) in tree.entries() {
        paths.push(path).expect(rt, "no memory");
    }
    paths
}

/// The paths of that tree.
const ASCENDING: &[&str] = &[
    "etc/a.service",
    "etc/m.target.wants/b.service",
    "etc/n.target.wants/b.service",
    "lib/b.service",
];

/// Asserts that a file is removed.
fn is_removed(rt: &impl Abort, tree: &mut Tree) {
    let removed: Result<_, _> = tree.remove("etc/a.service");
    removed.expect(rt, "not removed");
    same!(rt, (tree.len(), tree.get("etc/a.service")), (3, None));
}

#[test]
fn a_removal_leaves_a_copy_as_it_was(rt: HostRuntime) {
    let mut tree = tree_of(&rt, FILLED);
    let copied: Result<_, _> = tree.copy();
    is_removed(&rt, &mut tree);
    let copy = copied.as_ref().expect(&rt, "no memory");
    same!(&rt, paths(&rt, copy).as_slice(), ASCENDING);
}

/// Entries put one after another: a file or a link at a path, with a text or a target of this number of bytes, and its refusal.
struct Sized {
    path: &'static str,
    is_link: bool,
    size: usize,
    wanted: Option<&'static str>,
}

/// Puts into a tree that has a link at `etc/z.service`.
const SIZED: &[Sized] = &[
    // a file is refused in order
    Sized {
        path: "lib/../x",
        is_link: false,
        size: 65_537,
        wanted: Some("E12 BadPath lib/../x"),
    },
    Sized {
        path: "etc/z.service",
        is_link: false,
        size: 65_537,
        wanted: Some("E11 Exists etc/z.service"),
    },
    Sized {
        path: "etc/a.service",
        is_link: false,
        size: 65_537,
        wanted: Some("E13 TooLarge text"),
    },
    Sized {
        path: "etc/a.service",
        is_link: false,
        size: 65_536,
        wanted: None,
    },
    // a link that is wanted has a target of 1 to 512 bytes
    Sized {
        path: "etc/m.target.wants/a.service",
        is_link: true,
        size: 0,
        wanted: Some("E12 BadPath etc/m.target.wants/a.service"),
    },
    Sized {
        path: "etc/m.target.wants/a.service",
        is_link: true,
        size: 513,
        wanted: Some("E12 BadPath etc/m.target.wants/a.service"),
    },
    Sized {
        path: "etc/m.target.wants/a.service",
        is_link: true,
        size: 512,
        wanted: None,
    },
    Sized {
        path: "etc/m.target.requires/a.service",
        is_link: true,
        size: 1,
        wanted: None,
    },
];

/// Puts the entry of the row.
fn put_sized(rt: &(impl AllocGlobal + Abort), tree: &mut Tree, row: &Sized) -> Result<(), Refusal> {
    let text = repeated(rt, "x", row.size);
    let entry = if row.is_link {
        Entry::Link(text.as_str())
    } else {
        Entry::File(text.as_str())
    };
    put(tree, row.path, entry)
}

#[test]
fn texts_and_targets_have_limits(rt: HostRuntime) {
    let mut tree = tree_of(&rt, &[("etc/z.service", Entry::Link("lib/a.service"))]);
    for row in SIZED {
        let answer = put_sized(&rt, &mut tree, row);
        is_refused_at!(&rt, answer, row.wanted, (row.path, row.size));
    }
    same!(&rt, tree.len(), 4);
}

/// Links that are set one after another, and the refusal of each.
const LINKS: &[(&str, &str, Option<&str>)] = &[
    ("etc/a", "/dev/null", Some("E12 BadPath etc/a")),
    (
        "etc/a.service.d/x.conf",
        "/dev/null",
        Some("E12 BadPath etc/a.service.d/x.conf"),
    ),
    ("etc/a.service", "", Some("E12 BadPath etc/a.service")),
    (
        "etc/a.service",
        "lib/a.service",
        Some("E12 BadPath etc/a.service"),
    ),
    (
        "etc/a.service",
        "a.service",
        Some("E12 BadPath etc/a.service"),
    ),
    (
        "etc/a.service",
        "lib/b.service/",
        Some("E12 BadPath etc/a.service"),
    ),
    (
        "etc/a.service",
        "/dev/zero",
        Some("E12 BadPath etc/a.service"),
    ),
    (
        "etc/f.service",
        "lib/f.service",
        Some("E12 BadPath etc/f.service"),
    ),
    (
        "etc/f.service",
        "lib/b.service",
        Some("E11 Exists etc/f.service"),
    ),
    ("etc/a.service", "/usr/lib/systemd/system/b.service", None),
    ("etc/a.service", "/usr/lib/systemd/system/b.service", None),
    (
        "etc/a.service",
        "lib/b.service",
        Some("E11 Exists etc/a.service"),
    ),
    ("etc/b.service", "/dev/null", None),
    ("etc/c.service", "d.service", None),
];

#[test]
fn link_is_refused_in_order(rt: HostRuntime) {
    let mut tree = tree_of(&rt, &[("etc/f.service", Entry::File(""))]);
    for (path, target, wanted) in LINKS {
        let answer = put(&mut tree, path, Entry::Link(target));
        is_refused_at!(&rt, answer, *wanted, (path, target));
    }
    same!(&rt, tree.len(), 4);
}

/// Paths, and the refusal of a removal there.
const REMOVALS: &[(&str, Option<&str>)] = &[
    ("lib/b.service", Some("E12 BadPath lib/b.service")),
    ("nowhere", Some("E12 BadPath nowhere")),
    ("lib/a.service", None),
];

#[test]
fn remove_is_refused_where_nothing_stands(rt: HostRuntime) {
    let mut tree = tree_of(&rt, &[("lib/a.service", Entry::File(""))]);
    for (path, wanted) in REMOVALS {
        is_refused_at!(&rt, tree.remove(path), *wanted, path);
    }
    same!(&rt, tree.len(), 0);
}

/// Asserts that a removal at this path in an empty tree is refused, and that the refusal names the path.
fn is_no_path(rt: &(impl AllocGlobal + Abort), path: &str, size: usize) {
    let wanted = format!(in rt.alloc(); "E12 BadPath {path}").expect(rt, "no memory");
    let removed = Tree::new(rt.alloc()).remove(path);
    is_refused_at!(rt, removed, Some(wanted.as_str()), size);
}

#[test]
fn a_removal_at_a_longer_path_than_a_name_tells_the_path(rt: HostRuntime) {
    for size in [244, 248, 60_000] {
        let name = repeated(&rt, "x", size);
        let path = format!(in rt.alloc(); "lib/{name}.service").expect(&rt, "no memory");
        is_no_path(&rt, path.as_str(), size);
    }
}

/// Entries under `run/`, and two files elsewhere.
const UNDER_RUN: &[(&str, Entry<'static>)] = &[
    ("run/a.service", Entry::File("")),
    ("run/m.target.wants/a.service", Entry::Link("lib/a.service")),
    ("etc/run.service", Entry::File("")),
    ("lib/a.service", Entry::File("")),
];

#[test]
fn a_boot_leaves_nothing_under_run(rt: HostRuntime) {
    let mut tree = tree_of(&rt, UNDER_RUN);
    tree.clear_run();
    let left = (tree.get("etc/run.service"), tree.get("lib/a.service"));
    let file = Some(Entry::File(""));
    same!(&rt, (tree.len(), left), (2, (file, file)));
}

/// A tree of 4,096 files.
fn full(rt: &(impl AllocGlobal + Abort)) -> Tree {
    let mut tree = Tree::new(rt.alloc());
    for number in 0..4_096u32 {
        let path = format!(in rt.alloc(); "lib/a{number}.service").expect(rt, "no memory");
        tree.put(path.as_str(), "").expect(rt, "not put");
    }
    tree
}

/// An entry put into a tree of 4,096 files, and its refusal.
const PAST_THE_LIMIT: &[(&str, Entry<'static>, Option<&str>)] = &[
    (
        "lib/b.service",
        Entry::File(""),
        Some("E13 TooLarge entries"),
    ),
    (
        "lib/b.service",
        Entry::Link("/dev/null"),
        Some("E13 TooLarge entries"),
    ),
    ("lib/a0.service", Entry::File("x"), None),
];

#[test]
fn a_tree_has_4096_entries_at_most(rt: HostRuntime) {
    let mut tree = full(&rt);
    for (path, entry, wanted) in PAST_THE_LIMIT {
        same!(&rt, tree.len(), 4_096);
        is_refused_at!(&rt, put(&mut tree, path, *entry), *wanted, path);
    }
    same!(&rt, tree.len(), 4_096);
}

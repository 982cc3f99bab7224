//! Where a unit's name leads, and the files that the unit is read from.
use crate::answers::{list, tree_of};
use std::process::Abort;
use um_asserts::{same_at, text, unit};
use um_resolve::{Files, UnitFile, files_of};
use um_tree::{Entry, Tree};

/// A tree of templates, links and masks.
const TEMPLATES: &[(&str, Entry<'static>)] = &[
    ("lib/plug.socket", Entry::File("[Unit]")),
    ("etc/shutdown.target.d/a.conf", Entry::File("[Unit]")),
    ("lib/app@.service", Entry::File("[Service]")),
    ("run/empty.service", Entry::File("")),
    ("etc/web@.service", Entry::Link("../lib/app@.service")),
    ("etc/app@y.service", Entry::Link("app@.service")),
    ("etc/app@z.service", Entry::Link("/dev/null")),
    ("etc/other.service", Entry::Link("/lib/empty.service")),
    ("etc/kind.service", Entry::Link("shutdown.target")),
];

/// A file, and nine links to it in a chain.
const HOPS: &[(&str, Entry<'static>)] = &[
    ("etc/h0.service", Entry::File("[Service]")),
    ("etc/h9.service", Entry::Link("h8.service")),
    ("etc/h8.service", Entry::Link("h7.service")),
    ("etc/h7.service", Entry::Link("h6.service")),
    ("etc/h6.service", Entry::Link("h5.service")),
    ("etc/h5.service", Entry::Link("h4.service")),
    ("etc/h4.service", Entry::Link("h3.service")),
    ("etc/h3.service", Entry::Link("h2.service")),
    ("etc/h2.service", Entry::Link("h1.service")),
    ("etc/h1.service", Entry::Link("h0.service")),
];

/// The files of an instance, its template and another instance.
const DROP_INS: &[(&str, Entry<'static>)] = &[
    ("lib/app@.service", Entry::File("[Unit]")),
    ("lib/app@.service.d/20.conf", Entry::File("[Unit]")),
    ("etc/app@.service.d/30.conf", Entry::File("[Unit]")),
    ("run/app@x.service.d/30.conf", Entry::File("[Unit]")),
    ("lib/app@x.service.d/10.conf", Entry::File("[Unit]")),
    ("etc/app@x.service.d/10.conf", Entry::File("[Unit]")),
    ("etc/app@y.service.d/40.conf", Entry::File("[Unit]")),
    ("etc/app@x.service.wants/40.service", Entry::File("[Unit]")),
];

/// Where a name leads in a tree: to a unit that is read from the files at these paths, to the unit of that name, which is masked, or
/// nowhere.
struct Row {
    name: &'static str,
    files: Option<&'static [&'static str]>,
    masked: Option<&'static str>,
}

/// Names that lead to a file.
const FOUND: &[Row] = &[
    Row {
        name: "app@x.service",
        files: Some(&["lib/app@.service"]),
        masked: None,
    },
    Row {
        name: "web@x.service",
        files: Some(&["lib/app@.service"]),
        masked: None,
    },
    Row {
        name: "web@.service",
        files: Some(&["lib/app@.service"]),
        masked: None,
    },
    Row {
        name: "app@y.service",
        files: Some(&["lib/app@.service"]),
        masked: None,
    },
    Row {
        name: "web@y.service",
        files: Some(&["lib/app@.service"]),
        masked: None,
    },
    Row {
        name: "shutdown.target",
        files: Some(&["etc/shutdown.target.d/a.conf"]),
        masked: None,
    },
];

/// Names that lead to a mask.
const MASKED: &[Row] = &[
    Row {
        name: "app@z.service",
        files: None,
        masked: Some("app@z.service"),
    },
    Row {
        name: "web@z.service",
        files: None,
        masked: Some("app@z.service"),
    },
    Row {
        name: "other.service",
        files: None,
        masked: Some("empty.service"),
    },
];

/// Names that lead nowhere.
const LOST: &[Row] = &[
    Row {
        name: "plug.socket",
        files: None,
        masked: None,
    },
    Row {
        name: "kind.service",
        files: None,
        masked: None,
    },
    Row {
        name: "none.service",
        files: None,
        masked: None,
    },
];

/// Eight hops are found, and nine are not.
const HOPPING: &[Row] = &[
    Row {
        name: "h8.service",
        files: Some(&["etc/h0.service"]),
        masked: None,
    },
    Row {
        name: "h9.service",
        files: None,
        masked: None,
    },
];

/// Drop-ins stand by the names of their files.
const DROPPED_IN: &[Row] = &[
    Row {
        name: "app@x.service",
        files: Some(&[
            "lib/app@.service",
            "etc/app@x.service.d/10.conf",
            "lib/app@.service.d/20.conf",
            "run/app@x.service.d/30.conf",
        ]),
        masked: None,
    },
    Row {
        name: "app@.service",
        files: Some(&[
            "lib/app@.service",
            "lib/app@.service.d/20.conf",
            "etc/app@.service.d/30.conf",
        ]),
        masked: None,
    },
];

/// The paths of the files.
fn paths(rt: &(impl AllocGlobal + Abort), files: &[UnitFile]) -> Vec<String> {
    let mut paths = Vec::new(rt.alloc());
    for file in files {
        let path = text!(rt, file.path.as_str());
        paths.push(path).expect(rt, "no memory");
    }
    paths
}

/// The paths of the files that a name leads to, and the unit that is masked.
type Led = (Option<Vec<String>>, Option<String>);

/// Where these files lead.
fn led(rt: &(impl AllocGlobal + Abort), files: &Files) -> Led {
    match files {
        Files::Found(files) => (Some(paths(rt, files)), None),
        Files::Masked { unit } => (None, Some(text!(rt, unit.as_str()))),
        Files::NotFound => (None, None),
    }
}

/// Where the name leads in the tree.
fn follow(rt: &(impl AllocGlobal + Abort), tree: &Tree, name: &str) -> Led {
    let name = unit!(rt, name);
    let files = files_of(rt.alloc(), tree, &name).expect(rt, "no memory");
    let led = led(rt, &files);
    drop(files);
    led
}

/// The files that are wanted.
fn wanted(rt: &(impl AllocGlobal + Abort), row: &Row) -> Option<Vec<String>> {
    match row.files {
        Some(files) => Some(list(rt, files)),
        None => None,
    }
}

/// Asserts that the row's name leads in the tree where it is wanted.
fn leads(rt: &(impl AllocGlobal + Abort), tree: &Tree, row: &Row) {
    let (files, masked) = follow(rt, tree, row.name);
    same_at!(rt, files, wanted(rt, row), row.name);
    same_at!(rt, masked.as_deref(), row.masked, row.name);
}

/// Asserts that the names of the rows lead in the tree where it is wanted.
fn all_lead(rt: &(impl AllocGlobal + Abort), tree: &Tree, rows: &[Row]) {
    for row in rows {
        leads(rt, tree, row);
    }
}

/// Asserts that names lead to templates, links and masks where it is wanted.
fn templates_lead(rt: &(impl AllocGlobal + Abort)) {
    let tree = tree_of(rt, TEMPLATES);
    all_lead(rt, &tree, FOUND);
    all_lead(rt, &tree, MASKED);
    all_lead(rt, &tree, LOST);
}

#[test]
fn a_name_leads_to_files_or_to_a_mask_or_nowhere(rt: HostRuntime) {
    templates_lead(&rt);
    all_lead(&rt, &tree_of(&rt, HOPS), HOPPING);
    all_lead(&rt, &tree_of(&rt, DROP_INS), DROPPED_IN);
}

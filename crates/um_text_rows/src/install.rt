//! The links that each verb makes and removes.
use crate::answers::{list, tree_of};
use std::process::Abort;
use um_asserts::{same_at, unit};
use um_install::{Installed, disable, enable, mask, unmask};
use um_model::Profile;
use um_name::UnitName;
use um_tree::{Entry, Tree};
use um_unit::Reading;
use um_wire::Refusal;

/// A service that a target wants once it is enabled.
const TREE: &[(&str, Entry<'static>)] = &[(
    "lib/a.service",
    Entry::File("[Service]\nExecStart=/bin/true\n[Install]\nWantedBy=multi-user.target\n"),
)];

const WANT: &str = "etc/multi-user.target.wants/a.service";

const MASK: &str = "etc/a.service";

/// A verb, and the paths at which it makes links and removes them.
struct Row {
    verb: &'static str,
    made: &'static [&'static str],
    removed: &'static [&'static str],
}

/// Verbs, each of which has the tree that the one before left.
const ROWS: &[Row] = &[
    Row {
        verb: "enable",
        made: &[WANT],
        removed: &[],
    },
    Row {
        verb: "disable",
        made: &[],
        removed: &[WANT],
    },
    Row {
        verb: "mask",
        made: &[MASK],
        removed: &[],
    },
    Row {
        verb: "unmask",
        made: &[],
        removed: &[MASK],
    },
];

/// The tree that the verb makes from this one.
fn install(
    rt: &impl AllocGlobal,
    verb: &str,
    tree: &Tree,
    unit: &UnitName,
) -> Result<Installed, Refusal> {
    let reading = Reading {
        tree,
        profile: Profile::current(),
    };
    match verb {
        "enable" => enable(rt.alloc(), reading, unit),
        "disable" => disable(rt.alloc(), reading, unit),
        "mask" => mask(rt.alloc(), reading, unit),
        _ => unmask(rt.alloc(), reading, unit),
    }
}

/// Asserts that the verb of the row made these links and removed those.
fn made_and_removed(rt: &(impl AllocGlobal + Abort), installed: &Installed, row: &Row) {
    same_at!(rt, &installed.made, &list(rt, row.made), row.verb);
    same_at!(rt, &installed.removed, &list(rt, row.removed), row.verb);
}

/// The tree after the verb of the row, which makes and removes those links.
fn installed(rt: &(impl AllocGlobal + Abort), tree: &Tree, row: &Row) -> Box<Tree> {
    let installed = install(rt, row.verb, tree, &unit!(rt, "a.service"));
    let installed = installed.expect(rt, "refused");
    made_and_removed(rt, &installed, row);
    Box::new(rt.alloc(), installed.tree).expect(rt, "no memory")
}

#[test]
fn each_verb_makes_and_removes_its_links(rt: HostRuntime) {
    let mut tree = Box::new(rt.alloc(), tree_of(&rt, TREE)).expect(&rt, "no memory");
    for row in ROWS {
        tree = installed(&rt, tree.as_ref(), row);
    }
    let unmasked = tree.as_ref().get(MASK).is_none();
    same_at!(&rt, unmasked, true, "unmask");
}

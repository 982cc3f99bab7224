//! The units to which names lead, with one look-up for each name.

ghost use Rattle.std.specs.Prelude.{◌≡◌, IfOk};
ghost use Rattle.um_model.specs.Tree as model;
ghost use Rattle.um_model.specs.Units as units;
ghost use Rattle.um_graph.specs.Resolved.{LeadSo};
ghost use Rattle.um_tree.specs.Code.{tree_code};

use indexmap::IndexMap;
use std::alloc::{AllocError, Global};
use std::marker::Model;
use um_name::UnitName;
use um_resolve::unit_named;
use um_tree::Tree;

/// The units to which names lead in a tree, as far as they were requested. A name is looked up once, however often it is requested.
#[derive(Drop)]
pub(crate) struct Resolved<'t> {
    tree: &'t Tree,
    units: IndexMap<UnitName, UnitName>,
}

impl<'t> Model for Resolved<'t> {
    ghost Value = { model.Tree };

    ghost coded = { tree_code };

    ghost view = { λ r. r.tree.now };

    ghost invariant = { λ r. LeadSo r.tree.now r.units };
}

impl<'t> Resolved<'t> {
    /// No name was requested yet.
    pub(crate) fn new(alloc: Global, tree: &'t Tree) -> Resolved<'t>
        ensures { result ≡ tree.now }
    {
        Resolved {
            tree,
            units: IndexMap::new(alloc),
        }
    }

    /// The tree in which names are resolved.
    pub(crate) fn tree(&self) -> &'t Tree
        ensures { result.now ≡ self.now }
    {
        self.tree
    }

    /// The unit to which the name leads, or the name itself if it leads nowhere.
    pub(crate) fn unit(&mut self, alloc: Global, name: UnitName) -> Result<UnitName, AllocError>
        ensures unit { IfOk result (λ unit. unit ≡ units.unit_named self.old name) }
        ensures tree { self.new ≡ self.old }
    {
        if let Some(unit) = self.units.get(&name) {
            return unit.copy();
        }
        let unit = unit_named(alloc, self.tree, &name)?;
        self.units.insert(name, unit.copy()?)?;
        Ok(unit)
    }
}

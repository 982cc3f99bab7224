//! The names in the entries of a tree, and the relations from its links.

ghost use Rattle.std.specs.Prelude.{◌≡◌, ◌++◌, [], Some, IfOk, OnOk};
ghost use Rattle.std.specs.FinMap as map;
ghost use Rattle.std.specs.List.{flat_map};
ghost use Rattle.um_tree.specs.View.{entry_of};
ghost use Rattle.um_graph.specs.Tells.{both_of, entry_names, entry_told, link_names, link_told, own_name, tell, told_between};
ghost use Rattle.um_graph.specs.declared.told.Link.TheVariants.{Depends};
ghost use Rattle.um_model.specs.Units as units;

use crate::told::{Link, Told};
use std::alloc::{AllocError, Global};
use um_model::DependencyKind;
use um_name::UnitName;
use um_resolve::unit_named;
use um_tree::{Entry, Place, ServedPath, Tree};

/// The names in the entries of a tree, and the relations from its links.
#[derive(Drop)]
pub(crate) struct Found {
    pub(crate) names: Vec<UnitName>,
    pub(crate) told: Vec<Told>,
}

/// The relation that the first name's unit depends on the second's.
fn dependence(
    alloc: Global,
    tree: &Tree,
    kind: DependencyKind,
    unit: &UnitName,
    other: &UnitName,
) -> Result<Told, AllocError>
    ensures { IfOk result (λ t. t ≡ tell (Depends kind) (units.unit_named tree.now unit.now) (units.unit_named tree.now other.now)) }
{
    Ok(Told {
        link: Link::Depends(kind),
        from: unit_named(alloc, tree, unit)?,
        to: unit_named(alloc, tree, other)?,
    })
}

impl Found {
    /// These names, and no relations.
    pub(crate) fn of_names(alloc: Global, names: &[UnitName]) -> Result<Found, AllocError>
        ensures names { IfOk result (λ f. f.names.items ≡ names.now) }
        ensures told { IfOk result (λ f. f.told.items ≡ []) }
    {
        let mut copies = Vec::new(alloc);
        for name in names {
            copies.push(name.copy()?)?;
        }
        Ok(Found {
            names: copies,
            told: Vec::new(alloc),
        })
    }

    /// An entry of the unit itself names it, unless it is a template.
    fn add_own(&mut self, alloc: Global, unit: &str) -> Result<(), AllocError>
        ensures names { OnOk result (self.new.names.items ≡ self.old.names.items ++ own_name unit.now) }
        ensures told { OnOk result (self.new.told.items ≡ self.old.told.items) }
    {
        if let Some(unit) = UnitName::named(alloc, unit)? {
            if !unit.is_template() {
                self.names.push(unit)?;
            }
        }
        Ok(())
    }

    /// Adds both names, and that the one depends on the other.
    fn add_pair(
        &mut self,
        alloc: Global,
        tree: &Tree,
        kind: DependencyKind,
        unit: UnitName,
        other: UnitName,
    ) -> Result<(), AllocError>
        ensures names { OnOk result (self.new.names.items ≡ self.old.names.items ++ both_of (Some unit) (Some other)) }
        ensures told { OnOk result (self.new.told.items ≡ self.old.told.items ++ told_between tree.now kind (Some unit) (Some other)) }
    {
        self.told
            .push(dependence(alloc, tree, kind, &unit, &other)?)?;
        self.names.push(unit)?;
        self.names.push(other)?;
        Ok(())
    }

    /// A link in a directory of the unit adds the names of both units, and the relation that the one depends on the other.
    fn add_link(
        &mut self,
        alloc: Global,
        tree: &Tree,
        kind: DependencyKind,
        unit: &str,
        other: &str,
    ) -> Result<(), AllocError>
        ensures names { OnOk result (self.new.names.items ≡ self.old.names.items ++ link_names unit.now other.now) }
        ensures told { OnOk result (self.new.told.items ≡ self.old.told.items ++ link_told tree.now kind unit.now other.now) }
    {
        let Some(unit) = UnitName::named(alloc, unit)? else {
            return Ok(());
        };
        let Some(other) = UnitName::named(alloc, other)? else {
            return Ok(());
        };
        self.add_pair(alloc, tree, kind, unit, other)
    }

    /// Adds the names and relations of an entry. A file in a directory for wanted or required units is no link.
    fn add_entry(
        &mut self,
        alloc: Global,
        tree: &Tree,
        path: &str,
        entry: Entry<'_>,
    ) -> Result<(), AllocError>
        ensures names { OnOk result (self.new.names.items ≡ self.old.names.items ++ entry_names (path.now, entry_of entry.entry)) }
        ensures told { OnOk result (self.new.told.items ≡ self.old.told.items ++ entry_told tree.now (path.now, entry_of entry.entry)) }
    {
        let Some(parts) = ServedPath::parse(path) else {
            return Ok(());
        };
        match (parts.place(), entry) {
            (Place::Unit, _) => self.add_own(alloc, parts.unit())?,
            (Place::Wants(other), Entry::Link(_)) => {
                self.add_link(alloc, tree, DependencyKind::Wants, parts.unit(), other)?
            }
            (Place::Requires(other), Entry::Link(_)) => {
                self.add_link(alloc, tree, DependencyKind::Requires, parts.unit(), other)?
            }
            _ => {}
        }
        Ok(())
    }

    /// Adds the names and relations of all entries.
    pub(crate) fn add_tree(&mut self, alloc: Global, tree: &Tree) -> Result<(), AllocError>
        ensures names { OnOk result (self.new.names.items ≡ self.old.names.items ++ flat_map entry_names (map.entries tree.now)) }
        ensures told { OnOk result (self.new.told.items ≡ self.old.told.items ++ flat_map (entry_told tree.now) (map.entries tree.now)) }
    {
        for (path, entry) in tree.entries() {
            self.add_entry(alloc, tree, path, entry)?;
        }
        Ok(())
    }
}

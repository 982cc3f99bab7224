//! The name that counts for the requested one.

ghost use Rattle.std.specs.Prelude.{◌≡◌, IfOk, IfSome, Contains};
ghost use Rattle.um_answer.specs.Loaded.{Loads, is_found};
ghost use Rattle.um_model.specs.Profiles.{ReadTree};
ghost use Rattle.um_model.specs.Units.{load as load_in, name_in, unit_named};
ghost use Rattle.um_unit.specs.View.{loading_of, tree_read};

use std::alloc::{AllocError, Global};
use um_graph::Graph;
use um_name::UnitName;
use um_unit::{LoadedUnit, Loading, Reading, load};

/// The name that counts, by the outcome of the look-up: the last one to which the requested name leads, or that name itself if it leads
/// nowhere.
pub fn name_in<'u>(asked: &'u UnitName, loading: &'u Loading) -> &'u UnitName
    ensures { result.now ≡ name_in asked.now (loading_of loading.now) }
{
    match loading {
        Loading::Found(found) => name_of(found),
        Loading::Masked { unit } => unit,
        Loading::NotFound => asked,
        Loading::BadSetting { unit, .. } => unit,
    }
}

/// The name of a unit that was found. It is a function of its own because the prover takes a minute for the field in the arm above.
fn name_of(found: &LoadedUnit) -> &UnitName
    ensures { result.now ≡ found.now.name }
{
    &found.name
}

fn is_found(loading: &Loading) -> bool
    ensures { result ≡ is_found (loading_of loading.now) }
{
    !matches!(loading, Loading::NotFound)
}

/// The outcome of the look-up for a name, if the graph knows it.
pub(crate) fn loading_in<'g>(graph: &'g Graph, asked: &UnitName) -> Option<&'g Loading>
    ensures { (tree : ReadTree) → Loads graph.now tree → IfSome result (λ loading. loading_of loading.now ≡ load_in tree asked.now) }
{
    graph.loading(graph.number(asked)?)
}

/// The outcome of looking up a requested name.
#[derive(Drop)]
pub struct Asked {
    /// The unit that counts for it.
    pub unit: UnitName,
    /// It leads to a file, a mask, or a unit with a refused setting.
    pub is_found: bool,
}

impl Asked {
    /// The outcome for the name, by that of its look-up.
    fn by(asked: &UnitName, loading: &Loading) -> Result<Asked, AllocError>
        ensures unit { IfOk result (λ a. a.unit ≡ name_in asked.now (loading_of loading.now)) }
        ensures found { IfOk result (λ a. a.is_found ≡ is_found (loading_of loading.now)) }
    {
        Ok(Asked {
            unit: name_in(asked, loading).copy()?,
            is_found: is_found(loading),
        })
    }

    /// The outcome for the name in the tree as it is read. If the tree's graph knows the name, no file is read.
    pub fn of(
        alloc: Global,
        graph: &Graph,
        reading: Reading<'_>,
        asked: &UnitName,
    ) -> Result<Asked, AllocError>
        ensures unit { Loads graph.now (tree_read reading.entry) → IfOk result (λ a. a.unit ≡ unit_named reading.entry.tree.now asked.now) }
        ensures found { Loads graph.now (tree_read reading.entry)
            → IfOk result (λ a. a.is_found ≡ is_found (load_in (tree_read reading.entry) asked.now)) }
    {
        if let Some(loading) = loading_in(graph, asked) {
            return Asked::by(asked, loading);
        }
        Asked::by(asked, &load(alloc, reading, asked)?)
    }
}

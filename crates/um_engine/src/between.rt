//! The number of units in which two states differ, if nothing else does.

ghost use Rattle.std.specs.Prelude.{◌≡◌, ◌↔◌, ℕ, true, List, Contains, None, length, vec_len, IfOk, IfSome, IsTrue};
ghost use Rattle.um_engine.specs.Engine.{AreTrees, DiffersInRows, HasSameTreesAndNames, HasSameTables, HasSameTrees, KnowsTheSame};
ghost use Rattle.um_model.specs.Dependencies.{IsKnown};
ghost use Rattle.um_model.specs.Machine.{IsHeld};
ghost use Rattle.um_name.specs.Names.{AreAscending};
ghost use Rattle.um_state.specs.Deltas.{delta_after};
ghost use Rattle.um_state.specs.View.{state_of};
ghost use Rattle.um_state.specs.Working.{AreRowsOf, CountsDiffering, with_rows};

use crate::same::{is_same_names, is_same_reading, is_same_tree};
use crate::served::Served;
use std::alloc::{AllocError, Global};
use um_graph::known_units;
use um_name::Names;
use um_state::{Delta, Numbered, State, Work};

/// What is clear, without a look into them, about the trees that a command leaves.
#[derive(Clone, Copy)]
pub enum Trees {
    /// Neither tree has changed, nor has the boot's id.
    Stay,
    /// The tree in hand has changed.
    Differ,
    /// Nothing.
    Untold,
}

/// Whether the tree in hand, the loaded one with its profile, and the boot's id are the same.
fn has_same_trees(state: &State, other: &State) -> bool
    ensures { IsTrue result ↔ (((state_of other.now).tree ≡ (state_of state.now).tree)
        × ((state_of other.now).loaded ≡ (state_of state.now).loaded) × ((state_of other.now).boot ≡ (state_of state.now).boot)) }
{
    if !is_same_tree(other.tree(), state.tree()) {
        return false;
    }
    if !is_same_reading(other.loaded(), state.loaded()) {
        return false;
    }
    other.boot().as_str() == state.boot().as_str()
}

/// Whether they are the same, with a look into the trees only if `trees` doesn't say.
fn are_same(trees: Trees, state: &State, other: &State) -> bool
    requires { AreTrees trees (state_of state.now) (state_of other.now) }
    ensures { IsTrue result ↔ HasSameTrees (state_of state.now) (state_of other.now) }
{
    match trees {
        Trees::Stay => true,
        Trees::Differ => false,
        Trees::Untold => has_same_trees(state, other),
    }
}

/// The names of the units that are known for the served state.
fn known_names(alloc: Global, served: &Served) -> Result<Names, AllocError>
    ensures known { IfOk result (λ names. (unit : List ℕ) → Contains names unit ↔ IsKnown served.now.state.loaded (IsHeld served.now.state) unit) }
    ensures ascending { IfOk result AreAscending }
{
    let state = served.state();
    let known = served.known();
    if known.is_exact(state) {
        let names = known.names().copy()?;
        return Ok(names);
    }
    let held = state.held(alloc)?;
    let units = known_units(alloc, state.loaded(), &held)?;
    let names = Names::of(alloc, &units)?;
    Ok(names)
}

/// Whether the same units are known for both.
fn knows_the_same(alloc: Global, served: &Served, after: &Served) -> Result<bool, AllocError>
    ensures { IfOk result (λ same. IsTrue same ↔ KnowsTheSame served.now.state after.now.state) }
{
    let names = known_names(alloc, served)?;
    let others = known_names(alloc, after)?;
    Ok(is_same_names(&names, &others))
}

/// Puts these rows in place of those the work began with. It takes no memory.
fn put_rows(work: &mut Work<'_>, was: Numbered<'_>, rows: Numbered<'_>)
    requires begins { work.old.now ≡ work.old.base }
    requires was { AreRowsOf work.old.base was }
    requires units { length rows.units.now ≡ length work.old.base.names }
    requires jobs { length rows.jobs.now ≡ length work.old.base.names }
    ensures base { work.new.base ≡ work.old.base }
    ensures now { work.new.now ≡ with_rows work.old.base rows.entry.units.now rows.entry.jobs.now (state_of work.old.base).next }
{
    for number in 0..was.units.len() {
        work.set_unit(number, rows.units[number]);
        work.set_jobs(number, rows.jobs[number]);
    }
}

/// The rows that differ, if nothing else does.
fn delta_to(
    alloc: Global,
    base: &State,
    was: Numbered<'_>,
    after: &State,
    rows: Numbered<'_>,
) -> Result<Delta, AllocError>
    requires same { HasSameTreesAndNames base.now after.now }
    requires was { AreRowsOf base.now was }
    requires rows { AreRowsOf after.now rows }
    ensures after { IfOk result (λ d. delta_after d base.now ≡ after.now) }
    ensures count { IfOk result (λ d. CountsDiffering (state_of base.now) (state_of after.now) (vec_len d.rows)) }
{
    let Some(mut work) = Work::of(alloc, base)? else {
        // it has rows: these
        unreachable!()
    };
    put_rows(&mut work, was, rows);
    work.set_next(after.next());
    let delta = Delta::of(alloc, &work, after.clock())?;
    Ok(delta)
}

/// The number of units whose held state differs, by rows under the same numbers.
fn rows_to(alloc: Global, base: &State, after: &State) -> Result<usize, AllocError>
    requires same { HasSameTreesAndNames base.now after.now }
    requires base { base.now.common ≡ true }
    requires after { after.now.common ≡ true }
    ensures { IfOk result (λ rows. CountsDiffering (state_of base.now) (state_of after.now) rows) }
{
    let Some(was) = base.numbered() else {
        unreachable!()
    };
    let Some(rows) = after.numbered() else {
        unreachable!()
    };
    let delta = delta_to(alloc, base, was, after, rows)?;
    Ok(delta.len())
}

/// The number of units whose held state differs, if the trees and the known units are the same: by name, since the numbers may differ.
fn rows_by_name(alloc: Global, served: &Served, after: &Served) -> Result<usize, AllocError>
    requires { HasSameTables served.now.state after.now.state }
    ensures { IfOk result (λ rows. CountsDiffering served.now.state after.now.state rows) }
{
    let mut base = served.state().copy()?;
    base.number(after.known().names())?;
    let rows = rows_to(alloc, &base, after.standing())?;
    Ok(rows)
}

/// The number of units whose held state differs after a step. None if a tree, the boot's id or the known units differ.
pub fn rows_between(
    alloc: Global,
    served: &Served,
    after: &Served,
    trees: Trees,
) -> Result<Option<usize>, AllocError>
    requires { AreTrees trees served.now.state after.now.state }
    ensures rows { IfOk result (λ made. IfSome made (DiffersInRows served.now.state after.now.state)) }
    ensures none { IfOk result (λ made. made ≡ None → ¬ HasSameTables served.now.state after.now.state) }
{
    if !are_same(trees, served.state(), after.state()) {
        return Ok(None);
    }
    let same = knows_the_same(alloc, served, after)?;
    if !same {
        return Ok(None);
    }
    let rows = rows_by_name(alloc, served, after)?;
    Ok(Some(rows))
}

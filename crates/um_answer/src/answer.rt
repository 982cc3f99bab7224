//! The reply to a query, from the state and its graph.

ghost use Rattle.std.specs.Prelude.{◌≡◌, IfOk};
ghost use Rattle.um_model.specs.Install.{IsEnabledAs};
ghost use Rattle.um_model.specs.Jobs.{jobs_shown};
ghost use Rattle.um_model.specs.Machine as model;
ghost use Rattle.um_model.specs.Resolution.{resolution_of};
ghost use Rattle.um_model.specs.Service.{active_state_of, state_of_unit};
ghost use Rattle.um_model.specs.Units.{load as load_in, name_in};
ghost use Rattle.um_state.specs.View.{state_of, query_of, reply_of, shown_of as shown_view};
ghost use Rattle.um_model.specs.declared.install.Enabling.{Enabling};
ghost use Rattle.um_model.specs.Profiles.{current, read_by};
ghost use Rattle.um_unit.specs.View.{loading_of, tree_read, unit_of};
ghost use Rattle.um_answer.specs.Loaded.{Loads};
ghost use Rattle.um_answer.specs.Shown.{shown_of_loaded};

use crate::listing::list_units;
use crate::names::{Asked, loading_in, name_in};
use std::alloc::{AllocError, Global};
use std::rc::Rc;
use um_graph::Graph;
use um_install::is_enabled;
use um_model::{LoadState, Profile, UnitState};
use um_name::UnitName;
use um_resolve::{Files, files_of};
use um_state::{Query, Reply, State, UnitShown};
use um_tree::Tree;
use um_unit::{LoadedUnit, Loading, Reading, load};
use um_wire::{masked, not_found};

/// A unit that isn't loaded is shown with no description and no warning.
fn shown_without_settings(
    alloc: Global,
    unit: &UnitName,
    load: LoadState,
    state: UnitState,
) -> Result<UnitShown, AllocError>
    ensures { IfOk result (λ u. shown_view u ≡ model.shown_without_settings unit.now load state) }
{
    Ok(UnitShown {
        id: unit.text()?,
        load,
        description: String::new(alloc),
        warnings: Rc::new(alloc, Vec::new(alloc))?,
        state,
    })
}

fn shown_loaded(alloc: Global, unit: &LoadedUnit, state: UnitState) -> Result<UnitShown, AllocError>
    ensures { IfOk result (λ u. shown_view u ≡ shown_of_loaded (unit_of unit.now) state) }
{
    Ok(UnitShown {
        id: unit.name.text()?,
        load: LoadState::Loaded,
        description: unit.settings.description.clone()?,
        warnings: unit.warnings.clone()?,
        state,
    })
}

fn shown(
    alloc: Global,
    asked: &UnitName,
    loading: &Loading,
    state: UnitState,
) -> Result<UnitShown, AllocError>
    ensures { IfOk result (λ u. shown_view u ≡ model.shown_of asked.now (loading_of loading.now) state) }
{
    match loading {
        Loading::Found(loaded) => shown_loaded(alloc, loaded, state),
        Loading::Masked { unit } => shown_without_settings(alloc, unit, LoadState::Masked, state),
        Loading::NotFound => shown_without_settings(alloc, asked, LoadState::NotFound, state),
        Loading::BadSetting { unit, .. } => {
            shown_without_settings(alloc, unit, LoadState::BadSetting, state)
        }
    }
}

/// The state of the unit that counts for the requested name, by the outcome of the look-up.
fn show_by(
    alloc: Global,
    state: &State,
    asked: &UnitName,
    loading: &Loading,
) -> Result<Reply, AllocError>
    ensures { IfOk result (λ reply. reply_of reply ≡ model.Shown (model.shown_of asked.now (loading_of loading.now)
        (state_of_unit (state_of state.now).units (name_in asked.now (loading_of loading.now))))) }
{
    let stands = state.units().get(name_in(asked, loading));
    let shown = shown(alloc, asked, loading, stands)?;
    Ok(Reply::Shown(Box::new(alloc, shown)?))
}

/// The state of the unit that counts for the requested name. If the graph of the loaded tree knows the name, no file is read.
#[tactic(auto, using(um_model::proofs::OwnNameLaws::named_by_loading))]
fn show(alloc: Global, state: &State, graph: &Graph, asked: &UnitName) -> Result<Reply, AllocError>
    ensures { Loads graph.now (state_of state.now).loaded → IfOk result (λ reply. reply_of reply
        ≡ model.Shown (model.shown_of asked.now (load_in (state_of state.now).loaded asked.now) (model.state_asked (state_of state.now) asked.now))) }
{
    if let Some(loading) = loading_in(graph, asked) {
        return show_by(alloc, state, asked, loading);
    }
    show_by(alloc, state, asked, &load(alloc, state.loaded(), asked)?)
}

/// The active state of that unit.
fn activity(
    alloc: Global,
    state: &State,
    graph: &Graph,
    asked: &UnitName,
) -> Result<Reply, AllocError>
    ensures { Loads graph.now (state_of state.now).loaded
        → IfOk result (λ reply. reply_of reply ≡ model.Activity (active_state_of (model.state_asked (state_of state.now) asked.now).sub)) }
{
    let leads = Asked::of(alloc, graph, state.loaded(), asked)?;
    let stands = state.units().get(&leads.unit);
    Ok(Reply::Activity(stands.sub.active_state()))
}

/// The files of a unit in the tree in hand. Refused if it isn't found (E4) or is masked (E5).
fn cat(alloc: Global, tree: &Tree, asked: &UnitName) -> Result<Reply, AllocError>
    ensures { IfOk result (λ reply. reply_of reply ≡ model.files_told tree.now asked.now (resolution_of tree.now asked.now)) }
{
    match files_of(alloc, tree, asked)? {
        Files::Found(files) => Ok(Reply::Files(files)),
        Files::Masked { unit } => Ok(Reply::Refused(masked(alloc, unit.as_str())?)),
        Files::NotFound => Ok(Reply::Refused(not_found(alloc, asked.as_str())?)),
    }
}

/// The tree in hand as queries read it: by the current profile.
fn in_hand(state: &State) -> Reading<'_>
    ensures { tree_read result ≡ read_by current (state_of state.now).tree }
{
    Reading {
        tree: state.tree(),
        profile: Profile::current(),
    }
}

/// How a unit is enabled in the tree in hand.
fn enabled_as(alloc: Global, reading: Reading<'_>, asked: &UnitName) -> Result<Reply, AllocError>
    ensures { IfOk result (λ reply. (answer : Enabling) × IsEnabledAs (tree_read reading.entry) asked.now answer × (reply_of reply ≡ model.EnabledAs answer)) }
{
    Ok(Reply::EnabledAs(is_enabled(alloc, reading, asked)?))
}

/// The reply with all pending jobs.
fn list_jobs(state: &State) -> Result<Reply, AllocError>
    ensures { IfOk result (λ reply. reply_of reply ≡ model.Jobs (jobs_shown (state_of state.now).pending)) }
{
    Ok(Reply::Jobs(state.pending().shown()?))
}

/// The reply to a query, by a graph that holds the loaded tree's loadings: no file of its units is read. The list of units is made again,
/// since the graph may know more of them.
pub fn reply_to(
    alloc: Global,
    state: &State,
    graph: &Graph,
    query: &Query,
) -> Result<Reply, AllocError>
    ensures { Loads graph.now (state_of state.now).loaded → IfOk result (λ reply. model.IsReplyTo (state_of state.now) (query_of query.now) (reply_of reply)) }
{
    match query {
        Query::Show { unit } => show(alloc, state, graph, unit),
        Query::IsActive { unit } | Query::IsFailed { unit } => activity(alloc, state, graph, unit),
        Query::Cat { unit } => cat(alloc, state.tree(), unit),
        Query::IsEnabled { unit } => enabled_as(alloc, in_hand(state), unit),
        Query::ListUnits => list_units(alloc, state),
        Query::ListJobs => list_jobs(state),
    }
}

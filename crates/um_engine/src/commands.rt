//! The effects of commands, and why they are refused.

ghost use Rattle.std.specs.Prelude.{◌≡◌, [], ℕ, false, None, Err, IfOk, IfErr, OnOk};
ghost use Rattle.um_engine.specs.Known.{KnowsFor};
ghost use Rattle.um_engine.specs.Outcomes.{IsBasedOn, IsSilent, actions_by, reply_by, state_by};
ghost use Rattle.um_engine.specs.Served.{WorksOn};
ghost use Rattle.um_falling.specs.Work.{Keeps};
ghost use Rattle.um_model.specs.Install.{paths_beyond};
ghost use Rattle.um_model.specs.Jobs.{cancelled, jobs_of_unit};
ghost use Rattle.um_model.specs.Live.{HoldsNoMore};
ghost use Rattle.um_model.specs.Machine as model;
ghost use Rattle.um_model.specs.Refusals as told;
ghost use Rattle.um_model.specs.Tree.{link_cause, put_cause, put_file, put_link, remove_at, remove_cause};
ghost use Rattle.um_model.specs.Waiting.{has_waiting};
ghost use Rattle.um_model.specs.declared.profile.Profile.{Profile};
ghost use Rattle.um_unit.specs.View.{tree_read};
ghost use Rattle.um_state.specs.View.{state_of, command_of, reply_of};
ghost use Rattle.um_wire.specs.Gives.{RefusesBy};
ghost use Rattle.um_wire.specs.Refusal.{refused_of};
ghost use Rattle.um_wire.specs.declared.refusal.Refusal.TheVariants.{NoMemory};

use crate::between::Trees;
use crate::known::Known;
use crate::loading::{check_order, known_of_loaded};
use crate::numbered::jobs_in;
use crate::planning::planned;
use crate::resetting::{asked_unit, without_failures};
use crate::same::has_entry;
use crate::served::Served;
use std::alloc::{AllocError, Global};
use std::rc::Rc;
use um_falling::Work;
use um_install::{Installed, check_units, relink};
use um_model::{InstallVerb, Moment, Profile};
use um_name::UnitName;
use um_state::{Command, Reply, State};
use um_tree::{Entry, Tree};
use um_unit::Reading;
use um_wire::{Refusal, no_such_job};

/// Takes out the waiting jobs of the unit. It is refused if there is none (E21).
fn cancel_waiting(work: &mut Work<'_>, unit: &UnitName) -> Result<(), Refusal>
    ensures state { OnOk result (state_of work.new.now
        ≡ model.with_plan (state_of work.old.now) unit.now (cancelled (jobs_of_unit (state_of work.old.now).pending unit.now))) }
    ensures keeps { OnOk result (Keeps work.old work.new) }
    ensures actions { OnOk result (work.new.actions ≡ work.old.actions) }
    ensures refused { RefusesBy (λ r. (has_waiting (jobs_of_unit (state_of work.old.now).pending unit.now) ≡ false) × (r ≡ told.no_such_job unit.now)) result }
{
    let Some(number) = work.graph().number(unit) else {
        return Err(no_such_job(work.alloc(), unit.as_str())?);
    };
    let mut jobs = jobs_in(work)?;
    jobs.cancel(work.alloc(), number, unit)?;
    work.set_jobs(number, jobs.get(number));
    Ok(())
}

/// The work without the waiting jobs of a unit. It is refused if the unit is neither found nor held (E7), and if none of its jobs waits
/// (E21).
fn without_waiting<'s>(
    alloc: Global,
    served: &'s Served,
    moment: Moment,
    asked: &UnitName,
) -> Result<Work<'s>, Refusal>
    ensures changed { (profile : Profile) → IfOk result (λ work. model.Changes profile served.now.state (model.Cancel asked.now) (state_of work.now)) }
    ensures actions { IfOk result (λ work. work.actions ≡ []) }
    ensures works { IfOk result (λ work. WorksOn served.now work) }
    ensures moment { IfOk result (λ work. work.moment ≡ moment) }
    ensures refused { (profile : Profile) → RefusesBy (model.Refuses profile served.now.state (model.Cancel asked.now)) result }
{
    let unit = asked_unit(alloc, served, asked)?;
    let mut work = served.work(alloc, moment)?;
    cancel_waiting(&mut work, &unit)?;
    Ok(work)
}

/// Refuses a file with the text at the path for the first cause that applies, before anything is copied.
fn check_put(alloc: Global, state: &State, path: &str, text: &str) -> Result<(), Refusal>
    ensures ok { OnOk result (put_cause (state_of state.now).tree path.now text.now ≡ None) }
    ensures refused { IfErr result (λ e. ¬ (e ≡ NoMemory) → put_file (state_of state.now).tree path.now text.now ≡ Err (refused_of e)) }
{
    match state.tree().put_cause(path, text) {
        Some(cause) => Err(cause.refusal(alloc)),
        None => Ok(()),
    }
}

/// The state with the file in its tree in hand.
fn with_file(state: &State, path: &str, text: &str) -> Result<State, Refusal>
    ensures changed { (profile : Profile) → IfOk result (λ u. model.Changes profile (state_of state.now) (model.PutFile path.now text.now) (state_of u)) }
    ensures refused { (profile : Profile) → RefusesBy (model.Refuses profile (state_of state.now) (model.PutFile path.now text.now)) result }
{
    let mut changed = state.copy()?;
    changed.put_file(path, text)?;
    Ok(changed)
}

/// Refuses a link to the target at the path for the first cause that applies, before anything is copied.
fn check_link(alloc: Global, state: &State, path: &str, target: &str) -> Result<(), Refusal>
    ensures ok { OnOk result (link_cause (state_of state.now).tree path.now target.now ≡ None) }
    ensures refused { IfErr result (λ e. ¬ (e ≡ NoMemory) → put_link (state_of state.now).tree path.now target.now ≡ Err (refused_of e)) }
{
    match state.tree().link_cause(path, target) {
        Some(cause) => Err(cause.refusal(alloc)),
        None => Ok(()),
    }
}

/// The state with the link in its tree in hand.
fn with_link(state: &State, path: &str, target: &str) -> Result<State, Refusal>
    ensures changed { (profile : Profile) → IfOk result (λ u. model.Changes profile (state_of state.now) (model.PutLink path.now target.now) (state_of u)) }
    ensures refused { (profile : Profile) → RefusesBy (model.Refuses profile (state_of state.now) (model.PutLink path.now target.now)) result }
{
    let mut changed = state.copy()?;
    changed.put_link(path, target)?;
    Ok(changed)
}

/// Refuses a removal at the path for the first cause that applies, before anything is copied.
fn check_remove(alloc: Global, state: &State, path: &str) -> Result<(), Refusal>
    ensures ok { OnOk result (remove_cause (state_of state.now).tree path.now ≡ None) }
    ensures refused { IfErr result (λ e. ¬ (e ≡ NoMemory) → remove_at (state_of state.now).tree path.now ≡ Err (refused_of e)) }
{
    match state.tree().remove_cause(path) {
        Some(cause) => Err(cause.refusal(alloc)),
        None => Ok(()),
    }
}

/// The state without the entry at the path in its tree in hand.
fn without_path(state: &State, path: &str) -> Result<State, Refusal>
    ensures changed { (profile : Profile) → IfOk result (λ u. model.Changes profile (state_of state.now) (model.Remove path.now) (state_of u)) }
    ensures refused { (profile : Profile) → RefusesBy (model.Refuses profile (state_of state.now) (model.Remove path.now)) result }
{
    let mut changed = state.copy()?;
    changed.remove(path)?;
    Ok(changed)
}

/// The outcome of a command before any job begins, and its reply.
#[derive(Drop)]
pub enum Outcome<'s> {
    /// Units and pending jobs alone change, and the reply is Done.
    Rows(Work<'s>),
    /// A tree or the `Known` is a new one. `Trees` says which trees differ, as far as that is clear.
    Tables(Served, Reply, Trees),
}

/// The served value with a command's new trees; the state holds nothing new, so `Known` stays.
fn kept(served: &Served, state: State) -> Result<Served, AllocError>
    requires { HoldsNoMore served.now.state (state_of state) }
    ensures { IfOk result (λ u. u.state ≡ state_of state) }
{
    Served::numbered(state, served.share_known()?)
}

/// The outcome of putting a file with the text at the path: nothing changes if it stands there already. No other text is read.
fn filed<'s>(
    alloc: Global,
    served: &'s Served,
    moment: Moment,
    path: &str,
    text: &str,
) -> Result<Outcome<'s>, Refusal>
    ensures changed { (profile : Profile) → IfOk result (λ o. model.Changes profile served.now.state (model.PutFile path.now text.now) (state_by o)) }
    ensures silent { IfOk result (λ o. IsSilent o) }
    ensures based { IfOk result (IsBasedOn served.now moment) }
    ensures refused { (profile : Profile) → RefusesBy (model.Refuses profile served.now.state (model.PutFile path.now text.now)) result }
{
    let state = served.state();
    check_put(alloc, state, path, text)?;
    if has_entry(state.tree(), path, Entry::File(text)) {
        return Ok(Outcome::Rows(served.work(alloc, moment)?));
    }
    let changed = with_file(state, path, text)?;
    Ok(Outcome::Tables(kept(served, changed)?, Reply::Done, Trees::Differ))
}

/// The outcome of putting a link to the target at the path: nothing changes if it stands there already.
fn linked<'s>(
    alloc: Global,
    served: &'s Served,
    moment: Moment,
    path: &str,
    target: &str,
) -> Result<Outcome<'s>, Refusal>
    ensures changed { (profile : Profile) → IfOk result (λ o. model.Changes profile served.now.state (model.PutLink path.now target.now) (state_by o)) }
    ensures silent { IfOk result (λ o. IsSilent o) }
    ensures based { IfOk result (IsBasedOn served.now moment) }
    ensures refused { (profile : Profile) → RefusesBy (model.Refuses profile served.now.state (model.PutLink path.now target.now)) result }
{
    let state = served.state();
    check_link(alloc, state, path, target)?;
    if has_entry(state.tree(), path, Entry::Link(target)) {
        return Ok(Outcome::Rows(served.work(alloc, moment)?));
    }
    let changed = with_link(state, path, target)?;
    Ok(Outcome::Tables(kept(served, changed)?, Reply::Done, Trees::Differ))
}

/// The outcome of removing the entry at the path from the tree in hand.
fn removed<'s>(alloc: Global, served: &'s Served, path: &str) -> Result<Outcome<'s>, Refusal>
    ensures changed { (profile : Profile) → IfOk result (λ o. model.Changes profile served.now.state (model.Remove path.now) (state_by o)) }
    ensures silent { IfOk result (λ o. IsSilent o) }
    ensures based { IfOk result (λ o. (t : ℕ) → IsBasedOn served.now t o) }
    ensures refused { (profile : Profile) → RefusesBy (model.Refuses profile served.now.state (model.Remove path.now)) result }
{
    let state = served.state();
    check_remove(alloc, state, path)?;
    let changed = without_path(state, path)?;
    Ok(Outcome::Tables(kept(served, changed)?, Reply::Done, Trees::Differ))
}

/// The tree as it is read once an input of this profile loads it.
fn as_loaded<'t>(state: &State, profile: Profile, tree: &'t Tree) -> Reading<'t>
    ensures { tree_read result ≡ model.as_loaded profile (state_of state.now) tree.now }
{
    Reading {
        tree,
        profile: state.loaded().profile.later(profile),
    }
}

/// The state with its tree in hand as the loaded one, for an input of this profile.
fn with_loaded(state: &State, profile: Profile) -> Result<State, AllocError>
    ensures { IfOk result (λ u. state_of u
        ≡ record (state_of state.now) { loaded = model.as_loaded profile (state_of state.now) (state_of state.now).tree }) }
{
    let mut changed = state.copy()?;
    changed.reload(profile)?;
    Ok(changed)
}

/// The state with its tree in hand loaded, for an input of this profile. Refused with too many known units (E13), and with pending jobs in
/// a circle (E9).
fn reloaded(alloc: Global, state: &State, profile: Profile) -> Result<Served, Refusal>
    ensures changed { IfOk result (λ u. model.Changes profile (state_of state.now) model.DaemonReload u.state) }
    ensures refused { RefusesBy (model.Refuses profile (state_of state.now) model.DaemonReload) result }
{
    let known = known_of_loaded(alloc, state, as_loaded(state, profile, state.tree()))?;
    let changed = with_loaded(state, profile)?;
    Ok(Served::numbered(changed, known)?)
}

/// The state with that tree, loaded for an input of this profile, and with this `Known`.
fn with_tree(
    state: &State,
    tree: Tree,
    profile: Profile,
    known: Rc<Known>,
) -> Result<Served, AllocError>
    requires { KnowsFor known.value (record (state_of state.now) { loaded = model.as_loaded profile (state_of state.now) tree }) }
    ensures { IfOk result (λ u. u.state ≡ record (state_of state.now) { tree = tree; loaded = model.as_loaded profile (state_of state.now) tree }) }
{
    let mut changed = state.copy()?;
    changed.load_tree(tree, profile)?;
    Served::numbered(changed, known)
}

/// The state after the unit was enabled, disabled or the like and the tree loaded, for an input of this profile. Refused, in this order:
/// links that can't be made (E12, E11, E13 `entries`), too many known units (E13 `units`), a unit that can't be enabled (E4 to E6), and
/// pending jobs in a circle (E9).
fn installed(
    alloc: Global,
    state: &State,
    profile: Profile,
    verb: InstallVerb,
    unit: &UnitName,
) -> Result<(Served, Reply), Refusal>
    ensures changed { IfOk result (λ o. model.Changes profile (state_of state.now) (model.Install verb unit.now) o.0.state) }
    ensures reply { IfOk result (λ o. reply_of o.1
        ≡ model.Relinked (paths_beyond (state_of state.now).tree o.0.state.tree) (paths_beyond o.0.state.tree (state_of state.now).tree)) }
    ensures refused { RefusesBy (model.Refuses profile (state_of state.now) (model.Install verb unit.now)) result }
{
    let in_hand = Reading {
        tree: state.tree(),
        profile,
    };
    let Installed {
        tree,
        made,
        removed,
    } = relink(alloc, in_hand, verb, unit)?;
    let known = Known::of(alloc, as_loaded(state, profile, &tree), state, None)?;
    check_units(alloc, in_hand, verb, unit)?;
    check_order(alloc, &known, state)?;
    let served = with_tree(state, tree, profile, known)?;
    Ok((served, Reply::Relinked { made, removed }))
}

/// The outcome of a command of an input of this profile at the moment, before any job begins; or its refusal.
pub fn done<'s>(
    alloc: Global,
    served: &'s Served,
    moment: Moment,
    profile: Profile,
    command: &Command,
) -> Result<Outcome<'s>, Refusal>
    ensures does { IfOk result (λ o. model.Does profile moment served.now.state (command_of command.now) (actions_by o) (state_by o)) }
    ensures reply { IfOk result (λ o. reply_by o ≡ model.reply_after (model.Commanded (command_of command.now)) served.now.state.tree (state_by o).tree) }
    ensures refused { RefusesBy (model.Refuses profile served.now.state (command_of command.now)) result }
    ensures based { IfOk result (λ o. IsBasedOn served.now moment o) }
{
    let state = served.state();
    match command {
        Command::PutFile { path, text } => {
            let outcome = filed(alloc, served, moment, path.as_str(), text.as_str())?;
            Ok(outcome)
        }
        Command::PutLink { path, target } => {
            let outcome = linked(alloc, served, moment, path.as_str(), target.as_str())?;
            Ok(outcome)
        }
        Command::Remove { path } => {
            let outcome = removed(alloc, served, path.as_str())?;
            Ok(outcome)
        }
        Command::DaemonReload => Ok(Outcome::Tables(
            reloaded(alloc, state, profile)?,
            Reply::Done,
            Trees::Untold,
        )),
        Command::ForUnit { verb, unit, mode } => {
            let outcome = planned(alloc, served, moment, *verb, unit, *mode)?;
            Ok(outcome)
        }
        Command::Cancel { unit } => Ok(Outcome::Rows(without_waiting(
            alloc, served, moment, unit,
        )?)),
        Command::ResetFailed { unit } => {
            Ok(Outcome::Rows(without_failures(alloc, served, moment, unit)?))
        }
        Command::Install { verb, unit } => {
            let (served, reply) = installed(alloc, state, profile, *verb, unit)?;
            Ok(Outcome::Tables(served, reply, Trees::Untold))
        }
    }
}

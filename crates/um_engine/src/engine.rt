//! The engine: it plans a step, takes it, takes it back, and answers queries.

ghost use Rattle.std.specs.Prelude.{◌≡◌, ◌≢◌, ◌↔◌, [], true, false, All, None, is_some, map, vec_len, IfOk, IfErr, IfSome, IsTrue, OnOk};
ghost use Rattle.um_engine.specs.Engine.{AreTrees, DiffersInRows, HasSameTables, KeepsExact, LacksEffect, LeadsTo, Obeys, Settled, SettlesTooHeavy, TellsRows, changed, standing_in, state_in, size_in, has_effect_in, rows_in, state_after, reply_in, actions_in, state_before, served_after, served_before, served_by, served_in};
ghost use Rattle.um_engine.specs.Exact.{IsExact, IsExactIfFew, LetsNoneGo};
ghost use Rattle.um_engine.specs.OfStore.{is_of_store};
ghost use Rattle.um_engine.specs.Planned.{Declines};
ghost use Rattle.um_engine.specs.Served.{WorksOn, standing_of};
ghost use Rattle.um_falling.specs.Work.{Goes, Keeps};
ghost use Rattle.um_model.specs.Machine as model;
ghost use Rattle.um_model.specs.Machine.{Step, moment_of};
ghost use Rattle.um_model.specs.Refusals.{Refused};
ghost use Rattle.um_model.specs.Servable.{IsServable};
ghost use Rattle.um_state.specs.Deltas.{delta_after};
ghost use Rattle.um_state.specs.Working.{CountsDiffering};
ghost use Rattle.um_state.specs.View.{state_of, input_of, query_of, reply_of, action_of, command_of};
ghost use Rattle.um_wire.specs.Gives.{RefusesBy};
ghost use Rattle.um_wire.specs.Refusal.{refused_of};
ghost use Rattle.um_wire.specs.declared.refusal.Refusal.TheVariants.{NoMemory};

use crate::between::{Trees, rows_between};
use crate::commands::{Outcome, done};
use crate::happenings::{is_unawaited, met};
use crate::loading::known_of_loaded;
use crate::memory::is_for_memory;
use crate::room::{check_room, check_room_in};
use crate::served::Served;
use crate::settling::settle;
use std::alloc::{AllocError, Global};
use std::mem;
use um_answer::{list_known, reply_to};
use um_falling::Work;
use um_model::{Moment, Profile};
use um_state::{Action, Command, Delta, Event, Input, Query, Reply, State};
use um_wire::Refusal;

/// The manager's state with the graph of its loaded tree, and the size of its store.
pub struct Engine {
    alloc: Global,
    served: Served,
    size: u64,
}

// One call for the prover, which takes a derived `Drop` apart at each exit.
impl Drop for Engine {
    fn drop(self) {
        let Engine {
            alloc: _,
            served: _served,
            size: _,
        } = self;
    }
}

/// The change that a step makes.
#[derive(Drop)]
pub(crate) enum Change {
    Nothing,
    /// The rows of some units, the moment and the next process number; trees and numbers stay.
    Rows(Delta),
    /// All: the state and its `Known`; and the number of units whose held state differs, or None if a tree, the boot's id or the known
    /// units differ.
    Tables(Served, Option<usize>),
}

/// A step that is planned and not yet taken. Only the engine that planned it may take it, in the state that it had then.
#[derive(Drop)]
pub struct Next {
    change: Change,
    reply: Reply,
    actions: Vec<Action>,
}

impl Next {
    /// The number of units whose fields or pending jobs differ after the step. None if it changes a tree, the boot's id or which units are
    /// known. It takes no memory.
    pub fn rows(&self) -> Option<usize>
        ensures { result ≡ rows_in self.now }
    {
        match &self.change {
            Change::Nothing => Some(0),
            Change::Rows(delta) => Some(delta.len()),
            Change::Tables(_, rows) => *rows,
        }
    }

    /// Whether the step has an effect. The end of a process that isn't live, a report for which no unit waits, a tick at which nothing
    /// happens, and a boot with the known id have none, and need no record.
    pub fn has_effect(&self) -> bool
        ensures { result ≡ has_effect_in self.now }
    {
        match self.change {
            Change::Nothing => false,
            Change::Rows(_) | Change::Tables(_, _) => true,
        }
    }
}

/// The way back from a step that was taken. Only the engine that took it may go back, in the state that the step left.
#[derive(Drop)]
pub struct Back {
    change: Change,
}

impl Engine {
    /// The engine in this state, over a store of `size` bytes. None if such a store may not hold the state: it weighs too much, too many
    /// units are known by its loaded tree, or its pending jobs wait for one another in a circle.
    pub fn of(alloc: Global, state: State, size: u64) -> Result<Option<Engine>, AllocError>
        ensures state { IfOk result (λ made. IfSome made (λ e. state_in e ≡ state_of state)) }
        ensures size { IfOk result (λ made. IfSome made (λ e. size_in e ≡ size)) }
        ensures some { IfOk result (λ made. IsTrue (is_some made) ↔ IsServable size (state_of state)) }
        ensures exact { IfOk result (λ made. IfSome made (λ e. IsExact (served_in e))) }
    {
        match servable(alloc, state, size) {
            Ok(served) => Ok(Some(Engine {
                alloc,
                served,
                size,
            })),
            Err(refusal) => {
                if is_for_memory(refusal) {
                    return Err(AllocError);
                }
                Ok(None)
            }
        }
    }

    /// The state. It takes no memory.
    pub fn state(&self) -> &State
        ensures { state_of result.now ≡ state_in self.now }
    {
        self.served.state()
    }

    /// The moment of the last step.
    pub fn clock(&self) -> Moment
        ensures { result ≡ (state_in self.now).clock }
    {
        self.served.state().clock()
    }

    /// The step of a command at the moment, in an input of this profile.
    fn obeyed(&self, moment: Moment, profile: Profile, command: &Command) -> Result<Next, Refusal>
        ensures obeys { IfOk result (λ next. Obeys profile (size_in self.now) moment (standing_in self.now) (command_of command.now) next) }
        ensures exact { IfOk result (λ next. KeepsExact (served_in self.now) next.change) }
        ensures refused { IfErr result (λ e. ¬ (e ≡ NoMemory) → Declines profile (size_in self.now) moment (state_in self.now) (command_of command.now) (refused_of e)) }
    {
        let outcome = done(self.alloc, &self.served, moment, profile, command)?;
        match outcome {
            Outcome::Rows(work) => self.with_rows(work),
            Outcome::Tables(served, reply, trees) => {
                self.with_tables(served, reply, trees, moment)
            }
        }
    }

    /// The step to the state of the work, once jobs have begun.
    fn with_rows(&self, mut work: Work<'_>) -> Result<Next, Refusal>
        requires { WorksOn self.now.served work }
        ensures settled { IfOk result (λ next.
            Settled (size_in self.now) work.entry.moment (standing_in self.now) (state_of work.entry.now) work.entry.actions next.change (actions_in next)) }
        ensures exact { IfOk result (λ next. KeepsExact (served_in self.now) next.change) }
        ensures reply { IfOk result (λ next. reply_in next ≡ model.Done) }
        ensures refused { IfErr result (λ e. ¬ (e ≡ NoMemory)
            → SettlesTooHeavy (size_in self.now) work.entry.moment (state_of work.entry.now) work.entry.actions (refused_of e)) }
    {
        self.settle_rows(&mut work)?;
        let (delta, actions) = work.done()?;
        let change = change_by(self.alloc, &self.served, delta)?;
        Ok(Next {
            change,
            reply: Reply::Done,
            actions,
        })
    }

    /// Lets jobs begin in the work until none is ready. It is refused if the state weighs too much then (E14).
    fn settle_rows(&self, work: &mut Work<'_>) -> Result<(), Refusal>
        requires { WorksOn self.now.served work.old }
        ensures settles { OnOk result (Goes (model.Settles work.old.moment (state_of work.old.now)) work.old work.new) }
        ensures keeps { OnOk result (Keeps work.old work.new) }
        ensures room { OnOk result (¬ model.IsTooHeavy (size_in self.now) (state_of work.new.now)) }
        ensures refused { IfErr result (λ e. ¬ (e ≡ NoMemory)
            → SettlesTooHeavy (size_in self.now) work.old.moment (state_of work.old.now) work.old.actions (refused_of e)) }
    {
        settle(work)?;
        check_room_in(self.alloc, &self.served, work, self.size)?;
        Ok(())
    }

    /// The step to these tables, once jobs have begun at the moment.
    fn with_tables(
        &self,
        served: Served,
        reply: Reply,
        trees: Trees,
        moment: Moment,
    ) -> Result<Next, Refusal>
        requires { AreTrees trees self.now.served.state served.state }
        ensures settled { IfOk result (λ next.
            Settled (size_in self.now) moment (standing_in self.now) served.state [] next.change (actions_in next)) }
        ensures exact { IfOk result (λ next. KeepsExact (served_in self.now) next.change) }
        ensures reply { IfOk result (λ next. reply_in next ≡ reply_of reply) }
        ensures refused { IfErr result (λ e. ¬ (e ≡ NoMemory) → SettlesTooHeavy (size_in self.now) moment served.state [] (refused_of e)) }
    {
        let (change, actions) = self.change_to(served, trees, moment)?;
        Ok(Next {
            change,
            reply,
            actions,
        })
    }

    /// The change to these tables once jobs have begun at the moment, and the actions.
    fn change_to(
        &self,
        served: Served,
        trees: Trees,
        moment: Moment,
    ) -> Result<(Change, Vec<Action>), Refusal>
        requires { AreTrees trees self.now.served.state served.state }
        ensures settled { IfOk result (λ r.
            Settled (size_in self.now) moment (standing_in self.now) served.state [] r.0 (map action_of r.1.items)) }
        ensures exact { IfOk result (λ r. KeepsExact (served_in self.now) r.0) }
        ensures refused { IfErr result (λ e. ¬ (e ≡ NoMemory) → SettlesTooHeavy (size_in self.now) moment served.state [] (refused_of e)) }
    {
        let (after, actions) = self.settle_in_room(served, moment)?;
        let change = change_between(self.alloc, &self.served, after, trees)?;
        Ok((change, actions))
    }

    /// Lets jobs begin in these tables at the moment, with a `Known` of just the units that count then, and returns the actions. It is
    /// refused if the state weighs too much then (E14).
    fn settle_in_room(
        &self,
        served: Served,
        moment: Moment,
    ) -> Result<(Served, Vec<Action>), Refusal>
        ensures leads { IfOk result (λ r. LeadsTo (model.Settles moment served.state) moment (map action_of r.1.items) r.0.state) }
        ensures exact { IfOk result (λ r. IsExactIfFew r.0) }
        ensures room { IfOk result (λ r. ¬ model.IsTooHeavy (size_in self.now) r.0.state) }
        ensures refused { IfErr result (λ e. ¬ (e ≡ NoMemory) → SettlesTooHeavy (size_in self.now) moment served.state [] (refused_of e)) }
    {
        let mut settled = served;
        let actions = settle_served(self.alloc, &mut settled, moment)?;
        let after = settled.exactly(self.alloc)?;
        check_room(self.alloc, &after, self.size)?;
        Ok((after, actions))
    }

    /// The step of the input. It is refused as the machine refuses it, or for want of memory (E15); nothing has changed then.
    pub fn plan(&self, input: &Input) -> Result<Next, Refusal>
        ensures ok { IfOk result (λ next.
            Step (size_in self.now) (state_in self.now) (input_of input.now) (reply_in next) (actions_in next)
            (state_after next (standing_in self.now)).state) }
        ensures accepted { IfOk result (λ next. (r : Refused) → reply_in next ≢ model.Refusal r) }
        ensures effect { IfOk result (λ next. (has_effect_in next ≡ false)
            ↔ LacksEffect (moment_of (state_in self.now) (input_of input.now).moment) (state_in self.now) (input_of input.now).event) }
        ensures nothing { IfOk result (λ next. has_effect_in next ≡ false
            → ((state_after next (standing_in self.now)).state ≡ state_in self.now) × (actions_in next ≡ [])) }
        ensures refused { IfErr result (λ e. ¬ (e ≡ NoMemory)
            → Step (size_in self.now) (state_in self.now) (input_of input.now) (model.Refusal (refused_of e)) [] (state_in self.now)) }
        ensures only { IfErr result (λ e. is_of_store e ≡ false) }
        ensures rows { IfOk result (λ next.
            IfSome (rows_in next) (DiffersInRows (state_in self.now) (state_after next (standing_in self.now)).state)) }
        ensures tables { IfOk result (λ next.
            rows_in next ≡ None → ¬ HasSameTables (state_in self.now) (state_after next (standing_in self.now)).state) }
        ensures exact { IfOk result (λ next. IsExact (served_in self.now) → IsExact (served_after next (served_in self.now))) }
    {
        let moment = self.served.state().clock().or_later(input.moment());
        match input.event() {
            Event::Commanded(command) => {
                let next = self.obeyed(moment, input.profile(), command)?;
                Ok(next)
            }
            Event::Happened(happening) => {
                let (change, actions) = met(self.alloc, &self.served, moment, happening)?;
                Ok(Next {
                    change,
                    reply: Reply::Done,
                    actions,
                })
            }
        }
    }

    /// Whether the input has no effect and that is clear without a plan: a report for which no unit waits, as most are. `false` says
    /// nothing of the input. It takes no memory.
    pub fn is_idle(&self, input: &Input) -> bool
        ensures lacks { result ≡ true
            → LacksEffect (moment_of (state_in self.now) (input_of input.now).moment) (state_in self.now) (input_of input.now).event }
        ensures step { result ≡ true → Step (size_in self.now) (state_in self.now) (input_of input.now) model.Done [] (state_in self.now) }
    {
        match input.event() {
            Event::Commanded(_) => false,
            Event::Happened(happening) => is_unawaited(self.served.state(), happening),
        }
    }

    /// Takes a step that this engine planned in its present state. It takes no memory and always succeeds.
    pub fn commit(&mut self, next: Next) -> (Reply, Vec<Action>, Back)
        ensures state { standing_in self.new ≡ state_after next (standing_in self.old) }
        ensures size { size_in self.new ≡ size_in self.old }
        ensures reply { reply_of result.0 ≡ reply_in next }
        ensures actions { map action_of result.1.items ≡ actions_in next }
        ensures back { state_before result.2 (standing_in self.new) ≡ standing_in self.old }
        ensures serves { served_in self.new ≡ served_after next (served_in self.old) }
        ensures served { served_before result.2 (served_in self.new) ≡ served_in self.old }
    {
        let Next {
            change,
            reply,
            actions,
        } = next;
        let change = match change {
            Change::Nothing => Change::Nothing,
            Change::Rows(mut delta) => {
                self.served.swap(&mut delta);
                Change::Rows(delta)
            }
            Change::Tables(served, _) => {
                let was = mem::replace(&mut self.served, served);
                Change::Tables(was, None)
            }
        };
        (reply, actions, Back { change })
    }

    /// Takes back the step that the last commit of this engine took. Like `commit`, it takes no memory and always succeeds.
    pub fn back(&mut self, back: Back)
        ensures state { standing_in self.new ≡ state_before back (standing_in self.old) }
        ensures serves { served_in self.new ≡ served_before back (served_in self.old) }
        ensures size { size_in self.new ≡ size_in self.old }
    {
        let Back { change } = back;
        match change {
            Change::Nothing => {}
            Change::Rows(delta) => self.served.undo(delta),
            Change::Tables(served, _) => self.served = served,
        }
    }

    /// The reply to a query.
    pub fn query(&self, query: &Query) -> Result<Reply, AllocError>
        ensures { IfOk result (λ reply. model.IsReplyTo (state_in self.now) (query_of query.now) (reply_of reply)) }
    {
        let state = self.served.state();
        let known = self.served.known();
        match query {
            Query::ListUnits if known.is_exact(state) => {
                list_known(self.alloc, state, known.graph())
            }
            _ => reply_to(self.alloc, state, known.graph(), query),
        }
    }
}

/// The state with its `Known`. Refused with too many known units (E13), and with pending jobs that wait for one another in a circle (E9).
fn served_of(alloc: Global, state: State) -> Result<Served, Refusal>
    ensures state { IfOk result (λ served. served.state ≡ state_of state) }
    ensures exact { IfOk result IsExactIfFew }
    ensures refused { RefusesBy (model.CausesOfLoad (state_of state) (state_of state).loaded) result }
{
    let known = known_of_loaded(alloc, &state, state.loaded())?;
    Ok(Served::numbered(state, known)?)
}

/// The state with its `Known`, if a store of `size` bytes may hold it. Refused with too many known units (E13), with pending jobs that wait
/// for one another in a circle (E9), and with a weight above the size (E14).
fn servable(alloc: Global, state: State, size: u64) -> Result<Served, Refusal>
    ensures state { IfOk result (λ served. served.state ≡ state_of state) }
    ensures servable { IfOk result (λ _. IsServable size (state_of state)) }
    ensures exact { IfOk result IsExact }
    ensures refused { IfErr result (λ e. ¬ (e ≡ NoMemory) → ¬ IsServable size (state_of state)) }
{
    let served = served_of(alloc, state)?;
    check_room(alloc, &served, size)?;
    Ok(served)
}

/// Lets jobs begin at the moment until none is ready, and returns the actions.
fn settle_served(
    alloc: Global,
    served: &mut Served,
    moment: Moment,
) -> Result<Vec<Action>, AllocError>
    ensures { IfOk result (λ r. LeadsTo (model.Settles moment served.old.state) moment (map action_of r.items) served.new.state) }
{
    let mut work = served.work(alloc, moment)?;
    settle(&mut work)?;
    let (mut delta, actions) = work.done()?;
    served.swap(&mut delta);
    Ok(actions)
}

/// The change from the served value to these tables: with a count of rows, if no tree differs and the same units are known.
fn change_between(
    alloc: Global,
    served: &Served,
    after: Served,
    trees: Trees,
) -> Result<Change, AllocError>
    requires { AreTrees trees served.now.state after.state }
    ensures leads { IfOk result (λ change. state_of (changed change (standing_of served.now)) ≡ after.state) }
    ensures serves { IfOk result (λ change. served_by change served.now ≡ after) }
    ensures tells { IfOk result (λ change. TellsRows (standing_of served.now) change) }
{
    let rows = rows_between(alloc, served, &after, trees)?;
    Ok(Change::Tables(after, rows))
}

/// The served value with the delta taken, and with a `Known` of just its units then.
fn after_delta(alloc: Global, served: &Served, delta: Delta) -> Result<Served, AllocError>
    ensures state { IfOk result (λ after. after.state ≡ state_of (delta_after delta (standing_of served.now))) }
    ensures exact { IfOk result IsExactIfFew }
{
    let mut after = served.copy()?;
    let mut delta = delta;
    after.swap(&mut delta);
    let exact = after.exactly(alloc)?;
    Ok(exact)
}

/// The change that a delta makes. `Known` is made again if a unit that was known only for what the state held of it is no longer held.
pub(crate) fn change_by(alloc: Global, served: &Served, delta: Delta) -> Result<Change, AllocError>
    requires { CountsDiffering served.now.state (state_of (delta_after delta (standing_of served.now))) (vec_len delta.rows) }
    ensures leads { IfOk result (λ change. state_of (changed change (standing_of served.now)) ≡ state_of (delta_after delta (standing_of served.now))) }
    ensures exact { IfOk result (KeepsExact served.now) }
    ensures stays { IfOk result (λ change. All (LetsNoneGo served.now.known) delta.rows.items → (served_by change served.now).known ≡ served.now.known) }
    ensures tells { IfOk result (λ change. TellsRows (standing_of served.now) change) }
{
    if !served.known().is_let_go(delta.rows()) {
        return Ok(Change::Rows(delta));
    }
    let after = after_delta(alloc, served, delta)?;
    let change = change_between(alloc, served, after, Trees::Stay)?;
    Ok(change)
}

//! A step in work.

ghost use Rattle.std.specs.Prelude.{◌≡◌, ◌≤◌, ◌↔◌, ◌++◌, ℕ, List, [], length, map, vec_len, is_some, Contains, IfOk, IfSome, IsTrue, MatchOption, OnOk};
ghost use Rattle.std.specs.Coded.{codes};
ghost use Rattle.std.specs.FinMap as maps;
ghost use Rattle.um_falling.specs.Over.{Serves};
ghost use Rattle.um_falling.specs.Work.{Keeps, WorkView};
ghost use Rattle.um_graph.specs.Graph.{IsNumberOf};
ghost use Rattle.um_model.specs.Jobs.{AreTidyJobs, jobs_of_unit, no_jobs, with_jobs};
ghost use Rattle.um_model.specs.Machine.{IsHeld};
ghost use Rattle.um_model.specs.Service.{AreTidyUnits, dead_unit, state_of_unit, with_unit};
ghost use Rattle.um_state.specs.Deltas.{delta_after};
ghost use Rattle.um_state.specs.Rows.{timed};
ghost use Rattle.um_state.specs.Tables.{jobs_by};
ghost use Rattle.um_state.specs.View.{state_of, action_of};
ghost use Rattle.um_state.specs.Working.{CountsDiffering, jobs_set, unit_set};
ghost use Rattle.um_tree.specs.Code.{tree_code};

use std::alloc::{AllocError, Global};
use std::marker::Model;
use um_graph::Graph;
use um_model::{Moment, NextNumber, UnitJobs, UnitState};
use um_name::UnitName;
use um_state::{Action, Delta, State, Work as Rows};

/// A step in work: the rows of a state over the graph that serves it, and the actions so far.
pub struct Work<'g> {
    alloc: Global,
    graph: &'g Graph,
    rows: Rows<'g>,
    moment: Moment,
    actions: Vec<Action>,
}

impl<'g> Model for Work<'g> {
    ghost Value = { WorkView };

    ghost coded = { Prim.hlevel (codes, maps.code, tree_code) };

    ghost view = { λ w. record { graph = w.graph.now; base = w.rows.base; now = w.rows.now; moment = w.moment; actions = map action_of w.actions.items } };

    ghost invariant = { λ w. (w.rows.now.names ≡ w.graph.now.names) × Serves w.graph.now (state_of w.rows.now) };
}

// One call for the prover, which takes a derived `Drop` apart at each exit.
impl<'g> Drop for Work<'g> {
    fn drop(self) {
        let Work {
            alloc: _,
            graph: _,
            rows: _rows,
            moment: _,
            actions: _actions,
        } = self;
    }
}

impl<'g> Work<'g> {
    /// The rows of the state, at the moment, with no actions yet. None exactly if units and pending jobs don't share their numbers.
    pub fn of(
        alloc: Global,
        graph: &'g Graph,
        base: &'g State,
        moment: Moment,
    ) -> Result<Option<Work<'g>>, AllocError>
        requires serves { Serves graph.now (state_of base.now) }
        requires names { base.now.names ≡ graph.now.names }
        ensures common { IfOk result (λ made. is_some made ≡ base.now.common) }
        ensures begins { IfOk result (λ made. IfSome made (λ w.
            w ≡ record { graph = graph.now; base = base.now; now = base.now; moment = moment; actions = [] })) }
    {
        let Some(rows) = Rows::of(alloc, base)? else {
            return Ok(None);
        };
        Ok(Some(Work {
            alloc,
            graph,
            rows,
            moment,
            actions: Vec::new(alloc),
        }))
    }

    /// The allocator from which memory is taken.
    pub fn alloc(&self) -> Global {
        self.alloc
    }

    /// The graph, which serves for the state.
    pub fn graph(&self) -> &'g Graph
        ensures graph { result.now ≡ self.now.graph }
        ensures names { self.now.now.names ≡ self.now.graph.names }
        ensures serves { Serves self.now.graph (state_of self.now.now) }
    {
        self.graph
    }

    /// The moment at which the step happens.
    pub fn moment(&self) -> Moment
        ensures { result ≡ self.now.moment }
    {
        self.moment
    }

    /// How the unit with this number stands; past the last one it is dead. It takes no memory.
    pub fn unit(&self, unit: usize) -> UnitState
        ensures state { (name : List ℕ) → IsNumberOf self.now.graph unit name → result ≡ state_of_unit (state_of self.now.now).units name }
        ensures past { length self.now.graph.names ≤ unit → result ≡ dead_unit }
        ensures tidy { AreTidyUnits (state_of self.now.now).units }
    {
        self.rows.unit(unit)
    }

    /// The pending jobs of the unit with this number; past the last one there are none. It takes no memory.
    pub fn jobs(&self, unit: usize) -> UnitJobs
        ensures jobs { (name : List ℕ) → IsNumberOf self.now.graph unit name → result ≡ jobs_of_unit (state_of self.now.now).pending name }
        ensures past { length self.now.graph.names ≤ unit → result ≡ no_jobs }
        ensures tidy { AreTidyJobs (state_of self.now.now).pending }
    {
        self.rows.jobs(unit)
    }

    /// The number of the unit, if it is one of the graph. It takes no memory.
    pub fn number(&self, unit: &UnitName) -> Option<usize>
        ensures { MatchOption result (¬ Contains self.now.graph.names unit.now) (λ i. IsNumberOf self.now.graph i unit.now) }
    {
        self.graph.number(unit)
    }

    /// The pending jobs of each unit, by number.
    pub fn pending(&self) -> &[UnitJobs]
        ensures held { jobs_by self.now.graph.names result.now ≡ (state_of self.now.now).pending }
        ensures len { length result.now ≡ length self.now.graph.names }
    {
        self.rows.pending()
    }

    /// Whether anything is held of the unit with this number: how it stands, or a pending job. It takes no memory.
    pub fn holds(&self, unit: usize) -> bool
        ensures { (name : List ℕ) → IsNumberOf self.now.graph unit name → IsTrue result ↔ IsHeld (state_of self.now.now) name }
    {
        !self.unit(unit).holds_nothing() || self.jobs(unit).has_job()
    }

    /// The number of the next process that starts.
    pub fn next(&self) -> NextNumber
        ensures { result ≡ (state_of self.now.now).next }
    {
        self.rows.next()
    }

    /// Sets how the unit with this number stands; past the last one nothing changes. It takes no memory.
    pub fn set_unit(&mut self, unit: usize, stands: UnitState)
        ensures state { (name : List ℕ) → IsNumberOf self.old.graph unit name
            → state_of self.new.now ≡ record (state_of self.old.now) { units = with_unit (state_of self.old.now).units name stands } }
        ensures now { self.new.now ≡ unit_set self.old.now unit stands }
        ensures keeps { Keeps self.old self.new }
        ensures actions { self.new.actions ≡ self.old.actions }
    {
        self.rows.set_unit(unit, stands);
    }

    /// Sets the pending jobs of the unit with this number; past the last one nothing changes. It takes no memory.
    pub fn set_jobs(&mut self, unit: usize, jobs: UnitJobs)
        ensures state { (name : List ℕ) → IsNumberOf self.old.graph unit name
            → state_of self.new.now ≡ record (state_of self.old.now) { pending = with_jobs (state_of self.old.now).pending name jobs } }
        ensures now { self.new.now ≡ jobs_set self.old.now unit jobs }
        ensures keeps { Keeps self.old self.new }
        ensures actions { self.new.actions ≡ self.old.actions }
    {
        self.rows.set_jobs(unit, jobs);
    }

    /// Sets the next process number.
    pub fn set_next(&mut self, next: NextNumber)
        ensures state { state_of self.new.now ≡ record (state_of self.old.now) { next = next } }
        ensures keeps { Keeps self.old self.new }
        ensures actions { self.new.actions ≡ self.old.actions }
    {
        self.rows.set_next(next);
    }

    /// Appends these actions to those so far.
    pub fn ask(&mut self, actions: &mut Vec<Action>) -> Result<(), AllocError>
        ensures ok { OnOk result (self.new.actions ≡ self.old.actions ++ map action_of actions.old.items) }
        ensures now { self.new.now ≡ self.old.now }
        ensures keeps { OnOk result (Keeps self.old self.new) }
    {
        self.actions.append(actions)
    }

    /// The changes, row by row, and the actions.
    pub fn done(self) -> Result<(Delta, Vec<Action>), AllocError>
        ensures after { IfOk result (λ r. delta_after r.0 self.entry.base ≡ timed self.entry.moment (state_of self.entry.now).next self.entry.now) }
        ensures count { IfOk result (λ r. CountsDiffering (state_of self.entry.base) (state_of (delta_after r.0 self.entry.base)) (vec_len r.0.rows)) }
        ensures actions { IfOk result (λ r. map action_of r.1.items ≡ self.entry.actions) }
    {
        let Work {
            alloc,
            graph: _,
            rows,
            moment,
            actions,
        } = self;
        let delta = Delta::of(alloc, &rows, moment)?;
        Ok((delta, actions))
    }
}

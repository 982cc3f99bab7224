//! An event of a unit by itself, with the starts that a failed start takes along.

ghost use Rattle.std.specs.Prelude.{◌≡◌, ℕ, List, false, IfOk, OnOk};
ghost use Rattle.um_falling.specs.Carrying.{ChangesTo, KeepsOthers, OnlyEnds, fails_start};
ghost use Rattle.um_falling.specs.Falling.{StopsOne};
ghost use Rattle.um_falling.specs.Work.{Goes, Keeps};
ghost use Rattle.um_graph.specs.Graph.{IsNumberOf};
ghost use Rattle.um_model.specs.Waiting.{NoMoreWait};
ghost use Rattle.um_model.specs.Jobs.{jobs_of_unit};
ghost use Rattle.um_model.specs.Machine as model;
ghost use Rattle.um_model.specs.declared.transition.UnitEvent.TheVariants.{BoundStop};
ghost use Rattle.um_state.specs.View.{state_of};

use crate::acting::Acting;
use crate::along::take_along;
use crate::work::Work;
use std::alloc::AllocError;
use std::rc::Rc;
use um_jobs::{is_waiting, jobs_left};
use um_model::{Around, JobState, StartJob, UnitEvent, UnitKind};
use um_service::Service;
use um_unit::ServiceSettings;

/// Whether the unit's start job runs, and fails by the change.
fn fails_start(start: StartJob, job: Option<JobState>) -> bool
    ensures { result ≡ fails_start start job }
{
    matches!((start, job), (StartJob::Fails, Some(JobState::Running)))
}

/// Changes the unit with this number and its jobs by an event at the moment; the actions on its processes follow the other actions. Returns
/// whether a running start of it fails. If memory is refused, the work is of no use.
fn change(work: &mut Work<'_>, unit: usize, event: UnitEvent) -> Result<bool, AllocError>
    ensures changes { IfOk result (λ fails. (name : List ℕ) → IsNumberOf work.old.graph unit name
        → ChangesTo work.old.moment name event (state_of work.old.now) work.old.actions fails (state_of work.new.now) work.new.actions) }
    ensures waits { OnOk result ((name : List ℕ) → IsNumberOf work.old.graph unit name
        → NoMoreWait (state_of work.new.now).pending (state_of work.old.now).pending) }
    ensures others { OnOk result ((name : List ℕ) → IsNumberOf work.old.graph unit name
        → KeepsOthers name (state_of work.old.now) (state_of work.new.now)) }
    ensures ends { OnOk result ((name : List ℕ) → IsNumberOf work.old.graph unit name
        → OnlyEnds (jobs_of_unit (state_of work.old.now).pending name) (jobs_of_unit (state_of work.new.now).pending name)) }
    ensures stops { OnOk result ((name : List ℕ) → IsNumberOf work.old.graph unit name
        → event ≡ BoundStop → StopsOne name (state_of work.old.now) (state_of work.new.now)) }
    ensures keeps { OnOk result (Keeps work.old work.new) }
{
    let alloc = work.alloc();
    let defaults = Rc::new(alloc, ServiceSettings::new(alloc, UnitKind::Simple))?;
    let acting = Acting::in_graph(work.graph(), unit, &defaults);
    let jobs = work.jobs(unit);
    let around = Around {
        moment: work.moment(),
        next: work.next(),
        loadable: acting.loadable,
        stop_waits: is_waiting(jobs.stop),
    };
    let mut service = Service::of(work.unit(unit));
    let mut asked = service.on(alloc, event, acting.settings, around)?;
    work.set_unit(unit, service.unit());
    work.set_jobs(unit, jobs_left(asked.start, asked.stop_ends, jobs));
    work.set_next(asked.next);
    work.ask(&mut asked.actions)?;
    Ok(fails_start(asked.start, jobs.start))
}

/// Carries out an event of the unit with this number at the moment, for that unit by itself; the actions on its processes follow those so
/// far. If its start fails, that takes along the starts that need it. Returns whether it failed: if not, the other units are unchanged.
/// If memory is refused, the work is of no use.
pub fn carry(work: &mut Work<'_>, unit: usize, event: UnitEvent) -> Result<bool, AllocError>
    ensures carries { OnOk result ((name : List ℕ) → IsNumberOf work.old.graph unit name
        → Goes (model.Carries work.old.moment name event (state_of work.old.now)) work.old work.new) }
    ensures waits { OnOk result ((name : List ℕ) → IsNumberOf work.old.graph unit name
        → NoMoreWait (state_of work.new.now).pending (state_of work.old.now).pending) }
    ensures others { IfOk result (λ fails. (name : List ℕ) → IsNumberOf work.old.graph unit name
        → fails ≡ false → KeepsOthers name (state_of work.old.now) (state_of work.new.now)) }
    ensures ends { IfOk result (λ fails. (name : List ℕ) → IsNumberOf work.old.graph unit name
        → fails ≡ false → OnlyEnds (jobs_of_unit (state_of work.old.now).pending name) (jobs_of_unit (state_of work.new.now).pending name)) }
    ensures stops { OnOk result ((name : List ℕ) → IsNumberOf work.old.graph unit name
        → event ≡ BoundStop → StopsOne name (state_of work.old.now) (state_of work.new.now)) }
    ensures keeps { OnOk result (Keeps work.old work.new) }
{
    let fails = change(work, unit, event)?;
    if fails {
        take_along(work, unit)?;
    }
    Ok(fails)
}

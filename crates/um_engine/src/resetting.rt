//! Failures are forgotten (systemctl(1), "reset-failed").

ghost use Rattle.std.specs.Prelude.{◌≡◌, ◌∷◌, [], IfOk, OnOk};
ghost use Rattle.um_engine.specs.Served.{WorksOn};
ghost use Rattle.um_falling.specs.Work.{Goes, Keeps};
ghost use Rattle.um_model.specs.Machine as model;
ghost use Rattle.um_state.specs.View.{state_of};
ghost use Rattle.um_wire.specs.Gives.{RefusesBy};
ghost use Rattle.um_model.specs.declared.profile.Profile.{Profile};

use crate::served::Served;
use std::alloc::{AllocError, Global};
use um_answer::{Asked, check_missing};
use um_falling::{Work, happen};
use um_model::{Moment, UnitEvent};
use um_name::UnitName;
use um_wire::Refusal;

/// Forgets that the unit failed. A unit of which nothing is held has no failure to forget.
fn reset(work: &mut Work<'_>, unit: &UnitName) -> Result<(), AllocError>
    ensures resets { OnOk result (Goes (model.AreReset work.old.moment (unit.now ∷ []) (state_of work.old.now)) work.old work.new) }
    ensures keeps { OnOk result (Keeps work.old work.new) }
{
    // the proof reads here that the graph serves
    let _ = work.graph();
    let Some(number) = work.number(unit) else {
        return Ok(());
    };
    if !work.holds(number) {
        return Ok(());
    }
    happen(work, number, UnitEvent::Reset)?;
    Ok(())
}

/// Forgets that these units failed, one after another.
fn reset_all(work: &mut Work<'_>, units: &[UnitName]) -> Result<(), AllocError>
    ensures resets { OnOk result (Goes (model.AreReset work.old.moment units.now (state_of work.old.now)) work.old work.new) }
    ensures keeps { OnOk result (Keeps work.old work.new) }
{
    for unit in units {
        reset(work, unit)?;
    }
    Ok(())
}

/// The unit that counts for the requested name. Refused if it is neither found nor held (E7).
pub fn asked_unit(alloc: Global, served: &Served, asked: &UnitName) -> Result<UnitName, Refusal>
    ensures unit { IfOk result (λ unit. unit ≡ model.unit_asked served.now.state asked.now) }
    ensures refused { RefusesBy (model.IsMissing served.now.state asked.now) result }
{
    let state = served.state();
    let Asked { unit, is_found } = Asked::of(alloc, served.known().graph(), state.loaded(), asked)?;
    check_missing(alloc, state, asked, is_found)?;
    Ok(unit)
}

/// The units whose failures are forgotten: the requested one, or all whose unit states are held. Refused if the requested one is neither
/// found nor held (E7).
fn units_reset(
    alloc: Global,
    served: &Served,
    asked: &Option<UnitName>,
) -> Result<Vec<UnitName>, Refusal>
    ensures units { IfOk result (λ units. units.items ≡ model.units_reset served.now.state asked.now) }
    ensures refused { (profile : Profile) → RefusesBy (model.Refuses profile served.now.state (model.ResetFailed asked.now)) result }
{
    match asked {
        Some(asked) => {
            let mut units = Vec::new(alloc);
            units.push(asked_unit(alloc, served, asked)?)?;
            Ok(units)
        }
        None => Ok(served.state().units().names()?),
    }
}

/// The work after the failure of the requested unit, or of all units, was forgotten. Refused as `units_reset` is.
pub fn without_failures<'s>(
    alloc: Global,
    served: &'s Served,
    moment: Moment,
    asked: &Option<UnitName>,
) -> Result<Work<'s>, Refusal>
    ensures does { (profile : Profile) → IfOk result (λ work. model.Does profile moment served.now.state (model.ResetFailed asked.now) work.actions (state_of work.now)) }
    ensures works { IfOk result (WorksOn served.now) }
    ensures moment { IfOk result (λ work. work.moment ≡ moment) }
    ensures refused { (profile : Profile) → RefusesBy (model.Refuses profile served.now.state (model.ResetFailed asked.now)) result }
{
    let units = units_reset(alloc, served, asked)?;
    let mut work = served.work(alloc, moment)?;
    reset_all(&mut work, &units)?;
    Ok(work)
}

//! Whether a unit has reached its goal.

ghost use Rattle.std.specs.Prelude.{◌≡◌, IfOk, map, string_bytes};
ghost use Rattle.serde_json.specs.View.{view};
ghost use Rattle.um_model.specs.Requests.{is_among as is_among_texts};
ghost use Rattle.um_status.specs.Status as model;
ghost use Rattle.um_status.specs.View.{shown_of};

use crate::jobs::has_job;
use crate::unit::UnitShown;
use serde_json::Value;
use std::alloc::{AllocError, Global};

/// The goal of a unit.
#[derive(Clone, Copy)]
pub enum Goal {
    /// Active, or ended with success: by `start` and `restart`.
    Up,
    /// Neither active nor on its way: by `stop`.
    Down,
}

/// The standing of a unit with respect to its goal.
#[derive(Clone, Copy)]
pub enum Standing {
    /// A job of it is pending, or it starts or stops.
    Moving,
    /// It runs, under this number; whether it stays so isn't known yet.
    Runs(u64),
    /// It has reached its goal.
    Reached,
    /// It has not, and no longer changes by itself.
    Missed,
}

/// In these sub states a unit starts or stops.
const MOVING: [&str; 5] = ["start", "start-pre", "stop", "stop-sigterm", "stop-sigkill"];

fn is_among(text: &str, texts: &[&str]) -> bool
    ensures { result ≡ is_among_texts text.now (map (λ s. s.now) texts.now) }
{
    for other in texts {
        if text == *other {
            return true;
        }
    }
    false
}

fn standing_up(unit: UnitShown<'_>) -> Standing
    ensures { result ≡ model.standing_up (shown_of unit.entry) }
{
    if unit.active == "active" {
        if unit.sub == "running" {
            Standing::Runs(unit.number)
        } else {
            Standing::Reached
        }
    } else if unit.sub == "dead" && unit.result == "success" {
        Standing::Reached
    } else {
        Standing::Missed
    }
}

fn standing_down(unit: UnitShown<'_>) -> Standing
    ensures { result ≡ model.standing_down (shown_of unit.entry) }
{
    let is_down = unit.active == "inactive" || unit.active == "failed";
    if is_down && unit.result != "timeout" {
        Standing::Reached
    } else {
        Standing::Missed
    }
}

/// The standing of the unit for the goal; `jobs` is the reply to `list-jobs`.
pub fn standing_of(goal: Goal, unit: UnitShown<'_>, jobs: &[Value]) -> Standing
    ensures { result ≡ model.standing_of goal (shown_of unit.entry) (map view jobs.now) }
{
    if has_job(unit.id, jobs) || is_among(unit.sub, &MOVING) {
        return Standing::Moving;
    }
    match goal {
        Goal::Up => standing_up(unit),
        Goal::Down => standing_down(unit),
    }
}

/// The standing of the unit, as `x.service is failed: exit-code`.
pub fn standing_line(alloc: Global, unit: UnitShown<'_>) -> Result<String, AllocError>
    ensures { IfOk result (λ line. string_bytes line ≡ model.standing_line (shown_of unit.entry)) }
{
    let (id, sub, outcome) = (unit.id, unit.sub, unit.result);
    format!(in alloc; "{id} is {sub}: {outcome}")
}

//! Units and pending jobs as maps by name, as they are read and written.

ghost use Rattle.std.specs.Prelude.{◌≡◌, ◌++◌, OnOk, OnErr};
ghost use Rattle.std.specs.Cmp.Lexicographic.{slice_cmp};
ghost use Rattle.std.specs.FinMap as maps;
ghost use Rattle.std.specs.Ordering.{nat_cmp};
ghost use Rattle.um_model.specs.Jobs.{jobs_of_unit, with_jobs};
ghost use Rattle.um_model.specs.Service.{state_of_unit, with_unit};

use std::alloc::AllocError;
use std::collections::BTreeMap;
use um_model::{UnitJobs, UnitState};
use um_name::UnitName;

/// Appends the names, ascending.
pub(crate) fn push_keys<V>(
    names: &mut Vec<UnitName>,
    entries: &BTreeMap<UnitName, V>,
) -> Result<(), AllocError>
    ensures { OnOk result (names.new.items ≡ names.old.items ++ maps.keys (maps.from_entries {R = slice_cmp nat_cmp} entries.now.entries)) }
{
    for (name, _) in entries.iter() {
        names.push(name.copy()?)?;
    }
    Ok(())
}

/// How the unit stands; one that isn't there is dead. It takes no memory.
pub(crate) fn state_in(entries: &BTreeMap<UnitName, UnitState>, unit: &UnitName) -> UnitState
    ensures { result ≡ state_of_unit (maps.from_entries entries.now.entries) unit.now }
{
    match entries.get(unit) {
        Some(state) => *state,
        None => UnitState::DEAD,
    }
}

/// The pending jobs of the unit. It takes no memory.
pub(crate) fn jobs_in(entries: &BTreeMap<UnitName, UnitJobs>, unit: &UnitName) -> UnitJobs
    ensures { result ≡ jobs_of_unit (maps.from_entries entries.now.entries) unit.now }
{
    match entries.get(unit) {
        Some(jobs) => *jobs,
        None => UnitJobs::NONE,
    }
}

/// Puts in how the unit stands; a dead unit of which nothing is known isn't held. If memory is refused, all is as before.
pub(crate) fn hold(
    entries: &mut BTreeMap<UnitName, UnitState>,
    unit: &UnitName,
    state: &UnitState,
) -> Result<(), AllocError>
    ensures ok { OnOk result (maps.from_entries {R = slice_cmp nat_cmp} entries.new.entries ≡ with_unit (maps.from_entries entries.old.entries) unit.now state.now) }
    ensures err { OnErr result (maps.from_entries {R = slice_cmp nat_cmp} entries.new.entries ≡ maps.from_entries entries.old.entries) }
{
    if state.holds_nothing() {
        entries.remove(unit);
    } else {
        entries.insert(unit.copy()?, *state)?;
    }
    Ok(())
}

/// Puts in the pending jobs of the unit; a unit without a job isn't held. If memory is refused, all is as before.
pub(crate) fn hold_jobs(
    entries: &mut BTreeMap<UnitName, UnitJobs>,
    unit: &UnitName,
    jobs: UnitJobs,
) -> Result<(), AllocError>
    ensures ok { OnOk result (maps.from_entries {R = slice_cmp nat_cmp} entries.new.entries ≡ with_jobs (maps.from_entries entries.old.entries) unit.now jobs) }
    ensures err { OnErr result (maps.from_entries {R = slice_cmp nat_cmp} entries.new.entries ≡ maps.from_entries entries.old.entries) }
{
    if jobs.has_job() {
        entries.insert(unit.copy()?, jobs)?;
    } else {
        entries.remove(unit);
    }
    Ok(())
}

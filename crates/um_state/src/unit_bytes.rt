//! The canonical bytes of units: a map from names to units of which something is known.
ghost use Rattle.std.specs.Prelude.{◌≡◌, ◌++◌, true, IfOk, OnOk};
ghost use Rattle.std.specs.Prelude.{flat_map, nat_le};
ghost use Rattle.std.specs.List.{list_all};
ghost use Rattle.um_model.specs.Transitions.{live_numbers};
ghost use Rattle.std.specs.Option.{option_map_or, option_to_list};
ghost use Rattle.std.specs.FinMap as maps;
ghost use Rattle.um_model.specs.Service.{ByUnit};
ghost use Rattle.um_model.specs.StateSpellings.{FitUnits, are_distinct, are_known, is_sub_state_in, have_begun, have_sub_states, numbers_in, units_at, units_spelling};
ghost use Rattle.um_model.proofs.StateSpellingsLaws.{canonical_units};
ghost use Rattle.um_model.specs.declared.service.UnitState as unit;

use crate::units::Units;
use std::alloc::{AllocError, Global};
use std::collections::{BTreeMap, BTreeSet};
use um_model::{Counted, Moment, ProcessNumber, Profile, SubState, UnitState};
use um_name::UnitName;
use um_wire::Canon;

/// Whether something is known of each unit.
fn are_known(entries: &BTreeMap<UnitName, UnitState>) -> bool
    ensures { result ≡ are_known (maps.from_entries entries.now.entries) }
{
    for (_, unit) in entries.iter() {
        if unit.holds_nothing() {
            return false;
        }
    }
    true
}

impl Canon for Units {
    ghost Value = { ByUnit unit.UnitState };

    ghost value = { λ units. units.held };

    ghost fits = { FitUnits };

    ghost spelling = { units_spelling };

    ghost reading = { units_at };

    fn put(&self, out: &mut Vec<u8>) -> Result<(), AllocError> {
        let entries = self.to_map()?;
        entries.put(out)
    }

    fn get(alloc: Global, bytes: &[u8]) -> Result<Option<(Units, usize)>, AllocError> {
        let Some((entries, n)) = <BTreeMap<UnitName, UnitState> as Canon>::get(alloc, bytes)? else {
            return Ok(None);
        };
        if !are_known(&entries) {
            return Ok(None);
        }
        let units = Units::of_map(alloc, &entries)?;
        Ok(Some((units, n)))
    }

    ghost canonical = { canonical_units };
}

/// Whether a unit may be in the sub state by the profile: in start-pre only if the profile serves `ExecStartPre=`.
fn is_sub_state_in(profile: Profile, sub: SubState) -> bool
    ensures { result ≡ is_sub_state_in profile sub }
{
    match sub {
        SubState::StartPre => profile.serves_start_pre(),
        _ => true,
    }
}

/// Whether these rows may be in their sub states by the profile.
fn have_all_sub_states(rows: &[UnitState], profile: Profile) -> bool
    ensures { result ≡ list_all (λ u. is_sub_state_in profile u.sub) rows.now }
{
    rows.iter().all(|unit| is_sub_state_in(profile, unit.sub))
}

/// Whether a window, if there is one, began at or before the clock.
fn has_begun(clock: Moment, window: Option<Counted>) -> bool
    ensures { result ≡ option_map_or (λ c. nat_le c.began clock) window true }
{
    match window {
        Some(window) => window.began.micros() <= clock.micros(),
        None => true,
    }
}

/// Appends the number of a process, if there is one.
fn push_number(told: &mut Vec<u64>, process: Option<ProcessNumber>) -> Result<(), AllocError>
    ensures { OnOk result (told.new.items ≡ told.old.items ++ option_to_list process) }
{
    if let Some(process) = process {
        told.push(process.get())?;
    }
    Ok(())
}

/// Appends the process, if there is one.
fn push_process(
    told: &mut Vec<ProcessNumber>,
    process: Option<ProcessNumber>,
) -> Result<(), AllocError>
    ensures { OnOk result (told.new.items ≡ told.old.items ++ option_to_list process) }
{
    if let Some(process) = process {
        told.push(process)?;
    }
    Ok(())
}

/// Whether no number occurs twice.
pub(crate) fn are_distinct(alloc: Global, numbers: &[u64]) -> Result<bool, AllocError>
    ensures { IfOk result (λ distinct. distinct ≡ are_distinct numbers.now) }
{
    let mut held = BTreeSet::new(alloc);
    let mut rest = numbers;
    while let [number, behind @ ..] = rest {
        if !held.insert(*number)? {
            return Ok(false);
        }
        rest = behind;
    }
    Ok(true)
}

/// Whether no window of these rows began after the clock.
fn have_all_begun(rows: &[UnitState], clock: Moment) -> bool
    ensures { result ≡ list_all (λ u. option_map_or (λ c. nat_le c.began clock) u.window true) rows.now }
{
    rows.iter().all(|unit| has_begun(clock, unit.window))
}

/// The processes of these rows, one row after another.
fn processes_of(alloc: Global, rows: &[UnitState]) -> Result<Vec<ProcessNumber>, AllocError>
    ensures { IfOk result (λ numbers. numbers.items ≡ flat_map live_numbers rows.now) }
{
    let mut numbers = Vec::new(alloc);
    for unit in rows {
        push_process(&mut numbers, unit.main)?;
        push_process(&mut numbers, unit.control)?;
    }
    Ok(numbers)
}

/// The numbers of the processes of these rows.
fn numbers_of(alloc: Global, rows: &[UnitState]) -> Result<Vec<u64>, AllocError>
    ensures { IfOk result (λ numbers. numbers.items ≡ flat_map live_numbers rows.now) }
{
    let mut numbers = Vec::new(alloc);
    for unit in rows {
        push_number(&mut numbers, unit.main)?;
        push_number(&mut numbers, unit.control)?;
    }
    Ok(numbers)
}

impl Units {
    /// Whether all units may be in their sub states by the profile. It takes no memory.
    pub(crate) fn have_sub_states(&self, profile: Profile) -> bool
        ensures { result ≡ have_sub_states profile self.now.held }
    {
        have_all_sub_states(self.rows(), profile)
    }

    /// Whether no window began after the clock. It takes no memory.
    pub(crate) fn have_begun(&self, clock: Moment) -> bool
        ensures { result ≡ have_begun clock self.now.held }
    {
        have_all_begun(self.rows(), clock)
    }

    /// The numbers of the live processes, unit by unit.
    pub fn processes(&self) -> Result<Vec<ProcessNumber>, AllocError>
        ensures { IfOk result (λ numbers. numbers.items ≡ numbers_in self.now.held) }
    {
        processes_of(self.alloc, self.rows())
    }

    /// The numbers of the live processes.
    pub(crate) fn live_numbers(&self) -> Result<Vec<u64>, AllocError>
        ensures { IfOk result (λ numbers. numbers.items ≡ numbers_in self.now.held) }
    {
        numbers_of(self.alloc, self.rows())
    }
}

//! Rows of units and of pending jobs in the order of their names, and their values by name.

ghost use Rattle.std.specs.Prelude.{◌≡◌, ◌↔◌, ◌++◌, ◌∷◌, ◌<◌, [], ℕ, List, length, map, IsTrue, IfOk, OnOk, if◌then◌else◌, slice_index_or};
ghost use Rattle.std.specs.Cmp.Lexicographic.{slice_cmp};
ghost use Rattle.std.specs.FinMap as maps;
ghost use Rattle.std.specs.Ordering.{nat_cmp};
ghost use Rattle.um_model.specs.Jobs.{job_shown, jobs_of_unit, jobs_shown, jobs_shown_of, no_jobs, with_jobs};
ghost use Rattle.um_model.specs.Machine.{AreDeadlines};
ghost use Rattle.um_model.specs.Service.{state_of_unit, with_unit};
ghost use Rattle.um_name.specs.Names.{AreAscending, name_at};
ghost use Rattle.um_state.specs.Due.{with_deadline};
ghost use Rattle.um_state.specs.Finding.{row_at};
ghost use Rattle.um_state.specs.Shown.{job_of};
ghost use Rattle.um_state.specs.Tables.{jobs_by, units_by};

use crate::maps::{hold, hold_jobs, jobs_in, state_in};
use crate::reply::JobShown;
use crate::units::{Pending, Units};
use std::alloc::{AllocError, Global};
use std::collections::BTreeMap;
use um_model::{JobKind, JobState, UnitJobs, UnitState};
use um_name::{Names, UnitName};
use um_timer::Timers;

/// Appends the name with this number if something is held of its unit.
fn push_if(
    noted: &mut Vec<UnitName>,
    names: &Names,
    i: usize,
    is_held: bool,
) -> Result<(), AllocError>
    requires { i < length names.now }
    ensures { OnOk result (noted.new.items ≡ noted.old.items ++ (if is_held then name_at names.now i ∷ [] else [])) }
{
    if !is_held {
        return Ok(());
    }
    match names.name(i) {
        Some(name) => noted.push(name.copy()?)?,
        None => unreachable!(),
    }
    Ok(())
}

/// Appends the names of the units of which something is held.
pub(crate) fn push_held_units(
    noted: &mut Vec<UnitName>,
    names: &Names,
    rows: &[UnitState],
) -> Result<(), AllocError>
    requires len { length rows.now ≡ length names.now }
    requires ascending { AreAscending names.now }
    ensures { OnOk result (noted.new.items ≡ noted.old.items ++ maps.keys (units_by names.now rows.now)) }
{
    for i in 0..names.len() {
        push_if(noted, names, i, !rows[i].holds_nothing())?;
    }
    Ok(())
}

/// Appends the names of the units of which a job is pending.
pub(crate) fn push_held_jobs(
    noted: &mut Vec<UnitName>,
    names: &Names,
    rows: &[UnitJobs],
) -> Result<(), AllocError>
    requires len { length rows.now ≡ length names.now }
    requires ascending { AreAscending names.now }
    ensures { OnOk result (noted.new.items ≡ noted.old.items ++ maps.keys (jobs_by names.now rows.now)) }
{
    for i in 0..names.len() {
        push_if(noted, names, i, rows[i].has_job())?;
    }
    Ok(())
}

/// How the unit with this number stands.
fn state_numbered(names: &Names, i: usize, entries: &BTreeMap<UnitName, UnitState>) -> UnitState
    requires { i < length names.now }
    ensures { result ≡ state_of_unit (maps.from_entries {R = slice_cmp nat_cmp} entries.now.entries) (name_at names.now i) }
{
    match names.name(i) {
        Some(name) => state_in(entries, name),
        None => unreachable!(),
    }
}

/// How the unit of each name stands.
pub(crate) fn unit_rows_in(
    alloc: Global,
    names: &Names,
    entries: &BTreeMap<UnitName, UnitState>,
) -> Result<Vec<UnitState>, AllocError>
    ensures rows { IfOk result (λ rows. (i : ℕ) → i < length names.now
        → row_at rows.items i ≡ state_of_unit (maps.from_entries {R = slice_cmp nat_cmp} entries.now.entries) (name_at names.now i)) }
    ensures len { IfOk result (λ rows. length rows.items ≡ length names.now) }
    ensures ascending { AreAscending names.now }
{
    let mut rows = vec![in alloc; UnitState::DEAD; names.len()]?;
    for i in 0..names.len() {
        rows[i] = state_numbered(names, i, entries);
    }
    Ok(rows)
}

/// The pending jobs of the unit with this number.
fn jobs_numbered(names: &Names, i: usize, entries: &BTreeMap<UnitName, UnitJobs>) -> UnitJobs
    requires { i < length names.now }
    ensures { result ≡ jobs_of_unit (maps.from_entries {R = slice_cmp nat_cmp} entries.now.entries) (name_at names.now i) }
{
    match names.name(i) {
        Some(name) => jobs_in(entries, name),
        None => unreachable!(),
    }
}

/// The pending jobs of the unit of each name.
pub(crate) fn job_rows_in(
    alloc: Global,
    names: &Names,
    entries: &BTreeMap<UnitName, UnitJobs>,
) -> Result<Vec<UnitJobs>, AllocError>
    ensures rows { IfOk result (λ rows. (i : ℕ) → i < length names.now
        → slice_index_or rows.items i no_jobs ≡ jobs_of_unit (maps.from_entries {R = slice_cmp nat_cmp} entries.now.entries) (name_at names.now i)) }
    ensures len { IfOk result (λ rows. length rows.items ≡ length names.now) }
    ensures ascending { AreAscending names.now }
{
    let mut rows = Vec::new(alloc);
    for i in 0..names.len() {
        rows.push(jobs_numbered(names, i, entries))?;
    }
    Ok(rows)
}

/// Puts in how the unit with this number stands.
fn hold_row(
    entries: &mut BTreeMap<UnitName, UnitState>,
    names: &Names,
    i: usize,
    state: &UnitState,
) -> Result<(), AllocError>
    requires { i < length names.now }
    ensures { OnOk result (maps.from_entries {R = slice_cmp nat_cmp} entries.new.entries
        ≡ with_unit (maps.from_entries entries.old.entries) (name_at names.now i) state.now) }
{
    match names.name(i) {
        Some(name) => hold(entries, name, state),
        None => unreachable!(),
    }
}

/// These rows as a map by name, without those of which nothing is held.
pub(crate) fn unit_map_of(
    alloc: Global,
    names: &Names,
    rows: &[UnitState],
) -> Result<BTreeMap<UnitName, UnitState>, AllocError>
    requires { length rows.now ≡ length names.now }
    ensures { IfOk result (λ m. maps.from_entries {R = slice_cmp nat_cmp} m.entries ≡ units_by names.now rows.now) }
{
    let mut entries = BTreeMap::new(alloc);
    let mut i = rows.len();
    while i > 0 {
        i -= 1;
        hold_row(&mut entries, names, i, &rows[i])?;
    }
    Ok(entries)
}

/// Puts in the pending jobs of the unit with this number.
fn hold_job_row(
    entries: &mut BTreeMap<UnitName, UnitJobs>,
    names: &Names,
    i: usize,
    jobs: UnitJobs,
) -> Result<(), AllocError>
    requires { i < length names.now }
    ensures { OnOk result (maps.from_entries {R = slice_cmp nat_cmp} entries.new.entries
        ≡ with_jobs (maps.from_entries entries.old.entries) (name_at names.now i) jobs) }
{
    match names.name(i) {
        Some(name) => hold_jobs(entries, name, jobs),
        None => unreachable!(),
    }
}

/// These rows as a map by name, without those that have no pending job.
pub(crate) fn job_map_of(
    alloc: Global,
    names: &Names,
    rows: &[UnitJobs],
) -> Result<BTreeMap<UnitName, UnitJobs>, AllocError>
    requires { length rows.now ≡ length names.now }
    ensures { IfOk result (λ m. maps.from_entries {R = slice_cmp nat_cmp} m.entries ≡ jobs_by names.now rows.now) }
{
    let mut entries = BTreeMap::new(alloc);
    let mut i = rows.len();
    while i > 0 {
        i -= 1;
        hold_job_row(&mut entries, names, i, rows[i])?;
    }
    Ok(entries)
}

/// Sets the deadline of the unit with this number, if it has one.
fn set_deadline(
    timers: &mut Timers,
    names: &Names,
    i: usize,
    state: &UnitState,
) -> Result<(), AllocError>
    requires { i < length names.now }
    ensures { OnOk result (timers.new ≡ with_deadline timers.old (name_at names.now i) state.now.deadline) }
{
    let Some(deadline) = state.deadline else {
        return Ok(());
    };
    match names.name(i) {
        Some(name) => timers.set(name.copy()?, deadline),
        None => unreachable!(),
    }
}

/// The deadlines of the units of these rows.
pub(crate) fn deadlines_of(
    alloc: Global,
    names: &Names,
    rows: &[UnitState],
) -> Result<Timers, AllocError>
    requires len { length rows.now ≡ length names.now }
    requires ascending { AreAscending names.now }
    ensures { IfOk result (AreDeadlines (units_by names.now rows.now)) }
{
    let mut timers = Timers::new(alloc);
    let mut i = rows.len();
    while i > 0 {
        i -= 1;
        set_deadline(&mut timers, names, i, &rows[i])?;
    }
    Ok(timers)
}

/// Whether the unit with this number stands so in the others.
fn is_told(names: &Names, i: usize, row: &UnitState, held: &Units) -> bool
    requires { i < length names.now }
    ensures { IsTrue result ↔ (row.now ≡ state_of_unit held.now.held (name_at names.now i)) }
{
    match names.name(i) {
        Some(name) => *row == held.get(name),
        None => unreachable!(),
    }
}

/// Whether the units of these rows stand so in the others.
pub(crate) fn units_told_by(names: &Names, rows: &[UnitState], held: &Units) -> bool
    requires { length rows.now ≡ length names.now }
    ensures { IsTrue result ↔ ((i : ℕ) → i < length names.now → row_at rows.now i ≡ state_of_unit held.now.held (name_at names.now i)) }
{
    for i in 0..rows.len() {
        if !is_told(names, i, &rows[i], held) {
            return false;
        }
    }
    true
}

/// Whether the unit with this number has these jobs in the others.
fn is_pending(names: &Names, i: usize, row: &UnitJobs, held: &Pending) -> bool
    requires { i < length names.now }
    ensures { IsTrue result ↔ (row.now ≡ jobs_of_unit held.now.held (name_at names.now i)) }
{
    match names.name(i) {
        Some(name) => *row == held.get(name),
        None => unreachable!(),
    }
}

/// Whether the units of these rows have these jobs in the others.
pub(crate) fn jobs_told_by(names: &Names, rows: &[UnitJobs], held: &Pending) -> bool
    requires { length rows.now ≡ length names.now }
    ensures { IsTrue result ↔ ((i : ℕ) → i < length names.now → slice_index_or rows.now i no_jobs ≡ jobs_of_unit held.now.held (name_at names.now i)) }
{
    for i in 0..rows.len() {
        if !is_pending(names, i, &rows[i], held) {
            return false;
        }
    }
    true
}

/// Appends a job of this kind, if it is pending.
fn push_job(
    shown: &mut Vec<JobShown>,
    unit: &UnitName,
    kind: JobKind,
    job: Option<JobState>,
) -> Result<(), AllocError>
    ensures { OnOk result (map job_of shown.new.items ≡ map job_of shown.old.items ++ job_shown unit.now kind job) }
{
    let Some(state) = job else {
        return Ok(());
    };
    let unit = unit.copy()?;
    shown.push(JobShown { unit, kind, state })?;
    Ok(())
}

/// Appends the pending jobs of a unit, its stop job first.
fn push_jobs(shown: &mut Vec<JobShown>, unit: &UnitName, jobs: UnitJobs) -> Result<(), AllocError>
    ensures { OnOk result (map job_of shown.new.items ≡ map job_of shown.old.items ++ jobs_shown_of unit.now jobs) }
{
    push_job(shown, unit, JobKind::Stop, jobs.stop)?;
    push_job(shown, unit, JobKind::Start, jobs.start)
}

/// Appends the pending jobs of the unit with this number.
fn push_row(
    shown: &mut Vec<JobShown>,
    names: &Names,
    i: usize,
    jobs: UnitJobs,
) -> Result<(), AllocError>
    requires { i < length names.now }
    ensures { OnOk result (map job_of shown.new.items ≡ map job_of shown.old.items ++ jobs_shown_of (name_at names.now i) jobs) }
{
    match names.name(i) {
        Some(name) => push_jobs(shown, name, jobs),
        None => unreachable!(),
    }
}

/// The pending jobs of these rows, as replies show them.
pub(crate) fn shown_of(
    alloc: Global,
    names: &Names,
    rows: &[UnitJobs],
) -> Result<Vec<JobShown>, AllocError>
    requires len { length rows.now ≡ length names.now }
    requires ascending { AreAscending names.now }
    ensures { IfOk result (λ shown. map job_of shown.items ≡ jobs_shown (jobs_by names.now rows.now)) }
{
    let mut shown = Vec::new(alloc);
    for i in 0..names.len() {
        push_row(&mut shown, names, i, rows[i])?;
    }
    Ok(shown)
}

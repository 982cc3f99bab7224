//! Rows of the table of units.

ghost use Rattle.std.specs.Prelude.{◌≡◌, ◌++◌, IfOk, OnOk, codes, flat_map, map, replicate, string_bytes};
ghost use Rattle.serde_json.specs.View.{view};
ghost use Rattle.um_status.specs.Status as model;
ghost use Rattle.um_status.specs.View.{row_view, shown_of, widths_view};

use crate::jobs::jobs_words;
use crate::unit::UnitShown;
use serde_json::Value;
use std::alloc::{AllocError, Global};

/// A row of the table, and the lines after it.
#[derive(Drop)]
pub struct Row {
    pub unit: String,
    /// Whether it is loaded: its load state.
    pub loaded: String,
    /// Its active state and its sub state.
    pub state: String,
    pub result: String,
    /// The pid of its main process.
    pub pid: String,
    /// Its pending jobs.
    pub job: String,
    /// The lines after the row.
    pub details: String,
}

/// The widths of the columns except the last.
#[derive(Clone, Copy)]
struct Widths {
    unit: usize,
    loaded: usize,
    state: usize,
    result: usize,
    pid: usize,
}

/// The text, or `-` if it is empty.
fn or_dash(alloc: Global, text: String) -> Result<String, AllocError>
    ensures { IfOk result (λ shown. string_bytes shown ≡ model.or_dash (string_bytes text)) }
{
    if text.is_empty() {
        String::from_str(alloc, "-")
    } else {
        Ok(text)
    }
}

fn pid_text(alloc: Global, pid: Option<u32>) -> Result<String, AllocError>
    ensures { IfOk result (λ text. string_bytes text ≡ model.pid_text pid) }
{
    match pid {
        Some(pid) => pid.to_string(alloc),
        None => String::from_str(alloc, "-"),
    }
}

fn state_text(alloc: Global, active: &str, sub: &str) -> Result<String, AllocError>
    ensures { IfOk result (λ text. string_bytes text ≡ active.now ++ (codes "/" ++ sub.now)) }
{
    format!(in alloc; "{active}/{sub}")
}

/// The row of a unit: by the replies to `show` and `list-jobs`, the pid of its main process if it is known, and the
/// lines after it.
pub fn row_of(
    alloc: Global,
    unit: UnitShown<'_>,
    jobs: &[Value],
    pid: Option<u32>,
    details: String,
) -> Result<Row, AllocError>
    ensures { IfOk result (λ row. row_view row ≡ model.row_of (shown_of unit.entry) (map view jobs.now) pid (string_bytes details)) }
{
    let name = String::from_str(alloc, unit.id)?;
    let loaded = String::from_str(alloc, unit.loaded)?;
    let state = state_text(alloc, unit.active, unit.sub)?;
    let outcome = String::from_str(alloc, unit.result)?;
    let pid = pid_text(alloc, pid)?;
    let words = jobs_words(alloc, unit.id, jobs)?;
    let job = or_dash(alloc, words)?;
    Ok(Row {
        unit: name,
        loaded,
        state,
        result: outcome,
        pid,
        job,
        details,
    })
}

/// The names of the columns.
fn header(alloc: Global) -> Result<Row, AllocError>
    ensures { IfOk result (λ row. row_view row ≡ model.header) }
{
    Ok(Row {
        unit: String::from_str(alloc, "UNIT")?,
        loaded: String::from_str(alloc, "LOADED")?,
        state: String::from_str(alloc, "STATE")?,
        result: String::from_str(alloc, "RESULT")?,
        pid: String::from_str(alloc, "PID")?,
        job: String::from_str(alloc, "JOB")?,
        details: String::new(alloc),
    })
}

/// Wide enough for one more row.
fn wider(widths: Widths, row: &Row) -> Widths
    ensures { widths_view result ≡ model.wider (widths_view widths) (row_view row.now) }
{
    Widths {
        unit: widths.unit.max(row.unit.len()),
        loaded: widths.loaded.max(row.loaded.len()),
        state: widths.state.max(row.state.len()),
        result: widths.result.max(row.result.len()),
        pid: widths.pid.max(row.pid.len()),
    }
}

fn no_width() -> Widths
    ensures { widths_view result ≡ model.no_width }
{
    Widths {
        unit: 0,
        loaded: 0,
        state: 0,
        result: 0,
        pid: 0,
    }
}

/// Each column is as wide as its longest.
fn widths_of(header: &Row, rows: &[Row]) -> Widths
    requires { row_view header.now ≡ model.header }
    ensures { widths_view result ≡ model.widths_of (map row_view rows.now) }
{
    let mut widths = wider(no_width(), header);
    for row in rows {
        widths = wider(widths, row);
    }
    widths
}

/// Appends this number of spaces.
fn push_spaces(text: &mut String, count: usize) -> Result<(), AllocError>
    ensures { OnOk result (string_bytes text.new ≡ string_bytes text.old ++ replicate count 32) }
{
    for space in 0..count {
        text.push(' ')?;
    }
    Ok(())
}

/// Appends a cell, followed by spaces.
fn push_cell(text: &mut String, width: usize, cell: &str) -> Result<(), AllocError>
    ensures { OnOk result (string_bytes text.new ≡ string_bytes text.old ++ model.cell_text width cell.now) }
{
    text.push_str(cell)?;
    push_spaces(text, width.saturating_sub(cell.len()))?;
    text.push_str("  ")
}

/// Appends the line of a row, and those after it.
fn push_row(text: &mut String, widths: Widths, row: &Row) -> Result<(), AllocError>
    ensures { OnOk result (string_bytes text.new ≡ string_bytes text.old ++ model.row_text (widths_view widths) (row_view row.now)) }
{
    push_cell(text, widths.unit, row.unit.as_str())?;
    push_cell(text, widths.loaded, row.loaded.as_str())?;
    push_cell(text, widths.state, row.state.as_str())?;
    push_cell(text, widths.result, row.result.as_str())?;
    push_cell(text, widths.pid, row.pid.as_str())?;
    text.push_str(row.job.as_str())?;
    text.push_str("\n")?;
    text.push_str(row.details.as_str())?;
    Ok(())
}

fn push_rows(text: &mut String, widths: Widths, rows: &[Row]) -> Result<(), AllocError>
    ensures { OnOk result (string_bytes text.new ≡ string_bytes text.old ++ flat_map (model.row_text (widths_view widths)) (map row_view rows.now)) }
{
    for row in rows {
        push_row(text, widths, row)?;
    }
    Ok(())
}

/// The table of these rows: a line with the names of the columns, then each row followed by its lines. Each column
/// except the last is as wide as its longest cell, followed by two spaces.
pub fn table_text(alloc: Global, rows: &[Row]) -> Result<String, AllocError>
    ensures { IfOk result (λ text. string_bytes text ≡ model.table_text (map row_view rows.now)) }
{
    let header = header(alloc)?;
    let widths = widths_of(&header, rows);
    let mut text = String::new(alloc);
    push_row(&mut text, widths, &header)?;
    push_rows(&mut text, widths, rows)?;
    Ok(text)
}

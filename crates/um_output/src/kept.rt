//! Which numbers' files stay in the folder of a unit, and which are another store's.

ghost use Rattle.std.specs.Prelude.{◌≡◌, ◌<◌, ◌==◌, ◌&&◌, ◌||◌, ℕ, All, IfOk, MatchOption, OnOk, filter, not, true};
ghost use Rattle.um_model.specs.StateSpellings.{are_distinct};
ghost use Rattle.um_output.specs.Kept as model;

use crate::files::OutputFile;
use std::alloc::{AllocError, AllocFailed, Global};
use um_model::{NextNumber, ProcessNumber};

/// Whether the number is one of these.
pub(crate) fn is_among(numbers: &[ProcessNumber], number: ProcessNumber) -> bool
    ensures { result ≡ model.has number numbers.now }
{
    for other in numbers {
        if other.get() == number.get() {
            return true;
        }
    }
    false
}

/// Notes the number, unless it is live or noted already.
#[tactic(auto, using(crate::proofs::KeptLaws::distinct_push))]
fn note(
    idle: &mut Vec<ProcessNumber>,
    live: &[ProcessNumber],
    number: ProcessNumber,
) -> Result<(), AllocFailed<ProcessNumber>>
    requires { are_distinct idle.old.items ≡ true }
    ensures has { OnOk result ((n : ℕ) → model.has n idle.new.items ≡ (model.has n idle.old.items || (number == n && not (model.has n live.now)))) }
    ensures once { are_distinct idle.new.items ≡ true }
{
    if is_among(live, number) {
        return Ok(());
    }
    if is_among(idle.as_slice(), number) {
        return Ok(());
    }
    idle.push(number)
}

/// The numbers of these files except the live ones, each once.
pub(crate) fn idle_numbers(
    alloc: Global,
    files: &[OutputFile],
    live: &[ProcessNumber],
) -> Result<Vec<ProcessNumber>, AllocError>
    ensures all { IfOk result (λ idle. (n : ℕ) → model.has n idle.items ≡ (model.has_file n files.now && not (model.has n live.now))) }
    ensures once { IfOk result (λ idle. are_distinct idle.items ≡ true) }
{
    let mut idle = Vec::new(alloc);
    for file in files {
        note(&mut idle, live, file.number)?;
    }
    Ok(idle)
}

/// Whether at least `kept` of the numbers are newer than this one.
fn is_old(kept: usize, numbers: &[ProcessNumber], number: ProcessNumber) -> bool
    ensures { result ≡ model.is_old kept numbers.now number }
{
    let mut newer: usize = 0;
    for other in numbers {
        if number.get() < other.get() {
            newer += 1;
        }
    }
    kept <= newer
}

/// Those of the numbers for which at least `kept` others are newer.
pub(crate) fn old_numbers(
    alloc: Global,
    kept: usize,
    numbers: &[ProcessNumber],
) -> Result<Vec<ProcessNumber>, AllocError>
    ensures { IfOk result (λ old. old.items ≡ filter (model.is_old kept numbers.now) numbers.now) }
{
    let mut old = Vec::new(alloc);
    for number in numbers {
        if is_old(kept, numbers, *number) {
            old.push(*number)?;
        }
    }
    Ok(old)
}

/// The greatest number of these files that the store never started; `next` is the next that it starts.
pub(crate) fn foreign_in(files: &[OutputFile], next: NextNumber) -> Option<ProcessNumber>
    ensures { MatchOption result (All (λ f. f.number < next) files.now) (λ n. model.IsGreatestFrom next n files.now) }
{
    let mut greatest: u64 = 0;
    for file in files {
        let number = file.number.get();
        if number >= next.get() && number > greatest {
            greatest = number;
        }
    }
    // no process has the number 0
    ProcessNumber::new(greatest)
}

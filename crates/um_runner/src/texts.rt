//! The texts of the files.

ghost use Rattle.std.specs.Prelude.{◌≡◌, ◌≢◌, ◌≤◌, ◌<◌, ◌⊎◌, ◌++◌, ◌^◌, ℕ, MatchOption, IfSome, IfOk, codes, decimal, string_bytes};
ghost use Rattle.um_runner.specs.Runner as runner;
ghost use Rattle.um_model.specs.declared.service.End as ends;
ghost use Rattle.um_model.specs.declared.service.End.TheVariants as told;
ghost use Rattle.um_runner.specs.Numerals.{is_plain};

use crate::runner_file::Claimant;
use std::alloc::{AllocError, Global};
use std::str;
use um_model::End;

/// From this number on no number is a pid: 2^31.
const PID_LIMIT: u64 = 1 << 31;

/// Whether it is `0`, or begins with another digit.
fn is_plain(text: &[u8]) -> bool
    ensures { result ≡ is_plain text.now }
{
    match text.split_first() {
        Some((first, others)) => matches!(*first, b'1'..=b'9')
            || *first == b'0' && others.is_empty(),
        None => false,
    }
}

#[tactic(auto, using(crate::proofs::Numerals::no_utf8))]
/// The number that the text is in decimal digits, without zeros in front. None for another text, and from 2^64 on.
pub fn number_in(text: &[u8]) -> Option<u64>
    ensures { MatchOption result ((n : ℕ) → n < 2 ^ 64 → text.now ≢ decimal n) (λ n. text.now ≡ decimal n) }
{
    if !is_plain(text) {
        return None;
    }
    match str::from_utf8(text) {
        Ok(digits) => digits.parse::<u64>().ok(),
        Err(_) => None,
    }
}

#[tactic(auto, using(crate::proofs::Lines::other_word, crate::proofs::Lines::has_front, crate::proofs::Lines::other_end))]
/// The number of a line that is the word, the number and LF. None for another text, and from 2^64 on.
fn number_behind(word: &[u8], text: &[u8]) -> Option<u64>
    ensures line { MatchOption result ((n : ℕ) → n < 2 ^ 64 → text.now ≢ word.now ++ (decimal n ++ codes "\n"))
        (λ n. text.now ≡ word.now ++ (decimal n ++ codes "\n")) }
    ensures small { IfSome result (λ n. n < 2 ^ 64) }
{
    let Some(line) = text.strip_prefix(word) else {
        return None;
    };
    let Some(digits) = line.strip_suffix(b"\n") else {
        return None;
    };
    number_in(digits)
}

/// The end by a code; None where it is none of a byte.
fn exited(code: u64) -> Option<End>
    ensures { MatchOption result (256 ≤ code) (λ end. (end ≡ told.Code code) × (code < 256)) }
{
    match u8::try_from(code) {
        Ok(code) => Some(End::Code(code)),
        Err(_) => None,
    }
}

/// The end by a signal; None where it is none of a byte.
fn killed(number: u64) -> Option<End>
    ensures { MatchOption result (256 ≤ number) (λ end. (end ≡ told.Signal number) × (number < 256)) }
{
    match u8::try_from(number) {
        Ok(number) => Some(End::Signal(number)),
        Err(_) => None,
    }
}

/// The pid of this number; None for 0 and 1, and from 2^31 on.
fn pid_of(number: u64) -> Option<u32>
    ensures { MatchOption result ((number ≤ 1) ⊎ (runner.pid_limit ≤ number)) (λ pid. (pid ≡ number) × (1 < number) × (number < runner.pid_limit)) }
{
    if number <= 1 || number >= PID_LIMIT {
        return None;
    }
    Some(number as u32)
}

/// Whose the claim with this text is: a runner's, but for the manager's own text.
pub fn read_claim(text: &[u8]) -> Claimant
    ensures { result ≡ runner.claimant_of text.now }
{
    if text == b"manager\n".as_slice() {
        Claimant::Manager
    } else {
        Claimant::Runner
    }
}

#[tactic(auto, using(crate::proofs::Lines::pid_read, crate::proofs::Lines::no_pid_line))]
/// The pid that the text names: a number in decimal digits, without zeros in front, and LF. None for any other text,
/// for 0 and 1, the system's first process, and from 2^31 on.
pub fn read_pid(text: &[u8]) -> Option<u32>
    ensures { MatchOption result ((pid : ℕ) → runner.IsPid text.now pid → ⊥) (runner.IsPid text.now) }
{
    let number = number_behind(b"", text)?;
    pid_of(number)
}

#[tactic(auto, using(crate::proofs::Lines::code_read, crate::proofs::Lines::signal_read, crate::proofs::Lines::no_status))]
/// The end that the text names: `code` or `signal`, a space, a number up to 255 in decimal digits, without zeros in
/// front, and LF. None for any other text: then nobody can know how the process ended. It is never `End::Lost`.
pub fn read_status(text: &[u8]) -> Option<End>
    ensures { MatchOption result ((end : ends.End) → runner.IsStatus text.now end → ⊥) (runner.IsStatus text.now) }
{
    match number_behind(b"code ", text) {
        Some(code) => exited(code),
        None => match number_behind(b"signal ", text) {
            Some(number) => killed(number),
            None => None,
        },
    }
}

/// The text for a pid.
pub fn pid_text(alloc: Global, pid: u32) -> Result<String, AllocError>
    ensures { IfOk result (λ text. string_bytes text ≡ runner.pid_text pid) }
{
    format!(in alloc; "{pid}\n")
}

/// The text for an end; for one that nobody can know the empty text, which names none.
pub fn status_text(alloc: Global, end: End) -> Result<String, AllocError>
    ensures { IfOk result (λ text. string_bytes text ≡ runner.status_text end) }
{
    match end {
        End::Code(code) => format!(in alloc; "code {code}\n"),
        End::Signal(number) => format!(in alloc; "signal {number}\n"),
        End::Lost => Ok(String::new(alloc)),
    }
}

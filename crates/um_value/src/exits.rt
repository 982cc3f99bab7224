//! Sets of exits.

ghost use Rattle.std.specs.Prelude.{◌≡◌, ◌||◌, ◌<◌, true, false, Some, Bool, IfSome, IfNone, option_map, ℕ, length, slice_index_or};
ghost use Rattle.um_model.specs.Values.{exit_of, is_end, exits_of};
ghost use Rattle.um_model.specs.declared.service.End as ends;
ghost use Rattle.um_value.specs.ExitSet.{holds, fits, signal_number};

use crate::numbers::{decimal, is_decimal};
use crate::tables::number_among;
use um_model::End;
use um_text::Class;

/// Adds another set, with the same number of places, to the set.
fn add_all(set: &mut [bool], other: &[bool])
    requires { length set.old ≡ length other.now }
    ensures same_length { length set.new ≡ length set.old }
    ensures either { (i : ℕ) → slice_index_or set.new i false ≡ (slice_index_or set.old i false || slice_index_or other.now i false) }
{
    for (index, place) in set.iter_mut().enumerate() {
        *place = *place || other[index];
    }
}

/// A set of ends of processes: exit codes, and signals from 1 to 15.
#[derive(Clone, Copy, Debug, PartialEq, Eq)]
pub struct ExitSet {
    /// Whether the code is in the set, by the code.
    codes: [bool; 256],
    /// Whether the signal is in the set, by its number; no signal has the number 0.
    signals: [bool; 16],
}

impl ExitSet {
    /// The empty set.
    pub fn empty() -> ExitSet
        ensures { (end : ends.End) → holds result end ≡ false }
    {
        ExitSet {
            codes: [false; 256],
            signals: [false; 16],
        }
    }

    /// Whether the end is in the set. A lost end is in none.
    pub fn holds(&self, end: End) -> bool
        ensures { result ≡ holds self.now end }
    {
        match end {
            End::Code(code) => self.codes[usize::from(code)],
            End::Signal(number) => self
                .signals
                .get(usize::from(number))
                .copied()
                .unwrap_or(false),
            End::Lost => false,
        }
    }

    /// Puts the ends of another set into this one.
    pub fn add(&mut self, other: &ExitSet)
        ensures { (end : ends.End) → holds self.new end ≡ (holds self.old end || holds other.now end) }
    {
        add_all(&mut self.codes, &other.codes);
        add_all(&mut self.signals, &other.signals);
    }

    /// Puts the end into the set.
    fn insert(&mut self, end: End)
        requires { fits end ≡ true }
        ensures { (other : ends.End) → holds self.new other ≡ (is_end other (Some end) || holds self.old other) }
    {
        match end {
            End::Code(code) => self.codes[usize::from(code)] = true,
            End::Signal(number) => self.signals[usize::from(number)] = true,
            End::Lost => {}
        }
    }
}

/// The signals by their names, with their numbers.
const SIGNALS: [(&str, u8); 15] = [
    ("SIGHUP", 1),
    ("SIGINT", 2),
    ("SIGQUIT", 3),
    ("SIGILL", 4),
    ("SIGTRAP", 5),
    ("SIGABRT", 6),
    ("SIGBUS", 7),
    ("SIGFPE", 8),
    ("SIGKILL", 9),
    ("SIGUSR1", 10),
    ("SIGSEGV", 11),
    ("SIGUSR2", 12),
    ("SIGPIPE", 13),
    ("SIGALRM", 14),
    ("SIGTERM", 15),
];

/// The number of the signal of that name.
fn signal_number(word: &[u8]) -> Option<u8>
    ensures value { result ≡ signal_number word.now }
    ensures small { IfSome result (λ number. number < 16) }
{
    number_among(&SIGNALS, word)
}

/// The end that the word names: a code from 0 to 255, or a signal by its name.
fn exit_of(word: &[u8]) -> Option<End>
    ensures value { result ≡ exit_of word.now }
    ensures fits { IfSome result (λ end. fits end ≡ true) }
{
    if is_decimal(word) {
        u8::try_from(decimal(word)?).ok().map(End::Code)
    } else {
        signal_number(word).map(End::Signal)
    }
}

/// The set of the ends that the text's words name: codes from 0 to 255, and the names from `SIGHUP` to `SIGTERM`.
/// Only spaces and tabs separate words; a text without words gives the empty set (systemd.service(5),
/// `SuccessExitStatus=`). `None` if a word is anything else.
pub fn exit_set(text: &str) -> Option<ExitSet>
    ensures { option_map holds result ≡ exits_of text.now }
{
    let mut set = ExitSet::empty();
    let pieces = text.as_bytes().split(|b| Class::Space.contains(*b));
    for word in pieces.filter(|piece| !piece.is_empty()) {
        set.insert(exit_of(word)?);
    }
    Some(set)
}

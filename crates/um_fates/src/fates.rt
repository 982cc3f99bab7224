//! The fates of processes, as inputs.

ghost use Rattle.std.specs.Prelude.{◌≡◌, ◌+◌, ◌*◌, ◌≤◌, ◌++◌, ◌∷◌, [], ℕ, true, length, vec_len, vec_capacity};
ghost use Rattle.um_children.specs.Frames.{KeepsChildren};
ghost use Rattle.um_state.specs.View.{input_of};
ghost use Rattle.um_fates.specs.Fates.{Heard, inputs_in, inputs_of_end, inputs_of_fate, happens_at, lost};
ghost use Rattle.um_fates.specs.Live.{has};
ghost use Rattle.um_model.specs.Machine.{ProcessEnded, ProcessExecuted};

use crate::marks::Marks;
use um_children::Children;
use um_model::{End, Fate, Moment, ProcessNumber};
use um_state::{Event, Happening, Input};

/// Notes an input for which there is room.
pub fn put(inputs: &mut Vec<Input>, input: Input)
    requires { vec_len inputs.old + 1 ≤ vec_capacity inputs.old }
    ensures items { inputs_in inputs.new.items ≡ inputs_in inputs.old.items ++ input_of input ∷ [] }
    ensures len { vec_len inputs.new ≡ vec_len inputs.old + 1 }
    ensures capacity { vec_capacity inputs.old ≤ vec_capacity inputs.new }
{
    inputs.push_reserved(input);
}

fn ended(moment: Moment, number: ProcessNumber, end: End) -> Input
    ensures { input_of result ≡ happens_at moment (ProcessEnded number end) }
{
    let number = number.get();
    Input::new(
        moment,
        Event::Happened(Happening::ProcessEnded { number, end }),
    )
}

fn executed(moment: Moment, number: ProcessNumber) -> Input
    ensures { input_of result ≡ happens_at moment (ProcessExecuted number) }
{
    let number = number.get();
    Input::new(
        moment,
        Event::Happened(Happening::ProcessExecuted { number }),
    )
}

/// Notes the inputs of an end: its program was executed before, unless the end says that it could not be.
fn put_end(inputs: &mut Vec<Input>, moment: Moment, number: ProcessNumber, end: End)
    requires { vec_len inputs.old + 2 ≤ vec_capacity inputs.old }
    ensures items { inputs_in inputs.new.items ≡ inputs_in inputs.old.items ++ inputs_of_end moment number end }
    ensures len { vec_len inputs.new ≤ vec_len inputs.old + 2 }
    ensures capacity { vec_capacity inputs.old ≤ vec_capacity inputs.new }
{
    match end {
        End::Code(203) => put(inputs, ended(moment, number, end)),
        End::Code(_) | End::Signal(_) | End::Lost => {
            put(inputs, executed(moment, number));
            put(inputs, ended(moment, number, end));
        }
    }
}

/// Notes the inputs of a fate.
fn put_fate(inputs: &mut Vec<Input>, moment: Moment, number: ProcessNumber, fate: Fate, absent: End)
    requires { vec_len inputs.old + 2 ≤ vec_capacity inputs.old }
    ensures items { inputs_in inputs.new.items ≡ inputs_in inputs.old.items ++ inputs_of_fate absent moment number fate }
    ensures len { vec_len inputs.new ≤ vec_len inputs.old + 2 }
    ensures capacity { vec_capacity inputs.old ≤ vec_capacity inputs.new }
{
    match fate {
        Fate::Starting => {}
        Fate::Executed => put(inputs, executed(moment, number)),
        Fate::Ended(end) => put_end(inputs, moment, number, end),
        Fate::Absent => put(inputs, ended(moment, number, absent)),
    }
}

/// Queries one number's fate; its inputs follow. A call that fails gives none.
fn hear_one<C: Children>(
    children: &mut C,
    number: ProcessNumber,
    claim: bool,
    absent: End,
    moment: Moment,
    inputs: &mut Vec<Input>,
)
    requires { vec_len inputs.old + 2 ≤ vec_capacity inputs.old }
    ensures hears { Heard absent moment (λ n. claim) (C.honest children.old) (C.whole children.new) (C.past children.old) (C.past children.new)
        (number ∷ []) (inputs_in inputs.old.items) (inputs_in inputs.new.items) }
    ensures len { vec_len inputs.new ≤ vec_len inputs.old + 2 }
    ensures capacity { vec_capacity inputs.old ≤ vec_capacity inputs.new }
    ensures children { KeepsChildren C.Children children.old children.new }
{
    match children.fate(number, claim) {
        Ok(fate) => put_fate(inputs, moment, number, fate, absent),
        Err(_) => {}
    }
}

/// Queries the fate of each of these numbers once, in their order, of the marked ones with a claim.
pub fn hear<C: Children>(
    children: &mut C,
    live: &[ProcessNumber],
    marks: &Marks,
    absent: End,
    moment: Moment,
    inputs: &mut Vec<Input>,
)
    requires { vec_len inputs.old + 2 * length live.now ≤ vec_capacity inputs.old }
    ensures hears { Heard absent moment (λ n. has n marks.now) (C.honest children.old) (C.whole children.new) (C.past children.old)
        (C.past children.new) live.now (inputs_in inputs.old.items) (inputs_in inputs.new.items) }
    ensures len { vec_len inputs.new ≤ vec_len inputs.old + 2 * length live.now }
    ensures capacity { vec_capacity inputs.old ≤ vec_capacity inputs.new }
    ensures children { KeepsChildren C.Children children.old children.new }
{
    for number in live {
        let claim = marks.contains(*number);
        hear_one(children, *number, claim, absent, moment, inputs);
    }
}

/// Queries the fate of each of these numbers once, in their order, with a claim. One that is absent is lost.
pub fn claim_all<C: Children>(
    children: &mut C,
    live: &[ProcessNumber],
    moment: Moment,
    inputs: &mut Vec<Input>,
)
    requires { vec_len inputs.old + 2 * length live.now ≤ vec_capacity inputs.old }
    ensures hears { Heard lost moment (λ n. true) (C.honest children.old) (C.whole children.new) (C.past children.old) (C.past children.new) live.now
        (inputs_in inputs.old.items) (inputs_in inputs.new.items) }
    ensures len { vec_len inputs.new ≤ vec_len inputs.old + 2 * length live.now }
    ensures capacity { vec_capacity inputs.old ≤ vec_capacity inputs.new }
    ensures children { KeepsChildren C.Children children.old children.new }
{
    for number in live {
        hear_one(children, *number, true, End::Lost, moment, inputs);
    }
}

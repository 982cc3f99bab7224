//! The numbers whose fate is queried with a claim.

ghost use Rattle.std.specs.Prelude.{◌≡◌, ◌||◌, ◌+◌, ◌≤◌, ◌++◌, ◌∷◌, [], ℕ, List};
ghost use Rattle.std.specs.Prelude.{true, false, nat_lt, if◌then◌else◌, length, filter, vec_len, vec_capacity, IfOk, IfSome};
ghost use Rattle.std.specs.BTreeSet as sets;
ghost use Rattle.std.specs.Ordering.{nat_cmp};
ghost use Rattle.std.specs.List.{list_all};
ghost use Rattle.um_model.specs.StateSpellings.{are_distinct};
ghost use Rattle.um_fates.specs.Live.{has, is_live, HasFewLive};

use crate::live::is_live;
use std::alloc::{AllocError, Global};
use std::collections::BTreeSet;
use std::marker::Model;
use std::mem;
use um_model::ProcessNumber;
use um_state::Units;

/// The most numbers that are live.
const MOST_LIVE: usize = 2048;

/// The numbers whose fate is queried with a claim: those that were live when the manager was opened, and those whose
/// start was refused since. There is room for each that is live.
#[derive(Drop)]
pub struct Marks {
    numbers: Vec<ProcessNumber>,
    spare: Vec<ProcessNumber>,
    /// The same numbers, found without a look at each of them.
    index: BTreeSet<u64>,
    /// The index isn't kept any more, since it found no memory or numbers were forgotten: they are looked through.
    is_plain: bool,
    ghost room: { 2048 ≤ vec_capacity numbers },
    ghost spare_room: { 2048 ≤ vec_capacity spare },
    ghost fits: { vec_len numbers ≤ vec_capacity spare },
    ghost once: { are_distinct numbers.items ≡ true },
    ghost indexed: { is_plain ≡ false → (n : ℕ) → sets.contains nat_cmp index n ≡ has n numbers.items },
}

impl Model for Marks {
    ghost Value = { List ℕ };

    ghost view = { λ m. m.numbers.items };
}

fn is_among(numbers: &[ProcessNumber], number: ProcessNumber) -> bool
    ensures { result ≡ has number numbers.now }
{
    for other in numbers {
        if other.get() == number.get() {
            return true;
        }
    }
    false
}

/// Notes each of these numbers that is live.
fn pick_live(numbers: &[ProcessNumber], units: &Units, picked: &mut Vec<ProcessNumber>)
    requires { vec_len picked.old + length numbers.now ≤ vec_capacity picked.old }
    ensures items { picked.new.items ≡ picked.old.items ++ filter (is_live units.now.held) numbers.now }
    ensures len { vec_len picked.new ≤ vec_len picked.old + length numbers.now }
    ensures capacity { vec_capacity picked.old ≤ vec_capacity picked.new }
{
    for number in numbers {
        if is_live(units, *number) {
            picked.push_reserved(*number);
        }
    }
}

/// Notes a number that isn't noted yet, where there is room.
#[tactic(auto, using(crate::proofs::Marking::distinct_push))]
fn note(noted: &mut Vec<ProcessNumber>, number: ProcessNumber)
    requires once { are_distinct noted.old.items ≡ true }
    requires room { vec_len noted.old + 1 ≤ vec_capacity noted.old }
    ensures has { (n : ℕ) → has n noted.new.items ≡ (has n noted.old.items || has n (number ∷ [])) }
    ensures once { are_distinct noted.new.items ≡ true }
    ensures len { vec_len noted.new ≤ vec_len noted.old + 1 }
    ensures capacity { vec_capacity noted.old ≤ vec_capacity noted.new }
{
    if is_among(noted.as_slice(), number) {
        return;
    }
    noted.push_reserved(number);
}

/// Adds the number to an index. False where there is no memory for it.
fn enter(index: &mut BTreeSet<u64>, number: ProcessNumber) -> bool
    ensures { result ≡ true → (n : ℕ) → sets.contains nat_cmp index.new n ≡ (sets.contains nat_cmp index.old n || has n (number ∷ [])) }
{
    match index.insert(number.get()) {
        Ok(_) => true,
        Err(_) => false,
    }
}

/// The index of these numbers; None where there is no memory for it.
fn index_of(alloc: Global, numbers: &[ProcessNumber]) -> Option<BTreeSet<u64>>
    ensures { IfSome result (λ index. (n : ℕ) → sets.contains nat_cmp index n ≡ has n numbers.now) }
{
    let mut index = BTreeSet::new(alloc);
    for number in numbers {
        if !enter(&mut index, *number) {
            return None;
        }
    }
    Some(index)
}

impl Marks {
    /// Marks of exactly these numbers. Refused only for want of memory.
    pub fn of(alloc: Global, numbers: &[ProcessNumber]) -> Result<Marks, AllocError>
        ensures { IfOk result (λ marks. (n : ℕ) → has n marks ≡ has n numbers.now) }
    {
        let room = if numbers.len() < MOST_LIVE {
            MOST_LIVE
        } else {
            numbers.len()
        };
        let mut noted = Vec::with_capacity(alloc, room)?;
        let spare = Vec::with_capacity(alloc, room)?;
        for number in numbers {
            note(&mut noted, *number);
        }
        match index_of(alloc, noted.as_slice()) {
            Some(index) => Ok(Marks {
                numbers: noted,
                spare,
                index,
                is_plain: false,
            }),
            None => Ok(Marks {
                numbers: noted,
                spare,
                index: BTreeSet::new(alloc),
                is_plain: true,
            }),
        }
    }

    /// Whether it is marked.
    pub fn contains(&self, number: ProcessNumber) -> bool
        ensures { result ≡ has number self.now }
    {
        if self.is_plain {
            return is_among(self.numbers.as_slice(), number);
        }
        self.index.contains(&number.get())
    }

    /// No number that isn't live stays marked.
    #[tactic(auto, using(crate::proofs::Marking::distinct_filter))]
    fn forget_others(&mut self, units: &Units)
        ensures same { self.new ≡ filter (is_live units.now.held) self.old }
        ensures once { are_distinct self.new ≡ true }
    {
        self.is_plain = true;
        self.spare.clear();
        pick_live(self.numbers.as_slice(), units, &mut self.spare);
        mem::swap(&mut self.numbers, &mut self.spare);
    }

    /// Where there is no more room, the numbers that aren't live go.
    fn make_room(&mut self, units: &Units)
        ensures live { (n : ℕ) → is_live units.now.held n ≡ true → has n self.new ≡ has n self.old }
        ensures none { (n : ℕ) → has n self.old ≡ false → has n self.new ≡ false }
        ensures full { 2048 ≤ length self.new → list_all (is_live units.now.held) self.new ≡ true }
        ensures once { are_distinct self.new ≡ true }
    {
        if self.numbers.len() >= MOST_LIVE {
            self.forget_others(units);
        }
    }

    /// Adds a number that isn't among the others, where there is room.
    #[tactic(auto, using(crate::proofs::Marking::distinct_push))]
    fn add(&mut self, number: ProcessNumber)
        requires { has number self.old ≡ false }
        ensures { self.new ≡ (if nat_lt (length self.old) 2048 then self.old ++ number ∷ [] else self.old) }
    {
        if self.numbers.len() < MOST_LIVE {
            self.numbers.push_reserved(number);
            if !enter(&mut self.index, number) {
                self.is_plain = true;
            }
        }
    }

    /// Marks a number. Where there is no more room those that aren't live go first. Where there is no memory for its index the marks are looked
    /// through from then on.
    pub fn mark(&mut self, number: ProcessNumber, units: &Units)
        ensures { HasFewLive units.now.held → (n : ℕ) → is_live units.now.held n ≡ true → has n self.new ≡ (has n self.old || has n (number ∷ [])) }
    {
        if self.contains(number) {
            return;
        }
        self.make_room(units);
        self.add(number);
    }
}

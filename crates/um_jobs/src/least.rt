//! A set of numbers below a limit whose least one is found in one look.

ghost use Rattle.std.specs.Prelude.{◌≡◌, ◌<◌, ◌+◌, ℕ, false, length, replicate, slice_set, get_or, IfOk, MatchOption};
ghost use Rattle.um_jobs.specs.Least.{HoldsLesser, IsLeastIn, IsNone};

use std::alloc::{AllocError, Global};
use std::marker::Model;

/// A set of numbers below a limit, kept as a tree of least numbers. A change takes no memory, and as many steps as the limit has
/// binary digits; one that changes nothing takes none.
#[derive(Drop)]
pub struct LeastSet {
    /// For each number whether it is in the set.
    marks: Vec<bool>,
    /// Place `limit + i` has i if that is in the set, else the limit; each place from 1 to the limit has the lesser of the numbers at twice
    /// the place and at the next one.
    tree: Vec<usize>,
}

impl Model for LeastSet {
    ghost use Rattle.std.specs.Prelude.{Bool, List};
    ghost use Rattle.um_jobs.specs.Least.{IsTreeOf};

    ghost Value = { List Bool };

    ghost view = { λ s. s.marks.items };

    ghost invariant = { λ s. IsTreeOf s.marks.items s.tree.items };
}

impl LeastSet {
    /// No number below this limit.
    pub fn new(alloc: Global, limit: usize) -> Result<LeastSet, AllocError>
        ensures { IfOk result (λ s. s ≡ replicate limit false) }
    {
        let marks = vec![in alloc; false; limit]?;
        let tree = vec![in alloc; limit; limit * 2]?;
        Ok(LeastSet { marks, tree })
    }

    /// A copy of the set.
    pub fn copy(&self) -> Result<LeastSet, AllocError>
        ensures { IfOk result (λ s. s ≡ self.now) }
    {
        Ok(LeastSet {
            marks: self.marks.clone()?,
            tree: self.tree.clone()?,
        })
    }

    /// The number is in the set from now on, or no more.
    pub fn set(&mut self, number: usize, is_in: bool)
        requires { number < length self.old }
        ensures { self.new ≡ slice_set self.old number is_in }
    {
        if self.marks[number] != is_in {
            let limit = self.marks.len();
            self.marks[number] = is_in;
            put_leaf(
                &mut self.tree,
                limit,
                number,
                if is_in { number } else { limit },
            );
        }
    }

    /// The least number of the set; None if it is empty.
    pub fn least(&self) -> Option<usize>
        ensures { MatchOption result (IsNone self.now) (λ i. IsLeastIn self.now i) }
    {
        let limit = self.marks.len();
        if limit == 0 {
            return None;
        }
        let least = self.tree[1];
        if least < limit { Some(least) } else { None }
    }
}

/// Puts the leaf of a number, and updates its path up to the root.
fn put_leaf(tree: &mut [usize], limit: usize, number: usize, leaf: usize)
    requires number { number < limit }
    requires len { length tree.old ≡ limit + limit }
    requires lesser { HoldsLesser tree.old limit }
    ensures leaves { (i : ℕ) → i < limit → get_or tree.new (limit + i) 0 ≡ get_or (slice_set tree.old (limit + number) leaf) (limit + i) 0 }
    ensures lesser { HoldsLesser tree.new limit }
{
    let mut at = limit + number;
    tree[at] = leaf;
    while at > 1 {
        at /= 2;
        tree[at] = tree[at * 2].min(tree[at * 2 + 1]);
    }
}

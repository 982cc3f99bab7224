//! Why a change of a tree is refused.
ghost use Rattle.std.specs.Prelude.{◌≡◌};
ghost use Rattle.um_model.specs.declared.refusals.Limit as limits;
ghost use Rattle.um_tree.specs.View.{refused_by};
ghost use Rattle.um_wire.specs.Refusal.{refused_of};
ghost use Rattle.um_wire.specs.declared.refusal.Refusal.TheVariants as refusals;
ghost use Rattle.um_tree.specs.declared.cause.Cause.TheVariants as causes;

use std::alloc::Global;
use um_wire::{Limit, Refusal, bad_path, exists_at};

/// Why a change of a tree is refused. It borrows the details of the refusal, and so takes no memory.
#[derive(Clone, Copy, Debug, PartialEq, Eq)]
pub enum Cause<'a> {
    /// The path isn't served, the target of the link is unfit, or there is nothing to remove (E12).
    BadPath { path: &'a str },
    /// Something else is at the path (E11).
    Exists { path: &'a str },
    /// The limit is exceeded (E13).
    TooLarge { limit: Limit },
}

impl Cause<'_> {
    /// The refusal for it; `NoMemory` (E15) if the path can't be copied into it. An exceeded limit needs no memory.
    pub fn refusal(self, alloc: Global) -> Refusal
        ensures told { ¬ (result ≡ refusals.NoMemory) → refused_of result ≡ refused_by self.entry }
        ensures limit { (limit : limits.Limit) → self.entry ≡ causes.TooLarge limit → result ≡ refusals.TooLarge limit }
    {
        match self {
            Cause::BadPath { path } => bad_path(alloc, path).unwrap_or(Refusal::NoMemory),
            Cause::Exists { path } => exists_at(alloc, path).unwrap_or(Refusal::NoMemory),
            Cause::TooLarge { limit } => Refusal::TooLarge { limit },
        }
    }
}

//! Want of memory, as distinct from a refusal with a cause.

ghost use Rattle.std.specs.Prelude.{◌≡◌, ◌↔◌, IsTrue};
ghost use Rattle.um_wire.specs.declared.refusal.Refusal.TheVariants.{NoMemory};

use um_wire::Refusal;

/// Whether nothing but memory was wanting.
pub fn is_for_memory(refusal: Refusal) -> bool
    ensures { IsTrue result ↔ (refusal ≡ NoMemory) }
{
    matches!(refusal, Refusal::NoMemory)
}

//! The failure of a disk call.
ghost use Rattle.std.specs.Prelude.{◌≡◌};

use thiserror::Error;
use um_wire::Refusal;

/// A call on the disk failed.
#[derive(Debug, Drop, Error)]
#[error("the disk failed")]
pub struct Fault;

impl From<Fault> for Refusal {
    ghost use Rattle.um_wire.specs.declared.refusal.Refusal.TheVariants.{Device};

    ghost from_gives = { λ _ e. e ≡ Device };

    fn from(_fault: Fault) -> Refusal {
        Refusal::Device
    }
}

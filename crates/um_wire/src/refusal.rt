//! The refusals of calls, with their details.
ghost use Rattle.std.specs.Prelude.{◌≡◌, ◌↔◌, IsTrue};

use std::alloc::{AllocError, AllocFailed};
use std::fmt;
use thiserror::Error;
use um_model::Limit;

/// Texts in a row, shown with a space between two.
#[derive(Debug, Drop)]
pub struct Texts {
    pub items: Vec<String>,
}

impl fmt::Display for Texts {
    fn fmt<W: fmt::Write>(&self, f: &mut fmt::Formatter<W>) -> fmt::Result {
        let mut later = false;
        for text in &self.items {
            if later {
                f.write_str(" ")?;
            }
            f.write_str(text.as_str())?;
            later = true;
        }
        Ok(())
    }
}

/// Why a call was refused, with the details of its reply. The command line prints it as `E4 NotFound b.service`:
/// number, name and details, with single spaces.
#[derive(Debug, Drop, Error)]
pub enum Refusal {
    /// Not one JSON object; a missing, unknown or ill-typed field; a text with U+0000; a boot id past 64 bytes; a moment past
    /// 2^62 microseconds.
    #[error("E1 BadRequest")]
    BadRequest,
    /// No such verb in this mode.
    #[error("E2 UnknownVerb {verb}")]
    UnknownVerb { verb: String },
    /// Not a unit name: the text as it was sent.
    #[error("E3 BadName {text}")]
    BadName { text: String },
    /// A unit to be started or enabled, or named to `cat`, isn't found.
    #[error("E4 NotFound {unit}")]
    NotFound { unit: String },
    /// A unit to be started or enabled, or named to `cat`, is masked.
    #[error("E5 Masked {unit}")]
    Masked { unit: String },
    /// The unit has a setting that is refused, or is a template.
    #[error("E6 BadSetting {unit} {reason}")]
    BadSetting { unit: String, reason: String },
    /// A unit to be stopped, restarted where active, cancelled or reset is neither found in the loaded tree nor in the state.
    #[error("E7 NotLoaded {unit}")]
    NotLoaded { unit: String },
    /// Start and stop are demanded of one unit.
    #[error("E8 Clash {unit}")]
    Clash { unit: String },
    /// The pending jobs would have a cycle: its units, each before the next and the last before the first, the least first.
    #[error("E9 OrderingCycle {units}")]
    OrderingCycle { units: Texts },
    /// Mode `fail` would drop a pending job of the unit.
    #[error("E10 JobConflict {unit}")]
    JobConflict { unit: String },
    /// Something else is at the path.
    #[error("E11 Exists {path}")]
    Exists { path: String },
    /// The path has no served form, the target of the link is unfit, or there is nothing to remove.
    #[error("E12 BadPath {path}")]
    BadPath { path: String },
    /// The limit is passed.
    #[error("E13 TooLarge {}", .limit.word())]
    TooLarge { limit: Limit },
    /// The weight of the state would exceed the store's size.
    #[error("E14 NoRoom")]
    NoRoom,
    /// An allocation failed.
    #[error("E15 NoMemory")]
    NoMemory,
    /// The disk or the children failed in that call.
    #[error("E16 Device")]
    Device,
    /// An earlier call of that keeper failed on its device: it has to be opened again.
    #[error("E17 Reopen")]
    Reopen,
    /// The image has no reading at the sector.
    #[error("E18 Damaged {sector}")]
    Damaged { sector: u64 },
    /// There is no sector 0, or it doesn't begin as that of a store.
    #[error("E19 NotFormatted")]
    NotFormatted,
    /// The generation is the last that there is, 2^64 - 1.
    #[error("E20 GenerationsSpent")]
    GenerationsSpent,
    /// There is no waiting job of the unit to be cancelled.
    #[error("E21 NoSuchJob {unit}")]
    NoSuchJob { unit: String },
    /// A store of another layout.
    #[error("E22 OtherLayout")]
    OtherLayout,
}

impl Refusal {
    ghost use Rattle.um_wire.specs.Refusal.{refused_of};

    /// The number in a reply, 1 to 22.
    pub fn number(&self) -> u64
        ensures { result ≡ (refused_of self.now).number }
    {
        match self {
            Refusal::BadRequest => 1,
            Refusal::UnknownVerb { .. } => 2,
            Refusal::BadName { .. } => 3,
            Refusal::NotFound { .. } => 4,
            Refusal::Masked { .. } => 5,
            Refusal::BadSetting { .. } => 6,
            Refusal::NotLoaded { .. } => 7,
            Refusal::Clash { .. } => 8,
            Refusal::OrderingCycle { .. } => 9,
            Refusal::JobConflict { .. } => 10,
            Refusal::Exists { .. } => 11,
            Refusal::BadPath { .. } => 12,
            Refusal::TooLarge { .. } => 13,
            Refusal::NoRoom => 14,
            Refusal::NoMemory => 15,
            Refusal::Device => 16,
            Refusal::Reopen => 17,
            Refusal::Damaged { .. } => 18,
            Refusal::NotFormatted => 19,
            Refusal::GenerationsSpent => 20,
            Refusal::NoSuchJob { .. } => 21,
            Refusal::OtherLayout => 22,
        }
    }

    /// The name that the command line prints.
    pub fn name(&self) -> &'static str
        ensures { result.now ≡ (refused_of self.now).name }
    {
        match self {
            Refusal::BadRequest => "BadRequest",
            Refusal::UnknownVerb { .. } => "UnknownVerb",
            Refusal::BadName { .. } => "BadName",
            Refusal::NotFound { .. } => "NotFound",
            Refusal::Masked { .. } => "Masked",
            Refusal::BadSetting { .. } => "BadSetting",
            Refusal::NotLoaded { .. } => "NotLoaded",
            Refusal::Clash { .. } => "Clash",
            Refusal::OrderingCycle { .. } => "OrderingCycle",
            Refusal::JobConflict { .. } => "JobConflict",
            Refusal::Exists { .. } => "Exists",
            Refusal::BadPath { .. } => "BadPath",
            Refusal::TooLarge { .. } => "TooLarge",
            Refusal::NoRoom => "NoRoom",
            Refusal::NoMemory => "NoMemory",
            Refusal::Device => "Device",
            Refusal::Reopen => "Reopen",
            Refusal::Damaged { .. } => "Damaged",
            Refusal::NotFormatted => "NotFormatted",
            Refusal::GenerationsSpent => "GenerationsSpent",
            Refusal::NoSuchJob { .. } => "NoSuchJob",
            Refusal::OtherLayout => "OtherLayout",
        }
    }
}

impl From<AllocError> for Refusal {
    ghost use Rattle.um_wire.specs.declared.refusal.Refusal.TheVariants.{NoMemory};

    ghost from_gives = { λ _ e. e ≡ NoMemory };

    fn from(_refused: AllocError) -> Refusal {
        Refusal::NoMemory
    }
}

impl<T: Drop> From<AllocFailed<T>> for Refusal {
    ghost use Rattle.um_wire.specs.declared.refusal.Refusal.TheVariants.{NoMemory};

    ghost from_gives = { λ _ e. e ≡ NoMemory };

    fn from(_refused: AllocFailed<T>) -> Refusal {
        Refusal::NoMemory
    }
}

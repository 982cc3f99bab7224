//! The kinds of warnings that a unit file gives.

ghost use Rattle.std.specs.Prelude.{◌≡◌};
ghost use Rattle.um_model.specs.Syntax.{warning_number};

/// Why a line of a unit file, or a word in it, is without effect. A line gives one warning at most.
#[derive(Clone, Copy, Debug, PartialEq, Eq)]
pub enum WarningKind {
    /// An assignment stands before any section.
    BeforeAnySection,
    /// The line has no `=`, and is no head of a section.
    NoEqualsSign,
    /// The section isn't known; its lines give no further warning.
    UnknownSection,
    /// The key isn't known in its section.
    UnknownKey,
    /// The value can't be read.
    UnreadableValue,
    /// The value has a specifier that can't be read.
    UnreadableSpecifier,
}

impl WarningKind {
    /// The number in a reply, 1 to 6.
    pub fn number(self) -> u64
        ensures { result ≡ warning_number self }
    {
        match self {
            WarningKind::BeforeAnySection => 1,
            WarningKind::NoEqualsSign => 2,
            WarningKind::UnknownSection => 3,
            WarningKind::UnknownKey => 4,
            WarningKind::UnreadableValue => 5,
            WarningKind::UnreadableSpecifier => 6,
        }
    }
}

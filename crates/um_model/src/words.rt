//! The rules by which a text is split into words.

/// By which rules a text is split into words.
#[derive(Clone, Copy, Debug, PartialEq, Eq)]
pub enum WordRules {
    /// A setting's: a backslash begins an escape, and each quote must be closed.
    Escaped,
    /// Those of a variable's value: a backslash stands for itself, and an unclosed quote reaches to the end.
    Plain,
    /// Those of a list of unit names: a backslash stands for itself, and each quote must be closed.
    Names,
}

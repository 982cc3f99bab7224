//! The load states of units, and the kinds of values in their files.

ghost use Rattle.std.specs.Prelude.{◌≡◌};
ghost use Rattle.um_model.specs.Units.{load_state_text};

/// The result of the search for a unit's file (systemctl(1), `LoadState`).
#[derive(Clone, Copy, Debug, PartialEq, Eq)]
pub enum LoadState {
    Loaded,
    Masked,
    NotFound,
    BadSetting,
}

impl LoadState {
    /// The word for the load state.
    pub fn text(self) -> &'static str
        ensures { result.now ≡ load_state_text self }
    {
        match self {
            LoadState::Loaded => "loaded",
            LoadState::Masked => "masked",
            LoadState::NotFound => "not-found",
            LoadState::BadSetting => "bad-setting",
        }
    }
}

/// The kind of value that a key of a unit file takes.
#[derive(Clone, Copy, Debug, PartialEq, Eq)]
pub enum ValueKind {
    /// A text with specifiers.
    Text,
    /// Any text: it has no effect.
    Unused,
    /// Names of units.
    Units,
    /// Other names of the unit.
    Aliases,
    /// An instance.
    Instance,
    /// A truth value.
    Truth,
    /// A time span.
    Span,
    /// A number.
    Number,
    /// Commands.
    Commands,
    /// Variables with their values.
    Environment,
    /// Ends of processes: exit codes and signals.
    Exits,
    /// When a service is started again.
    Policy,
    /// The type of a service.
    ServiceType,
    /// Any text: no unit may have the key with a value.
    Refused,
}

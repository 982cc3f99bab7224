//! The suffixes of unit names.

ghost use Rattle.std.specs.Prelude.{◌≡◌};
ghost use Rattle.um_model.specs.Names.{suffix_text};

/// The type of a unit, as its name ends (systemd.unit(5)).
#[derive(Clone, Copy, Debug, PartialEq, Eq)]
pub enum Suffix {
    Service,
    Socket,
    Device,
    Mount,
    Automount,
    Swap,
    Target,
    Path,
    Timer,
    Slice,
    Scope,
}

impl Suffix {
    /// The text of the suffix, with its dot.
    pub fn text(self) -> &'static str
        ensures { result.now ≡ suffix_text self }
    {
        match self {
            Suffix::Service => ".service",
            Suffix::Socket => ".socket",
            Suffix::Device => ".device",
            Suffix::Mount => ".mount",
            Suffix::Automount => ".automount",
            Suffix::Swap => ".swap",
            Suffix::Target => ".target",
            Suffix::Path => ".path",
            Suffix::Timer => ".timer",
            Suffix::Slice => ".slice",
            Suffix::Scope => ".scope",
        }
    }
}

//! Enabling and its kin, and how a unit is enabled.

ghost use Rattle.std.specs.Prelude.{◌≡◌};
ghost use Rattle.um_model.specs.Install.{enabling_text};

/// A change of the links of a unit in the tree in hand (systemctl(1)); each is followed by a reload.
#[derive(Clone, Copy, Debug, PartialEq, Eq)]
pub enum InstallVerb {
    /// Make the links that its [Install] section calls for.
    Enable,
    /// Remove the links in `etc/` by which it is wanted, required or has another name.
    Disable,
    /// Make it a link to `/dev/null`.
    Mask,
    /// Remove that link.
    Unmask,
}

/// How a unit is enabled (systemctl(1), "is-enabled"); of several that fit, the first of these.
#[derive(Clone, Copy, Debug, PartialEq, Eq)]
pub enum Enabling {
    NotFound,
    Masked,
    /// The name is another name of a unit.
    Alias,
    /// There is a link that disabling it removes.
    Enabled,
    /// Its [Install] section calls for links, and none of them is there.
    Disabled,
    /// Its [Install] section names other units in Also= alone.
    Indirect,
    /// Its [Install] section calls for nothing.
    Static,
}

impl Enabling {
    /// The word for it in the reply to `is-enabled`.
    pub fn text(self) -> &'static str
        ensures { result.now ≡ enabling_text self }
    {
        match self {
            Enabling::NotFound => "not-found",
            Enabling::Masked => "masked",
            Enabling::Alias => "alias",
            Enabling::Enabled => "enabled",
            Enabling::Disabled => "disabled",
            Enabling::Indirect => "indirect",
            Enabling::Static => "static",
        }
    }
}

//! The profiles by which the files of units are read.

ghost use Rattle.std.specs.Prelude.{◌≡◌};
ghost use Rattle.um_model.specs.Profiles.{current, later, serves_start_pre};

/// By which rules the files of units are read. The loaded tree of a state has one, and so has each input; a later one
/// serves all that an earlier one does, and more.
#[derive(Clone, Copy, Debug, PartialEq, Eq)]
pub enum Profile {
    One,
    Two,
}

impl Profile {
    /// The profile of inputs that are submitted now, by which queries read the tree in hand too.
    pub fn current() -> Profile
        ensures { result ≡ current }
    {
        Profile::Two
    }

    /// Whether `ExecStartPre=` is served, so that a unit may be in start-pre.
    pub fn serves_start_pre(self) -> bool
        ensures { result ≡ serves_start_pre self }
    {
        match self {
            Profile::One => false,
            Profile::Two => true,
        }
    }

    /// The later of the two profiles.
    pub fn later(self, other: Profile) -> Profile
        ensures { result ≡ later self other }
    {
        match self {
            Profile::One => other,
            Profile::Two => Profile::Two,
        }
    }
}

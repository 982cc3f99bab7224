//! The layers of the tree.

ghost use Rattle.std.specs.Prelude.{◌≡◌};
ghost use Rattle.um_model.specs.Tree.{layer_text};

/// A layer of the tree: `etc/` and `run/` stand for the folders of the administrator and of this boot, `lib/` for that of
/// packages; the earlier wins (systemd.unit(5), "Unit File Load Path").
#[derive(Clone, Copy, Debug, PartialEq, Eq)]
pub enum Layer {
    Etc,
    Run,
    Lib,
}

impl Layer {
    /// The text at the front of a path, with its slash.
    pub fn text(self) -> &'static str
        ensures { result.now ≡ layer_text self }
    {
        match self {
            Layer::Etc => "etc/",
            Layer::Run => "run/",
            Layer::Lib => "lib/",
        }
    }
}

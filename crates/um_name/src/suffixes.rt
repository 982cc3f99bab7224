//! The suffixes of unit names.
ghost use Rattle.std.specs.Prelude.{◌≡◌};
ghost use Rattle.um_model.specs.Names.{suffix_of};

use um_model::Suffix;

/// All suffixes; none ends in another one.
const SUFFIXES: [Suffix; 11] = [
    Suffix::Service,
    Suffix::Socket,
    Suffix::Device,
    Suffix::Mount,
    Suffix::Automount,
    Suffix::Swap,
    Suffix::Target,
    Suffix::Path,
    Suffix::Timer,
    Suffix::Slice,
    Suffix::Scope,
];

/// The suffix that the text ends in (systemd.unit(5), "Description").
#[tactic(auto, unfolding(um_model::specs::Names::suffix_of))]
pub fn suffix_of(text: &str) -> Option<Suffix>
    ensures { result ≡ suffix_of text.now }
{
    let text = text.as_bytes();
    SUFFIXES
        .iter()
        .copied()
        .find(|suffix| text.ends_with(suffix.text().as_bytes()))
}

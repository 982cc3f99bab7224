//! The sentences of warnings.

ghost use Rattle.std.specs.Prelude.{◌≡◌};
ghost use Rattle.um_sentences.specs.Sentences as model;

use um_model::WarningKind;

/// The sentence of a warning for its line, as `unknown key, no effect`.
pub fn warning_sentence(kind: WarningKind) -> &'static str
    ensures { result.now ≡ model.warning_sentence kind }
{
    match kind {
        WarningKind::BeforeAnySection => "before any section, no effect",
        WarningKind::NoEqualsSign => "no = in it, no effect",
        WarningKind::UnknownSection => "unknown section, no effect",
        WarningKind::UnknownKey => "unknown key, no effect",
        WarningKind::UnreadableValue => "unreadable value, no effect",
        WarningKind::UnreadableSpecifier => "unreadable specifier, no effect",
    }
}

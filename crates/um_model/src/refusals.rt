//! The limits that a refusal names.

ghost use Rattle.std.specs.Prelude.{◌≡◌};
ghost use Rattle.um_model.specs.Refusals.{limit_word};

/// A limit of the service; of several that are passed, the refusal names the first in this order.
#[derive(Clone, Copy, Debug, PartialEq, Eq)]
pub enum Limit {
    /// A request frame has at most 524,288 bytes.
    Frame,
    /// The text of a file has at most 65,536 bytes.
    Text,
    /// A tree has at most 4,096 entries.
    Entries,
    /// At most 1,024 units are known.
    Units,
    /// The text of a reply has at most 2^24 bytes.
    Reply,
}

impl Limit {
    /// The word for the limit in a reply.
    pub fn word(self) -> &'static str
        ensures { result.now ≡ limit_word self }
    {
        match self {
            Limit::Frame => "frame",
            Limit::Text => "text",
            Limit::Entries => "entries",
            Limit::Units => "units",
            Limit::Reply => "reply",
        }
    }
}

//! Lines of bytes.

ghost use Rattle.std.specs.Prelude.{◌≡◌, ◌-◌};
ghost use Rattle.um_output.specs.Lines as model;

/// The lines of the newer half of a text: those after the first line feed past its middle.
pub(crate) fn newer_half(text: &[u8]) -> &[u8]
    ensures { result.now ≡ model.newer_half text.now }
{
    let half = text.get(text.len() / 2..).unwrap_or(&[]);
    behind_feeds(half, 1).0
}

/// How many line feeds there are.
pub(crate) fn feeds_in(bytes: &[u8]) -> u64
    ensures { result ≡ model.feeds bytes.now }
{
    let mut feeds: u64 = 0;
    for byte in bytes {
        if *byte == b'\n' {
            feeds += 1;
        }
    }
    feeds
}

/// The bytes after this number of line feeds, and the number that is still to be skipped.
pub(crate) fn behind_feeds(bytes: &[u8], skipped: u64) -> (&[u8], u64)
    ensures rest { result.0.now ≡ model.behind skipped bytes.now }
    ensures left { result.1 ≡ skipped - model.feeds bytes.now }
{
    let mut rest = bytes;
    let mut left = skipped;
    while left > 0 {
        let Some((first, others)) = rest.split_first() else {
            break;
        };
        if *first == b'\n' {
            left -= 1;
        }
        rest = others;
    }
    (rest, left)
}

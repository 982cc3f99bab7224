//! Cuts bytes into chunks.
ghost use Rattle.std.specs.Prelude.{◌≡◌, ◌≤◌, length, take, drop};

/// The first bytes, `most` at most, and the rest.
pub fn next_chunk(bytes: &[u8], most: usize) -> (&[u8], &[u8])
    ensures chunk { result.0.now ≡ take most bytes.now }
    ensures behind { result.1.now ≡ drop most bytes.now }
    ensures short { length result.0.now ≤ most }
{
    if bytes.len() < most {
        (bytes, &[])
    } else {
        bytes.split_at(most)
    }
}

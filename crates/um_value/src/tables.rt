//! Tables of names with their numbers.

ghost use Rattle.std.specs.Prelude.{◌≡◌, map};
ghost use Rattle.std.specs.Map.{lookup};
ghost use Rattle.std.specs.Str.{bytes_eq};

/// The number beside the name.
pub fn number_among<N: Copy>(table: &[(&str, N)], name: &[u8]) -> Option<N>
    ensures { result ≡ lookup (bytes_eq name.now) (map (λ row. (row.0.now, row.1)) table.now) }
{
    for (known, number) in table {
        if name == known.as_bytes() {
            return Some(*number);
        }
    }
    None
}

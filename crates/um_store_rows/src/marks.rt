//! The wanted content of a file, as a value; nothing of it needs to be read or asserted.
ghost use Rattle.std.specs.Prelude.{◌≡◌, ◌<◌, ◌≤◌};

/// The byte at this place of the file of a disk whose second sector is marked, and which has zeros in all others: 8 at the
/// sector's begin, 9 at its end, and 7 between them.
pub fn marked_byte(place: usize) -> u8
    ensures before { place < 512 → result ≡ 0 }
    ensures begin { place ≡ 512 → result ≡ 8 }
    ensures between { 512 < place → place < 1023 → result ≡ 7 }
    ensures end { place ≡ 1023 → result ≡ 9 }
    ensures behind { 1024 ≤ place → result ≡ 0 }
{
    match place {
        512 => 8,
        513..=1022 => 7,
        1023 => 9,
        _ => 0,
    }
}

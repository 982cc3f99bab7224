//! Finds the assignment that a reason is about.

ghost use Rattle.std.specs.Prelude.{◌≡◌, map, option_map};
ghost use Rattle.um_model.specs.Requests.{is_among as is_among_texts};
ghost use Rattle.um_verify.specs.Findings as model;
ghost use Rattle.um_verify.specs.View.{spot_of};

use crate::spots::Spot;

/// Whether it gives the key a value.
fn gives(spot: &Spot<'_>, key: &str) -> bool
    ensures { result ≡ model.gives key.now (spot_of spot.now) }
{
    spot.key == key && !spot.value.is_empty()
}

/// The first assignment that gives the key a value.
pub fn first_with<'a>(spots: &[Spot<'a>], key: &str) -> Option<Spot<'a>>
    ensures { option_map spot_of result ≡ model.first_with key.now (map spot_of spots.now) }
{
    for spot in spots {
        if gives(spot, key) {
            return Some(*spot);
        }
    }
    None
}

/// Whether the text is one of these.
fn is_among(text: &str, texts: &[&str]) -> bool
    ensures { result ≡ is_among_texts text.now (map (λ s. s.now) texts.now) }
{
    for other in texts {
        if text == *other {
            return true;
        }
    }
    false
}

/// Whether it gives the key of a service one of these values.
fn says(spot: &Spot<'_>, key: &str, values: &[&str]) -> bool
    ensures { result ≡ model.says key.now (map (λ s. s.now) values.now) (spot_of spot.now) }
{
    spot.section == "Service" && spot.key == key && is_among(spot.value, values)
}

/// The last assignment that gives the key of a service one of these values.
pub fn last_with<'a>(spots: &[Spot<'a>], key: &str, values: &[&str]) -> Option<Spot<'a>>
    ensures { option_map spot_of result ≡ model.last_with key.now (map (λ s. s.now) values.now) (map spot_of spots.now) }
{
    let mut last = None;
    for spot in spots {
        if says(spot, key, values) {
            last = Some(*spot);
        }
    }
    last
}

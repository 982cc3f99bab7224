//! Decimal numbers.

ghost use Rattle.std.specs.Prelude.{◌≡◌, ◌<◌, ◌≤◌, ◌^◌, MatchOption};
ghost use Rattle.std.specs.List.{list_all};
ghost use Rattle.um_model.specs.Ascii.{is_digit};
ghost use Rattle.um_model.specs.Values.{decimal, is_decimal, number_of};

/// The greatest number that `decimal` reads.
const LIMIT: u64 = 1 << 62;

/// The number that the digits spell; `None` if it is above 2^62.
#[tactic(auto, using(crate::proofs::DecimalLemmas::decimal_step, crate::proofs::DecimalLemmas::decimal_ten))]
pub fn decimal(digits: &[u8]) -> Option<u64>
    ensures { MatchOption result (2 ^ 62 < decimal digits.now) (λ n. (n ≡ decimal digits.now) × (n ≤ 2 ^ 62)) }
{
    let mut number: u64 = 0;
    for digit in digits {
        if number > LIMIT / 10 {
            return None;
        }
        number = 10 * number + u64::from(digit.saturating_sub(b'0'));
    }
    if number > LIMIT { None } else { Some(number) }
}

fn is_digits(text: &[u8]) -> bool
    ensures { result ≡ list_all is_digit text.now }
{
    text.iter().all(|b| b.is_ascii_digit())
}

/// Whether the text is one or more decimal digits.
pub fn is_decimal(text: &[u8]) -> bool
    ensures { result ≡ is_decimal text.now }
{
    !text.is_empty() && is_digits(text)
}

#[tactic(auto, unfolding(um_model::specs::Values::number_of))]
/// The number that the text's decimal digits spell, at most 4,294,967,295. `None` for a greater one, for any other
/// byte than a digit, and for no digit.
pub fn number(text: &str) -> Option<u32>
    ensures { result ≡ number_of text.now }
{
    if !is_decimal(text.as_bytes()) {
        return None;
    }
    u32::try_from(decimal(text.as_bytes())?).ok()
}

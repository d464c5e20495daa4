//! Numbers in words.

ghost use Rattle.std.specs.Prelude.{◌≡◌, ◌≤◌, IfSome};
ghost use Rattle.cpa_words.specs.Numbers.{number_within};

use cpa_units::read_number;

/// The number that a word is, where it lies in a range.
pub fn number_within(word: &str, least: u64, most: u64) -> Option<u64>
    ensures value { result ≡ number_within least most word.now }
    ensures within { IfSome result (λ n. (least ≤ n) × (n ≤ most)) }
{
    match read_number(word.as_bytes()) {
        Some(number) if least <= number && number <= most => Some(number),
        _ => None,
    }
}

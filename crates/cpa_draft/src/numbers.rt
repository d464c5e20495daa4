//! Integers as they were read.

ghost use Rattle.std.specs.Prelude.{◌≡◌};
ghost use Rattle.cpa_draft.specs.Numbers.{nat_of, nat_or, is_within, may_be_within};

/// An integer as a number, 0 where it is negative.
pub fn natural(value: i64) -> u64
    ensures { result ≡ nat_of value }
{
    if value < 0 { 0 } else { value as u64 }
}

/// An integer that may be absent, as a number.
pub fn natural_or(default: u64, value: Option<i64>) -> u64
    ensures { result ≡ nat_or default value }
{
    match value {
        None => default,
        Some(value) => natural(value),
    }
}

pub(crate) fn is_within(least: u64, most: u64, value: i64) -> bool
    ensures { result ≡ is_within least most value }
{
    value >= 0 && least <= value as u64 && value as u64 <= most
}

pub(crate) fn may_be_within(least: u64, most: u64, value: Option<i64>) -> bool
    ensures { result ≡ may_be_within least most value }
{
    match value {
        None => true,
        Some(value) => is_within(least, most, value),
    }
}

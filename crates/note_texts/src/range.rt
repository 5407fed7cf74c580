//! Numbers in a row.
ghost use Rattle.std.specs.Prelude.{◌≡◌, ◌-◌, ◌^◌, ◌≤◌, option_map, Some, None};
ghost use Rattle.note_texts.specs.Ranges.{after_dot, count_of, pair_of, range_of, size_of};

use crate::number::{near_of, number_in, number_of, units_of};
use crate::split::split_at;

/// A number of at least 1, and 1 where it is left out.
pub(crate) fn count_of(text: Option<&str>) -> Option<u64>
    ensures { result ≡ count_of (option_map (λ digits. digits.now) text.entry) }
{
    match text {
        None => Some(1),
        Some(text) => number_in(1, u64::MAX, text.as_bytes()),
    }
}

fn after_dot(text: &[u8]) -> Option<&[u8]>
    ensures { option_map (λ rest. rest.now) result ≡ after_dot text.now }
{
    match text {
        [b'.', rest @ ..] => Some(rest),
        _ => None,
    }
}

/// `LO..HI`, LO at most HI.
#[tactic(auto, unfolding(crate::specs::Ranges::range_of))]
pub(crate) fn range_of(text: &str) -> Option<(u64, u64)>
    ensures { result ≡ range_of text.now }
{
    let (low, rest) = split_at(b'.', text)?;
    let high = after_dot(rest.as_bytes())?;
    let lo = number_of(low.as_bytes())?;
    let hi = number_of(high)?;
    if lo <= hi { Some((lo, hi)) } else { None }
}

/// `N,C`, N from `low` to 2^20 and C from -2^20 to 2^20.
#[tactic(auto, unfolding(crate::specs::Ranges::pair_of))]
pub(crate) fn pair_of(low: u64, text: &str) -> Option<(i32, i32)>
    ensures { result ≡ pair_of low text.now }
{
    let (units, bytes) = split_at(b',', text)?;
    let n = units_of(low, units.as_bytes())?;
    let c = near_of(bytes.as_bytes())?;
    Some((n, c))
}

/// `N,C`, each from 0 to 2^20.
#[tactic(auto, unfolding(crate::specs::Ranges::size_of))]
pub fn size_of(text: &str) -> Option<(u32, u32)>
    ensures { result ≡ size_of text.now }
{
    let (units, bytes) = split_at(b',', text)?;
    let n = number_in(0, 1 << 20, units.as_bytes())?;
    let c = number_in(0, 1 << 20, bytes.as_bytes())?;
    Some((n as u32, c as u32))
}

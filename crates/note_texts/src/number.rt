//! Numbers.
ghost use Rattle.std.specs.Prelude.{◌≡◌, ◌+◌, ◌-◌, ◌*◌, ◌<◌, ◌≤◌, ◌^◌, Some, None, option_map, IfSome, pos};
ghost use Rattle.note_texts.specs.Grammar.{IsNumber, ReadsJust};
ghost use Rattle.ebc_base.specs.Names.{is_digit};
ghost use Rattle.note_texts.specs.Numbers.{near_of, number_from, number_in, number_of, units_of, with_digit, within};

const FURTHEST: u64 = 1 << 20;

fn with_digit(number: u64, byte: u8) -> Option<u64>
    ensures { result ≡ with_digit number byte }
{
    if !byte.is_ascii_digit() {
        return None;
    }
    number.checked_mul(10)?.checked_add(u64::from(byte - b'0'))
}

fn digits(text: &[u8]) -> Option<u64>
    ensures { result ≡ number_from 0 text.now }
{
    let mut number = 0u64;
    for byte in text {
        number = with_digit(number, *byte)?;
    }
    Some(number)
}

#[tactic(auto, unfolding(crate::specs::Numbers::number_of))]
fn plain_number(text: &[u8]) -> Option<u64>
    ensures { result ≡ number_of text.now }
{
    match text {
        [] => None,
        [b'0', _, ..] => None,
        _ => digits(text),
    }
}

/// The number that a text is, in decimal digits with no sign and no leading zero.
pub fn number_of(text: &[u8]) -> Option<u64>
    ensures value { result ≡ number_of text.now }
    ensures grammar { ReadsJust result (IsNumber text.now) }
{
    plain_number(text)
}

/// The number that a text is, where it is from `low` to `high`.
pub fn number_in(low: u64, high: u64, text: &[u8]) -> Option<u64>
    ensures { result ≡ number_in low high text.now }
{
    let number = number_of(text)?;
    if low <= number && number <= high {
        Some(number)
    } else {
        None
    }
}

/// The number that a text is, where it is below 2^32.
pub fn short_number(text: &[u8]) -> Option<u32>
    ensures { result ≡ number_in 0 (2 ^ 32 - 1) text.now }
{
    let number = number_in(0, u64::from(u32::MAX), text)?;
    Some(number as u32)
}

/// The natural units of a pair, from `low` to 2^20.
pub(crate) fn units_of(low: u64, text: &[u8]) -> Option<i32>
    ensures { result ≡ units_of low text.now }
{
    let number = number_in(low, FURTHEST, text)?;
    Some(number as i32)
}

/// The bytes of a pair, from -2^20 to 2^20.
#[tactic(auto, unfolding(crate::specs::Numbers::near_of))]
pub(crate) fn near_of(text: &[u8]) -> Option<i32>
    ensures { result ≡ near_of text.now }
{
    match text {
        [] => None,
        [b'-', digits @ ..] => {
            let number = number_in(1, FURTHEST, digits)?;
            Some(-(number as i32))
        }
        _ => units_of(0, text),
    }
}

//! Numbers as they are read.

ghost use Rattle.std.specs.Prelude.{◌≡◌, ◌⊎◌, ◌<◌, IfOk, IfSome};
ghost use Rattle.ebc_insn.specs.Spelling.{FitsInt};
ghost use Rattle.asm_text.specs.Numbers.{are_digits, count, decimal_value, digit_of, digits_from, fit, hex_value, is_decimal};
ghost use Rattle.asm_text.specs.Numbers.{is_hexadecimal, is_numeral, is_plain, number, number_value, plain_value, with_digit, zeros_of};

use crate::fault::AsmFault;

fn digit_of(radix: u8, byte: u8) -> Option<u8>
    ensures { result ≡ digit_of radix byte }
{
    match byte {
        b'0'..=b'9' => Some(byte - b'0'),
        b'a'..=b'f' if radix == 16 => Some(byte - 87),
        b'A'..=b'F' if radix == 16 => Some(byte - 55),
        _ => None,
    }
}

fn with_digit(radix: u8, number: u64, byte: u8) -> Option<u64>
    requires { 0 < radix }
    ensures { result ≡ with_digit radix number byte }
{
    let digit = digit_of(radix, byte)?;
    u64::from(radix)
        .checked_mul(number)?
        .checked_add(u64::from(digit))
}

// The number of these digits.
pub(crate) fn digits(radix: u8, text: &[u8]) -> Option<u64>
    requires { 0 < radix }
    ensures { result ≡ digits_from radix 0 text.now }
{
    let mut number = 0u64;
    for byte in text {
        number = with_digit(radix, number, *byte)?;
    }
    Some(number)
}

#[tactic(auto, unfolding(crate::specs::Numbers::decimal_value))]
fn decimal_value(text: &[u8]) -> Option<u64>
    ensures { result ≡ decimal_value text.now }
{
    match text {
        [] => None,
        [b'0', _, ..] => None,
        _ => digits(10, text),
    }
}

#[tactic(auto, unfolding(crate::specs::Numbers::hex_value))]
fn hex_value(text: &[u8]) -> Option<u64>
    ensures { result ≡ hex_value text.now }
{
    match text {
        [] => None,
        _ => digits(16, text),
    }
}

#[tactic(auto, unfolding(crate::specs::Numbers::plain_value))]
fn plain_value(text: &[u8]) -> Option<u64>
    ensures { result ≡ plain_value text.now }
{
    match text {
        [] => None,
        [b'0', b'x', rest @ ..] => hex_value(rest),
        _ => decimal_value(text),
    }
}

// A number below 2^64 without a sign.
pub(crate) fn count(text: &[u8]) -> Result<u64, AsmFault>
    ensures { result ≡ count text.now }
{
    plain_value(text).ok_or(AsmFault::Number)
}

// How many zeros: a number below 2^64 without a sign, or -0, which is 0.
pub(crate) fn zeros_of(text: &[u8]) -> Result<u64, AsmFault>
    ensures { result ≡ zeros_of text.now }
{
    if text == b"-0".as_slice() {
        return Ok(0);
    }
    count(text)
}

fn fit(bits: u8, negative: bool, number: u64) -> Option<i64>
    requires { (bits ≡ 8) ⊎ (bits ≡ 16) ⊎ (bits ≡ 32) ⊎ (bits ≡ 64) }
    ensures value { result ≡ fit bits negative number }
    ensures fits { IfSome result (FitsInt bits) }
{
    let half = 1u64 << (bits - 1);
    if negative {
        return if number <= half {
            Some(number.wrapping_neg().cast_signed())
        } else {
            None
        };
    }
    if number < half {
        Some(number.cast_signed())
    } else if number - half < half {
        Some((number - half).wrapping_sub(half).cast_signed())
    } else {
        None
    }
}

#[tactic(auto, unfolding(crate::specs::Numbers::number_value))]
fn number_value(bits: u8, text: &[u8]) -> Option<i64>
    requires { (bits ≡ 8) ⊎ (bits ≡ 16) ⊎ (bits ≡ 32) ⊎ (bits ≡ 64) }
    ensures value { result ≡ number_value bits text.now }
    ensures fits { IfSome result (FitsInt bits) }
{
    match text {
        [] => None,
        [b'-', rest @ ..] => fit(bits, true, decimal_value(rest)?),
        _ => fit(bits, false, plain_value(text)?),
    }
}

// A number of so many bits, as a signed one.
pub(crate) fn number(bits: u8, text: &[u8]) -> Result<i64, AsmFault>
    requires { (bits ≡ 8) ⊎ (bits ≡ 16) ⊎ (bits ≡ 32) ⊎ (bits ≡ 64) }
    ensures value { result ≡ number bits text.now }
    ensures fits { IfOk result (FitsInt bits) }
{
    number_value(bits, text).ok_or(AsmFault::Number)
}

fn are_digits(radix: u8, text: &[u8]) -> bool
    ensures { result ≡ are_digits radix text.now }
{
    text.iter().all(|b| digit_of(radix, *b).is_some())
}

fn is_decimal(text: &[u8]) -> bool
    ensures { result ≡ is_decimal text.now }
{
    match text {
        [] => false,
        [b'0', _, ..] => false,
        _ => are_digits(10, text),
    }
}

fn is_hexadecimal(text: &[u8]) -> bool
    ensures { result ≡ is_hexadecimal text.now }
{
    match text {
        [] => false,
        _ => are_digits(16, text),
    }
}

fn is_plain(text: &[u8]) -> bool
    ensures { result ≡ is_plain text.now }
{
    match text {
        [b'0', b'x', rest @ ..] => is_hexadecimal(rest),
        _ => is_decimal(text),
    }
}

// Whether a text has the form of a number, whatever its size.
#[tactic(auto, unfolding(crate::specs::Numbers::is_numeral))]
pub(crate) fn is_numeral(text: &[u8]) -> bool
    ensures { result ≡ is_numeral text.now }
{
    match text {
        [] => false,
        [b'-', rest @ ..] => is_decimal(rest),
        _ => is_plain(text),
    }
}

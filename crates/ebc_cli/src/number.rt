//! The numbers among the words.
ghost use Rattle.std.specs.Prelude.{◌≡◌, ◌<◌, IfSome};
ghost use Rattle.std.specs.List.{list_all};
ghost use Rattle.ebc_base.specs.Names.{is_digit};
ghost use Rattle.ebc_cli.specs.Numbers.{digit_value, identifier_of, is_count, is_decimal_number};

// What a hexadecimal digit counts, of which the letters are lower-case.
fn digit_value(byte: u8) -> Option<u8>
    ensures value { result ≡ digit_value byte }
    ensures below { IfSome result (λ d. d < 16) }
{
    match byte {
        b'0'..=b'9' => Some(byte - b'0'),
        b'a'..=b'f' => Some(byte - 87),
        _ => None,
    }
}

/// The identifier of a vendor or a device that a word spells in four lower-case hexadecimal digits.
#[tactic(auto, unfolding(crate::specs::Numbers::identifier_of))]
pub fn identifier_of(word: &str) -> Option<u16>
    ensures { result ≡ identifier_of word.now }
{
    match word.as_bytes() {
        [a, b, c, d] => {
            let a = u16::from(digit_value(*a)?);
            let b = u16::from(digit_value(*b)?);
            let c = u16::from(digit_value(*c)?);
            let d = u16::from(digit_value(*d)?);
            Some(4096 * a + 256 * b + 16 * c + d)
        }
        _ => None,
    }
}

fn is_digit(byte: u8) -> bool
    ensures { result ≡ is_digit byte }
{
    byte.is_ascii_digit()
}

fn all_digits(bytes: &[u8]) -> bool
    ensures { result ≡ list_all is_digit bytes.now }
{
    bytes.iter().all(|byte| is_digit(*byte))
}

/// Whether a word is a number in decimal digits with no leading zero, whatever its size.
#[tactic(auto, unfolding(crate::specs::Numbers::is_decimal_number))]
pub fn is_decimal_number(word: &str) -> bool
    ensures { result ≡ is_decimal_number word.now }
{
    match word.as_bytes() {
        [] => false,
        [only] => is_digit(*only),
        [first, second, rest @ ..] => {
            *first != b'0' && is_digit(*first) && is_digit(*second) && all_digits(rest)
        }
    }
}

/// Whether it is one that isn't 0.
pub fn is_count(word: &str) -> bool
    ensures { result ≡ is_count word.now }
{
    is_decimal_number(word) && word != "0"
}

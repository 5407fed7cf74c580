//! The form of a name.

ghost use Rattle.std.specs.Prelude.{◌≡◌, is_some, IfSome};
ghost use Rattle.std.specs.List.{list_all};
ghost use Rattle.ebc_base.specs.Names.{begins_name, continues_name, is_name};

// Whether a name may begin with a byte.
fn begins_name(byte: u8) -> bool
    ensures { result ≡ begins_name byte }
{
    byte.is_ascii_alphabetic() || byte == b'_' || byte == b'.'
}

// Whether a name may go on with a byte.
fn continues_name(byte: u8) -> bool
    ensures { result ≡ continues_name byte }
{
    begins_name(byte) || byte.is_ascii_digit()
}

fn all_continue(text: &[u8]) -> bool
    ensures { result ≡ list_all continues_name text.now }
{
    text.iter().all(|byte| continues_name(*byte))
}

/// Whether a text is a name: 1 to 63 bytes, of which the first is a letter, `_` or `.`, and each other one of these or a
/// digit.
#[tactic(auto, unfolding(crate::specs::Names::is_name))]
pub fn is_name(text: &[u8]) -> bool
    ensures { result ≡ is_name text.now }
{
    match text {
        [] => false,
        [first, rest @ ..] => begins_name(*first) && rest.len() <= 62 && all_continue(rest),
    }
}

/// The text of a name that stands in bytes; none where they are no name.
#[tactic(auto, using(crate::proofs::NameText::name_utf8))]
pub fn name_text(bytes: &[u8]) -> Option<&str>
    ensures name { is_some result ≡ is_name bytes.now }
    ensures text { IfSome result (λ text. text.now ≡ bytes.now) }
{
    if !is_name(bytes) {
        return None;
    }
    match std::str::from_utf8(bytes) {
        Ok(text) => Some(text),
        Err(_) => None,
    }
}

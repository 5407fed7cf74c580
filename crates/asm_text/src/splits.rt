//! Where texts are split.

ghost use Rattle.std.specs.Prelude.{◌≡◌, ◌≤◌, IsTrue, length, option_map};
ghost use Rattle.asm_text.specs.Splits.{cut, halves, lacks, sole, starts_cut, trim, trim_back, trim_front, until, without_comment};
ghost use Rattle.asm_text.specs.Splits.{word_part};

// What stands before the first such byte, and behind it.
pub(crate) fn until(byte: u8, text: &[u8]) -> Option<(&[u8], &[u8])>
    ensures { option_map (λ p. (p.0.now, p.1.now)) result ≡ until byte text.now }
{
    match text.iter().position(|b| *b == byte) {
        Some(at) => Some((&text[..at], &text[at + 1..])),
        None => None,
    }
}

#[tactic(auto, unfolding(crate::specs::Splits::lacks))]
pub(crate) fn lacks(byte: u8, text: &[u8]) -> bool
    ensures { result ≡ lacks byte text.now }
{
    text.iter().all(|b| *b != byte)
}

// What stands before the first space, and behind it.
pub(crate) fn word_part(text: &[u8]) -> (&[u8], &[u8])
    ensures { (result.0.now, result.1.now) ≡ word_part text.now }
{
    match until(b' ', text) {
        Some(parts) => parts,
        None => (text, &[]),
    }
}

fn starts_cut(text: &[u8]) -> bool
    ensures value { result ≡ starts_cut text.now }
    ensures two { IsTrue result → 2 ≤ length text.now }
{
    matches!(text, [b',', b' ', ..])
}

// What stands before the first comma that a space follows, and behind the space.
pub(crate) fn cut(text: &[u8]) -> Option<(&[u8], &[u8])>
    ensures { option_map (λ p. (p.0.now, p.1.now)) result ≡ cut text.now }
{
    for at in 0..text.len() {
        if starts_cut(text.split_at(at).1) {
            return Some((text.split_at(at).0, text.split_at(at + 2).1));
        }
    }
    None
}

// The text where it is one operand.
#[tactic(auto, unfolding(crate::specs::Splits::sole))]
pub(crate) fn sole(text: &[u8]) -> Option<&[u8]>
    ensures { option_map (λ p. p.now) result ≡ sole text.now }
{
    if text.is_empty() || cut(text).is_some() {
        return None;
    }
    Some(text)
}

// The two operands of a text.
#[tactic(auto, unfolding(crate::specs::Splits::halves))]
pub(crate) fn halves(text: &[u8]) -> Option<(&[u8], &[u8])>
    ensures { option_map (λ p. (p.0.now, p.1.now)) result ≡ halves text.now }
{
    let (first, second) = cut(text)?;
    if cut(second).is_some() {
        return None;
    }
    Some((first, second))
}

// A text without the spaces in front.
pub(crate) fn trim_front(text: &[u8]) -> &[u8]
    ensures { result.now ≡ trim_front text.now }
{
    match text.iter().position(|b| *b != b' ') {
        Some(at) => &text[at..],
        None => &[],
    }
}

fn trim_back(text: &[u8]) -> &[u8]
    ensures { result.now ≡ trim_back text.now }
{
    let mut kept = text.len();
    for _ in 0..text.len() {
        if kept == 0 || text[kept - 1] != b' ' {
            break;
        }
        kept -= 1;
    }
    &text[..kept]
}

// A text without the spaces around it.
pub(crate) fn trim(text: &[u8]) -> &[u8]
    ensures { result.now ≡ trim text.now }
{
    trim_back(trim_front(text))
}

// A line without its comment.
pub(crate) fn without_comment(line: &[u8]) -> &[u8]
    ensures { result.now ≡ without_comment line.now }
{
    match until(b';', line) {
        Some((text, _)) => text,
        None => line,
    }
}

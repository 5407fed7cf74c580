//! Lines and columns.

ghost use Rattle.std.specs.Prelude.{◌≡◌, ◌≤◌, not, length, take, reverse, filter};
ghost use Rattle.std.specs.List.{prefix_len};
ghost use Rattle.toml_spans.specs.Positions.{is_line_feed, position_at};

/// A line and a column of a text, both counted from 1, the column in bytes.
#[derive(Clone, Copy)]
pub struct Position {
    pub line: u64,
    pub column: u64,
}

// What stands before an offset.
fn before(text: &[u8], offset: usize) -> &[u8]
    ensures { result.now ≡ take offset text.now }
{
    text.get(..offset).unwrap_or(text)
}

fn line_feeds(text: &[u8]) -> usize
    ensures count { result ≡ length (filter is_line_feed text.now) }
    ensures within { result ≤ length text.now }
{
    let mut count = 0_usize;
    for byte in text {
        count += usize::from(*byte == b'\n');
    }
    count
}

// How many bytes stand after the last line feed.
fn last_line_bytes(text: &[u8]) -> usize
    ensures count { result ≡ prefix_len (λ c. not (is_line_feed c)) (reverse text.now) }
    ensures within { result ≤ length text.now }
{
    text.iter().rev().take_while(|byte| **byte != b'\n').count()
}

/// The line and the column of an offset of a text: of the text's end, if the text is shorter.
pub fn position_of(text: &[u8], offset: usize) -> Position
    ensures { result ≡ position_at text.now offset }
{
    let before = before(text, offset);
    Position {
        line: line_feeds(before) as u64 + 1,
        column: last_line_bytes(before) as u64 + 1,
    }
}

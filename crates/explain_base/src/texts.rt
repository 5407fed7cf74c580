//! Bytes that are those of a text.

// Whether no text has a byte: a control character but a tab and what ends a line.
fn is_control(byte: u8) -> bool {
    match byte {
        b'\t' | b'\n' | b'\r' => false,
        _ => byte < b' ' || byte == 127,
    }
}

/// Whether bytes are those of a text: some, in UTF-8, and no control characters but tabs and ends of lines.
pub fn is_text(bytes: &[u8]) -> bool {
    !bytes.is_empty()
        && !bytes.iter().any(|byte| is_control(*byte))
        && std::str::from_utf8(bytes).is_ok()
}

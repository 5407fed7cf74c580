//! Where a text that is no TOML first goes wrong.
//!
//! Its tables are read one by one, each alone, up to the first that is none. To put each into its list, as a reader does,
//! takes as long as to read them.

use std::alloc::Global;
use toml::de::Error;

// Whether a line is the header of a table in a list, by a bare name, and nothing else.
fn is_header(line: &str) -> bool {
    match line.strip_prefix("[[") {
        Some(rest) => match rest.strip_suffix("]]") {
            Some(name) => name.bytes().all(|b| b.is_ascii_alphanumeric() || b == b'_'),
            None => false,
        },
        None => false,
    }
}

// Whether the bytes from one offset to another are no TOML.
fn is_torn(alloc: Global, bytes: &[u8], from: usize, to: usize) -> bool {
    match bytes.get(from..to) {
        Some(part) => toml::table_from_slice(alloc, part).is_err(),
        None => false,
    }
}

// The offset of the header of the first table that is no TOML; 0 where that isn't seen so, as in a text with strings of
// several lines, which may hold such headers.
fn torn_table(alloc: Global, bytes: &[u8], text: &str) -> usize {
    if text.contains("\"\"\"") || text.contains("'''") {
        return 0;
    }
    let (mut header, mut body, mut at) = (0, 0, 0_usize);
    for line in text.split('\n') {
        let next = at.saturating_add(line.len()).saturating_add(1);
        if is_header(line) {
            if is_torn(alloc, bytes, body, at) {
                return header;
            }
            (header, body) = (at, next);
        }
        at = next;
    }
    header
}

// What is wrong with the bytes from an offset on, and where.
fn fault_from(alloc: Global, bytes: &[u8], from: usize) -> Option<(usize, Error)> {
    match toml::table_from_slice(alloc, bytes.get(from..)?) {
        Ok(_) => None,
        Err(error) => {
            let offset = match error.span() {
                Some(span) => span.start,
                None => 0,
            };
            Some((from.saturating_add(offset), error))
        }
    }
}

/// What is wrong with a text that is no TOML, and at which offset in bytes.
pub(crate) fn first_fault(alloc: Global, bytes: &[u8]) -> Option<(usize, Error)> {
    let from = match std::str::from_utf8(bytes) {
        Ok(text) => torn_table(alloc, bytes, text),
        Err(_) => 0,
    };
    match fault_from(alloc, bytes, from) {
        Some(fault) => Some(fault),
        None => fault_from(alloc, bytes, 0),
    }
}

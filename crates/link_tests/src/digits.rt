//! Bytes in hexadecimal digits.

use std::alloc::Global;
use std::test::Fail;

// The bytes that hexadecimal digits spell, two digits a byte. Spaces may stand between bytes.
pub(crate) fn bytes_of(alloc: Global, text: &str) -> Result<Vec<u8>, Fail> {
    let mut bytes = Vec::new(alloc);
    for word in text.split_whitespace() {
        for pair in word.as_bytes().chunks(2) {
            bytes.push(u8::from_str_radix(str::from_utf8(pair)?, 16)?)?;
        }
    }
    Ok(bytes)
}

//! Where a thing stands in a text.

/// Where something stands in a text, by offsets in bytes, each from 0 up to the length of the text.
#[derive(Drop)]
pub struct KeySpan {
    /// Where its key begins: of a table that has a header, the header; of an item of a list, the item.
    pub key: usize,
    /// Where its value begins: of a table that has a header, the header.
    pub from: usize,
    /// Where its value ends: the offset after its last byte.
    pub to: usize,
    /// Where each item of a list begins and ends, in their order; empty for what is no list.
    pub items: Vec<(usize, usize)>,
}

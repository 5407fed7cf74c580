//! A row: an instruction, and where and in which state it stands.
use crate::words::{first_state, put_here, put_word};
use arrayvec::ArrayVec;
use ebc_decode::decode;
use ebc_insn::Insn;
use note_types::State;
use rules_base::Here;

/// An instruction, and where and in which state it stands.
#[derive(Drop)]
pub struct Row {
    pub insn: Insn,
    pub here: Here,
    pub state: State,
}

/// The instruction that bytes, in hexadecimal digits, spell, and its length.
fn instruction(text: &str) -> Option<(Insn, u32)> {
    let mut bytes = ArrayVec::<u8, 18>::new();
    for word in text.split_whitespace() {
        bytes.try_push(u8::from_str_radix(word, 16).ok()?).ok()?;
    }
    let (insn, length) = decode(bytes.as_slice(), 0).ok()?;
    if length == bytes.len() {
        Some((insn, u32::try_from(length).ok()?))
    } else {
        None
    }
}

/// The row that bytes, in hexadecimal digits, and words spell: it stands at place 1060 in function 3 where they don't say.
/// `None` where they spell none.
pub fn row_of(bytes: &str, words: &str) -> Option<Row> {
    let (insn, length) = instruction(bytes)?;
    let mut here = Here {
        place: 0x1060,
        next: 0,
        func: 3,
        reloc: None,
    };
    let mut state = first_state();
    for word in words.split_whitespace() {
        if put_here(&mut here, word).is_none() {
            put_word(&mut state, word)?;
        }
    }
    here.next = here.place.checked_add(length)?;
    Some(Row { insn, here, state })
}

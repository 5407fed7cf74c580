//! An instruction and what stands round it.

use ebc_insn::Insn;
use note_types::{FnNote, Notes, State};
use rules_base::Here;
use std::alloc::Global;

/// An instruction, the state before it, and its function, whose number is `func`.
#[derive(Clone, Copy)]
pub struct Scene<'a> {
    pub alloc: Global,
    pub notes: &'a Notes,
    pub f: &'a FnNote,
    pub func: u32,
    pub here: Here,
    pub insn: &'a Insn,
    pub state: &'a State,
}

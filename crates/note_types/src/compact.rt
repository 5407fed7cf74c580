//! States as long as their items.
ghost use Rattle.std.specs.Prelude.{◌≡◌, IfOk};

use crate::items::{Item, Items};
use crate::state::{Fact, State};
use crate::types::Ty;
use std::alloc::{AllocError, Global};
use std::marker::Model;

/// A state in as much memory as its items take. Contracts see it as the state.
#[derive(Drop)]
pub struct CompactState {
    pub(crate) regs: [Ty; 8],
    pub(crate) items: Vec<Item>,
    pub(crate) written: u64,
    pub(crate) made: u32,
    pub(crate) fact: Option<Fact>,
}

impl Model for CompactState {
    ghost use Rattle.std.specs.Prelude.{◌≤◌, length};
    ghost use Rattle.note_types.specs.declared.state.State.{State};

    ghost Value = { State };

    ghost view = { λ s. record { regs = s.regs; items = s.items.items; written = s.written; made = s.made; fact = s.fact } };

    ghost invariant = { λ s. length s.items.items ≤ 65 };
}

impl CompactState {
    /// A state.
    ///
    /// # Errors
    ///
    /// There was no memory.
    pub fn new(alloc: Global, state: &State) -> Result<Self, AllocError>
        ensures { IfOk result (λ compact. compact ≡ state.now) }
    {
        Ok(CompactState {
            regs: state.regs,
            items: Vec::from_slice(alloc, state.items.as_slice())?,
            written: state.written,
            made: state.made,
            fact: state.fact,
        })
    }

    /// The state.
    pub fn state(&self) -> State
        ensures { result ≡ self.now }
    {
        let mut items = Items::new();
        items.put(self.items.as_slice());
        State {
            regs: self.regs,
            items,
            written: self.written,
            made: self.made,
            fact: self.fact,
        }
    }

    /// Makes a state, whatever it holds, this one.
    pub fn put(&self, state: &mut State)
        ensures { state.new ≡ self.now }
    {
        state.regs = self.regs;
        state.items.put(self.items.as_slice());
        state.written = self.written;
        state.made = self.made;
        state.fact = self.fact;
    }
}

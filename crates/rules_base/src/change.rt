//! What an instruction changes in a state.

ghost use Rattle.std.specs.Prelude.{◌≡◌};
ghost use Rattle.rules_base.specs.Change.{changed, lose, with_fact, with_store, with_type};

use crate::place::with_field;
use note_types::{Fact, State, Ty};

/// What an instruction changes.
#[derive(Clone, Copy, PartialEq, Eq)]
pub enum Change {
    /// A register's type.
    Written { reg: u8, ty: Ty },
    /// Memory; where it is a local field, that field is written.
    Stored { field: Option<u32> },
    /// The flag C, and what it says.
    Compared { fact: Option<Fact> },
}

impl Change {
    /// Makes the change.
    #[tactic(auto, unfolding(crate::specs::Change::changed))]
    pub fn apply(self, s: &mut State)
        ensures { s.new ≡ changed s.old self }
    {
        match self {
            Change::Written { reg, ty } => set_type(s, reg, ty),
            Change::Stored { field } => set_stored(s, field),
            Change::Compared { fact } => set_fact(s, fact),
        }
    }
}

// A fact, unless it is on this register.
fn lose(reg: u8, fact: Option<Fact>) -> Option<Fact>
    ensures { result ≡ lose reg fact }
{
    match fact {
        Some(f) => if f.reg == reg { None } else { Some(f) },
        None => None,
    }
}

// Gives a register another type. It loses a fact on it.
#[tactic(auto, unfolding(crate::specs::Change::with_type))]
fn set_type(s: &mut State, reg: u8, t: Ty)
    ensures { s.new ≡ with_type s.old reg t }
{
    if reg < 8 {
        s.regs[reg as usize] = t;
    }
    s.fact = lose(reg, s.fact);
}

// Marks what a store writes: a local field, where it is one.
#[tactic(auto, unfolding(crate::specs::Change::with_store))]
fn set_stored(s: &mut State, field: Option<u32>)
    ensures { s.new ≡ with_store s.old field }
{
    if let Some(x) = field {
        s.written = with_field(s.written, x);
    }
}

// Puts another fact, or none.
#[tactic(auto, unfolding(crate::specs::Change::with_fact))]
fn set_fact(s: &mut State, fact: Option<Fact>)
    ensures { s.new ≡ with_fact s.old fact }
{
    s.fact = fact;
}

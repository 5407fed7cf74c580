//! How much lies on the stack.

ghost use Rattle.std.specs.Prelude.{◌≡◌};
ghost use Rattle.ebc_insn.specs.Spelling.{WellFormed};
ghost use Rattle.width_checker.specs.Rows.{is_r0};
ghost use Rattle.stack_needs.specs.Depths.{after, no_depth, with_more_bytes, without};

use ebc_insn::{Insn, Operand, Size};
use note_types::Pair;
use rules_base::{Distance, index_distance};

/// How many bytes lie on the stack below a function's entry, where a natural unit has 4 bytes and where it has 8.
#[derive(Clone, Copy, PartialEq, Eq)]
pub(crate) struct Depth {
    pub at4: i64,
    pub at8: i64,
}

// So many bytes, at most 2^63 - 1.
fn signed(bytes: u64) -> i64 {
    i64::try_from(bytes).unwrap_or(i64::MAX)
}

// So many bytes, none where they are below zero.
fn unsigned(bytes: i64) -> u64 {
    u64::try_from(bytes).unwrap_or(0)
}

impl Depth {
    /// Nothing on the stack.
    pub fn none() -> Depth
        ensures { result ≡ no_depth }
    {
        Depth { at4: 0, at8: 0 }
    }

    /// So many bytes more, at each width.
    pub fn with(self, at4: i64, at8: i64) -> Depth
        ensures { result ≡ with_more_bytes self at4 at8 }
    {
        Depth {
            at4: self.at4.saturating_add(at4),
            at8: self.at8.saturating_add(at8),
        }
    }

    /// The greater of two at each width.
    pub fn greater(self, other: Depth) -> Depth {
        Depth {
            at4: self.at4.max(other.at4),
            at8: self.at8.max(other.at8),
        }
    }

    /// So much more as a function needs.
    pub fn with_need(self, need: Pair) -> Depth {
        let (n, c) = (signed(need.n), signed(need.c));
        self.with(
            n.saturating_mul(4).saturating_add(c),
            n.saturating_mul(8).saturating_add(c),
        )
    }

    /// The need that has just so many bytes at width 8 and, of those, the fewest at width 4 that are enough.
    pub fn need(self) -> Pair {
        let (at4, at8) = (unsigned(self.at4), unsigned(self.at8));
        let n = (at8.saturating_sub(at4) / 4).min(at8 / 8);
        Pair { n, c: at8 - 8 * n }
    }

    // What is left where R0 moves up by a distance.
    fn without(self, d: Distance) -> Depth
        ensures { result ≡ without self d }
    {
        let at4 = d.n.saturating_mul(4).saturating_add(d.c);
        let at8 = d.n.saturating_mul(8).saturating_add(d.c);
        Depth {
            at4: self.at4.saturating_sub(at4),
            at8: self.at8.saturating_sub(at8),
        }
    }
}

// An operand that is R0 itself.
fn is_r0(op: &Operand) -> bool
    ensures { result ≡ is_r0 op.now }
{
    !op.indirect && op.reg == 0
}

/// How much lies on the stack after an instruction.
#[tactic(auto, unfolding(crate::specs::Depths::after))]
pub(crate) fn after(depth: Depth, i: &Insn) -> Depth
    requires { WellFormed i.now }
    ensures { result ≡ after depth i.now }
{
    match i {
        Insn::PushNatural { .. } => depth.with(4, 8),
        Insn::Push { wide: true, .. } => depth.with(8, 8),
        Insn::Push { wide: false, .. } => depth.with(4, 4),
        Insn::PopNatural { .. } => depth.with(-4, -8),
        Insn::Pop { wide: true, .. } => depth.with(-8, -8),
        Insn::Pop { wide: false, .. } => depth.with(-4, -4),
        Insn::Move {
            size: Size::Qword,
            bits,
            left,
            right,
            ridx,
            ..
        } => if is_r0(left) && is_r0(right) {
            depth.without(index_distance(*bits, ridx))
        } else {
            depth
        },
        _ => depth,
    }
}

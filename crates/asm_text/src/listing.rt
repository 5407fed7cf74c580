//! The lines of a listing.

ghost use Rattle.std.specs.Prelude.{◌≡◌, ◌++◌, ◌∷◌, [], OnOk, string_bytes};
ghost use Rattle.asm_text.specs.Writing.{ListedFits, listed_text};

use crate::writing::insn_text;
use ebc_insn::Insn;
use std::alloc::AllocError;

/// A line of a listing (docs/ASSEMBLY.md, "Listings"). Places are offsets from the image base in bytes.
#[derive(Clone, Copy)]
pub enum Listed {
    /// `.code`.
    Code,
    /// `.data`.
    Data,
    /// The label of a place.
    Label(u32),
    /// `.global` with the label of a place.
    Global(u32),
    /// `.dq` with the label of a place.
    Place(u32),
    /// `.dw` with four hexadecimal digits.
    Word(u16),
    /// `.db` with two hexadecimal digits.
    Byte(u8),
    /// An instruction, with the label of a place in place of its immediate, if it has one.
    Instruction { insn: Insn, place: Option<u32> },
}

impl Listed {
    /// Appends the line without its line feed. It fails only where there is no memory for it.
    #[tactic(auto, unfolding(crate::specs::Writing::listed_text), using(crate::proofs::HexLaws::raw8, crate::proofs::HexLaws::raw16, crate::proofs::HexLaws::raw32))]
    pub fn append_text(&self, out: &mut String) -> Result<(), AllocError>
        requires { ListedFits self.now }
        ensures { OnOk result (string_bytes out.new ≡ string_bytes out.old ++ listed_text self.now) }
    {
        match *self {
            Listed::Code => write!(out, ".code"),
            Listed::Data => write!(out, ".data"),
            Listed::Label(place) => write!(out, "L{place:08x}:"),
            Listed::Global(place) => write!(out, ".global L{place:08x}"),
            Listed::Place(place) => write!(out, ".dq L{place:08x}"),
            Listed::Word(n) => write!(out, ".dw 0x{n:04x}"),
            Listed::Byte(n) => write!(out, ".db 0x{n:02x}"),
            Listed::Instruction { insn, place } => {
                let written = insn_text(&insn, place);
                write!(out, "{written}")
            }
        }
    }

    /// Appends the line and its line feed. It fails only where there is no memory for them.
    pub fn append_to(&self, out: &mut String) -> Result<(), AllocError>
        requires { ListedFits self.now }
        ensures { OnOk result (string_bytes out.new ≡ string_bytes out.old ++ (listed_text self.now ++ 10 ∷ [])) }
    {
        self.append_text(out)?;
        out.push('\n')
    }
}

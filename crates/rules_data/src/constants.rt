//! The values that moves of constants give: immediates, indexes and places of the image.

ghost use Rattle.std.specs.Prelude.{◌≡◌, ◌<◌, ◌^◌, length};
ghost use Rattle.rules_data.specs.Moves.{immediate, immediate_index, low_of, relative};

use ebc_insn::Size;
use note_types::{Notes, RuleName, Ty};
use rules_base::{Distance, Here, constant, lin, relocated, takes_address, thing_at, wrap64};

// ---- MOVI

fn low_of(size: Size, k: u64) -> u64
    ensures { result ≡ low_of size k }
{
    match size {
        Size::Byte => k % 0x100,
        Size::Word => k % 0x1_0000,
        Size::Dword => k % 0x1_0000_0000,
        Size::Qword | Size::Natural => k,
    }
}

/// The value of MOVI.
pub fn immediate(
    notes: &Notes,
    here: &Here,
    size: Size,
    bits: u8,
    indirect: bool,
    imm: i64,
) -> Result<Ty, RuleName>
    requires { length notes.now.thunk < 2 ^ 32 }
    ensures { result ≡ immediate notes.now here.now.reloc size bits indirect imm }
{
    match here.reloc {
        Some(place) => relocated(notes, takes_address(size, bits, indirect), place),
        None => Ok(constant(low_of(size, wrap64(imm)))),
    }
}

// ---- MOVIn, MOVREL

/// The value of MOVIn.
pub fn immediate_index(d: Distance) -> Ty
    ensures { result ≡ immediate_index d }
{
    if d.n == 0 && 0 <= d.c {
        constant(wrap64(d.c))
    } else if 1 <= d.n {
        lin(d.n, d.c)
    } else {
        Ty::Any
    }
}

/// The value of MOVREL.
pub fn relative(notes: &Notes, here: &Here, imm: i64) -> Ty
    requires { length notes.now.thunk < 2 ^ 32 }
    ensures { result ≡ relative notes.now here.now.next imm }
{
    match thing_at(notes, i128::from(here.next) + i128::from(imm)) {
        Some(t) => t,
        None => Ty::Any,
    }
}

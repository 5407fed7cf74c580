//! All instructions on data.

ghost use Rattle.std.specs.Prelude.{◌≡◌, ◌<◌, ◌^◌, length};
ghost use Rattle.ebc_insn.specs.Spelling.{WellFormed};
ghost use Rattle.rules_data.specs.Data.{after_data, data_change, data_row, plain_row};

use crate::rows::{
    Setting, arith_row, compare_imm_row, compare_row, move_imm_row, move_index_row,
    move_relative_row, move_row, move_signed_row, store_special_row,
};
use ebc_insn::Insn;
use note_types::{FnNote, Notes, RuleName, State};
use rules_base::{Change, Here, counted};

/// The state after an instruction on data: NOT to EXTNDD, CMP, CMPI, the moves other than those to R0 itself, MOVI, MOVIn,
/// MOVREL, LOADSP and STORESP.
///
/// # Errors
///
/// The first rule that fails.
#[tactic(auto, unfolding(crate::specs::Data::after_data))]
pub fn after_data(notes: &Notes, here: &Here, s: &State, i: &Insn) -> Result<State, RuleName>
    requires thunks { length notes.now.thunk < 2 ^ 32 }
    requires well_formed { WellFormed i.now }
    ensures { result ≡ after_data notes.now here.now s.now i.now }
{
    let change = data_change(notes, here, s, i)?;
    let mut after = s.copy();
    change.apply(&mut after);
    Ok(after)
}

/// What an instruction on data changes.
///
/// # Errors
///
/// The first rule that fails.
#[tactic(auto, unfolding(crate::specs::Data::data_change))]
pub fn data_change(notes: &Notes, here: &Here, s: &State, i: &Insn) -> Result<Change, RuleName>
    requires thunks { length notes.now.thunk < 2 ^ 32 }
    requires well_formed { WellFormed i.now }
    ensures { result ≡ data_change notes.now here.now s.now i.now }
{
    match notes.function.as_slice().get(here.func as usize) {
        Some(f) => data_row(notes, f, here, s, i),
        None => Err(RuleName::Function),
    }
}

// The row of an instruction: MOVI alone may be relocated.
fn data_row(notes: &Notes, f: &FnNote, here: &Here, s: &State, i: &Insn) -> Result<Change, RuleName>
    requires thunks { length notes.now.thunk < 2 ^ 32 }
    requires well_formed { WellFormed i.now }
    ensures { result ≡ data_row notes.now f.now here.now s.now i.now }
{
    match i {
        Insn::MoveImm {
            size,
            bits,
            left,
            lidx,
            imm,
        } => move_imm_row(
            Setting { notes, f, s },
            here,
            *size,
            *bits,
            left,
            lidx,
            *imm,
        ),
        _ => if here.reloc.is_none() {
            plain_row(notes, f, here, s, i)
        } else {
            Err(RuleName::Relocation)
        },
    }
}

// The row of an instruction that isn't relocated; those of control and of the stack have none here.
fn plain_row(
    notes: &Notes,
    f: &FnNote,
    here: &Here,
    s: &State,
    i: &Insn,
) -> Result<Change, RuleName>
    requires thunks { length notes.now.thunk < 2 ^ 32 }
    requires well_formed { WellFormed i.now }
    ensures { result ≡ plain_row notes.now f.now here.now s.now i.now }
{
    let at = Setting { notes, f, s };
    match i {
        Insn::Compare {
            op,
            wide,
            left,
            right,
            extra,
        } => compare_row(at, *op, *wide, *left, right, extra),
        Insn::CompareImm {
            op,
            wide,
            left,
            idx,
            imm,
            ..
        } => compare_imm_row(at, *op, *wide, left, idx, i64::from(*imm)),
        Insn::Arith {
            op,
            wide,
            left,
            right,
            extra,
        } => arith_row(at, *op, *wide, left, right, extra),
        Insn::Move {
            size,
            bits,
            left,
            right,
            lidx,
            ridx,
        } => move_row(at, *size, *bits, left, right, lidx, ridx),
        Insn::MoveSigned {
            bits,
            left,
            right,
            lidx,
            extra,
        } => move_signed_row(at, *bits, left, right, lidx, extra),
        Insn::MoveImmNatural {
            bits,
            left,
            lidx,
            idx,
        } => move_index_row(notes, f, s, left, lidx, counted(*bits, idx)),
        Insn::MoveRelative { left, imm, .. } => move_relative_row(notes, here, left, *imm),
        Insn::StoreSpecial { to, special } => store_special_row(*to, *special),
        _ => Err(RuleName::Form),
    }
}

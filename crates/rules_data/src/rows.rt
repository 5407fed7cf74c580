//! The rows of the instructions on data.

ghost use Rattle.std.specs.Prelude.{◌≡◌, ◌<◌, ◌^◌, length, IfOk};
ghost use Rattle.natural_index.specs.Index.{IsIndex, IsIndexSize};
ghost use Rattle.ebc_insn.specs.Spelling.{ExtraFits, IsOperand, LeftFits, RightFits};
ghost use Rattle.rules_base.specs.Operands.{index_distance};
ghost use Rattle.rules_data.specs.Data.{address_type, arith_row, compare_imm_row, compare_row, fact_of, flag, frame_value, left_operand};
ghost use Rattle.rules_data.specs.Data.{left_value, move_access, move_imm_row, move_index_row, move_relative_row, move_row};
ghost use Rattle.rules_data.specs.Data.{move_signed_row, move_value, signed_value, special_type, store_special_row};

use crate::arithmetic::{computed_type, divisor_known};
use crate::compares::compares;
use crate::constants::{immediate, immediate_index, relative};
use ebc_insn::{ArithOp, CmpOp, Extra, Operand, Size};
use natural_index::Index;
use note_types::{Fact, FnNote, Notes, RuleName, State, Ty};
use rules_base::{
    Access, Change, Destination, Distance, Here, Loaded, Place, also, beside, constant,
    destination_of, form_access, index_distance, kept, kept_signed, left_distance, load_at, needs,
    operand_value, place_at, put, register_type, with_immediate, with_index, wrap64,
};

/// Where an instruction on data stands: the notes, its function, and the state before it.
#[derive(Clone, Copy)]
pub struct Setting<'a> {
    pub notes: &'a Notes,
    pub f: &'a FnNote,
    pub s: &'a State,
}

// No distance.
const NOWHERE: Distance = Distance { n: 0, c: 0 };

// ---- arithmetic

// The value of operand 1: a register other than R0, or what the memory there holds.
fn left_value(
    notes: &Notes,
    f: &FnNote,
    s: &State,
    access: Access,
    op: &Operand,
    d: Distance,
) -> Result<Ty, RuleName>
    requires { IsOperand op.now }
    ensures { result ≡ left_value notes.now f.now s.now access op.now d }
{
    if op.indirect {
        let loaded = load_at(notes, f, s, access, op.reg, d)?;
        Ok(loaded.ty)
    } else {
        register_type(s, op.reg)
    }
}

// Operand 1: its value, and where the result goes.
#[derive(Clone, Copy)]
pub struct Held {
    pub ty: Ty,
    pub to: Destination,
}

#[tactic(auto, unfolding(crate::specs::Data::left_operand))]
fn left_operand(
    notes: &Notes,
    f: &FnNote,
    s: &State,
    access: Access,
    op: &Operand,
) -> Result<Held, RuleName>
    requires { IsOperand op.now }
    ensures { result ≡ left_operand notes.now f.now s.now access op.now }
{
    let (ty, to) = beside(
        left_value(notes, f, s, access, op, NOWHERE),
        destination_of(notes, f, s, access, op, NOWHERE),
    )?;
    Ok(Held { ty, to })
}

/// NOT to EXTNDD.
#[tactic(auto, unfolding(crate::specs::Data::arith_row))]
pub fn arith_row(
    at: Setting,
    op: ArithOp,
    wide: bool,
    left: &Operand,
    right: &Operand,
    extra: &Extra,
) -> Result<Change, RuleName>
    requires left { IsOperand left.now }
    requires right { IsOperand right.now }
    requires extra { ExtraFits 16 right.now extra.now }
    ensures { result ≡ arith_row at.entry.notes.now at.entry.f.now at.entry.s.now op wide left.now right.now extra.now }
{
    let access = form_access(wide);
    let (a, b) = beside(
        left_operand(at.notes, at.f, at.s, access, left),
        operand_value(at.notes, at.f, at.s, access, right, 16, extra),
    )?;
    let t = computed_type(at.notes.shape.as_slice(), op, wide, a.ty, b.ty);
    also(
        put(a.to, t),
        needs(RuleName::Divide, divisor_known(op, b.ty)),
    )
}

// ---- comparisons

// The flag, where the types may be compared.
fn flag(fact: Option<Fact>, holds: bool) -> Result<Change, RuleName>
    ensures { result ≡ flag fact holds }
{
    if holds {
        Ok(Change::Compared { fact })
    } else {
        Err(RuleName::Compare)
    }
}

/// CMP.
#[tactic(auto, unfolding(crate::specs::Data::compare_row))]
pub fn compare_row(
    at: Setting,
    op: CmpOp,
    wide: bool,
    left: u8,
    right: &Operand,
    extra: &Extra,
) -> Result<Change, RuleName>
    requires left { left < 8 }
    requires right { IsOperand right.now }
    requires extra { ExtraFits 16 right.now extra.now }
    ensures { result ≡ compare_row at.entry.notes.now at.entry.f.now at.entry.s.now op wide left right.now extra.now }
{
    let (a, b) = beside(
        register_type(at.s, left),
        operand_value(at.notes, at.f, at.s, form_access(wide), right, 16, extra),
    )?;
    flag(None, compares(op, wide, a, b.ty))
}

// What CMPI says of a register in 64 bits.
fn fact_of(op: CmpOp, wide: bool, left: &Operand, imm: i64) -> Option<Fact>
    ensures { result ≡ fact_of op wide left.now imm }
{
    if wide && !left.indirect {
        Some(Fact {
            reg: left.reg,
            op,
            k: wrap64(imm),
        })
    } else {
        None
    }
}

/// CMPI.
#[tactic(auto, unfolding(crate::specs::Data::compare_imm_row))]
pub fn compare_imm_row(
    at: Setting,
    op: CmpOp,
    wide: bool,
    left: &Operand,
    idx: &Option<Index>,
    imm: i64,
) -> Result<Change, RuleName>
    requires left { IsOperand left.now }
    requires index { LeftFits 16 left.now idx.now }
    ensures { result ≡ compare_imm_row at.entry.notes.now at.entry.f.now at.entry.s.now op wide left.now idx.now imm }
{
    let t = left_value(
        at.notes,
        at.f,
        at.s,
        form_access(wide),
        left,
        left_distance(16, left, idx),
    )?;
    flag(
        fact_of(op, wide, left, imm),
        compares(op, wide, t, constant(wrap64(imm))),
    )
}

// ---- moves

// How a move of this size reaches memory.
fn move_access(size: Size) -> Access
    ensures { result ≡ move_access size }
{
    match size {
        Size::Byte => Access::Byte,
        Size::Word => Access::Word,
        Size::Dword => Access::Dword,
        Size::Qword => Access::Qword,
        Size::Natural => Access::Natural,
    }
}

// The address of what lies at a place of the stack.
fn address_type(place: Option<Place>) -> Ty
    ensures { result ≡ address_type place }
{
    match place {
        Some(Place::Local { field, .. }) => Ty::Local(field),
        _ => Ty::Any,
    }
}

// MOVq takes the address of a local field from R0; no other move reads R0.
fn frame_value(
    notes: &Notes,
    f: &FnNote,
    s: &State,
    size: Size,
    d: Distance,
) -> Result<Loaded, RuleName>
    ensures { result ≡ frame_value notes.now f.now s.now size d }
{
    match size {
        Size::Qword => Ok(Loaded {
            ty: address_type(place_at(notes, f, s, 0, d)),
            made: true,
        }),
        _ => Err(RuleName::Stack),
    }
}

// The value that a move reads.
#[tactic(auto, unfolding(crate::specs::Data::move_value))]
fn move_value(
    notes: &Notes,
    f: &FnNote,
    s: &State,
    size: Size,
    bits: u8,
    right: &Operand,
    ridx: &Option<Index>,
) -> Result<Loaded, RuleName>
    requires size { IsIndexSize bits }
    requires right { IsOperand right.now }
    requires index { RightFits bits ridx.now }
    ensures { result ≡ move_value notes.now f.now s.now size right.now ridx.now }
{
    if right.indirect {
        load_at(
            notes,
            f,
            s,
            move_access(size),
            right.reg,
            index_distance(bits, ridx),
        )
    } else if right.reg == 0 {
        frame_value(notes, f, s, size, index_distance(bits, ridx))
    } else {
        let t = with_index(
            notes.shape.as_slice(),
            s.regs[right.reg as usize],
            bits,
            ridx,
        );
        Ok(Loaded {
            ty: kept(size, t),
            made: true,
        })
    }
}

/// MOVb to MOVqq and MOVn.
#[tactic(auto, unfolding(crate::specs::Data::move_row))]
pub fn move_row(
    at: Setting,
    size: Size,
    bits: u8,
    left: &Operand,
    right: &Operand,
    lidx: &Option<Index>,
    ridx: &Option<Index>,
) -> Result<Change, RuleName>
    requires size { IsIndexSize bits }
    requires left { IsOperand left.now }
    requires right { IsOperand right.now }
    requires left_index { LeftFits bits left.now lidx.now }
    requires right_index { RightFits bits ridx.now }
    ensures { result ≡ move_row at.entry.notes.now at.entry.f.now at.entry.s.now size left.now right.now lidx.now ridx.now }
{
    let (to, v) = beside(
        destination_of(
            at.notes,
            at.f,
            at.s,
            move_access(size),
            left,
            left_distance(bits, left, lidx),
        ),
        move_value(at.notes, at.f, at.s, size, bits, right, ridx),
    )?;
    also(put(to, v.ty), needs(RuleName::Thunk, v.made))
}

// The value that MOVsn reads.
#[tactic(auto, unfolding(crate::specs::Data::signed_value))]
fn signed_value(
    notes: &Notes,
    f: &FnNote,
    s: &State,
    bits: u8,
    right: &Operand,
    extra: &Extra,
) -> Result<Loaded, RuleName>
    requires size { IsIndexSize bits }
    requires right { IsOperand right.now }
    requires extra { ExtraFits bits right.now extra.now }
    ensures { result ≡ signed_value notes.now f.now s.now right.now extra.now }
{
    if right.indirect {
        operand_value(notes, f, s, Access::Signed, right, bits, extra)
    } else if right.reg == 0 {
        Err(RuleName::Stack)
    } else {
        let t = with_immediate(notes.shape.as_slice(), s.regs[right.reg as usize], extra);
        Ok(Loaded {
            ty: kept_signed(t),
            made: true,
        })
    }
}

/// MOVsn.
#[tactic(auto, unfolding(crate::specs::Data::move_signed_row))]
pub fn move_signed_row(
    at: Setting,
    bits: u8,
    left: &Operand,
    right: &Operand,
    lidx: &Option<Index>,
    extra: &Extra,
) -> Result<Change, RuleName>
    requires size { IsIndexSize bits }
    requires left { IsOperand left.now }
    requires right { IsOperand right.now }
    requires index { LeftFits bits left.now lidx.now }
    requires extra { ExtraFits bits right.now extra.now }
    ensures { result ≡ move_signed_row at.entry.notes.now at.entry.f.now at.entry.s.now left.now right.now lidx.now extra.now }
{
    let (to, v) = beside(
        destination_of(
            at.notes,
            at.f,
            at.s,
            Access::Signed,
            left,
            left_distance(bits, left, lidx),
        ),
        signed_value(at.notes, at.f, at.s, bits, right, extra),
    )?;
    put(to, v.ty)
}

/// MOVI: first whether its relocation is allowed.
#[tactic(auto, unfolding(crate::specs::Data::move_imm_row))]
pub fn move_imm_row(
    at: Setting,
    here: &Here,
    size: Size,
    bits: u8,
    left: &Operand,
    lidx: &Option<Index>,
    imm: i64,
) -> Result<Change, RuleName>
    requires thunks { length at.notes.now.thunk < 2 ^ 32 }
    requires left { IsOperand left.now }
    requires index { LeftFits 16 left.now lidx.now }
    ensures { result ≡ move_imm_row at.entry.notes.now at.entry.f.now here.now at.entry.s.now size bits left.now lidx.now imm }
{
    let (t, to) = beside(
        immediate(at.notes, here, size, bits, left.indirect, imm),
        destination_of(
            at.notes,
            at.f,
            at.s,
            move_access(size),
            left,
            left_distance(16, left, lidx),
        ),
    )?;
    put(to, t)
}

/// MOVIn.
#[tactic(auto, unfolding(crate::specs::Data::move_index_row))]
pub fn move_index_row(
    notes: &Notes,
    f: &FnNote,
    s: &State,
    left: &Operand,
    lidx: &Option<Index>,
    idx: Distance,
) -> Result<Change, RuleName>
    requires left { IsOperand left.now }
    requires index { LeftFits 16 left.now lidx.now }
    ensures { result ≡ move_index_row notes.now f.now s.now left.now lidx.now idx }
{
    let to = destination_of(
        notes,
        f,
        s,
        Access::Natural,
        left,
        left_distance(16, left, lidx),
    )?;
    put(to, immediate_index(idx))
}

/// MOVREL, to a register.
#[tactic(auto, unfolding(crate::specs::Data::move_relative_row))]
pub fn move_relative_row(
    notes: &Notes,
    here: &Here,
    left: &Operand,
    imm: i64,
) -> Result<Change, RuleName>
    requires { length notes.now.thunk < 2 ^ 32 }
    ensures { result ≡ move_relative_row notes.now here.now left.now imm }
{
    if left.indirect {
        Err(RuleName::Form)
    } else if left.reg == 0 {
        Err(RuleName::Stack)
    } else {
        Ok(Change::Written {
            reg: left.reg,
            ty: relative(notes, here, imm),
        })
    }
}

fn special_type(special: u8) -> Ty
    ensures { result ≡ special_type special }
{
    if special == 0 {
        Ty::Int {
            lo: 0,
            hi: 1,
            div: 1,
        }
    } else {
        Ty::Any
    }
}

/// STORESP: the flags, of which C is all that is ever set, or the address of the next instruction.
#[tactic(auto, unfolding(crate::specs::Data::store_special_row))]
pub fn store_special_row(to: u8, special: u8) -> Result<Change, RuleName>
    ensures { result ≡ store_special_row to special }
{
    if to == 0 {
        Err(RuleName::Stack)
    } else {
        Ok(Change::Written {
            reg: to,
            ty: special_type(special),
        })
    }
}

//! What is said of `store`.

ghost use Rattle.ebc_insn.specs.Spelling.{IsOperand, RightFits, WellFormed};
ghost use Rattle.natural_index.specs.Index.{IsIndexSize};

use crate::operands::{Memory, left_memory, right_memory};
use crate::values::{loaded_type, right_type, value_line};
use ebc_insn::{Insn, Operand, Size};
use explain_base::{Line, Said, Scene};
use natural_index::Index;
use note_types::{Cell, Item, Ty};
use rules_base::{
    Access, Place, constant, counted, index_distance, kept, lin, place_at, target_at, with_index,
    wrap64,
};

// The values that a cell takes.
fn taken_by(cell: Cell) -> &'static str {
    match cell {
        Cell::I8 | Cell::I16 | Cell::I32 | Cell::I64 => "a number",
        Cell::N => "a number below 4294967296",
        Cell::Stat => "a status or a number below 2147483648",
        Cell::Handle | Cell::Entry => "a value of this type or 0",
        Cell::Ptr { null: true, .. } | Cell::P64 { null: true, .. } =>
            "a pointer to at least as much, at its start, or 0",
        Cell::Ptr { null: false, .. } | Cell::P64 { null: false, .. } =>
            "a pointer to at least as much, at its start, that isn't null",
        Cell::Method(_) => "nothing",
    }
}

// ---- the value that is stored

// What an immediate moves, cut to the move's size.
fn immediate(size: Size, imm: i64) -> Ty {
    let k = wrap64(imm);
    match size {
        Size::Byte => constant(k % 0x100),
        Size::Word => constant(k % 0x1_0000),
        Size::Dword => constant(k % 0x1_0000_0000),
        Size::Qword | Size::Natural => constant(k),
    }
}

// What a move moves from a register; from R0 it is the address of a local field, or nothing known.
fn moved(scene: &Scene, size: Size, bits: u8, right: &Operand, ridx: &Option<Index>) -> Ty
    requires size { IsIndexSize bits }
    requires right { IsOperand right.now }
    requires index { RightFits bits ridx.now }
{
    if right.reg == 0 {
        let d = index_distance(bits, ridx);
        return match place_at(scene.notes, scene.f, scene.state, 0, d) {
            Some(Place::Local { field, .. }) => Ty::Local(field),
            _ => Ty::Any,
        };
    }
    let t = scene.state.regs[right.reg as usize];
    kept(
        size,
        with_index(scene.notes.shape.as_slice(), t, bits, ridx),
    )
}

// The value that an instruction stores, where it computes none.
fn stored(scene: &Scene) -> Option<Ty>
    requires { WellFormed scene.now.insn.now }
{
    if let Some(m) = right_memory(scene.insn) {
        return loaded_type(scene, m);
    }
    match scene.insn {
        Insn::Move {
            size,
            bits,
            right,
            ridx,
            ..
        } => Some(moved(scene, *size, *bits, right, ridx)),
        Insn::MoveImm { size, imm, .. } => Some(immediate(*size, *imm)),
        Insn::MoveImmNatural { bits, idx, .. } => Some(match counted(*bits, idx) {
            d if d.n == 0 && 0 <= d.c => constant(d.c.unsigned_abs()),
            d if 1 <= d.n => lin(d.n, d.c),
            _ => Ty::Any,
        }),
        Insn::Pop { .. } | Insn::PopNatural { .. } => match scene.state.items.as_slice() {
            [Item::Slot { ty, .. }, ..] => Some(*ty),
            _ => None,
        },
        _ => None,
    }
}

// What is stored: the value, or the operands of an instruction that computes it.
fn stored_line(scene: &Scene, m: Memory) -> Line
    requires { WellFormed scene.now.insn.now }
{
    let Insn::Arith { right, extra, .. } = scene.insn else {
        return value_line(scene, "the value", stored(scene).unwrap_or(Ty::Any));
    };
    let (notes, f) = (scene.notes, scene.f);
    let wide = m.access == Access::Form64;
    let a = loaded_type(scene, m).unwrap_or(Ty::Any);
    let b = right_type(scene, wide, right, extra).unwrap_or(Ty::Any);
    let mut line = Line::of(scene.alloc, "the operands are ");
    line.type_of(notes, f, a).text(" and ").type_of(notes, f, b);
    line
}

/// What is said of `store`.
pub(crate) fn said_of_store(scene: &Scene) -> Option<Said>
    requires { WellFormed scene.now.insn.now }
{
    let m = left_memory(scene.insn)?;
    let target = target_at(
        scene.notes,
        scene.f,
        scene.state,
        m.access,
        m.reg,
        m.distance,
    )
    .ok()?;
    let mut what = stored_line(scene, m);
    what.text(", and the cell ")
        .cell(scene.notes, scene.f, target.cell);
    what.text(" takes ").text(taken_by(target.cell));
    Some(Said::only(what))
}

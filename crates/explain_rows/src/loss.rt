//! Why nothing is known of what an instruction leaves in a register.

ghost use Rattle.ebc_insn.specs.Spelling.{ExtraFits, IsOperand, RightFits, WellFormed};
ghost use Rattle.natural_index.specs.Index.{IsIndexSize};

use crate::sums::{difference_line, product_line, sum_line};
use crate::values::right_type;
use ebc_insn::{ArithOp, Extra, Insn, Operand, Size};
use explain_base::{Line, Scene};
use natural_index::Index;
use note_types::Ty;
use rules_base::{constant, index_distance, with_immediate, with_index, wrap64};

const NEGATIVE_INDEX: &str = "an index of fewer than 0 natural units leaves nothing known";

// ---- a register and what stands beside it

// Why nothing is known of a type and the immediate beside it, where that is so.
fn beside_line(scene: &Scene, t: Ty, extra: &Extra) -> Option<Line> {
    let shapes = scene.notes.shape.as_slice();
    match (extra, with_immediate(shapes, t, extra)) {
        (Extra::Imm(imm), Ty::Any) => {
            sum_line(scene.alloc, scene.notes, t, constant(wrap64(*imm)))
        }
        _ => None,
    }
}

// ---- arithmetic

fn arith_line(
    scene: &Scene,
    op: ArithOp,
    left: &Operand,
    right: &Operand,
    extra: &Extra,
) -> Option<Line>
    requires left { IsOperand left.now }
    requires right { IsOperand right.now }
    requires extra { ExtraFits 16 right.now extra.now }
{
    let (alloc, notes) = (scene.alloc, scene.notes);
    let a = scene.state.regs[left.reg as usize];
    match (op, right_type(scene, true, right, extra)?) {
        (_, Ty::Any) => beside_line(scene, scene.state.regs[right.reg as usize], extra),
        (ArithOp::Add, b) => sum_line(alloc, notes, a, b),
        (ArithOp::Sub, b) => difference_line(alloc, notes, a, b),
        (ArithOp::Mul | ArithOp::Mulu, b) => product_line(alloc, a, b),
        _ => None,
    }
}

// ---- moves

// What a move of a size keeps.
fn kept_text(size: Size) -> &'static str {
    match size {
        Size::Byte => "MOVb keeps numbers alone",
        Size::Word => "MOVw keeps numbers alone",
        Size::Dword => "MOVd keeps numbers alone",
        Size::Qword => "MOVq keeps all types",
        Size::Natural =>
            "MOVn keeps no number past 4294967295, no pointer past a start, no size less bytes, no sign-extended status",
    }
}

fn move_line(
    scene: &Scene,
    size: Size,
    bits: u8,
    right: &Operand,
    ridx: &Option<Index>,
) -> Option<Line>
    requires size { IsIndexSize bits }
    requires right { IsOperand right.now }
    requires index { RightFits bits ridx.now }
{
    if right.reg == 0 {
        let mut line = Line::of(scene.alloc, "no local field begins at R0 and ");
        line.distance(index_distance(bits, ridx));
        return Some(line);
    }
    let shapes = scene.notes.shape.as_slice();
    let t = scene.state.regs[right.reg as usize];
    let index = with_index(shapes, constant(0), bits, ridx);
    match (t, with_index(shapes, t, bits, ridx), index) {
        (Ty::Any, ..) => None,
        (_, Ty::Any, Ty::Any) => Some(Line::of(scene.alloc, NEGATIVE_INDEX)),
        (_, Ty::Any, _) => sum_line(scene.alloc, scene.notes, t, index),
        _ => Some(Line::of(scene.alloc, kept_text(size))),
    }
}

fn signed_line(scene: &Scene, right: &Operand, extra: &Extra) -> Option<Line>
    requires { IsOperand right.now }
{
    let t = scene.state.regs[right.reg as usize];
    if let Ty::Any = t {
        return None;
    }
    match beside_line(scene, t, extra) {
        Some(what) => Some(what),
        None => Some(Line::of(
            scene.alloc,
            "MOVsn keeps a status and numbers below 2147483648 alone",
        )),
    }
}

/// Why nothing is known of what an instruction that is accepted leaves in a register of which something was known, or that it reads.
/// `None` where no more can be said than that nothing is known of what it reads.
pub fn loss_line(scene: &Scene) -> Option<Line>
    requires { WellFormed scene.now.insn.now }
{
    let told = match scene.insn {
        Insn::Arith {
            op,
            wide: true,
            left,
            right,
            extra,
        } => return arith_line(scene, *op, left, right, extra),
        Insn::Arith { .. } => "the 32-bit forms compute numbers alone",
        Insn::Move {
            size,
            bits,
            left,
            right,
            ridx,
            ..
        } => if left.reg == 0 {
            "the locals are dropped, and the addresses of their fields with them"
        } else if right.indirect {
            return None;
        } else {
            return move_line(scene, *size, *bits, right, ridx);
        },
        Insn::MoveSigned { right, extra, .. } if !right.indirect => {
            return signed_line(scene, right, extra);
        }
        Insn::MoveImmNatural { .. } => NEGATIVE_INDEX,
        Insn::MoveRelative { .. } => "no static object and no thunk cell of the notes begins at ",
        _ => return None,
    };
    let mut line = Line::of(scene.alloc, told);
    if let Insn::MoveRelative { imm, .. } = scene.insn {
        line.target(i128::from(scene.here.next) + i128::from(*imm));
    }
    Some(line)
}

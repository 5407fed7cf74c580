//! What is said of `compare` and `divide`.

ghost use Rattle.ebc_insn.specs.Spelling.{WellFormed};

use crate::operands::left_memory;
use crate::values::{loaded_type, right_type, value_line};
use ebc_insn::Insn;
use explain_base::{Line, Said, Scene};
use note_types::Ty;
use rules_base::{constant, wrap64};

// Two values that are compared, and whether all 64 bits of them are.
#[derive(Clone, Copy)]
struct Compared {
    a: Ty,
    b: Ty,
    wide: bool,
}

fn compared_values(scene: &Scene) -> Option<Compared>
    requires { WellFormed scene.now.insn.now }
{
    match scene.insn {
        Insn::Compare {
            wide,
            left,
            right,
            extra,
            ..
        } => {
            let b = right_type(scene, *wide, right, extra)?;
            Some(Compared {
                a: scene.state.regs[*left as usize],
                b,
                wide: *wide,
            })
        }
        Insn::CompareImm {
            wide,
            left,
            imm,
            ..
        } => {
            let a = match left_memory(scene.insn) {
                Some(m) => loaded_type(scene, m)?,
                None => scene.state.regs[left.reg as usize],
            };
            Some(Compared {
                a,
                b: constant(wrap64(i64::from(*imm))),
                wide: *wide,
            })
        }
        _ => None,
    }
}

// With what a value compares.
fn comparable(t: Ty, wide: bool) -> &'static str {
    match t {
        Ty::Int { .. } => "a number compares with a number",
        _ if !wide => "in 32 bits a number compares with a number, and nothing else",
        Ty::Ptr { .. } => "a pointer at a start compares by eq, with such a pointer or 0",
        Ty::Handle => "a handle compares by eq, with a handle or 0",
        Ty::Entry => "an entry compares by eq, with an entry or 0",
        Ty::Status(_) =>
            "a status compares by eq, with a status or a number below 2147483648; MOVsn makes one that compares by order",
        Ty::SignedStatus(_) =>
            "a sign-extended status compares by lte and gte with a number below 2147483648, and by lte with -1",
        Ty::Lin { .. } | Ty::Scaled { .. } =>
            "a size that differs with the width compares with nothing",
        _ => "it compares with nothing",
    }
}

// Writes a value that is compared: a number by itself, and else its type.
fn write_compared(scene: &Scene, t: Ty, line: &mut Line) {
    match t {
        Ty::Int { lo, hi, .. } if lo == hi => line
            .text("the number ")
            .signed(i128::from(lo.cast_signed())),
        _ => line.type_of(scene.notes, scene.f, t),
    };
}

/// What is said of `compare`.
pub(crate) fn said_of_compare(scene: &Scene) -> Option<Said>
    requires { WellFormed scene.now.insn.now }
{
    let Compared { a, b, wide } = compared_values(scene)?;
    let mut what = Line::new(scene.alloc);
    write_compared(scene, a, &mut what);
    what.text(" is compared with ");
    write_compared(scene, b, &mut what);
    what.text("; ").text(match a {
        Ty::Int { .. } => comparable(b, wide),
        _ => comparable(a, wide),
    });
    Some(Said::only(what))
}

/// What is said of `divide`.
pub(crate) fn said_of_divide(scene: &Scene) -> Option<Said>
    requires { WellFormed scene.now.insn.now }
{
    let Insn::Arith {
        wide,
        right,
        extra,
        ..
    } = scene.insn
    else {
        return None;
    };
    let t = right_type(scene, *wide, right, extra)?;
    let mut what = value_line(scene, "the divisor", t);
    what.text(", and a number is wanted");
    Some(Said::only(what))
}

//! What is said of `form`.

ghost use Rattle.ebc_insn.specs.Spelling.{WellFormed};

use crate::callee::called_type;
use crate::values::{register_line, value_line};
use ebc_insn::{Extra, Insn};
use explain_base::{Said, Scene};

// What is said of an instruction other than CALLEX.
fn form_text(i: &Insn) -> &'static str {
    match i {
        Insn::LoadSpecial { .. } => "LOADSP sets the flags, which checked code doesn't",
        Insn::Break { .. } => "BREAK 5 alone is wanted in checked code",
        Insn::Jump { .. } =>
            "a jump goes by a relative immediate without a register, or by JMP64a with a name",
        Insn::Call { .. } =>
            "a call goes by a relative immediate without a register, or by CALL64a with a name; a native method is called by CALL32EXa",
        Insn::MoveRelative { .. } => "MOVREL goes to a register",
        _ => "the typing rules have no row for it",
    }
}

/// What is said of `form`; of CALLEX in a form by which a method may be called, that this is no method.
pub(crate) fn said_of_form(scene: &Scene) -> Option<Said>
    requires { WellFormed scene.now.insn.now }
{
    let Insn::Call {
        native: true,
        far,
        relative,
        op,
        extra,
    } = scene.insn
    else {
        return Some(Said::text(scene.alloc, form_text(scene.insn)));
    };
    let is_bare = op.indirect || matches!(extra, Extra::Nothing);
    if *far || *relative || op.reg == 0 || !is_bare {
        return Some(Said::text(
            scene.alloc,
            "a native call is CALL32EXa on a register but R0, without an immediate, or on what it points to",
        ));
    }
    let t = called_type(scene)?;
    let mut what = if op.indirect {
        value_line(scene, "what is called", t)
    } else {
        register_line(scene, op.reg, t)
    };
    what.text(", and a method is wanted");
    Some(Said::only(what))
}

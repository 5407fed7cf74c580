//! What a call calls, and what it passes.

ghost use Rattle.ebc_insn.specs.Spelling.{WellFormed};

use crate::operands::right_memory;
use crate::values::loaded_type;
use ebc_insn::Insn;
use explain_base::Scene;
use note_infer::jump_names;
use note_types::{FnNote, Item, Notes, Signature, SlotKind, Ty, Want};

/// What a parameter takes: a value of a type of a function, or one that a native method wants.
#[derive(Clone, Copy)]
pub(crate) enum Takes {
    Type(Ty),
    Want(Want),
}

/// A parameter: the kind of its slot, and what it takes.
#[derive(Clone, Copy)]
pub(crate) struct Parameter {
    pub kind: SlotKind,
    pub takes: Takes,
}

/// What is called: a function, or a native method by a signature; each with its number.
#[derive(Clone, Copy)]
pub(crate) enum Callee<'a> {
    Function(usize, &'a FnNote),
    Method(u32, &'a Signature),
}

impl Callee<'_> {
    /// A parameter, by its number.
    pub fn parameter(&self, number: usize) -> Option<Parameter> {
        match self {
            Callee::Function(_, g) => {
                let p = g.params.as_slice().get(number)?;
                Some(Parameter {
                    kind: p.kind,
                    takes: Takes::Type(p.ty),
                })
            }
            Callee::Method(_, g) => {
                let p = g.params.as_slice().get(number)?;
                Some(Parameter {
                    kind: p.kind,
                    takes: Takes::Want(p.want),
                })
            }
        }
    }
}

/// The slot that is passed for a parameter.
pub(crate) fn slot_at(scene: &Scene, number: usize) -> Option<(SlotKind, Ty)> {
    match scene.state.items.as_slice().get(number) {
        Some(Item::Slot { kind, ty }) => Some((*kind, *ty)),
        _ => None,
    }
}

// ---- functions

/// The function that is called, and its number.
pub(crate) fn called_function<'a>(scene: &Scene<'a>) -> Option<(usize, &'a FnNote)> {
    let Insn::Call {
        native: false,
        far,
        relative,
        op,
        extra,
    } = scene.insn
    else {
        return None;
    };
    let reloc = match scene.here.reloc {
        Some(place) => Some(u64::from(place)),
        None => None,
    };
    let place = jump_names(scene.here.next, reloc, *far, *relative, op, extra)?;
    for (number, g) in scene.notes.function.as_slice().iter().enumerate() {
        if i128::from(g.place) == place {
            return Some((number, g));
        }
    }
    None
}

// ---- native methods

/// The type of what a native call calls.
pub(crate) fn called_type(scene: &Scene) -> Option<Ty>
    requires { WellFormed scene.now.insn.now }
{
    let Insn::Call {
        native: true,
        op,
        ..
    } = scene.insn
    else {
        return None;
    };
    if !op.indirect {
        return scene.state.regs.get(op.reg as usize).copied();
    }
    loaded_type(scene, right_memory(scene.insn)?)
}

/// The name of a native method; empty where there is none.
pub(crate) fn method_name(notes: &Notes, method: u32) -> &str {
    match notes.methods.as_slice().get(method as usize) {
        Some(name) => name.as_str(),
        None => "",
    }
}

/// The number of the site at the place.
pub(crate) fn site_number(scene: &Scene) -> Option<usize> {
    for (number, x) in scene.notes.site.as_slice().iter().enumerate() {
        if x.place == scene.here.place {
            return Some(number);
        }
    }
    None
}

/// The signature of a site, and its number.
pub(crate) fn signature_of<'a>(scene: &Scene<'a>, site: usize) -> Option<(u32, &'a Signature)> {
    let x = scene.notes.site.as_slice().get(site)?;
    let g = scene.notes.signature.as_slice().get(x.signature as usize)?;
    Some((x.signature, g))
}

/// What is called.
pub(crate) fn callee_of<'a>(scene: &Scene<'a>) -> Option<Callee<'a>> {
    if let Some((number, g)) = called_function(scene) {
        return Some(Callee::Function(number, g));
    }
    let site = site_number(scene)?;
    let (number, g) = signature_of(scene, site)?;
    Some(Callee::Method(number, g))
}

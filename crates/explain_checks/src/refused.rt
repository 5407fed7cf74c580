//! A refusal, and what is said of it by its rule.

ghost use Rattle.note_types.specs.Records.{IsNotes};
ghost use Rattle.pe_image.specs.Images.{IsImage};

use crate::below::said_of_below;
use crate::clash::said_of_clash;
use crate::decoding::{said_of_decode, said_of_relocation};
use crate::functions::said_of_function;
use crate::points::{said_of_end, said_of_point, said_of_state};
use crate::shapes::said_of_shape;
use crate::statics::said_of_static;
use crate::targets::said_of_target;
use crate::thunks::said_of_thunk;
use explain_base::Said;
use note_types::{FnNote, NoMemory, Notes, RuleName};
use pe_image::Image;
use state_walk::Before;
use std::alloc::Global;

/// An image that is refused under notes at a place by a rule. Of the rule `shape` the place is the number of the shape.
#[derive(Clone, Copy)]
pub struct Refused<'a> {
    pub alloc: Global,
    pub image: &'a Image,
    pub notes: &'a Notes,
    pub place: u32,
    pub rule: RuleName,
    /// What stands before the instruction at the place, where that is known.
    pub at: Option<&'a Before>,
    /// Whether `infer` refuses it, which takes no points of the notes.
    pub infers: bool,
}

/// An instruction that is refused: the refusal, what stands before the instruction, and its function.
#[derive(Clone, Copy)]
pub(crate) struct Stopped<'a> {
    pub refused: &'a Refused<'a>,
    pub at: &'a Before,
    pub f: &'a FnNote,
}

/// What is said of the refusal: what was found at the place and what the rule wants, with the key of the notes that is
/// concerned. `None` where nothing is known beside the place and the rule, and for the rules of rows.
///
/// # Errors
///
/// Want of memory alone.
pub fn check_said(refused: &Refused) -> Result<Option<Said>, NoMemory>
    requires image { IsImage refused.now.image.now }
    requires notes { IsNotes refused.now.notes.now }
{
    match refused.rule {
        RuleName::Shape => Ok(said_of_shape(refused)),
        RuleName::Function => Ok(said_of_function(refused)),
        RuleName::Static => Ok(match said_of_static(refused) {
            Some(said) => Some(said),
            None => said_of_thunk(refused),
        }),
        _ => said_of_instruction(refused),
    }
}

fn said_of_instruction(refused: &Refused) -> Result<Option<Said>, NoMemory>
    requires image { IsImage refused.now.image.now }
    requires notes { IsNotes refused.now.notes.now }
{
    let Some(at) = refused.at else {
        return Ok(None);
    };
    let Some(f) = refused.notes.function.as_slice().get(at.func as usize) else {
        return Ok(None);
    };
    let stopped = Stopped { refused, at, f };
    match refused.rule {
        RuleName::Decode => Ok(Some(said_of_decode(&stopped)?)),
        RuleName::State => Ok(Some(said_of_state(&stopped))),
        RuleName::Point => said_of_point(&stopped),
        RuleName::Relocation => Ok(said_of_relocation(&stopped)),
        RuleName::Target => Ok(said_of_target(&stopped)),
        RuleName::Below if refused.infers => Ok(said_of_clash(&stopped)),
        RuleName::Below => Ok(said_of_below(&stopped)),
        RuleName::End => Ok(said_of_end(&stopped)),
        _ => Ok(None),
    }
}

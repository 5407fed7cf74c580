//! The typed objects of a script, and their shapes.
ghost use Rattle.std.specs.Prelude.{◌≡◌, ◌++◌, IfOk, OnOk, length, map, Some};
ghost use Rattle.std.specs.List.{flat_map};
ghost use Rattle.host_model.specs.Objects.{made_objects, script_object, shape_of, static_object};
ghost use Rattle.protocol_script.specs.Resolved.{draft_shapes, typed_shapes};

use crate::numbers::shape_number;
use host_model::TypedObject;
use note_types::{Field, Notes, Script, ScriptCall, ScriptObject, Static};
use script_draft::{CallDraft, ObjectDraft, ScriptDraft};
use std::alloc::{AllocError, Global};

/// The fields of the shape of that number, none where there is no such shape.
pub fn fields_of(notes: &Notes, shape: u32) -> &[Field]
    ensures { result.now ≡ (shape_of notes.now shape).fields }
{
    match notes.shape.as_slice().get(shape as usize) {
        Some(shape) => shape.fields.as_slice(),
        None => &[],
    }
}

// ---- the shapes of a draft's objects

fn add_static_shapes(shapes: &mut Vec<Option<u32>>, statics: &[Static]) -> Result<(), AllocError>
    ensures { OnOk result (shapes.new.items ≡ shapes.old.items ++ map (λ o. Some o.shape) statics.now) }
{
    for object in statics {
        shapes.push(Some(object.shape))?;
    }
    Ok(())
}

fn add_draft_shapes(
    shapes: &mut Vec<Option<u32>>,
    notes: &Notes,
    objects: &[ObjectDraft],
) -> Result<(), AllocError>
    ensures { OnOk result (shapes.new.items ≡ shapes.old.items ++ draft_shapes notes.now objects.now) }
{
    for object in objects {
        shapes.push(shape_number(notes, &object.shape))?;
    }
    Ok(())
}

fn add_call_shapes(
    shapes: &mut Vec<Option<u32>>,
    notes: &Notes,
    calls: &[CallDraft],
) -> Result<(), AllocError>
    ensures { OnOk result (shapes.new.items ≡ shapes.old.items ++ flat_map (λ c. draft_shapes notes.now c.make) calls.now) }
{
    for call in calls {
        add_draft_shapes(shapes, notes, call.make.as_slice())?;
    }
    Ok(())
}

/// The shapes of all typed objects of a run, each where it is there: of the static objects, of the script's objects at the
/// start, and of those that its calls make.
///
/// # Errors
///
/// There was no memory.
#[tactic(auto, unfolding(crate::specs::Resolved::typed_shapes))]
pub fn typed_shapes(
    alloc: Global,
    notes: &Notes,
    draft: &ScriptDraft,
) -> Result<Vec<Option<u32>>, AllocError>
    ensures { IfOk result (λ shapes. shapes.items ≡ typed_shapes notes.now draft.now) }
{
    let mut shapes = Vec::new(alloc);
    add_static_shapes(&mut shapes, notes.statics.as_slice())?;
    add_draft_shapes(&mut shapes, notes, draft.object.as_slice())?;
    add_call_shapes(&mut shapes, notes, draft.call.as_slice())?;
    Ok(shapes)
}

// ---- the typed objects of a script

fn add_statics(made: &mut Vec<TypedObject>, statics: &[Static]) -> Result<(), AllocError>
    ensures { OnOk result (made.new.items ≡ made.old.items ++ map static_object statics.now) }
{
    for object in statics {
        made.push(TypedObject {
            shape: object.shape,
            count: object.count,
        })?;
    }
    Ok(())
}

fn add_objects(made: &mut Vec<TypedObject>, objects: &[ScriptObject]) -> Result<(), AllocError>
    ensures { OnOk result (made.new.items ≡ made.old.items ++ map script_object objects.now) }
{
    for object in objects {
        made.push(TypedObject {
            shape: object.shape,
            count: object.count,
        })?;
    }
    Ok(())
}

fn add_made(made: &mut Vec<TypedObject>, calls: &[ScriptCall]) -> Result<(), AllocError>
    ensures { OnOk result (made.new.items ≡ made.old.items ++ flat_map (λ c. map script_object c.make) calls.now) }
{
    for call in calls {
        add_objects(made, call.make.as_slice())?;
    }
    Ok(())
}

/// The typed objects that are there at the start: the static objects of the notes, and the script's.
///
/// # Errors
///
/// There was no memory.
pub fn objects_at_start(
    alloc: Global,
    notes: &Notes,
    script: &Script,
) -> Result<Vec<TypedObject>, AllocError>
    ensures { IfOk result (λ made. made.items ≡ made_objects notes.now script.now 0) }
{
    let mut made = Vec::new(alloc);
    add_statics(&mut made, notes.statics.as_slice())?;
    add_objects(&mut made, script.object.as_slice())?;
    Ok(made)
}

/// The typed objects once all calls of a script were accepted.
///
/// # Errors
///
/// There was no memory.
pub fn all_objects(
    alloc: Global,
    notes: &Notes,
    script: &Script,
) -> Result<Vec<TypedObject>, AllocError>
    ensures { IfOk result (λ made. made.items ≡ made_objects notes.now script.now (length script.now.call)) }
{
    let mut made = objects_at_start(alloc, notes, script)?;
    add_made(&mut made, script.call.as_slice())?;
    Ok(made)
}

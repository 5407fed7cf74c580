//! Notes with other points.

ghost use Rattle.std.specs.Prelude.{◌≡◌, IfOk};
ghost use Rattle.note_infer.specs.Rounds.{with_points};

use ebc_base::{Name, NoMemory, Sequence};
use note_types::{
    Field, Fields, FnNote, Functions, Names, Notes, PlacedList, Points, Shape, Shapes, Signature,
    Signatures, Sites, Statics, Thunks,
};
use std::alloc::Global;

// The same values once more.
fn copy_all<T: Copy>(alloc: Global, values: &[T]) -> Result<Sequence<T>, NoMemory>
    ensures { IfOk result (λ copy. copy ≡ values.now) }
{
    Ok(Sequence::new(Vec::from_slice(alloc, values)?))
}

// The same names once more.
fn copy_names(alloc: Global, names: &[Name]) -> Result<Names, NoMemory>
    ensures { IfOk result (λ copy. copy ≡ names.now) }
{
    let mut copy = Vec::new(alloc);
    for name in names {
        copy.push(name.copy(alloc)?)?;
    }
    Ok(Sequence::new(copy))
}

// The same field once more.
fn copy_field(alloc: Global, field: &Field) -> Result<Field, NoMemory>
    ensures { IfOk result (λ copy. copy ≡ field.now) }
{
    Ok(Field {
        name: field.name.copy(alloc)?,
        n: field.n,
        c: field.c,
        cell: field.cell,
    })
}

// The same fields once more.
fn copy_fields(alloc: Global, fields: &[Field]) -> Result<Fields, NoMemory>
    ensures { IfOk result (λ copy. copy ≡ fields.now) }
{
    let mut copy = Vec::new(alloc);
    for field in fields {
        copy.push(copy_field(alloc, field)?)?;
    }
    Ok(Sequence::new(copy))
}

// The same shape once more.
fn copy_shape(alloc: Global, shape: &Shape) -> Result<Shape, NoMemory>
    ensures { IfOk result (λ copy. copy ≡ shape.now) }
{
    Ok(Shape {
        name: shape.name.copy(alloc)?,
        n: shape.n,
        c: shape.c,
        fields: copy_fields(alloc, shape.fields.as_slice())?,
    })
}

// The same shapes once more.
fn copy_shapes(alloc: Global, shapes: &[Shape]) -> Result<Shapes, NoMemory>
    ensures { IfOk result (λ copy. copy ≡ shapes.now) }
{
    let mut copy = Vec::new(alloc);
    for shape in shapes {
        copy.push(copy_shape(alloc, shape)?)?;
    }
    Ok(Sequence::new(copy))
}

// The same function once more.
fn copy_function(alloc: Global, f: &FnNote) -> Result<FnNote, NoMemory>
    ensures { IfOk result (λ copy. copy ≡ f.now) }
{
    Ok(FnNote {
        name: f.name.copy(alloc)?,
        place: f.place,
        end: f.end,
        level: f.level,
        need: f.need,
        locals: f.locals,
        params: copy_all(alloc, f.params.as_slice())?,
        result: f.result,
        enter: f.enter,
    })
}

// The same functions once more.
fn copy_functions(alloc: Global, functions: &[FnNote]) -> Result<Functions, NoMemory>
    ensures { IfOk result (λ copy. copy ≡ functions.now) }
{
    let mut copy = Vec::new(alloc);
    for f in functions {
        copy.push(copy_function(alloc, f)?)?;
    }
    Ok(PlacedList::new(alloc, copy)?)
}

// The same signature once more.
fn copy_signature(alloc: Global, signature: &Signature) -> Result<Signature, NoMemory>
    ensures { IfOk result (λ copy. copy ≡ signature.now) }
{
    Ok(Signature {
        name: signature.name.copy(alloc)?,
        method: signature.method,
        params: copy_all(alloc, signature.params.as_slice())?,
        result: signature.result,
    })
}

// The same signatures once more.
fn copy_signatures(alloc: Global, signatures: &[Signature]) -> Result<Signatures, NoMemory>
    ensures { IfOk result (λ copy. copy ≡ signatures.now) }
{
    let mut copy = Vec::new(alloc);
    for signature in signatures {
        copy.push(copy_signature(alloc, signature)?)?;
    }
    Ok(Sequence::new(copy))
}

// The tables of notes whose rows have names or parameters, once more: shapes, functions, signatures and methods.
fn copy_named(
    alloc: Global,
    notes: &Notes,
) -> Result<(Shapes, Functions, Signatures, Names), NoMemory>
    ensures { IfOk result (λ (shape, function, signature, methods).
        (shape ≡ notes.now.shape) × (function ≡ notes.now.function) × (signature ≡ notes.now.signature) × (methods ≡ notes.now.methods)) }
{
    let shape = copy_shapes(alloc, notes.shape.as_slice())?;
    let function = copy_functions(alloc, notes.function.as_slice())?;
    let signature = copy_signatures(alloc, notes.signature.as_slice())?;
    let methods = copy_names(alloc, notes.methods.as_slice())?;
    Ok((shape, function, signature, methods))
}

// The other tables of notes but their points, once more: static objects, thunk cells and sites.
fn copy_plain(alloc: Global, notes: &Notes) -> Result<(Statics, Thunks, Sites), NoMemory>
    ensures { IfOk result (λ (statics, thunk, site). (statics ≡ notes.now.statics) × (thunk ≡ notes.now.thunk) × (site ≡ notes.now.site)) }
{
    let statics = copy_all(alloc, notes.statics.as_slice())?;
    let statics = PlacedList::new(alloc, statics.into_vec())?;
    let thunk = copy_all(alloc, notes.thunk.as_slice())?;
    let thunk = PlacedList::new(alloc, thunk.into_vec())?;
    let site = copy_all(alloc, notes.site.as_slice())?;
    Ok((statics, thunk, site))
}

/// The same notes with these points in place of their own.
///
/// # Errors
///
/// There is no memory for them.
pub(crate) fn with_points(alloc: Global, notes: &Notes, points: Points) -> Result<Notes, NoMemory>
    ensures { IfOk result (λ copy. copy ≡ with_points notes.now points) }
{
    let (shape, function, signature, methods) = copy_named(alloc, notes)?;
    let (statics, thunk, site) = copy_plain(alloc, notes)?;
    Ok(Notes {
        version: notes.version,
        entry: notes.entry,
        shape,
        statics,
        thunk,
        function,
        point: points,
        signature,
        site,
        methods,
    })
}

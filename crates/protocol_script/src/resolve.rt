//! The third pass over scripts: the numbers of what they name, where each name is there.
ghost use Rattle.std.specs.Prelude.{◌≡◌, ◌++◌, IfOk, List, Option, ℕ, None, Some, codes, option_and_then, slice_get};
ghost use Rattle.ebc_base.specs.Steps.{or_else};
ghost use Rattle.note_texts.specs.Outcome.{Gives};
ghost use Rattle.note_types.specs.declared.fault.TomlFault.TheVariants.{Name as NameFault};
ghost use Rattle.note_types.specs.declared.notes.Notes.{Notes as NotesRecord};
ghost use Rattle.note_types.specs.declared.shape.Field.{Field as FieldRecord};
ghost use Rattle.note_texts.specs.Keys.{row_prefix};
ghost use Rattle.script_draft.specs.Lists.{all_of};
ghost use Rattle.protocol_script.specs.Resolved.{field_in, resolved, resolved_argument, resolved_call, resolved_calls, resolved_callback};
ghost use Rattle.protocol_script.specs.Resolved.{resolved_cell, resolved_notifications, resolved_notify, resolved_object, resolved_objects};
ghost use Rattle.protocol_script.specs.Resolved.{resolved_out, resolved_reply, resolved_value, resolved_write};

use crate::numbers::{
    field_number, function_number, method_number, shape_number, signature_number,
};
use crate::objects::{fields_of, typed_shapes};
use note_texts::row_prefix;
use note_types::{
    Callback, CellValue, Field, Name, Notes, NotesEnd, Notify, OutValue, OutValues, Script,
    ScriptCall, ScriptObject, Seen, Sequence, TomlFault, Value, WriteValue, WriteValues,
};
use script_draft::{
    ArgumentText, CallDraft, CallbackText, CellValueText, NotifyDraft, ObjectDraft, OutText,
    ScriptDraft, ValueText, WriteText,
};
use std::alloc::{AllocError, Global};

/// What the names of a text may be: things of the notes; fields of the shape of the table's objects; and fields of the shapes
/// of the typed objects, where each is there.
#[derive(Clone, Copy)]
pub struct Scope<'a> {
    pub notes: &'a Notes,
    pub fields: &'a [Field],
    pub shapes: &'a [Option<u32>],
}

/// A text with names of things, which are to be their numbers.
pub trait Resolve {
    type Record: Drop;

    /// What the text stands for, where its names are there.
    ghost resolved: { NotesRecord → List FieldRecord → List (Option ℕ) → Self → Option Self.Record };

    /// What the text stands for; `None` where a name of it isn't there.
    ///
    /// # Errors
    ///
    /// There was no memory.
    fn resolve(&self, alloc: Global, scope: Scope) -> Result<Option<Self::Record>, AllocError>
        ensures { IfOk result (λ value. value ≡ resolved scope.entry.notes.now scope.entry.fields.now scope.entry.shapes.now self.now) };
}

// ---- texts

#[tactic(auto, unfolding(crate::specs::Resolved::resolved_value))]
fn resolve_value(notes: &Notes, text: &ValueText) -> Option<Value>
    ensures { result ≡ resolved_value notes.now text.now }
{
    match text {
        ValueText::Int(number) => Some(Value::Int(*number)),
        ValueText::Size { n, c } => Some(Value::Size { n: *n, c: *c }),
        ValueText::Ptr { object, instance } => Some(Value::Ptr {
            object: *object,
            instance: *instance,
        }),
        ValueText::Null => Some(Value::Null),
        ValueText::StatusOk(code) => Some(Value::StatusOk(*code)),
        ValueText::StatusError(code) => Some(Value::StatusError(*code)),
        ValueText::Handle(handle) => Some(Value::Handle(*handle)),
        ValueText::Entry(name) => Some(Value::Entry(function_number(notes, name)?)),
        ValueText::Method(name) => Some(Value::Method(method_number(notes, name)?)),
        ValueText::Any => Some(Value::Any),
    }
}

#[tactic(auto, unfolding(crate::specs::Resolved::resolved_argument))]
fn resolve_argument(notes: &Notes, text: &ArgumentText) -> Option<Seen>
    ensures { result ≡ resolved_argument notes.now text.now }
{
    match text {
        ArgumentText::Out => Some(Seen {
            lent: false,
            value: Value::Out,
        }),
        ArgumentText::Lent(value) => Some(Seen {
            lent: true,
            value: resolve_value(notes, value)?,
        }),
        ArgumentText::Given(value) => Some(Seen {
            lent: false,
            value: resolve_value(notes, value)?,
        }),
    }
}

#[tactic(auto, unfolding(crate::specs::Resolved::resolved_cell))]
fn resolve_cell(notes: &Notes, fields: &[Field], text: &CellValueText) -> Option<CellValue>
    ensures { result ≡ resolved_cell notes.now fields.now text.now }
{
    let field = field_number(fields, &text.field)?;
    let value = resolve_value(notes, &text.value)?;
    Some(CellValue {
        instance: text.instance,
        field,
        value,
    })
}

#[tactic(auto, unfolding(crate::specs::Resolved::resolved_out))]
fn resolve_out(notes: &Notes, text: &OutText) -> Option<OutValue>
    ensures { result ≡ resolved_out notes.now text.now }
{
    let value = resolve_value(notes, &text.value)?;
    Some(OutValue {
        argument: text.argument,
        value,
    })
}

// The shape of a typed object, where both are there.
fn shape_at(shapes: &[Option<u32>], object: u64) -> Option<u32>
    ensures { result ≡ option_and_then (λ shape. shape) (slice_get shapes.now object) }
{
    match shapes.get(object as usize) {
        Some(shape) => *shape,
        None => None,
    }
}

fn field_in(notes: &Notes, shape: Option<u32>, name: &Name) -> Option<u32>
    ensures { result ≡ field_in notes.now shape name.now }
{
    match shape {
        Some(shape) => field_number(fields_of(notes, shape), name),
        None => Some(0),
    }
}

#[tactic(auto, unfolding(crate::specs::Resolved::resolved_write))]
fn resolve_write(notes: &Notes, shapes: &[Option<u32>], text: &WriteText) -> Option<WriteValue>
    ensures { result ≡ resolved_write notes.now shapes.now text.now }
{
    let field = field_in(notes, shape_at(shapes, text.object), &text.field)?;
    let value = resolve_value(notes, &text.value)?;
    Some(WriteValue {
        object: text.object,
        instance: text.instance,
        field,
        value,
    })
}

impl Resolve for ValueText {
    type Record = Value;

    ghost resolved = { λ notes fields shapes text. resolved_value notes text };

    fn resolve(&self, _: Global, scope: Scope) -> Result<Option<Value>, AllocError> {
        Ok(resolve_value(scope.notes, self))
    }
}

impl Resolve for ArgumentText {
    type Record = Seen;

    ghost resolved = { λ notes fields shapes text. resolved_argument notes text };

    fn resolve(&self, _: Global, scope: Scope) -> Result<Option<Seen>, AllocError> {
        Ok(resolve_argument(scope.notes, self))
    }
}

impl Resolve for CellValueText {
    type Record = CellValue;

    ghost resolved = { λ notes fields shapes text. resolved_cell notes fields text };

    fn resolve(&self, _: Global, scope: Scope) -> Result<Option<CellValue>, AllocError> {
        Ok(resolve_cell(scope.notes, scope.fields, self))
    }
}

impl Resolve for CallbackText {
    type Record = Callback;

    ghost resolved = { λ notes fields shapes text. resolved_callback notes text };

    #[tactic(auto, unfolding(crate::specs::Resolved::resolved_callback))]
    fn resolve(&self, alloc: Global, scope: Scope) -> Result<Option<Callback>, AllocError> {
        let Some(function) = function_number(scope.notes, &self.function) else {
            return Ok(None);
        };
        let Some(values) = all_of(alloc, scope, self.values.as_slice())? else {
            return Ok(None);
        };
        Ok(Some(Callback { function, values }))
    }
}

impl Resolve for OutText {
    type Record = OutValue;

    ghost resolved = { λ notes fields shapes text. resolved_out notes text };

    fn resolve(&self, _: Global, scope: Scope) -> Result<Option<OutValue>, AllocError> {
        Ok(resolve_out(scope.notes, self))
    }
}

impl Resolve for WriteText {
    type Record = WriteValue;

    ghost resolved = { λ notes fields shapes text. resolved_write notes shapes text };

    fn resolve(&self, _: Global, scope: Scope) -> Result<Option<WriteValue>, AllocError> {
        Ok(resolve_write(scope.notes, scope.shapes, self))
    }
}

/// What all texts of a list stand for; `None` where a name of one isn't there.
fn all_of<T: Resolve>(
    alloc: Global,
    scope: Scope,
    texts: &[T],
) -> Result<Option<Sequence<T::Record>>, AllocError>
    ensures { IfOk result (λ values.
        values ≡ all_of (T.resolved scope.entry.notes.now scope.entry.fields.now scope.entry.shapes.now) texts.now) }
{
    let mut values = Vec::new(alloc);
    for text in texts {
        let Some(value) = text.resolve(alloc, scope)? else {
            return Ok(None);
        };
        values.push(value)?;
    }
    Ok(Some(Sequence::new(values)))
}

// ---- keys

// What is there, or the fault that a name isn't, at a key.
fn known<T: Drop>(alloc: Global, prefix: &str, key: &str, value: Option<T>) -> Result<T, NotesEnd>
    ensures { Gives result (or_else (NameFault (prefix.now ++ key.now)) value) }
{
    match value {
        Some(value) => Ok(value),
        None => {
            let path = format!(in alloc; "{prefix}{key}")?;
            Err(NotesEnd::Fault(TomlFault::Name(Name::new(path))))
        }
    }
}

// What all texts of the list at a key stand for.
fn all_known<T: Resolve>(
    alloc: Global,
    scope: Scope,
    prefix: &str,
    key: &str,
    texts: &[T],
) -> Result<Sequence<T::Record>, NotesEnd>
    ensures { Gives result (or_else (NameFault (prefix.now ++ key.now))
        (all_of (T.resolved scope.entry.notes.now scope.entry.fields.now scope.entry.shapes.now) texts.now)) }
{
    let values = all_of(alloc, scope, texts)?;
    known(alloc, prefix, key, values)
}

// ---- tables

#[tactic(auto, unfolding(crate::specs::Resolved::resolved_object))]
fn resolve_object(
    alloc: Global,
    notes: &Notes,
    prefix: &str,
    object: &ObjectDraft,
) -> Result<ScriptObject, NotesEnd>
    ensures { Gives result (resolved_object notes.now prefix.now object.now) }
{
    let shape = known(alloc, prefix, "shape", shape_number(notes, &object.shape))?;
    let scope = Scope {
        notes,
        fields: fields_of(notes, shape),
        shapes: &[],
    };
    let cells = all_known(alloc, scope, prefix, "cells", object.cells.as_slice())?;
    Ok(ScriptObject {
        shape,
        count: object.count,
        cells,
    })
}

fn resolve_item(
    alloc: Global,
    notes: &Notes,
    path: &str,
    index: usize,
    object: &ObjectDraft,
) -> Result<ScriptObject, NotesEnd>
    ensures { Gives result (resolved_object notes.now (row_prefix path.now index) object.now) }
{
    let prefix = row_prefix(alloc, path, index)?;
    resolve_object(alloc, notes, prefix.as_str(), object)
}

fn resolve_objects(
    alloc: Global,
    notes: &Notes,
    path: &str,
    objects: &[ObjectDraft],
) -> Result<Sequence<ScriptObject>, NotesEnd>
    ensures { Gives result (resolved_objects notes.now path.now objects.now) }
{
    let mut values = Vec::new(alloc);
    for i in 0..objects.len() {
        values.push(resolve_item(alloc, notes, path, i, &objects[i])?)?;
    }
    Ok(Sequence::new(values))
}

// The objects that the firmware makes in a call.
fn resolve_made(
    alloc: Global,
    notes: &Notes,
    prefix: &str,
    call: &CallDraft,
) -> Result<Sequence<ScriptObject>, NotesEnd>
    ensures { Gives result (resolved_objects notes.now (prefix.now ++ codes "make") call.now.make) }
{
    let path = format!(in alloc; "{prefix}make")?;
    resolve_objects(alloc, notes, path.as_str(), call.make.as_slice())
}

/// What the firmware leaves and gives where it replies.
#[derive(Drop)]
pub struct Reply {
    pub out: OutValues,
    pub write: WriteValues,
    pub result: Value,
}

#[tactic(auto, unfolding(crate::specs::Resolved::resolved_reply))]
fn resolve_reply(
    alloc: Global,
    notes: &Notes,
    shapes: &[Option<u32>],
    prefix: &str,
    call: &CallDraft,
) -> Result<Reply, NotesEnd>
    ensures { Gives result (resolved_reply notes.now shapes.now prefix.now call.now) }
{
    let scope = Scope {
        notes,
        fields: &[],
        shapes,
    };
    let out = all_known(alloc, scope, prefix, "out", call.out.as_slice())?;
    let write = all_known(alloc, scope, prefix, "write", call.write.as_slice())?;
    let result = known(alloc, prefix, "result", resolve_value(notes, &call.result))?;
    Ok(Reply { out, write, result })
}

#[tactic(auto, unfolding(crate::specs::Resolved::resolved_call))]
fn resolve_call(
    alloc: Global,
    notes: &Notes,
    shapes: &[Option<u32>],
    prefix: &str,
    call: &CallDraft,
) -> Result<ScriptCall, NotesEnd>
    ensures { Gives result (resolved_call notes.now shapes.now prefix.now call.now) }
{
    let scope = Scope {
        notes,
        fields: &[],
        shapes,
    };
    let signature = signature_number(notes, &call.signature);
    let signature = known(alloc, prefix, "signature", signature)?;
    let args = all_known(alloc, scope, prefix, "args", call.args.as_slice())?;
    let enter = all_known(alloc, scope, prefix, "enter", call.enter.as_slice())?;
    let make = resolve_made(alloc, notes, prefix, call)?;
    let Reply { out, write, result } = resolve_reply(alloc, notes, shapes, prefix, call)?;
    Ok(ScriptCall {
        signature,
        args,
        enter,
        make,
        out,
        write,
        result,
    })
}

fn resolve_item_call(
    alloc: Global,
    notes: &Notes,
    shapes: &[Option<u32>],
    index: usize,
    call: &CallDraft,
) -> Result<ScriptCall, NotesEnd>
    ensures { Gives result (resolved_call notes.now shapes.now (row_prefix (codes "call") index) call.now) }
{
    let prefix = row_prefix(alloc, "call", index)?;
    resolve_call(alloc, notes, shapes, prefix.as_str(), call)
}

fn resolve_calls(
    alloc: Global,
    notes: &Notes,
    shapes: &[Option<u32>],
    calls: &[CallDraft],
) -> Result<Sequence<ScriptCall>, NotesEnd>
    ensures { Gives result (resolved_calls notes.now shapes.now calls.now) }
{
    let mut values = Vec::new(alloc);
    for i in 0..calls.len() {
        values.push(resolve_item_call(alloc, notes, shapes, i, &calls[i])?)?;
    }
    Ok(Sequence::new(values))
}

#[tactic(auto, unfolding(crate::specs::Resolved::resolved_notify))]
fn resolve_notify(
    alloc: Global,
    notes: &Notes,
    prefix: &str,
    notify: &NotifyDraft,
) -> Result<Notify, NotesEnd>
    ensures { Gives result (resolved_notify notes.now prefix.now notify.now) }
{
    let scope = Scope {
        notes,
        fields: &[],
        shapes: &[],
    };
    let function = function_number(notes, &notify.function);
    let function = known(alloc, prefix, "function", function)?;
    let args = all_known(alloc, scope, prefix, "args", notify.args.as_slice())?;
    Ok(Notify {
        at: notify.at,
        function,
        args,
    })
}

fn resolve_item_notify(
    alloc: Global,
    notes: &Notes,
    index: usize,
    notify: &NotifyDraft,
) -> Result<Notify, NotesEnd>
    ensures { Gives result (resolved_notify notes.now (row_prefix (codes "notify") index) notify.now) }
{
    let prefix = row_prefix(alloc, "notify", index)?;
    resolve_notify(alloc, notes, prefix.as_str(), notify)
}

fn resolve_notifications(
    alloc: Global,
    notes: &Notes,
    notifications: &[NotifyDraft],
) -> Result<Sequence<Notify>, NotesEnd>
    ensures { Gives result (resolved_notifications notes.now notifications.now) }
{
    let mut values = Vec::new(alloc);
    for i in 0..notifications.len() {
        values.push(resolve_item_notify(alloc, notes, i, &notifications[i])?)?;
    }
    Ok(Sequence::new(values))
}

/// The script that a draft stands for.
///
/// # Errors
///
/// `TomlFault::Name` with the path of the first key with a name that isn't there; no memory.
#[tactic(auto, unfolding(crate::specs::Resolved::resolved))]
pub fn resolve_script(alloc: Global, notes: &Notes, draft: &ScriptDraft) -> Result<Script, NotesEnd>
    ensures { Gives result (resolved notes.now draft.now) }
{
    let scope = Scope {
        notes,
        fields: &[],
        shapes: &[],
    };
    let args = all_known(alloc, scope, "", "args", draft.args.as_slice())?;
    let object = resolve_objects(alloc, notes, "object", draft.object.as_slice())?;
    let shapes = typed_shapes(alloc, notes, draft)?;
    let call = resolve_calls(alloc, notes, shapes.as_slice(), draft.call.as_slice())?;
    let notify = resolve_notifications(alloc, notes, draft.notify.as_slice())?;
    Ok(Script {
        version: draft.version,
        args,
        object,
        call,
        notify,
    })
}

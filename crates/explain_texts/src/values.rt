//! Values of scripts, the objects that they point to, and the texts of what takes them.

use ebc_base::Name;
use explain_base::{Line, kind_text};
use host_model::{TypedObject, fits};
use note_types::{
    Cell, Ending, Field, FnNote, Notes, Param, Script, Seen, Shape, Signature, Spot, Ty, Value,
    Want, WantParam,
};
use printed_texts::{append_end, type_text};
use protocol_script::{function_number, method_number};
use script_draft::{ObjectDraft, ScriptDraft, ValueText};

/// Writes a type that names no local fields, as notes spell it.
pub(crate) fn write_type(notes: &Notes, ty: Ty, line: &mut Line) {
    line.made(type_text(line.alloc, notes, &[], ty), "");
}

/// Writes a cell, as notes spell it.
pub(crate) fn write_cell(notes: &Notes, cell: Cell, line: &mut Line) {
    line.made(type_text(line.alloc, notes, &[], Ty::Lent(cell)), "lent:");
}

/// Writes the result of a signature, as notes spell it, or a word where it has none.
pub(crate) fn write_result(notes: &Notes, signature: &Signature, none: &str, line: &mut Line) {
    match signature.result {
        Some(ty) => write_type(notes, ty, line),
        None => {
            line.text(none);
        }
    }
}

/// A parameter of a function or of a native method.
pub(crate) trait Parameter {
    /// Writes it, as notes spell it.
    fn write(&self, notes: &Notes, line: &mut Line);
}

impl Parameter for Param {
    // It names no local fields.
    fn write(&self, notes: &Notes, line: &mut Line) {
        line.text(kind_text(self.kind)).text(" ");
        write_type(notes, self.ty, line);
    }
}

impl Parameter for WantParam {
    fn write(&self, notes: &Notes, line: &mut Line) {
        line.text(kind_text(self.kind));
        match self.want {
            Want::Any => line.text(" any"),
            Want::Int { lo, hi } => line.text(" int:").number(lo).text("..").number(hi),
            Want::Size { n, c } => line
                .text(" size:")
                .number(u64::from(n))
                .text(",")
                .number(u64::from(c)),
            Want::Ptr => line.text(" ptr"),
            Want::Handle => line.text(" handle"),
            Want::Status => line.text(" status"),
            Want::Entry => line.text(" entry"),
            Want::Out(_) => line.text(" out:"),
            Want::Inout(_) => line.text(" inout:"),
        };
        if let Want::Out(cell) | Want::Inout(cell) = self.want {
            write_cell(notes, cell, line);
        }
    }
}

/// Writes how many parameters there are, and which: `1 parameter: n entry`.
pub(crate) fn write_params<P: Parameter>(notes: &Notes, params: &[P], line: &mut Line) {
    let count = params.len();
    line.count(count).text(if count == 1 {
        " parameter"
    } else {
        " parameters"
    });
    for (number, param) in params.iter().enumerate() {
        line.text(if number == 0 { ": " } else { ", " });
        param.write(notes, line);
    }
}

/// The value that a text stands for.
pub(crate) fn value_of(notes: &Notes, text: &ValueText) -> Value {
    match text {
        ValueText::Int(n) => Value::Int(*n),
        ValueText::Size { n, c } => Value::Size { n: *n, c: *c },
        ValueText::Ptr { object, instance } => Value::Ptr {
            object: *object,
            instance: *instance,
        },
        ValueText::Null => Value::Null,
        ValueText::StatusOk(code) => Value::StatusOk(*code),
        ValueText::StatusError(code) => Value::StatusError(*code),
        ValueText::Handle(handle) => Value::Handle(*handle),
        ValueText::Entry(name) => Value::Entry(function_number(notes, name).unwrap_or(u32::MAX)),
        ValueText::Method(name) => Value::Method(method_number(notes, name).unwrap_or(u32::MAX)),
        ValueText::Any => Value::Any,
    }
}

/// Writes a value, as scripts spell it.
pub(crate) fn write_seen(notes: &Notes, seen: Seen, line: &mut Line) {
    line.text(if seen.lent { "lent " } else { "" });
    write_ending(
        notes,
        Ending::Finished(seen.value),
        "end 0 gate finished ",
        line,
    );
}

/// Writes the last line of a run that ended at the gate after no step, without what it begins with.
pub(crate) fn write_ending(notes: &Notes, ending: Ending, begins: &str, line: &mut Line) {
    let mut end = Vec::new(line.alloc);
    let appended = append_end(line.alloc, notes, 0, Spot::Gate, ending, &mut end);
    let text = std::str::from_utf8(end.as_slice()).unwrap_or("");
    let told = text.strip_prefix(begins).unwrap_or(text);
    line.text(told.trim_end()).kept(appended.is_ok());
}

// ---- objects

// Adds objects of a shape. The line remembers want of memory.
fn add_object(made: &mut Vec<TypedObject>, shape: u32, count: u64, line: &mut Line) {
    let added = made.push(TypedObject { shape, count });
    line.kept(added.is_ok());
}

// The number of the shape of that name, or one that no shape has.
fn shape_number(notes: &Notes, name: &Name) -> u32 {
    for (number, shape) in notes.shape.as_slice().iter().enumerate() {
        if shape.name == *name {
            return u32::try_from(number).unwrap_or(u32::MAX);
        }
    }
    u32::MAX
}

// Adds the objects of drafts.
fn add_drafts(
    made: &mut Vec<TypedObject>,
    notes: &Notes,
    objects: &[ObjectDraft],
    line: &mut Line,
) {
    for object in objects {
        let shape = shape_number(notes, &object.shape);
        add_object(made, shape, object.count, line);
    }
}

// The static objects of notes.
fn static_objects(notes: &Notes, line: &mut Line) -> Vec<TypedObject> {
    let mut made = Vec::new(line.alloc);
    for object in notes.statics.as_slice() {
        add_object(&mut made, object.shape, object.count, line);
    }
    made
}

/// The typed objects of the draft of a script: those of the start, and with `all` those that its calls make too. The line remembers
/// want of memory.
pub(crate) fn drafted_objects(
    notes: &Notes,
    draft: &ScriptDraft,
    all: bool,
    line: &mut Line,
) -> Vec<TypedObject> {
    let mut made = static_objects(notes, line);
    add_drafts(&mut made, notes, draft.object.as_slice(), line);
    if all {
        for call in draft.call.as_slice() {
            add_drafts(&mut made, notes, call.make.as_slice(), line);
        }
    }
    made
}

/// The typed objects that are made once so many calls of a script were accepted. The line remembers want of memory.
pub(crate) fn made_objects(
    notes: &Notes,
    script: &Script,
    calls: usize,
    line: &mut Line,
) -> Vec<TypedObject> {
    let mut made = static_objects(notes, line);
    for object in script.object.as_slice() {
        add_object(&mut made, object.shape, object.count, line);
    }
    for call in script.call.as_slice().iter().take(calls) {
        for object in call.make.as_slice() {
            add_object(&mut made, object.shape, object.count, line);
        }
    }
    made
}

/// Writes what an object is, after a comma: `, and object 1 is a Blk`. It tells whether there is one.
pub(crate) fn write_object(
    notes: &Notes,
    made: &[TypedObject],
    number: u64,
    line: &mut Line,
) -> bool {
    let Some(object) = made.get(number as usize) else {
        line.text(", and there is no object ")
            .number(number)
            .text("; there are ");
        line.count(made.len()).text(", from 0 on");
        return false;
    };
    let name = match notes.shape.as_slice().get(object.shape as usize) {
        Some(shape) => shape.name.as_str(),
        None => "",
    };
    line.text(", and object ").number(number);
    if object.count == 1 {
        line.text(" is a ").text(name);
    } else {
        line.text(" has ")
            .number(object.count)
            .text(" of ")
            .text(name);
    }
    true
}

/// Writes what a value points to, after a comma. It tells whether that is there, also where the value is no pointer.
pub(crate) fn write_target(
    notes: &Notes,
    made: &[TypedObject],
    value: &Value,
    line: &mut Line,
) -> bool {
    match value {
        Value::Ptr { object, .. } => write_object(notes, made, *object, line),
        _ => true,
    }
}

/// Writes why a value doesn't fit a field of a shape: what it points to, and if that is there, what the field is.
pub(crate) fn write_misfit(
    notes: &Notes,
    made: &[TypedObject],
    value: &Value,
    shape: &Shape,
    field: &Field,
    line: &mut Line,
) {
    if write_target(notes, made, value, line) {
        line.text("; field ")
            .text(field.name.as_str())
            .text(" of ")
            .text(shape.name.as_str());
        line.text(" is ");
        write_cell(notes, field.cell, line);
    }
}

// Writes why values can't be those of a function's parameters, if they can't.
fn write_unfit(
    notes: &Notes,
    made: &[TypedObject],
    function: &FnNote,
    values: &[Value],
    line: &mut Line,
) {
    let (name, params) = (function.name.as_str(), function.params.as_slice());
    if params.len() != values.len() {
        line.text("it has ")
            .count(values.len())
            .text(" values, and ")
            .text(name)
            .text(" has ");
        write_params(notes, params, line);
        return;
    }
    for (number, (param, value)) in params.iter().zip(values).enumerate() {
        if !fits(made, &param.ty, value) {
            line.text("parameter ")
                .count(number)
                .text(" of ")
                .text(name)
                .text(" is ");
            param.write(notes, line);
            write_target(notes, made, value, line);
            return;
        }
    }
}

/// Writes why the firmware can't enter the function of that number with values, if it can't.
pub(crate) fn write_entering(
    notes: &Notes,
    made: &[TypedObject],
    number: u32,
    values: &[Value],
    line: &mut Line,
) {
    let Some(function) = notes.function.as_slice().get(number as usize) else {
        return;
    };
    if number == notes.entry {
        line.text(function.name.as_str())
            .text(" is the entry function");
    } else if !function.enter {
        line.text(function.name.as_str())
            .text(" isn't marked enter = true");
    } else {
        write_unfit(notes, made, function, values, line);
    }
}

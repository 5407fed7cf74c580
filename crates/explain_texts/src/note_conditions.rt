//! What is said of notes by the conditions over several keys: docs/NOTES.md, "The conditions".

use crate::faulty::{Faulty, Found, Subject, table_number};
use crate::fields::write_separator;
use ebc_base::Name;
use explain_base::Line;
use note_draft::{FunctionDraft, NotesDraft, PointDraft, read_draft};
use note_texts::{FieldText, ItemText, ParamText, TypeText, WantText};
use note_types::{SlotKind, code_limit};

/// Functions that are listed.
const MOST_FUNCTIONS: usize = 8;

/// The conditions on a type, in the order in which they are tried.
#[derive(Clone, Copy)]
enum Condition {
    /// A move of natural size keeps it.
    Kept,
    /// The firmware hands it in, and takes it back.
    Handed,
    /// It doesn't speak of a frame, and a result of no thunk cell.
    Passed,
    /// Its thunk cell is there.
    HasThunk,
}

const CONDITIONS: [Condition; 4] = [
    Condition::Kept,
    Condition::Handed,
    Condition::Passed,
    Condition::HasThunk,
];

/// Numbers below this one are the same at both widths.
const WIDE: u64 = 0x1_0000_0000;

// What is wanted in a natural slot in place of a type that a natural move doesn't keep; empty where it keeps it.
fn kept_instead(ty: &TypeText) -> &'static str {
    match ty {
        TypeText::Int { hi, .. } if WIDE <= *hi =>
            "numbers below 4294967296, as n int:0..4294967295",
        TypeText::Lin { c, .. } if *c < 0 => "lin:N,C with C from 0 on",
        TypeText::Ptr { n, c, .. } if *n != 0 || *c != 0 => "ptr:S*K without an offset",
        TypeText::SignedStatus(_) => "status, since MOVn keeps no sstatus",
        TypeText::Saved(_) => "another type than saved:I, which MOVn doesn't keep",
        _ => "",
    }
}

// Whether the firmware hands in a value of a type, or else takes it back.
fn is_handed(ty: &TypeText, inwards: bool) -> bool {
    match ty {
        TypeText::Any | TypeText::Status(_) => true,
        TypeText::Int { hi, .. } => *hi < WIDE,
        TypeText::Handle => inwards,
        TypeText::Ptr { n, c, .. } => inwards && *n == 0 && *c == 0,
        _ => false,
    }
}

fn speaks_of_frame(ty: &TypeText) -> bool {
    match ty {
        TypeText::Local(_) | TypeText::Saved(_) => true,
        TypeText::Status(grants) | TypeText::SignedStatus(grants) => !grants.is_empty(),
        _ => false,
    }
}

fn is_entered(draft: &NotesDraft, function: &FunctionDraft) -> bool {
    function.enter || function.name == draft.entry
}

fn thunk_wrong(draft: &NotesDraft, ty: &TypeText, line: &mut Line) -> bool {
    let count = draft.thunk.len();
    match ty {
        TypeText::ThunkAt(number) if count <= *number as usize => {
            line.text("; wanted: thunk:I with I below ").count(count);
            line.text(", as there are ")
                .count(count)
                .text(" thunk cells");
            true
        }
        _ => false,
    }
}

fn write_handed(function: &FunctionDraft, types: &str, line: &mut Line) {
    line.text("; wanted, as the firmware enters ")
        .text(function.name.as_str());
    line.text(": ").text(types);
}

// Whether a parameter of a function fails a condition, and what is wrong then.
fn param_wrong(
    draft: &NotesDraft,
    function: &FunctionDraft,
    param: &ParamText,
    condition: Condition,
    line: &mut Line,
) -> bool {
    match condition {
        Condition::Kept => {
            let instead = kept_instead(&param.ty);
            if param.kind != SlotKind::N || instead.is_empty() {
                return false;
            }
            line.text("; wanted in a natural parameter: ").text(instead);
            true
        }
        Condition::Handed if is_entered(draft, function) && !is_handed(&param.ty, true) => {
            write_handed(
                function,
                "any, int:LO..HI with HI below 4294967296, ptr:S*K, handle, or status",
                line,
            );
            true
        }
        Condition::Passed if speaks_of_frame(&param.ty) => {
            line.text(
                "; wanted: no local, saved or status with grants, which speak of the caller's frame",
            );
            true
        }
        Condition::HasThunk => thunk_wrong(draft, &param.ty, line),
        _ => false,
    }
}

// The first parameter of a function that fails the first condition that one fails, and what is wrong with it.
fn params_wrong(draft: &NotesDraft, function: &FunctionDraft, line: &mut Line) -> Option<Subject> {
    for condition in CONDITIONS {
        for (item, param) in function.params.as_slice().iter().enumerate() {
            if param_wrong(draft, function, param, condition, line) {
                return Some(Subject::Item(item));
            }
        }
    }
    None
}

fn write_result(draft: &NotesDraft, function: &FunctionDraft, line: &mut Line) {
    if is_entered(draft, function) && !is_handed(&function.result, false) {
        write_handed(
            function,
            "any, int:LO..HI with HI below 4294967296, or status",
            line,
        );
        return;
    }
    line.text(
        "; wanted: no local, lent, saved, thunk or status with grants, which speak of a frame or a thunk cell",
    );
}

fn write_need(function: &FunctionDraft, line: &mut Line) {
    let params = function.params.len() as u64;
    let need = function
        .need
        .n
        .saturating_mul(8)
        .saturating_add(function.need.c);
    let frame = need
        .saturating_add(params.saturating_mul(8))
        .saturating_add(16);
    line.text("; nine frames take ")
        .number(frame.saturating_mul(9));
    line.text(" bytes where a pointer has 8; wanted: at most 1048576");
}

fn write_end(draft: &NotesDraft, number: usize, line: &mut Line) {
    let mut code = 0u64;
    for function in draft
        .function
        .as_slice()
        .iter()
        .take(number.saturating_add(1))
    {
        code = code.saturating_add(u64::from(function.end.saturating_sub(function.place)));
    }
    line.text("; the code up to there takes ").number(code);
    line.text(" bytes; wanted: at most ")
        .number(code_limit(draft.version));
}

// What is wrong with a key of a function.
fn function_wrong(
    draft: &NotesDraft,
    key: &str,
    number: usize,
    line: &mut Line,
) -> Option<Subject> {
    let function = draft.function.as_slice().get(number)?;
    match key {
        "function.params" => return params_wrong(draft, function, line),
        "function.result" => write_result(draft, function, line),
        "function.locals" => {
            line.text("; wanted: a shape of at most 64 fields");
        }
        "function.need" => write_need(function, line),
        "function.end" => write_end(draft, number, line),
        _ => return None,
    }
    Some(Subject::Item(0))
}

// The argument of a signature that a natural move doesn't keep.
fn wants_wrong(draft: &NotesDraft, number: usize, line: &mut Line) -> Option<Subject> {
    let signature = draft.signature.as_slice().get(number)?;
    for (item, param) in signature.params.as_slice().iter().enumerate() {
        match param.want {
            WantText::Int { hi, .. } if param.kind == SlotKind::N && WIDE <= hi => {
                line.text(
                    "; wanted in a natural argument: numbers below 4294967296, as n int:0..4294967295",
                );
                return Some(Subject::Item(item));
            }
            _ => {}
        }
    }
    None
}

// The place of the table before, where that isn't below the one at a path.
fn place_before(f: &Faulty, at: &Found, list: &str) -> Option<i64> {
    let number = table_number(at.path).checked_sub(1)?;
    let table = f.table.get(list)?.as_array()?.get(number)?;
    let before = table.get("place")?.as_integer()?;
    if at.value.as_integer()? <= before {
        return Some(before);
    }
    None
}

// What is wrong with a place: that of the table before isn't below it, or it lies in no function. It tells where the functions lie.
fn place_wrong(f: &Faulty, draft: &NotesDraft, at: &Found, list: &str, line: &mut Line) -> Subject {
    if let Some(before) = place_before(f, at, list) {
        line.text("; wanted: more than that of the ").text(list);
        line.text(" before, ").hexadecimal(before.cast_unsigned());
        return Subject::Item(0);
    }
    line.text(", which lies in no function; wanted: a place of ");
    let functions = draft.function.as_slice();
    for (number, function) in functions.iter().enumerate().take(MOST_FUNCTIONS) {
        line.text(if number == 0 { "" } else { ", or of " })
            .text(function.name.as_str());
        line.text(", ").at(function.place);
        line.text(" up to ").at(function.end);
    }
    line.text(if MOST_FUNCTIONS < functions.len() {
        ", .."
    } else {
        ""
    });
    Subject::Item(0)
}

// The function in which a place lies.
fn function_of(draft: &NotesDraft, place: u32) -> Option<&FunctionDraft> {
    for function in draft.function.as_slice() {
        if function.place <= place && place < function.end {
            return Some(function);
        }
    }
    None
}

// The fields of the locals of a function; none where it has no locals.
fn locals_of<'d>(draft: &'d NotesDraft, function: &FunctionDraft) -> Option<&'d [FieldText]> {
    let Some(locals) = &function.locals else {
        return Some(&[]);
    };
    for shape in draft.shape.as_slice() {
        if shape.name == *locals {
            return Some(shape.fields.as_slice());
        }
    }
    None
}

fn is_field(fields: &[FieldText], name: &Name) -> bool {
    for field in fields {
        if field.name == *name {
            return true;
        }
    }
    false
}

// The first name of a local field in a type that isn't one of these fields.
fn unknown_field<'d>(ty: &'d TypeText, fields: &[FieldText]) -> Option<&'d Name> {
    match ty {
        TypeText::Local(name) if !is_field(fields, name) => return Some(name),
        TypeText::Status(names) | TypeText::SignedStatus(names) => {
            for name in names.as_slice() {
                if !is_field(fields, name) {
                    return Some(name);
                }
            }
        }
        _ => {}
    }
    None
}

// Writes the names of fields, after what has them.
fn write_fields(fields: &[FieldText], line: &mut Line) {
    line.text(if fields.is_empty() {
        "; it has none"
    } else {
        "; it has: "
    });
    for (number, field) in fields.iter().enumerate() {
        if write_separator(number, line) {
            line.text(field.name.as_str());
        }
    }
}

fn write_field(function: &FunctionDraft, fields: &[FieldText], field: &Name, line: &mut Line) {
    let name = function.name.as_str();
    match &function.locals {
        Some(shape) => {
            line.text("; wanted: fields of ")
                .text(shape.as_str())
                .text(", the locals of ")
                .text(name);
            line.text(", which has no ").text(field.as_str());
            write_fields(fields, line);
        }
        None => {
            line.text("; wanted: no local fields, since ")
                .text(name)
                .text(" has no locals");
        }
    }
}

// The type of an item of a point's list, by the list's key; none where the items have no type.
fn point_type<'d>(point: &'d PointDraft, key: &str, item: usize) -> Option<&'d TypeText> {
    match key {
        "point.regs" => Some(&point.regs.as_slice().get(item)?.ty),
        "point.stack" => match point.stack.as_slice().get(item)? {
            ItemText::Slot { ty, .. } => Some(ty),
            ItemText::Locals => None,
        },
        _ => None,
    }
}

// The first local field that an item of a point names and that isn't one of these.
fn point_field<'d>(
    point: &'d PointDraft,
    fields: &[FieldText],
    key: &str,
    item: usize,
) -> Option<&'d Name> {
    if key != "point.written" {
        return unknown_field(point_type(point, key, item)?, fields);
    }
    let name = point.written.as_slice().get(item)?;
    if is_field(fields, name) {
        return None;
    }
    Some(name)
}

// What is wrong with a list of a point: a local field or a thunk cell that isn't there, or where the locals stand.
fn point_wrong(draft: &NotesDraft, at: &Found, line: &mut Line) -> Option<Subject> {
    let point = draft.point.as_slice().get(table_number(at.path))?;
    let function = function_of(draft, point.place)?;
    let fields = locals_of(draft, function)?;
    for item in 0..at.count() {
        if let Some(field) = point_field(point, fields, at.form.key, item) {
            write_field(function, fields, field, line);
            return Some(Subject::Item(item));
        }
    }
    for item in 0..at.count() {
        match point_type(point, at.form.key, item) {
            Some(ty) if thunk_wrong(draft, ty, line) => return Some(Subject::Item(item)),
            _ => {}
        }
    }
    line.text(": wanted are locals once at most, and only where the function has locals");
    Some(Subject::Whole)
}

// What is wrong at a path by the first condition that fails.
fn first_wrong(f: &Faulty, draft: &NotesDraft, at: &Found, line: &mut Line) -> Option<Subject> {
    let number = table_number(at.path);
    match at.form.key {
        "function.place" => Some(place_wrong(f, draft, at, "function", line)),
        "point.place" => Some(place_wrong(f, draft, at, "point", line)),
        "site.place" => Some(place_wrong(f, draft, at, "site", line)),
        "signature.params" => wants_wrong(draft, number, line),
        "point.regs" | "point.stack" | "point.written" => point_wrong(draft, at, line),
        key => function_wrong(draft, key, number, line),
    }
}

/// What of notes isn't at a path as the conditions over several keys want it; it writes what is wrong with it.
pub(crate) fn note_condition(f: &Faulty, at: &Found, line: &mut Line) -> Option<Subject> {
    match read_draft(f.alloc, f.table) {
        Ok(draft) => first_wrong(f, &draft, at, line),
        Err(_) => None,
    }
}

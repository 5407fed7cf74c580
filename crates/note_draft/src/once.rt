//! The second pass over notes: whether each name, place and register stands once in them, and the names by their numbers.
ghost use Rattle.std.specs.Prelude.{◌≡◌, ◌<◌, ◌^◌, length, map, IfOk};
ghost use Rattle.std.specs.List.{position};
ghost use Rattle.note_draft.specs.declared.finding.Refusal.TheVariants.{Twice};
ghost use Rattle.note_texts.specs.Outcome.{Gives};
ghost use Rattle.note_draft.specs.Findings.{refused};
ghost use Rattle.note_draft.specs.Once.{function_names, method_names, names_in, names_of_calls, names_of_code, names_of_data, numbered};
ghost use Rattle.note_draft.specs.Once.{once, repeat_in, repeated_in_points, repeated_place_in, repeats_field, repeats_register};
ghost use Rattle.note_draft.specs.Once.{shape_names, signature_names};

use crate::draft::{FunctionDraft, NotesDraft, PointDraft, ShapeDraft, SignatureDraft};
use crate::finding::{Finding, Key, Refusal, TableList, refuse};
use crate::keyed::Placed;
use crate::repeats::{Numbering, has_repeat, name_table, repeated_place};
use crate::tables::NameTables;
use ebc_base::NameTable;
use note_types::NotesEnd;
use std::alloc::{AllocError, Global};

fn repeat_in(numbering: &Numbering) -> Option<usize>
    ensures { result ≡ repeat_in numbering.now }
{
    match numbering {
        Numbering::Table(_) => None,
        Numbering::Repeat(item) => Some(*item),
    }
}

fn names_in(alloc: Global, numbering: Numbering) -> NameTable
    ensures { result ≡ names_in numbering }
{
    match numbering {
        Numbering::Table(names) => names,
        Numbering::Repeat(_) => NameTable::new(alloc),
    }
}

// The names that were numbered, unless one repeats or something else in the list does.
fn numbered(
    alloc: Global,
    list: TableList,
    numbering: Numbering,
    other: Option<Finding>,
) -> Result<NameTable, NotesEnd>
    ensures { Gives result (numbered list numbering other) }
{
    let name = Finding::at(list, Key::Name, repeat_in(&numbering));
    refuse(alloc, Refusal::Twice, Finding::sooner(name, other))?;
    Ok(names_in(alloc, numbering))
}

// Nothing where no place repeats.
fn places_once<T: Placed>(alloc: Global, list: TableList, items: &[T]) -> Result<(), NotesEnd>
    ensures { Gives result (refused Twice (repeated_place_in list (map T.place items.now))) }
{
    let item = repeated_place(alloc, items)?;
    refuse(alloc, Refusal::Twice, Finding::at(list, Key::Place, item))
}

fn first_repeating_field(shapes: &[ShapeDraft]) -> Option<usize>
    ensures { result ≡ position repeats_field shapes.now }
{
    shapes
        .iter()
        .position(|shape| has_repeat(shape.fields.as_slice()))
}

fn first_repeating_register(points: &[PointDraft]) -> Option<usize>
    ensures { result ≡ position repeats_register points.now }
{
    points
        .iter()
        .position(|point| has_repeat(point.regs.as_slice()))
}

fn shape_names(alloc: Global, shapes: &[ShapeDraft]) -> Result<NameTable, NotesEnd>
    requires { length shapes.now < 2 ^ 32 }
    ensures { Gives result (shape_names shapes.now) }
{
    let numbering = name_table(alloc, shapes)?;
    let fields = Finding::at(TableList::Shape, Key::Fields, first_repeating_field(shapes));
    numbered(alloc, TableList::Shape, numbering, fields)
}

fn function_names(alloc: Global, functions: &[FunctionDraft]) -> Result<NameTable, NotesEnd>
    requires { length functions.now < 2 ^ 32 }
    ensures { Gives result (function_names functions.now) }
{
    let numbering = name_table(alloc, functions)?;
    let item = repeated_place(alloc, functions)?;
    let place = Finding::at(TableList::Function, Key::Place, item);
    numbered(alloc, TableList::Function, numbering, place)
}

fn points_once(alloc: Global, points: &[PointDraft]) -> Result<(), NotesEnd>
    ensures { Gives result (refused Twice (repeated_in_points points.now)) }
{
    let places = repeated_place(alloc, points)?;
    let regs = first_repeating_register(points);
    let first = Finding::sooner(
        Finding::at(TableList::Point, Key::Place, places),
        Finding::at(TableList::Point, Key::Regs, regs),
    );
    refuse(alloc, Refusal::Twice, first)
}

fn signature_names(alloc: Global, signatures: &[SignatureDraft]) -> Result<NameTable, NotesEnd>
    requires { length signatures.now < 2 ^ 32 }
    ensures { Gives result (signature_names signatures.now) }
{
    let numbering = name_table(alloc, signatures)?;
    numbered(alloc, TableList::Signature, numbering, None)
}

// The distinct methods of the signatures.
fn method_names(alloc: Global, signatures: &[SignatureDraft]) -> Result<NameTable, AllocError>
    requires { length signatures.now < 2 ^ 32 }
    ensures { IfOk result (λ names. names ≡ method_names signatures.now) }
{
    let mut names = NameTable::new(alloc);
    for i in 0..signatures.len() {
        names.add(alloc, &signatures[i].method)?;
    }
    Ok(names)
}

// The names of the shapes, where nothing of the lists of data stands there twice.
#[tactic(auto, unfolding(crate::specs::Once::names_of_data))]
fn names_of_data(alloc: Global, draft: &NotesDraft) -> Result<NameTable, NotesEnd>
    requires { length draft.now.shape < 2 ^ 32 }
    ensures { Gives result (names_of_data draft.now) }
{
    let shape = shape_names(alloc, draft.shape.as_slice())?;
    places_once(alloc, TableList::Static, draft.statics.as_slice())?;
    places_once(alloc, TableList::Thunk, draft.thunk.as_slice())?;
    Ok(shape)
}

// The names of the functions, where nothing of the lists of code stands there twice.
#[tactic(auto, unfolding(crate::specs::Once::names_of_code))]
fn names_of_code(alloc: Global, draft: &NotesDraft) -> Result<NameTable, NotesEnd>
    requires { length draft.now.function < 2 ^ 32 }
    ensures { Gives result (names_of_code draft.now) }
{
    let function = function_names(alloc, draft.function.as_slice())?;
    points_once(alloc, draft.point.as_slice())?;
    Ok(function)
}

/// The names that the lists of native calls give.
#[derive(Drop)]
pub struct CallNames {
    pub signature: NameTable,
    /// The methods, in the order in which the signatures first name them.
    pub method: NameTable,
}

#[tactic(auto, unfolding(crate::specs::Once::names_of_calls))]
fn names_of_calls(alloc: Global, draft: &NotesDraft) -> Result<CallNames, NotesEnd>
    requires { length draft.now.signature < 2 ^ 32 }
    ensures { Gives result (names_of_calls draft.now) }
{
    let signature = signature_names(alloc, draft.signature.as_slice())?;
    places_once(alloc, TableList::Site, draft.site.as_slice())?;
    let method = method_names(alloc, draft.signature.as_slice())?;
    Ok(CallNames { signature, method })
}

/// The names that notes give, where no name, place or register stands there twice.
///
/// # Errors
///
/// `TomlFault::Twice` with the path of the first that does; no memory.
#[tactic(auto, unfolding(crate::specs::Once::once))]
pub fn number_names(alloc: Global, draft: &NotesDraft) -> Result<NameTables, NotesEnd>
    requires shapes { length draft.now.shape < 2 ^ 32 }
    requires functions { length draft.now.function < 2 ^ 32 }
    requires signatures { length draft.now.signature < 2 ^ 32 }
    ensures { Gives result (once draft.now) }
{
    let shape = names_of_data(alloc, draft)?;
    let function = names_of_code(alloc, draft)?;
    let CallNames { signature, method } = names_of_calls(alloc, draft)?;
    Ok(NameTables {
        shape,
        function,
        signature,
        method,
    })
}

//! States.
ghost use Rattle.std.specs.Prelude.{◌≡◌, ◌<◌, ◌++◌, ◌∷◌, [], IfOk, OnOk, if◌then◌else◌, not, string_bytes};
ghost use Rattle.note_types.specs.States.{type_of};
ghost use Rattle.note_texts.specs.SlotGrammar.{kind_text};
ghost use Rattle.printed_texts.specs.PrintedTypes.{field_names};
ghost use Rattle.printed_texts.specs.PrintedStates.{fields_at, is_left_out, item_text, item_texts, register_texts, register_type_text};
ghost use Rattle.printed_texts.specs.PrintedStates.{state_text};

use crate::function::function_at;
use crate::lists::item_line;
use crate::names::field_names;
use crate::ty::type_text;
use note_types::{Field, Item, Name, Names, NoMemory, Notes, SlotKind, State, Ty};
use rules_base::local_fields;
use std::alloc::Global;

/// The fields of the locals of the function that a place belongs to; none where it belongs to none.
#[tactic(auto, unfolding(crate::specs::PrintedStates::fields_at))]
pub(crate) fn fields_at(notes: &Notes, place: u32) -> &[Field]
    ensures { result.now ≡ fields_at notes.now place }
{
    match function_at(notes, place) {
        Some(f) => local_fields(notes, f),
        None => &[],
    }
}

// Whether a register has the type that may be left out: R1 to R3 what they held at the entry, the others anything.
fn is_left_out(register: u8, ty: Ty) -> bool
    ensures { result ≡ is_left_out register ty }
{
    match ty {
        Ty::Saved(saved) => saved == register && register <= 3,
        Ty::Any => register > 3,
        _ => false,
    }
}

// A register and its type.
fn register_type_text(
    alloc: Global,
    notes: &Notes,
    fields: &[Field],
    state: &State,
    register: u8,
) -> Result<String, NoMemory>
    requires { register < 8 }
    ensures { IfOk result (λ text. string_bytes text ≡ register_type_text notes.now fields.now state.now register) }
{
    let ty = type_text(alloc, notes, fields, state.regs[register as usize])?;
    Ok(format!(in alloc; "R{register} {ty}")?)
}

// Adds a register, unless it is left out.
fn add_register(
    alloc: Global,
    notes: &Notes,
    fields: &[Field],
    state: &State,
    register: u8,
    texts: &mut Vec<Name>,
) -> Result<(), NoMemory>
    requires { register < 8 }
    ensures { OnOk result (texts.new.items ≡ texts.old.items ++ (if not (is_left_out register (type_of state.now register))
        then register_type_text notes.now fields.now state.now register ∷ [] else [])) }
{
    if is_left_out(register, state.regs[register as usize]) {
        return Ok(());
    }
    let text = register_type_text(alloc, notes, fields, state, register)?;
    texts.push(Name::new(text))?;
    Ok(())
}

// The registers, R1 to R7, but those that are left out.
#[tactic(auto, using(crate::proofs::KeptNumbers::told_none, crate::proofs::KeptNumbers::told_more))]
fn register_texts(
    alloc: Global,
    notes: &Notes,
    fields: &[Field],
    state: &State,
) -> Result<Names, NoMemory>
    ensures { IfOk result (λ texts. texts ≡ register_texts notes.now fields.now state.now) }
{
    let mut texts = Vec::new(alloc);
    for before in 0..7u8 {
        add_register(alloc, notes, fields, state, before + 1, &mut texts)?;
    }
    Ok(Names::new(texts))
}

// The letter of a slot's kind.
fn kind_text(kind: SlotKind) -> &'static str
    ensures { result.now ≡ kind_text kind }
{
    match kind {
        SlotKind::N => "n",
        SlotKind::Q => "q",
        SlotKind::D => "d",
    }
}

// An item of the stack.
fn item_text(alloc: Global, notes: &Notes, fields: &[Field], item: Item) -> Result<String, NoMemory>
    ensures { IfOk result (λ text. string_bytes text ≡ item_text notes.now fields.now item) }
{
    match item {
        Item::Slot { kind, ty } => {
            let kind = kind_text(kind);
            let ty = type_text(alloc, notes, fields, ty)?;
            Ok(format!(in alloc; "{kind} {ty}")?)
        }
        Item::Locals => Ok(String::from_str(alloc, "locals")?),
    }
}

// The items of the stack from the top.
fn item_texts(
    alloc: Global,
    notes: &Notes,
    fields: &[Field],
    items: &[Item],
) -> Result<Names, NoMemory>
    ensures { IfOk result (λ texts. texts ≡ item_texts notes.now fields.now items.now) }
{
    let mut texts = Vec::new(alloc);
    for item in items {
        texts.push(Name::new(item_text(alloc, notes, fields, *item)?))?;
    }
    Ok(Names::new(texts))
}

/// What is told of a state: its registers, the items of its stack, and the names of the local fields that are written.
#[derive(Drop)]
pub(crate) struct StateTexts {
    pub regs: Names,
    pub stack: Names,
    pub written: Names,
}

/// What is told of a state at a place.
///
/// # Errors
///
/// Want of memory alone.
pub(crate) fn state_texts(
    alloc: Global,
    notes: &Notes,
    place: u32,
    state: &State,
) -> Result<StateTexts, NoMemory>
    ensures regs { IfOk result (λ texts. texts.regs ≡ register_texts notes.now (fields_at notes.now place) state.now) }
    ensures stack { IfOk result (λ texts. texts.stack ≡ item_texts notes.now (fields_at notes.now place) state.now.items) }
    ensures written { IfOk result (λ texts. texts.written ≡ field_names (fields_at notes.now place) state.now.written) }
{
    let fields = fields_at(notes, place);
    let regs = register_texts(alloc, notes, fields, state)?;
    let stack = item_texts(alloc, notes, fields, state.items.as_slice())?;
    let written = field_names(alloc, fields, state.written)?;
    Ok(StateTexts {
        regs,
        stack,
        written,
    })
}

/// The four lines of a state at a place, an offset from the image's base in bytes: its registers but those whose type a point may
/// leave out, the items of its stack from the top, the local fields that are written, and how many thunks are made.
///
/// # Errors
///
/// Want of memory alone.
pub fn state_text(
    alloc: Global,
    notes: &Notes,
    place: u32,
    state: &State,
) -> Result<String, NoMemory>
    ensures { IfOk result (λ text. string_bytes text ≡ state_text notes.now place state.now) }
{
    let texts = state_texts(alloc, notes, place, state)?;
    let regs = item_line(alloc, "regs", texts.regs.as_slice())?;
    let stack = item_line(alloc, "stack", texts.stack.as_slice())?;
    let written = item_line(alloc, "written", texts.written.as_slice())?;
    let made = state.made;
    Ok(format!(in alloc; "{regs}{stack}{written}made {made}\n")?)
}

//! The points: what they may name, and the states that they give.
ghost use Rattle.std.specs.Prelude.{◌≡◌, filter, length, map, nat_eq, Bool, IfOk};
ghost use Rattle.std.specs.List.{find, list_all};
ghost use Rattle.std.specs.Option.{option_map};
ghost use Rattle.type_notes.specs.Conditions.{first_point, has_item_fields, holds_locals, is_locals, mislocated, regs_are_local};
ghost use Rattle.type_notes.specs.Conditions.{stack_is_local, unfielded, written_is_local};
ghost use Rattle.note_draft.specs.declared.draft.PointDraft.{PointDraft};
ghost use Rattle.type_notes.specs.PointLocals.{PointLocals, locals_of_function};
ghost use Rattle.type_notes.specs.Owners.{AreOwners};
ghost use Rattle.type_notes.specs.Locals.{field_set};
ghost use Rattle.type_notes.specs.Resolved.{left_out, register_type, resolved_item, resolved_point, state_of};
ghost use Rattle.type_notes.specs.TypeKinds.{has_fields};

use crate::conditions::locals_fields;
use crate::resolve::{field_set, resolve_item, resolve_type};
use crate::type_kinds::{are_fields, has_fields};
use note_draft::{Finding, Key, NameTables, NotesDraft, PointDraft, StackText, TableList};
use note_texts::{FieldText, ItemText, RegisterText};
use note_types::{CompactState, Items, NoMemory, Point, Points, State, Ty};
use std::alloc::Global;

/// What the points of a function may name: whether it has locals, and their fields.
#[derive(Clone, Copy)]
pub struct LocalsView<'a> {
    pub has_locals: bool,
    pub fields: &'a [FieldText],
}

/// What the points of the function of that number may name.
#[tactic(auto, unfolding(crate::specs::PointLocals::locals_of_function))]
pub fn locals_of_function<'a>(
    names: &NameTables,
    draft: &'a NotesDraft,
    number: usize,
) -> LocalsView<'a>
    ensures has_locals { result.has_locals ≡ (locals_of_function names.now draft.now number).has_locals }
    ensures fields { result.fields.now ≡ (locals_of_function names.now draft.now number).fields }
{
    match draft.function.as_slice().get(number) {
        Some(function) => LocalsView {
            has_locals: function.locals.is_some(),
            fields: locals_fields(names, draft, &function.locals),
        },
        None => LocalsView {
            has_locals: false,
            fields: &[],
        },
    }
}

// ---- the fields that a point names

fn has_item_fields(item: &ItemText, fields: &[FieldText]) -> bool
    ensures { result ≡ has_item_fields fields.now item.now }
{
    match item {
        ItemText::Slot { ty, .. } => has_fields(ty, fields),
        ItemText::Locals => true,
    }
}

fn regs_have_fields(point: &PointDraft, fields: &[FieldText]) -> bool
    ensures { result ≡ list_all (λ r. has_fields fields.now r.ty) point.now.regs }
{
    point
        .regs
        .as_slice()
        .iter()
        .all(|register| has_fields(&register.ty, fields))
}

fn stack_has_fields(point: &PointDraft, fields: &[FieldText]) -> bool
    ensures { result ≡ list_all (has_item_fields fields.now) point.now.stack }
{
    point
        .stack
        .as_slice()
        .iter()
        .all(|item| has_item_fields(item, fields))
}

// ---- the locals on a stack

fn is_locals(item: &ItemText) -> bool
    ensures { result ≡ is_locals item.now }
{
    matches!(item, ItemText::Locals)
}

fn locals_count(items: &[ItemText]) -> usize
    ensures { result ≡ length (filter is_locals items.now) }
{
    items.iter().filter(|item| is_locals(*item)).count()
}

// ---- registers

fn left_out(register: u8) -> Ty
    ensures { result ≡ left_out register }
{
    if 1 <= register && register <= 3 {
        Ty::Saved(register)
    } else {
        Ty::Any
    }
}

fn find_register(regs: &[RegisterText], register: u8) -> Option<&RegisterText>
    ensures { option_map (λ x. x.now) result ≡ find (λ x. nat_eq x.register register) regs.now }
{
    regs.iter().find(|given| given.register == register)
}

/// What a register holds at a point.
#[tactic(auto, unfolding(crate::specs::Resolved::register_type))]
fn register_type(
    names: &NameTables,
    fields: &[FieldText],
    regs: &[RegisterText],
    register: u8,
) -> Ty
    ensures { result ≡ register_type names.now fields.now regs.now register }
{
    match find_register(regs, register) {
        Some(given) => resolve_type(names, fields, &given.ty),
        None => left_out(register),
    }
}

// ---- checks of all points

/// A condition on a point and on what it may name.
pub trait PointCheck {
    /// Whether the point meets it.
    ghost passes: { PointLocals → PointDraft → Bool };

    /// Whether the point meets it.
    fn passes(locals: LocalsView, point: &PointDraft) -> bool
        ensures { result ≡ passes (record { has_locals = locals.entry.has_locals; fields = locals.entry.fields.now }) point.now };
}

/// What the registers name are fields of the function's locals.
pub struct RegsNameLocals;

impl PointCheck for RegsNameLocals {
    ghost passes = { regs_are_local };

    fn passes(locals: LocalsView, point: &PointDraft) -> bool {
        regs_have_fields(point, locals.fields)
    }
}

/// What the stack names are fields of the function's locals.
pub struct StackNamesLocals;

impl PointCheck for StackNamesLocals {
    ghost passes = { stack_is_local };

    fn passes(locals: LocalsView, point: &PointDraft) -> bool {
        stack_has_fields(point, locals.fields)
    }
}

/// What is written are fields of the function's locals.
pub struct WrittenNamesLocals;

impl PointCheck for WrittenNamesLocals {
    ghost passes = { written_is_local };

    fn passes(locals: LocalsView, point: &PointDraft) -> bool {
        are_fields(&point.written, locals.fields)
    }
}

/// The stack holds the locals at most once, and only where the function has them.
pub struct HoldsLocals;

impl PointCheck for HoldsLocals {
    ghost passes = { holds_locals };

    fn passes(locals: LocalsView, point: &PointDraft) -> bool {
        let allowed = if locals.has_locals { 1 } else { 0 };
        locals_count(point.stack.as_slice()) <= allowed
    }
}

/// The first point at which a condition fails. The owner of a point is the number of its function.
pub fn first_point<C: PointCheck>(
    names: &NameTables,
    draft: &NotesDraft,
    owners: &[usize],
) -> Option<usize>
    requires { AreOwners draft.now.function draft.now.point owners.now }
    ensures { result ≡ first_point names.now draft.now C.passes }
{
    let points = draft.point.as_slice();
    for item in 0..points.len() {
        let locals = locals_of_function(names, draft, owners[item]);
        if !C::passes(locals, &points[item]) {
            return Some(item);
        }
    }
    None
}

/// The first key of a point that names a field which its function's locals don't have.
pub fn unfielded(names: &NameTables, draft: &NotesDraft, owners: &[usize]) -> Option<Finding>
    requires { AreOwners draft.now.function draft.now.point owners.now }
    ensures { result ≡ unfielded names.now draft.now }
{
    let regs = first_point::<RegsNameLocals>(names, draft, owners);
    let stack = first_point::<StackNamesLocals>(names, draft, owners);
    let written = first_point::<WrittenNamesLocals>(names, draft, owners);
    Finding::sooner(
        Finding::at(TableList::Point, Key::Regs, regs),
        Finding::sooner(
            Finding::at(TableList::Point, Key::Stack, stack),
            Finding::at(TableList::Point, Key::Written, written),
        ),
    )
}

/// The first point whose stack holds the locals twice, or holds those of a function that has none.
pub fn mislocated(names: &NameTables, draft: &NotesDraft, owners: &[usize]) -> Option<Finding>
    requires { AreOwners draft.now.function draft.now.point owners.now }
    ensures { result ≡ mislocated names.now draft.now }
{
    let stack = first_point::<HoldsLocals>(names, draft, owners);
    Finding::at(TableList::Point, Key::Stack, stack)
}

// ---- states

#[tactic(auto, unfolding(crate::specs::Resolved::state_of))]
fn state_of(names: &NameTables, fields: &[FieldText], point: &PointDraft) -> State
    ensures { result ≡ state_of names.now fields.now point.now }
{
    let regs = point.regs.as_slice();
    State {
        regs: [
            Ty::Any,
            register_type(names, fields, regs, 1),
            register_type(names, fields, regs, 2),
            register_type(names, fields, regs, 3),
            register_type(names, fields, regs, 4),
            register_type(names, fields, regs, 5),
            register_type(names, fields, regs, 6),
            register_type(names, fields, regs, 7),
        ],
        items: items_of(names, fields, &point.stack),
        written: field_set(fields, &point.written),
        made: point.made,
        fact: None,
    }
}

fn items_of(names: &NameTables, fields: &[FieldText], stack: &StackText) -> Items
    ensures { result ≡ map (resolved_item names.now fields.now) stack.now }
{
    let texts = stack.as_slice();
    let mut items = Items::new();
    for text in texts {
        items.push_below(resolve_item(names, fields, text));
    }
    items
}

/// The points with the states that they give. The owner of a point is the number of its function.
///
/// # Errors
///
/// There was no memory.
pub fn resolve_points(
    alloc: Global,
    names: &NameTables,
    draft: &NotesDraft,
    owners: &[usize],
) -> Result<Points, NoMemory>
    requires { AreOwners draft.now.function draft.now.point owners.now }
    ensures { IfOk result (λ points. points ≡ map (resolved_point names.now draft.now) draft.now.point) }
{
    let drafts = draft.point.as_slice();
    let mut points = Vec::new(alloc);
    for item in 0..drafts.len() {
        let locals = locals_of_function(names, draft, owners[item]);
        let point = &drafts[item];
        points.push(Point {
            place: point.place,
            state: CompactState::new(alloc, &state_of(names, locals.fields, point))?,
        })?;
    }
    Ok(Points::new(points))
}

//! The places that an operand in memory names.

ghost use Rattle.std.specs.Prelude.{◌≡◌, ◌<◌, ◌^◌, pos, ◌+ℤ◌, option_copied};
ghost use Rattle.rules_base.specs.Places.{
  begins_at,
  cell_of,
  field_place,
  from_stack,
  has_field,
  instance_field,
  is_nowhere,
  local_at,
  local_field,
  locals_size,
  only_field,
  parameter_at,
  place_at,
  pointed,
  slot_size,
  stack_at,
  with_field,
  field_number_at,
};
ghost use Rattle.note_types.specs.Known.{locals_of, local_fields};

use crate::operand::Distance;
use note_types::{Cell, Field, FnNote, Item, Notes, Pair, Param, Shape, SlotKind, State, Ty};

/// A place that an operand in memory names.
#[derive(Clone, Copy, PartialEq, Eq)]
pub enum Place {
    /// A cell of a typed object or, as of one that is not null, a caller's written local.
    Object { cell: Cell, null: bool },
    /// A field of the function's locals.
    Local { field: u32, cell: Cell },
    /// A parameter of the function.
    Parameter { kind: SlotKind, ty: Ty },
    /// A thunk cell.
    ThunkCell(u32),
}

// ---- sets of local fields

/// Whether a set has a field.
pub fn has_field(set: u64, field: u32) -> bool
    ensures { result ≡ has_field set field }
{
    field < 64 && (set >> field) % 2 == 1
}

/// The set of one field.
pub fn only_field(field: u32) -> u64
    ensures { result ≡ only_field field }
{
    if field < 64 { 1 << field } else { 0 }
}

/// A set with one more field.
pub fn with_field(set: u64, field: u32) -> u64
    ensures { result ≡ with_field set field }
{
    set | only_field(field)
}

// ---- sizes

/// What a slot takes of the stack.
pub fn slot_size(kind: SlotKind) -> Pair
    ensures { result ≡ slot_size kind }
{
    match kind {
        SlotKind::N => Pair { n: 1, c: 0 },
        SlotKind::Q => Pair { n: 0, c: 8 },
        SlotKind::D => Pair { n: 0, c: 4 },
    }
}

// The shape of a function's locals.
fn locals_of<'a>(notes: &'a Notes, f: &FnNote) -> Option<&'a Shape>
    ensures { option_copied result ≡ locals_of notes.now f.now }
{
    notes.shape.as_slice().get(f.locals? as usize)
}

/// The fields of a function's locals.
#[tactic(auto, unfolding(note_types::specs::Known::local_fields))]
pub fn local_fields<'a>(notes: &'a Notes, f: &FnNote) -> &'a [Field]
    ensures { result.now ≡ local_fields notes.now f.now }
{
    match locals_of(notes, f) {
        Some(s) => s.fields.as_slice(),
        None => &[],
    }
}

// The size of a shape of so many natural units and bytes.
fn shape_size(n: u32, c: u32) -> Pair
    ensures size { result ≡ record { n = n; c = c } }
    ensures units { result.n < 2 ^ 32 }
    ensures bytes { result.c < 2 ^ 32 }
{
    Pair {
        n: u64::from(n),
        c: u64::from(c),
    }
}

/// What a function's locals take of the stack.
#[tactic(auto, unfolding(crate::specs::Places::locals_size))]
pub fn locals_size(notes: &Notes, f: &FnNote) -> Pair
    ensures size { result ≡ locals_size notes.now f.now }
    ensures units { result.n < 2 ^ 32 }
    ensures bytes { result.c < 2 ^ 32 }
{
    match locals_of(notes, f) {
        Some(s) => shape_size(s.n, s.c),
        None => Pair { n: 0, c: 0 },
    }
}

// ---- fields

// Natural units and bytes that a field may begin at.
#[derive(Clone, Copy)]
pub struct Reach {
    pub n: i128,
    pub c: i128,
}

fn begins_at(x: &Field, at: Reach) -> bool
    ensures { result ≡ begins_at at x.now }
{
    i128::from(x.n) == at.n && i128::from(x.c) == at.c
}

// The number of the field at a pair.
#[tactic(auto, unfolding(crate::specs::Places::field_number_at))]
fn field_number_at(fields: &[Field], at: Reach) -> Option<usize>
    ensures { result ≡ field_number_at fields.now at }
{
    fields.iter().position(|x| begins_at(x, at))
}

/// The cell of a field.
#[tactic(auto, unfolding(crate::specs::Places::cell_of))]
pub fn cell_of(fields: &[Field], field: usize) -> Option<Cell>
    ensures { result ≡ cell_of fields.now field }
{
    let x = fields.get(field)?;
    Some(x.cell)
}

// A local field, of which there are at most 64.
fn local_field(fields: &[Field], field: usize) -> Option<Place>
    ensures { result ≡ local_field fields.now field }
{
    let cell = cell_of(fields, field)?;
    if field < 64 {
        Some(Place::Local {
            field: field as u32,
            cell,
        })
    } else {
        None
    }
}

// A number of 64 bits as a signed one.
fn whole(n: u64) -> i128
    ensures { result ≡ pos n }
{
    i128::from(n)
}

// The local field at a pair.
fn local_at(fields: &[Field], n: u64, c: u64) -> Option<Place>
    ensures { result ≡ local_at fields.now n c }
{
    let at = Reach {
        n: whole(n),
        c: whole(c),
    };
    let field = field_number_at(fields, at)?;
    local_field(fields, field)
}

// ---- the stack

// The parameter at a pair above the return cell.
#[tactic(auto, unfolding(crate::specs::Places::parameter_at))]
fn parameter_at(params: &[Param], n: u64, c: u64) -> Option<Place>
    ensures { result ≡ parameter_at params.now n c }
{
    match params {
        [] => None,
        [p, rest @ ..] => {
            let size = slot_size(p.kind);
            if n == 0 && c == 0 {
                Some(Place::Parameter {
                    kind: p.kind,
                    ty: p.ty,
                })
            } else if size.n <= n && size.c <= c {
                parameter_at(rest, n - size.n, c - size.c)
            } else {
                None
            }
        }
    }
}

// What lies at a pair above the top of the stack: a local field, or past all items and the return cell of 16 bytes a
// parameter.
#[tactic(auto, unfolding(crate::specs::Places::stack_at))]
fn stack_at(
    fields: &[Field],
    locals: Pair,
    params: &[Param],
    items: &[Item],
    n: u64,
    c: u64,
) -> Option<Place>
    ensures { result ≡ stack_at fields.now locals params.now items.now n c }
{
    match items {
        [] => if 16 <= c {
            parameter_at(params, n, c - 16)
        } else {
            None
        },
        [item, rest @ ..] => {
            let size = match item {
                Item::Slot { kind, .. } => slot_size(*kind),
                Item::Locals => {
                    if let Some(place) = local_at(fields, n, c) {
                        return Some(place);
                    }
                    locals
                }
            };
            if size.n <= n && size.c <= c {
                stack_at(fields, locals, params, rest, n - size.n, c - size.c)
            } else {
                None
            }
        }
    }
}

// What lies at a distance from R0.
fn from_stack(
    fields: &[Field],
    locals: Pair,
    params: &[Param],
    items: &[Item],
    d: Distance,
) -> Option<Place>
    ensures { result ≡ from_stack fields.now locals params.now items.now d }
{
    if 0 <= d.n && 0 <= d.c {
        stack_at(
            fields,
            locals,
            params,
            items,
            d.n.unsigned_abs(),
            d.c.unsigned_abs(),
        )
    } else {
        None
    }
}

// ---- the place that a register and a distance name

// The field of an instance of a shape at a pair.
fn instance_field(shapes: &[Shape], shape: u32, at: Reach, null: bool) -> Option<Place>
    ensures { result ≡ instance_field shapes.now shape at null }
{
    let s = shapes.get(shape as usize)?;
    field_place(s, at, null)
}

// The cell of an object of a shape at a pair.
#[tactic(auto, unfolding(crate::specs::Places::field_place))]
fn field_place(s: &Shape, at: Reach, null: bool) -> Option<Place>
    ensures { result ≡ field_place s.now at null }
{
    let fields = s.fields.as_slice();
    let field = field_number_at(fields, at)?;
    let cell = cell_of(fields, field)?;
    Some(Place::Object { cell, null })
}

// The sum of a number of 32 bits and one of 64.
fn along(n: i32, more: i64) -> i128
    ensures { result ≡ n +ℤ more }
{
    i128::from(n) + i128::from(more)
}

fn is_nowhere(d: Distance) -> bool
    ensures { result ≡ is_nowhere d }
{
    d.n == 0 && d.c == 0
}

// What a pointer and a distance name.
fn pointed(notes: &Notes, f: &FnNote, t: Ty, d: Distance) -> Option<Place>
    ensures { result ≡ pointed notes.now f.now t d }
{
    match t {
        Ty::Ptr {
            shape,
            n,
            c,
            null,
            ..
        } => instance_field(
            notes.shape.as_slice(),
            shape,
            Reach {
                n: along(n, d.n),
                c: along(c, d.c),
            },
            null,
        ),
        Ty::Local(field) => if is_nowhere(d) {
            local_field(local_fields(notes, f), field as usize)
        } else {
            None
        },
        Ty::Lent(cell) => if is_nowhere(d) {
            Some(Place::Object { cell, null: false })
        } else {
            None
        },
        Ty::ThunkAt(thunk) => if is_nowhere(d) {
            Some(Place::ThunkCell(thunk))
        } else {
            None
        },
        _ => None,
    }
}

/// The place that a register and a distance name.
#[tactic(auto, unfolding(crate::specs::Places::place_at))]
pub fn place_at(notes: &Notes, f: &FnNote, s: &State, reg: u8, d: Distance) -> Option<Place>
    requires { reg < 8 }
    ensures { result ≡ place_at notes.now f.now s.now reg d }
{
    if reg == 0 {
        from_stack(
            local_fields(notes, f),
            locals_size(notes, f),
            f.params.as_slice(),
            s.items.as_slice(),
            d,
        )
    } else {
        pointed(notes, f, s.regs[reg as usize], d)
    }
}

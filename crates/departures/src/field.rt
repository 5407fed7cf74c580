//! Fields of the objects that native calls hand out.

ghost use Rattle.std.specs.Prelude.{◌≡◌, ◌<◌, ◌+ℤ◌, option_copied};
ghost use Rattle.ebc_insn.specs.Spelling.{ExtraFits, IsOperand, WellFormed};
ghost use Rattle.rules_base.specs.Operands.{extra_distance};
ghost use Rattle.departures.specs.Fields.{allocates, field_past, gives, hands_out, has_leaver, is_allocated, is_allocator, is_foreign};
ghost use Rattle.departures.specs.Fields.{is_handed_out, is_leaver, is_same_field, leaves, loaded_field, named_field, natural_cell};
ghost use Rattle.departures.specs.Fields.{operand_field, points_to, stored_field};

use ebc_base::Name;
use ebc_insn::{Extra, Insn, Operand};
use note_types::{Cell, FnNote, Notes, Signature, State, Ty, Want, WantParam};
use rules_base::{Distance, Place, extra_distance, index_distance, left_distance, place_at};

/// A field of the objects of a shape, by where it begins.
#[derive(Clone, Copy)]
pub struct ObjectField {
    pub shape: u32,
    /// Natural units.
    pub n: i128,
    /// Bytes.
    pub c: i128,
    /// Whether its cell is a natural number.
    pub natural: bool,
}

// ---- objects that native calls hand out

// Whether a cell holds the address of an object of a shape.
fn points_to(shape: u32, cell: Cell) -> bool
    ensures { result ≡ points_to shape cell }
{
    match cell {
        Cell::Ptr { shape: s, .. } | Cell::P64 { shape: s, .. } => s == shape,
        _ => false,
    }
}

// Whether a method leaves such an address where its argument says.
fn leaves(shape: u32, want: Want) -> bool
    ensures { result ≡ leaves shape want }
{
    match want {
        Want::Out(cell) | Want::Inout(cell) => points_to(shape, cell),
        _ => false,
    }
}

fn is_leaver(shape: u32, param: &WantParam) -> bool
    ensures { result ≡ is_leaver shape param.now }
{
    leaves(shape, param.want)
}

// Whether its result is such an address.
fn gives(shape: u32, given: &Option<Ty>) -> bool
    ensures { result ≡ gives shape given.now }
{
    match given {
        Some(Ty::Ptr { shape: s, .. }) => *s == shape,
        _ => false,
    }
}

fn has_leaver(shape: u32, params: &[WantParam]) -> bool
    ensures { result ≡ has_leaver shape params.now }
{
    params.iter().any(|p| is_leaver(shape, p))
}

// Whether a method that is called so hands out an object of a shape.
fn hands_out(shape: u32, x: &Signature) -> bool
    ensures { result ≡ hands_out shape x.now }
{
    has_leaver(shape, x.params.as_slice()) || gives(shape, &x.result)
}

// Whether some signature of the notes does.
#[tactic(auto, unfolding(crate::specs::Fields::is_handed_out))]
fn is_handed_out(notes: &Notes, shape: u32) -> bool
    ensures { result ≡ is_handed_out notes.now shape }
{
    notes
        .signature
        .as_slice()
        .iter()
        .any(|x| hands_out(shape, x))
}

// Whether a method is AllocatePool or AllocatePages.
fn is_allocator(name: Option<&Name>) -> bool
    ensures { result ≡ is_allocator (option_copied name.entry) }
{
    match name {
        Some(name) => name.as_str() == "AllocatePool" || name.as_str() == "AllocatePages",
        None => false,
    }
}

// Whether a method that is called so allocates an object of a shape.
fn allocates(notes: &Notes, shape: u32, x: &Signature) -> bool
    ensures { result ≡ allocates notes.now shape x.now }
{
    hands_out(shape, x) && is_allocator(notes.methods.as_slice().get(x.method as usize))
}

// Whether some signature of the notes does.
#[tactic(auto, unfolding(crate::specs::Fields::is_allocated))]
fn is_allocated(notes: &Notes, shape: u32) -> bool
    ensures { result ≡ is_allocated notes.now shape }
{
    notes
        .signature
        .as_slice()
        .iter()
        .any(|x| allocates(notes, shape, x))
}

// ---- the fields that an instruction reaches

// Whether a cell of an object is a natural number, where it is no method.
fn natural_cell(place: &Option<Place>) -> Option<bool>
    ensures { result ≡ natural_cell place.now }
{
    match place {
        Some(Place::Object { cell, .. }) => match cell {
            Cell::N => Some(true),
            Cell::Method(_) => None,
            _ => Some(false),
        },
        _ => None,
    }
}

// The sum of a number of 32 bits and one of 64.
fn along(n: i32, more: i64) -> i128
    ensures { result ≡ n +ℤ more }
{
    i128::from(n) + i128::from(more)
}

// Where a pointer and a distance reach such a cell.
fn field_past(natural: Option<bool>, t: &Ty, d: Distance) -> Option<ObjectField>
    ensures { result ≡ field_past natural t.now d }
{
    match (natural, t) {
        (Some(natural), Ty::Ptr { shape, n, c, .. }) => Some(ObjectField {
            shape: *shape,
            n: along(*n, d.n),
            c: along(*c, d.c),
            natural,
        }),
        _ => None,
    }
}

// The field of an object that a register and a distance name.
#[tactic(auto, unfolding(crate::specs::Fields::named_field))]
fn named_field(notes: &Notes, f: &FnNote, s: &State, reg: u8, d: Distance) -> Option<ObjectField>
    requires { reg < 8 }
    ensures { result ≡ named_field notes.now f.now s.now reg d }
{
    let natural = natural_cell(&place_at(notes, f, s, reg, d));
    field_past(natural, &s.regs[reg as usize], d)
}

// The one that an operand in memory names.
fn operand_field(
    notes: &Notes,
    f: &FnNote,
    s: &State,
    op: &Operand,
    d: Distance,
) -> Option<ObjectField>
    requires { IsOperand op.now }
    ensures { result ≡ operand_field notes.now f.now s.now op.now d }
{
    if op.indirect {
        named_field(notes, f, s, op.reg, d)
    } else {
        None
    }
}

// The same of an operand with what stands beside it.
fn extra_field(
    notes: &Notes,
    f: &FnNote,
    s: &State,
    op: &Operand,
    extra: &Extra,
) -> Option<ObjectField>
    requires op { IsOperand op.now }
    requires extra { ExtraFits 16 op.now extra.now }
    ensures { result ≡ operand_field notes.now f.now s.now op.now (extra_distance extra.now) }
{
    operand_field(notes, f, s, op, extra_distance(16, op, extra))
}

/// The field of an object that an instruction loads, other than one that it also stores into.
pub fn loaded_field(notes: &Notes, f: &FnNote, s: &State, insn: &Insn) -> Option<ObjectField>
    requires { WellFormed insn.now }
    ensures { result ≡ loaded_field notes.now f.now s.now insn.now }
{
    match insn {
        Insn::Move {
            bits,
            right,
            ridx,
            ..
        } => operand_field(notes, f, s, right, index_distance(*bits, ridx)),
        Insn::MoveSigned {
            bits,
            right,
            extra,
            ..
        } => operand_field(notes, f, s, right, extra_distance(*bits, right, extra)),
        Insn::CompareImm { left, idx, .. } => {
            operand_field(notes, f, s, left, left_distance(16, left, idx))
        }
        Insn::Compare { right, extra, .. } | Insn::Arith { right, extra, .. } => {
            extra_field(notes, f, s, right, extra)
        }
        Insn::Push { op, extra, .. } | Insn::PushNatural { op, extra } => {
            extra_field(notes, f, s, op, extra)
        }
        _ => None,
    }
}

/// The field of an object that an instruction stores into.
pub fn stored_field(notes: &Notes, f: &FnNote, s: &State, insn: &Insn) -> Option<ObjectField>
    requires { WellFormed insn.now }
    ensures { result ≡ stored_field notes.now f.now s.now insn.now }
{
    match insn {
        Insn::Move {
            bits,
            left,
            lidx,
            ..
        } => operand_field(notes, f, s, left, left_distance(*bits, left, lidx)),
        Insn::MoveImm { left, lidx, .. }
        | Insn::MoveImmNatural { left, lidx, .. }
        | Insn::MoveRelative { left, lidx, .. } => {
            operand_field(notes, f, s, left, left_distance(16, left, lidx))
        }
        Insn::Arith { left, .. } => operand_field(notes, f, s, left, Distance { n: 0, c: 0 }),
        Insn::Pop { op, extra, .. } | Insn::PopNatural { op, extra } => {
            extra_field(notes, f, s, op, extra)
        }
        _ => None,
    }
}

/// Whether its value may be none of its cell, unless an instruction of the image stores into it: a natural number of an object that a
/// native call hands out, which may have 64 bits until it is cut, or anything else of one that is allocated.
pub fn is_foreign(notes: &Notes, field: &Option<ObjectField>, cut: bool) -> bool
    ensures { result ≡ is_foreign notes.now field.now cut }
{
    match field {
        Some(x) => if x.natural {
            !cut && is_handed_out(notes, x.shape)
        } else {
            is_allocated(notes, x.shape)
        },
        None => false,
    }
}

/// Whether two fields are one.
pub fn is_same_field(x: &ObjectField, y: &ObjectField) -> bool
    ensures { result ≡ is_same_field x.now y.now }
{
    x.shape == y.shape && x.n == y.n && x.c == y.c && x.natural == y.natural
}

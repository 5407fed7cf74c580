//! How a cell is accessed, and what a load gives and a store needs.

ghost use Rattle.std.specs.Prelude.{◌≡◌, ◌<◌, true};
ghost use Rattle.rules_base.specs.Access.{load_at, load_place, loaded_type, loads, local_load, local_target, object_load, object_target};
ghost use Rattle.rules_base.specs.Access.{parameter_load, stores, takes, target_at, target_place, thunk_load};

use crate::operand::Distance;
use crate::parts::is_int;
use crate::place::{Place, has_field, place_at};
use note_types::{Cell, FnNote, Notes, RuleName, SlotKind, State, Ty, content_type, ty_below};

/// How an instruction reaches memory.
#[derive(Clone, Copy, PartialEq, Eq)]
pub enum Access {
    /// By MOVb.
    Byte,
    /// By MOVw.
    Word,
    /// By MOVd, or by a form of 32 bits.
    Dword,
    /// By MOVq or MOVqq.
    Qword,
    /// By a form of 64 bits.
    Form64,
    /// By MOVn.
    Natural,
    /// By MOVsn.
    Signed,
}

/// What a load gives: its type, which is known also where it is a thunk that isn't made.
#[derive(Clone, Copy, PartialEq, Eq)]
pub struct Loaded {
    pub ty: Ty,
    pub made: bool,
}

/// The cell that a store writes, and the number of the local field that it is, where it is one.
#[derive(Clone, Copy, PartialEq, Eq)]
pub struct Target {
    pub cell: Cell,
    pub field: Option<u32>,
}

// ---- cells

fn loads(access: Access, cell: Cell) -> bool
    ensures { result ≡ loads access cell }
{
    match access {
        Access::Byte => matches!(cell, Cell::I8),
        Access::Word => matches!(cell, Cell::I16),
        Access::Dword => matches!(cell, Cell::I32),
        Access::Qword | Access::Form64 => matches!(cell, Cell::I64 | Cell::P64 { .. }),
        Access::Natural => matches!(
            cell,
            Cell::N | Cell::Stat | Cell::Handle | Cell::Entry | Cell::Ptr { .. } | Cell::Method(_)
        ),
        Access::Signed => matches!(cell, Cell::Stat),
    }
}

fn loaded_type(access: Access, cell: Cell) -> Ty
    ensures { result ≡ loaded_type access cell }
{
    match (access, cell) {
        (Access::Signed, Cell::Stat) => Ty::SignedStatus(0),
        _ => content_type(&cell),
    }
}

fn stores(access: Access, cell: Cell) -> bool
    ensures { result ≡ stores access cell }
{
    match (access, cell) {
        (Access::Signed, _) => false,
        (_, Cell::Method(_)) => false,
        _ => loads(access, cell),
    }
}

/// Whether a cell takes a value of a type.
pub fn takes(cell: Cell, t: Ty) -> bool
    ensures { result ≡ takes cell t }
{
    match cell {
        Cell::I8 | Cell::I16 | Cell::I32 | Cell::I64 => is_int(t),
        _ => ty_below(&t, &content_type(&cell)),
    }
}

// ---- loads

fn known(ty: Ty) -> Loaded
    ensures { result ≡ record { ty = ty; made = true } }
{
    Loaded { ty, made: true }
}

fn object_load(access: Access, cell: Cell, null: bool) -> Result<Loaded, RuleName>
    ensures { result ≡ object_load access cell null }
{
    if !loads(access, cell) {
        Err(RuleName::Address)
    } else if null {
        Err(RuleName::Null)
    } else {
        Ok(known(loaded_type(access, cell)))
    }
}

fn local_load(access: Access, cell: Cell, written: bool) -> Result<Loaded, RuleName>
    ensures { result ≡ local_load access cell written }
{
    if !loads(access, cell) {
        Err(RuleName::Address)
    } else if written {
        Ok(known(loaded_type(access, cell)))
    } else {
        Err(RuleName::Unwritten)
    }
}

fn parameter_load(access: Access, kind: SlotKind, t: Ty) -> Result<Loaded, RuleName>
    ensures { result ≡ parameter_load access kind t }
{
    match (access, kind, t) {
        (Access::Natural, SlotKind::N, _) => Ok(known(t)),
        (Access::Qword, SlotKind::Q, _) => Ok(known(t)),
        (Access::Signed, SlotKind::N | SlotKind::Q, Ty::Status(_)) => {
            Ok(known(Ty::SignedStatus(0)))
        }
        _ => Err(RuleName::Address),
    }
}

fn thunk_load(access: Access, made: bool) -> Result<Loaded, RuleName>
    ensures { result ≡ thunk_load access made }
{
    match access {
        Access::Natural => Ok(Loaded {
            ty: Ty::Entry,
            made,
        }),
        _ => Err(RuleName::Address),
    }
}

fn load_place(s: &State, access: Access, place: Place) -> Result<Loaded, RuleName>
    ensures { result ≡ load_place s.now access place }
{
    match place {
        Place::Object { cell, null } => object_load(access, cell, null),
        Place::Local { field, cell } => local_load(access, cell, has_field(s.written, field)),
        Place::Parameter { kind, ty } => parameter_load(access, kind, ty),
        Place::ThunkCell(thunk) => thunk_load(access, thunk < s.made),
    }
}

/// What a load at a register and a distance gives.
#[tactic(auto, unfolding(crate::specs::Access::load_at))]
pub fn load_at(
    notes: &Notes,
    f: &FnNote,
    s: &State,
    access: Access,
    reg: u8,
    d: Distance,
) -> Result<Loaded, RuleName>
    requires { reg < 8 }
    ensures { result ≡ load_at notes.now f.now s.now access reg d }
{
    let place = place_at(notes, f, s, reg, d).ok_or(RuleName::Address)?;
    load_place(s, access, place)
}

// ---- stores

fn object_target(access: Access, cell: Cell, null: bool) -> Result<Target, RuleName>
    ensures { result ≡ object_target access cell null }
{
    if !stores(access, cell) {
        Err(RuleName::Address)
    } else if null {
        Err(RuleName::Null)
    } else {
        Ok(Target { cell, field: None })
    }
}

fn local_target(access: Access, field: u32, cell: Cell) -> Result<Target, RuleName>
    ensures { result ≡ local_target access field cell }
{
    if stores(access, cell) {
        Ok(Target {
            cell,
            field: Some(field),
        })
    } else {
        Err(RuleName::Address)
    }
}

fn target_place(access: Access, place: Place) -> Result<Target, RuleName>
    ensures { result ≡ target_place access place }
{
    match place {
        Place::Object { cell, null } => object_target(access, cell, null),
        Place::Local { field, cell } => local_target(access, field, cell),
        Place::Parameter { .. } | Place::ThunkCell(_) => Err(RuleName::Address),
    }
}

/// What a store at a register and a distance writes.
#[tactic(auto, unfolding(crate::specs::Access::target_at))]
pub fn target_at(
    notes: &Notes,
    f: &FnNote,
    s: &State,
    access: Access,
    reg: u8,
    d: Distance,
) -> Result<Target, RuleName>
    requires { reg < 8 }
    ensures { result ≡ target_at notes.now f.now s.now access reg d }
{
    let place = place_at(notes, f, s, reg, d).ok_or(RuleName::Address)?;
    target_place(access, place)
}

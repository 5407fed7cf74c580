//! Which types notes allow where.
ghost use Rattle.std.specs.Prelude.{◌≡◌};
ghost use Rattle.std.specs.List.{list_all};
ghost use Rattle.type_notes.specs.TypeKinds.{has_fields, has_thunk, is_handed_back, is_bare, is_handed_in, is_kept, is_kept_want};
ghost use Rattle.type_notes.specs.TypeKinds.{is_narrow, is_not_negative, is_passed, is_returned};
ghost use Rattle.type_notes.specs.Locals.{is_field};
ghost use Rattle.note_types.specs.Types.{is_start};

use note_texts::{FieldText, TypeText, WantText};
use note_types::{Name, Names};

/// Whether a number is below 2^32.
pub fn is_narrow(hi: u64) -> bool
    ensures { result ≡ is_narrow hi }
{
    hi < 0x1_0000_0000
}

fn is_start(n: i32, c: i32) -> bool
    ensures { result ≡ is_start n c }
{
    n == 0 && c == 0
}

fn is_not_negative(c: i32) -> bool
    ensures { result ≡ is_not_negative c }
{
    c >= 0
}

/// Whether a move of natural size keeps the type; `any` counts as kept.
pub fn is_kept(ty: &TypeText) -> bool
    ensures { result ≡ is_kept ty.now }
{
    match ty {
        TypeText::Int { hi, .. } => is_narrow(*hi),
        TypeText::Lin { c, .. } => is_not_negative(*c),
        TypeText::Ptr { n, c, .. } => is_start(*n, *c),
        TypeText::SignedStatus(_) | TypeText::Saved(_) => false,
        _ => true,
    }
}

/// Whether a move of natural size keeps what a native method takes.
pub fn is_kept_want(want: &WantText) -> bool
    ensures { result ≡ is_kept_want want.now }
{
    match want {
        WantText::Int { hi, .. } => is_narrow(*hi),
        _ => true,
    }
}

/// Whether the firmware may hand the type to a function that it enters.
pub fn is_handed_in(ty: &TypeText) -> bool
    ensures { result ≡ is_handed_in ty.now }
{
    match ty {
        TypeText::Any | TypeText::Handle | TypeText::Status(_) => true,
        TypeText::Int { hi, .. } => is_narrow(*hi),
        TypeText::Ptr { n, c, .. } => is_start(*n, *c),
        _ => false,
    }
}

/// Whether a function that the firmware enters may give the type back.
pub fn is_handed_back(ty: &TypeText) -> bool
    ensures { result ≡ is_handed_back ty.now }
{
    match ty {
        TypeText::Any | TypeText::Status(_) => true,
        TypeText::Int { hi, .. } => is_narrow(*hi),
        _ => false,
    }
}

fn is_bare(grants: &Names) -> bool
    ensures { result ≡ is_bare grants.now }
{
    grants.is_empty()
}

/// Whether a parameter may have the type: it says nothing of the caller's own frame.
pub fn is_passed(ty: &TypeText) -> bool
    ensures { result ≡ is_passed ty.now }
{
    match ty {
        TypeText::Local(_) | TypeText::Saved(_) => false,
        TypeText::Status(grants) | TypeText::SignedStatus(grants) => is_bare(grants),
        _ => true,
    }
}

/// Whether a result may have the type: it says nothing of a frame or of a thunk cell.
pub fn is_returned(ty: &TypeText) -> bool
    ensures { result ≡ is_returned ty.now }
{
    match ty {
        TypeText::Lent(_) | TypeText::ThunkAt(_) => false,
        _ => is_passed(ty),
    }
}

/// Whether a name is that of one of the fields.
pub fn is_field(name: &Name, fields: &[FieldText]) -> bool
    ensures { result ≡ is_field fields.now name.now }
{
    fields.iter().any(|field| field.name == *name)
}

/// Whether all names are those of fields.
pub fn are_fields(names: &Names, fields: &[FieldText]) -> bool
    ensures { result ≡ list_all (is_field fields.now) names.now }
{
    names.as_slice().iter().all(|name| is_field(name, fields))
}

/// Whether the local fields that the type names are among these.
pub fn has_fields(ty: &TypeText, fields: &[FieldText]) -> bool
    ensures { result ≡ has_fields fields.now ty.now }
{
    match ty {
        TypeText::Local(name) => is_field(name, fields),
        TypeText::Status(grants) | TypeText::SignedStatus(grants) => are_fields(grants, fields),
        _ => true,
    }
}

/// Whether the thunk that the type names is one of so many.
pub fn has_thunk(ty: &TypeText, thunks: usize) -> bool
    ensures { result ≡ has_thunk thunks ty.now }
{
    match ty {
        TypeText::ThunkAt(number) => (*number as usize) < thunks,
        _ => true,
    }
}

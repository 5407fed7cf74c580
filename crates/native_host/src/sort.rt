//! What numbers are read as.
ghost use Rattle.std.specs.Prelude.{◌≡◌};
ghost use Rattle.host_model.specs.Readings.{sort_of_cell, sort_of_type};
ghost use Rattle.native_host.specs.Sorts.{sort_of};

use note_types::{Cell, Ty};

/// A sort of numbers, as far as reading goes (docs/HOST.md, "Readings").
#[derive(Clone, Copy)]
pub(crate) enum Sort {
    Anything,
    Number,
    Size { n: u32, c: u32 },
    Pointer,
    Handle,
    Entry,
    Status,
    Method,
}

// What the content of a cell is read as.
pub(crate) fn sort_of_cell(cell: &Cell) -> Sort
    ensures { sort_of result ≡ sort_of_cell cell.now }
{
    match cell {
        Cell::I8 | Cell::I16 | Cell::I32 | Cell::I64 | Cell::N => Sort::Number,
        Cell::Stat => Sort::Status,
        Cell::Handle => Sort::Handle,
        Cell::Entry => Sort::Entry,
        Cell::Ptr { .. } | Cell::P64 { .. } => Sort::Pointer,
        Cell::Method(_) => Sort::Method,
    }
}

// What a function's result of a type is read as.
pub(crate) fn sort_of_type(ty: &Ty) -> Sort
    ensures { sort_of result ≡ sort_of_type ty.now }
{
    match ty {
        Ty::Int { .. } => Sort::Number,
        Ty::Ptr { .. } => Sort::Pointer,
        Ty::Status(_) => Sort::Status,
        Ty::Handle => Sort::Handle,
        Ty::Entry => Sort::Entry,
        Ty::Method(_) => Sort::Method,
        _ => Sort::Anything,
    }
}

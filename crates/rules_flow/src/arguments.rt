//! The arguments of a call.

ghost use Rattle.std.specs.Ordering.{int_eq};
ghost use Rattle.std.specs.Prelude.{◌≡◌, ◌&&◌, nat_eq, pos};
ghost use Rattle.rules_flow.specs.Arguments.{all_lent_out, argument, arguments, is_any_start, is_cell, is_exactly, lends, lent_local};
ghost use Rattle.rules_flow.specs.Arguments.{lent_out, native_argument, native_arguments, passed, wanted};

use note_types::{Cell, Field, Item, Param, RuleName, Ty, Want, WantParam, ty_below};
use rules_base::{both, cell_of, has_field, needs, only_field};

// ---- addresses of cells

fn is_cell(cell: Cell, found: Option<Cell>) -> bool
    ensures { result ≡ is_cell cell found }
{
    match found {
        Some(other) => cell == other,
        None => false,
    }
}

// A local field that is lent: it has to have this cell, and to be written where `read`.
fn lent_local(
    fields: &[Field],
    written: u64,
    cell: Cell,
    read: bool,
    field: u32,
) -> Option<RuleName>
    ensures { result ≡ lent_local fields.now written cell read field }
{
    if !is_cell(cell, cell_of(fields, field as usize)) {
        Some(RuleName::Arguments)
    } else if read {
        needs(RuleName::Unwritten, has_field(written, field))
    } else {
        None
    }
}

// The address of such a cell: of a caller's written local, or of a local field of the function's own.
fn lends(fields: &[Field], written: u64, cell: Cell, read: bool, t: Ty) -> Option<RuleName>
    ensures { result ≡ lends fields.now written cell read t }
{
    match t {
        Ty::Lent(lent) => needs(RuleName::Arguments, cell == lent),
        Ty::Local(field) => lent_local(fields, written, cell, read, field),
        _ => Some(RuleName::Arguments),
    }
}

// ---- arguments of a function

// A value passed for a parameter's type.
fn passed(fields: &[Field], written: u64, p: Ty, t: Ty) -> Option<RuleName>
    ensures { result ≡ passed fields.now written p t }
{
    match p {
        Ty::Lent(cell) => lends(fields, written, cell, true, t),
        _ => needs(RuleName::Arguments, ty_below(&t, &p)),
    }
}

// An item passed for a parameter: its kind and its value are both tried.
fn argument(fields: &[Field], written: u64, p: &Param, item: &Item) -> Option<RuleName>
    ensures { result ≡ argument fields.now written p.now item.now }
{
    match item {
        Item::Slot { kind, ty } => both(
            needs(RuleName::Arguments, p.kind == *kind),
            passed(fields, written, p.ty, *ty),
        ),
        Item::Locals => Some(RuleName::Arguments),
    }
}

/// What fails of the items from the top, passed for the parameters of a function.
#[tactic(auto, unfolding(crate::specs::Arguments::arguments))]
pub fn arguments(
    fields: &[Field],
    written: u64,
    params: &[Param],
    items: &[Item],
) -> Option<RuleName>
    ensures { result ≡ arguments fields.now written params.now items.now }
{
    match params {
        [] => None,
        [p, params_left @ ..] => match items {
            [] => Some(RuleName::Arguments),
            [item, items_left @ ..] => both(
                argument(fields, written, p, item),
                arguments(fields, written, params_left, items_left),
            ),
        },
    }
}

// ---- arguments of a native method

// Exactly this number of natural units and bytes.
fn is_exactly(n: u32, c: u32, t: Ty) -> bool
    ensures { result ≡ is_exactly n c t }
{
    match t {
        Ty::Lin { n: m, c: d } => i64::from(m) == i64::from(n) && i64::from(d) == i64::from(c),
        Ty::Int { lo, hi, .. } => n == 0 && lo == u64::from(c) && hi == u64::from(c),
        _ => false,
    }
}

// Whether an offset is that of a start.
fn is_start(n: i32, c: i32) -> bool
    ensures { result ≡ int_eq n (pos 0) && int_eq c (pos 0) }
{
    n == 0 && c == 0
}

// Whether numbers within these bounds are 0.
fn is_zero(lo: u64, hi: u64) -> bool
    ensures { result ≡ nat_eq lo 0 && nat_eq hi 0 }
{
    lo == 0 && hi == 0
}

// The start of an instance of any shape, or null.
fn is_any_start(t: Ty) -> bool
    ensures { result ≡ is_any_start t }
{
    match t {
        Ty::Ptr { n, c, .. } => is_start(n, c),
        Ty::Int { lo, hi, .. } => is_zero(lo, hi),
        _ => false,
    }
}

// A value handed to a native method.
fn wanted(fields: &[Field], written: u64, want: Want, t: Ty) -> Option<RuleName>
    ensures { result ≡ wanted fields.now written want t }
{
    match want {
        Want::Any => None,
        Want::Int { lo, hi } => needs(
            RuleName::Arguments,
            ty_below(&t, &Ty::Int { lo, hi, div: 1 }),
        ),
        Want::Size { n, c } => needs(RuleName::Arguments, is_exactly(n, c, t)),
        Want::Ptr => needs(RuleName::Arguments, is_any_start(t)),
        Want::Handle => needs(RuleName::Arguments, ty_below(&t, &Ty::Handle)),
        Want::Status => needs(RuleName::Arguments, ty_below(&t, &Ty::Status(0))),
        Want::Entry => needs(RuleName::Arguments, ty_below(&t, &Ty::Entry)),
        Want::Out(cell) => lends(fields, written, cell, false, t),
        Want::Inout(cell) => lends(fields, written, cell, true, t),
    }
}

fn native_argument(fields: &[Field], written: u64, p: &WantParam, item: &Item) -> Option<RuleName>
    ensures { result ≡ native_argument fields.now written p.now item.now }
{
    match item {
        Item::Slot { kind, ty } => both(
            needs(RuleName::Arguments, p.kind == *kind),
            wanted(fields, written, p.want, *ty),
        ),
        Item::Locals => Some(RuleName::Arguments),
    }
}

/// What fails of the items from the top, handed to a native method.
#[tactic(auto, unfolding(crate::specs::Arguments::native_arguments))]
pub fn native_arguments(
    fields: &[Field],
    written: u64,
    params: &[WantParam],
    items: &[Item],
) -> Option<RuleName>
    ensures { result ≡ native_arguments fields.now written params.now items.now }
{
    match params {
        [] => None,
        [p, params_left @ ..] => match items {
            [] => Some(RuleName::Arguments),
            [item, items_left @ ..] => both(
                native_argument(fields, written, p, item),
                native_arguments(fields, written, params_left, items_left),
            ),
        },
    }
}

// ---- what is lent to be written

// The local field that an item lends to be written.
fn lent_out(want: Want, item: &Item) -> u64
    ensures { result ≡ lent_out want item.now }
{
    match (want, *item) {
        (
            Want::Out(_),
            Item::Slot {
                ty: Ty::Local(field),
                ..
            },
        ) => only_field(field),
        _ => 0,
    }
}

/// The local fields that items lend to be written.
#[tactic(auto, unfolding(crate::specs::Arguments::all_lent_out))]
pub fn all_lent_out(params: &[WantParam], items: &[Item]) -> u64
    ensures { result ≡ all_lent_out params.now items.now }
{
    match params {
        [] => 0,
        [p, params_left @ ..] => match items {
            [] => 0,
            [item, items_left @ ..] => {
                lent_out(p.want, item) | all_lent_out(params_left, items_left)
            }
        },
    }
}

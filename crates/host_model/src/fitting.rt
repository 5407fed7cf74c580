//! Whether a value that a script writes fits a type.
ghost use Rattle.std.specs.Prelude.{◌≡◌, ◌+◌, nat_le};
ghost use Rattle.host_model.specs.ScriptValues.{fits, fits_any, fits_each, fits_pointer, fits_range, has_instances, is_any, is_entry};
ghost use Rattle.host_model.specs.ScriptValues.{is_handle, is_made, is_method, is_status};
ghost use Rattle.note_types.specs.Types.{is_start};

use crate::object::TypedObject;
use note_types::{Param, Ty, Value, divides};

fn is_start(n: i32, c: i32) -> bool
    ensures { result ≡ is_start n c }
{
    n == 0 && c == 0
}

fn is_made(made: &[TypedObject], object: u64) -> bool
    ensures { result ≡ is_made made.now object }
{
    object < made.len() as u64
}

// Whether `count` more than `start` is at most `end`.
fn reaches(start: u64, count: u64, end: u64) -> bool
    ensures { result ≡ nat_le (start + count) end }
{
    match start.checked_add(count) {
        Some(last) => last <= end,
        None => false,
    }
}

fn has_instances(shape: u32, count: u64, instance: u64, object: &TypedObject) -> bool
    ensures { result ≡ has_instances shape count instance object.now }
{
    object.shape == shape && reaches(instance, count, object.count)
}

fn fits_range(lo: u64, hi: u64, div: u64, value: &Value) -> bool
    ensures { result ≡ fits_range lo hi div value.now }
{
    match *value {
        Value::Int(n) => lo <= n && n <= hi && divides(div, n),
        _ => false,
    }
}

fn fits_pointer(made: &[TypedObject], shape: u32, count: u64, null: bool, value: &Value) -> bool
    ensures { result ≡ fits_pointer made.now shape count null value.now }
{
    match *value {
        Value::Ptr { object, instance } => match made.get(object as usize) {
            Some(object) => has_instances(shape, count, instance, object),
            None => false,
        },
        Value::Null => null,
        _ => false,
    }
}

fn fits_any(made: &[TypedObject], value: &Value) -> bool
    ensures { result ≡ fits_any made.now value.now }
{
    match *value {
        Value::Ptr { object, .. } => is_made(made, object),
        Value::Out | Value::Wild(_) => false,
        _ => true,
    }
}

fn is_status(value: &Value) -> bool
    ensures { result ≡ is_status value.now }
{
    match *value {
        Value::StatusOk(code) => code < 1 << 31,
        Value::StatusError(code) => code < 1 << 31,
        _ => false,
    }
}

fn is_handle(value: &Value) -> bool
    ensures { result ≡ is_handle value.now }
{
    matches!(value, Value::Handle(_) | Value::Null)
}

fn is_entry(value: &Value) -> bool
    ensures { result ≡ is_entry value.now }
{
    matches!(value, Value::Entry(_) | Value::Null)
}

fn is_method(method: u32, value: &Value) -> bool
    ensures { result ≡ is_method method value.now }
{
    match *value {
        Value::Method(number) => number == method,
        _ => false,
    }
}

/// Whether a value that a script writes fits a type, where these typed objects are made. docs/HOST.md, "Values", lists the
/// cases.
#[tactic(auto, unfolding(crate::specs::ScriptValues::fits))]
pub fn fits(made: &[TypedObject], ty: &Ty, value: &Value) -> bool
    ensures { result ≡ fits made.now ty.now value.now }
{
    match *ty {
        Ty::Any => fits_any(made, value),
        Ty::Int { lo, hi, div } => fits_range(lo, hi, div, value),
        Ty::Ptr {
            shape,
            count,
            n,
            c,
            null,
        } => is_start(n, c) && fits_pointer(made, shape, count, null, value),
        Ty::Status(_) => is_status(value),
        Ty::Handle => is_handle(value),
        Ty::Entry => is_entry(value),
        Ty::Method(method) => is_method(method, value),
        _ => false,
    }
}

/// Whether values fit parameters, one for each.
#[tactic(auto, unfolding(crate::specs::ScriptValues::fits_each))]
pub fn fits_each(made: &[TypedObject], params: &[Param], values: &[Value]) -> bool
    ensures { result ≡ fits_each made.now params.now values.now }
{
    params.len() == values.len()
        && params
            .iter()
            .zip(values)
            .all(|(param, value)| fits(made, &param.ty, value))
}

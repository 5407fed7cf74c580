//! Whether the reply of a script's call is right (docs/HOST.md, "Steps", on the reply).
ghost use Rattle.std.specs.Prelude.{◌≡◌, ℕ, ◌≤◌, ◌<◌, length, Some, slice_get, nat_eq, nat_lt};
ghost use Rattle.std.specs.List.{count_by, list_all};
ghost use Rattle.note_types.specs.declared.notes.Want.{Want};
ghost use Rattle.host_model.specs.HostPlans.{all_named_right, lent_at, named_right, out_fits, outs_right, reply_fits, times_named};
ghost use Rattle.host_model.specs.HostPlans.{write_fits};
ghost use Rattle.host_model.specs.ScriptValues.{fits_result, is_any};

use crate::cells::field_at;
use host_model::{TypedObject, fits};
use note_types::{
    Cell, Notes, OutValue, ScriptCall, Signature, Ty, Value, Want, WantParam, WriteValue,
    content_type,
};

// Whether a value fits the result of a native method, which may have none.
fn fits_result(made: &[TypedObject], ty: &Option<Ty>, value: &Value) -> bool
    ensures { result ≡ fits_result made.now ty.now value.now }
{
    match ty {
        Some(ty) => fits(made, ty, value),
        None => matches!(value, Value::Any),
    }
}

/// The cell that the argument of that number is the address of.
pub(crate) fn lent_at(params: &[WantParam], number: u64) -> Option<Cell>
    ensures { result ≡ lent_at params.now number }
{
    match params.get(number as usize)?.want {
        Want::Out(cell) | Want::Inout(cell) => Some(cell),
        _ => None,
    }
}

// Whether a value fits the cell of its argument.
fn out_fits(made: &[TypedObject], params: &[WantParam], out: &OutValue) -> bool
    ensures { result ≡ out_fits made.now params.now out.now }
{
    match lent_at(params, out.argument) {
        Some(cell) => fits(made, &content_type(&cell), &out.value),
        None => false,
    }
}

// Whether a value fits its cell of an object, which is there.
fn write_fits(notes: &Notes, made: &[TypedObject], write: &WriteValue) -> bool
    ensures { result ≡ write_fits notes.now made.now write.now }
{
    match field_at(notes, made, write.object, write.instance, write.field) {
        Some(field) => fits(made, &content_type(&field.cell), &write.value),
        None => false,
    }
}

fn writes_fit(notes: &Notes, made: &[TypedObject], writes: &[WriteValue]) -> bool
    ensures { result ≡ list_all (write_fits notes.now made.now) writes.now }
{
    writes.iter().all(|write| write_fits(notes, made, write))
}

fn outs_fit(made: &[TypedObject], params: &[WantParam], outs: &[OutValue]) -> bool
    ensures { result ≡ list_all (out_fits made.now params.now) outs.now }
{
    outs.iter().all(|out| out_fits(made, params, out))
}

// How often an `out` list names an argument.
fn times_named(number: u64, outs: &[OutValue]) -> usize
    ensures { result ≡ times_named number outs.now }
{
    outs.iter().filter(|out| out.argument == number).count()
}

// Whether an argument is named so often as its role asks.
fn named_right(error: bool, want: &Want, times: usize) -> bool
    ensures { result ≡ named_right error want.now times }
{
    match want {
        Want::Out(_) => times == usize::from(!error),
        Want::Inout(_) => times <= 1,
        _ => times == 0,
    }
}

// Whether so is each argument of these parameters, which are counted from `first` on.
#[tactic(auto, unfolding(host_model::specs::HostPlans::all_named_right))]
fn all_named_right(error: bool, params: &[WantParam], outs: &[OutValue]) -> bool
    ensures { result ≡ all_named_right error 0 params.now outs.now }
{
    for (k, param) in params.iter().enumerate() {
        if !named_right(error, &param.want, times_named(k as u64, outs)) {
            return false;
        }
    }
    true
}

fn all_known(count: usize, outs: &[OutValue]) -> bool
    ensures { result ≡ list_all (λ (o : OutValue). nat_lt o.argument count) outs.now }
{
    outs.iter().all(|out| out.argument < count as u64)
}

// Whether an `out` list is right: each argument is named right, and nothing else is named.
fn outs_right(error: bool, params: &[WantParam], outs: &[OutValue]) -> bool
    ensures { result ≡ outs_right error params.now outs.now }
{
    all_named_right(error, params, outs) && all_known(params.len(), outs)
}

/// Whether the reply of a script's call by this signature is right.
#[tactic(auto, unfolding(host_model::specs::HostPlans::reply_fits))]
pub(crate) fn reply_fits(
    notes: &Notes,
    made: &[TypedObject],
    signature: &Signature,
    call: &ScriptCall,
) -> bool
    requires { slice_get notes.now.signature call.now.signature ≡ Some signature.now }
    ensures { result ≡ reply_fits notes.now made.now call.now }
{
    let params = signature.params.as_slice();
    let error = matches!(call.result, Value::StatusError(_));
    fits_result(made, &signature.result, &call.result)
        && writes_fit(notes, made, call.write.as_slice())
        && outs_fit(made, params, call.out.as_slice())
        && outs_right(error, params, call.out.as_slice())
}

//! Which functions the firmware may enter, and with which values (docs/HOST.md, "Steps").
ghost use Rattle.std.specs.Prelude.{◌≡◌, ◌≤◌, map, length};
ghost use Rattle.host_model.specs.HostPlans.{function_params, may_enter};
ghost use Rattle.host_model.specs.ScriptValues.{fits_each, given};
ghost use Rattle.native_host.specs.Entering.{can_enter};

use host_model::{TypedObject, fits_each};
use note_types::{Args, Notes, Seen, Value, Values};

// Whether the firmware may enter the function of that number.
fn may_enter(notes: &Notes, function: u32) -> bool
    ensures { result ≡ may_enter notes.now function }
{
    if function == notes.entry {
        return false;
    }
    match notes.function.as_slice().get(function as usize) {
        Some(note) => note.enter,
        None => false,
    }
}

// Whether values fit the parameters of the function of that number, where these typed objects are made.
fn values_fit(made: &[TypedObject], notes: &Notes, function: u32, values: &[Value]) -> bool
    ensures { result ≡ fits_each made.now (function_params notes.now function) values.now }
{
    match notes.function.as_slice().get(function as usize) {
        Some(note) => fits_each(made, note.params.as_slice(), values),
        None => fits_each(made, &[], values),
    }
}

/// Whether the firmware may enter the function of that number with values, where these typed objects are made.
pub(crate) fn can_enter(notes: &Notes, made: &[TypedObject], function: u32, values: &Values) -> bool
    ensures { result ≡ can_enter notes.now made.now function values.now }
{
    may_enter(notes, function) && values_fit(made, notes, function, values.as_slice())
}

/// Values as arguments that aren't lent.
pub(crate) fn given_args(values: &Values) -> Args
    requires { length values.now ≤ 16 }
    ensures { result ≡ map given values.now }
{
    let mut args = Args::new();
    for value in values.as_slice() {
        args.push(Seen {
            lent: false,
            value: *value,
        });
    }
    args
}

//! Whether a bind agrees with the notes of both images. docs/PAIRS.md, "Binds", has the cases.
ghost use Rattle.host_model.specs.HostPlans.{may_enter};
ghost use Rattle.note_types.specs.declared.notes.Want.TheVariants as want;
ghost use Rattle.pair_model.specs.Binds.{bind_agrees, function_agrees, param_agrees, result_agrees, signature_agrees, takes_alike};
ghost use Rattle.std.specs.List.{list_all, zip};
ghost use Rattle.std.specs.Prelude.{if◌then◌else◌, nat_eq, true, ◌≡◌};

use crate::bind::Bind;
use note_types::{FnNote, Notes, Param, Signature, Ty, Want, WantParam, ty_below};

/// Whether what a method takes is what a parameter of a function takes.
fn takes_alike(want: &Want, ty: &Ty) -> bool
    ensures { result ≡ takes_alike want.now ty.now }
{
    match *want {
        Want::Int { lo, hi } => takes_range(lo, hi, ty),
        Want::Handle => matches!(*ty, Ty::Handle),
        Want::Status => matches!(*ty, Ty::Status(_)),
        _ => false,
    }
}

/// Whether a type is a range of any number that holds the range from `low` to `high`.
fn takes_range(low: u64, high: u64, ty: &Ty) -> bool
    ensures { result ≡ takes_alike (want.Int low high) ty.now }
{
    match *ty {
        Ty::Int { lo, hi, div } => div == 1 && (lo <= low && high <= hi),
        _ => false,
    }
}

/// Whether a parameter of a method and one of a function agree: their slots are of one kind, and they take alike.
fn param_agrees(wanted: &WantParam, param: &Param) -> bool
    ensures { result ≡ param_agrees (wanted.now, param.now) }
{
    wanted.kind == param.kind && takes_alike(&wanted.want, &param.ty)
}

/// Whether what a function gives is what a method is to give, if it is to give anything.
fn result_agrees(wanted: &Option<Ty>, given: &Ty) -> bool
    ensures { result ≡ result_agrees wanted.now given.now }
{
    match wanted {
        None => true,
        Some(ty) => ty_below(given, ty),
    }
}

/// Whether parameters agree, one by one.
fn params_agree(wanted: &[WantParam], params: &[Param]) -> bool
    ensures { result ≡ list_all param_agrees (zip wanted.now params.now) }
{
    wanted
        .iter()
        .zip(params)
        .all(|(wanted, param)| param_agrees(wanted, param))
}

/// Whether a signature and a function have as many parameters, which agree one by one, and their results agree.
fn signature_agrees(function: &FnNote, signature: &Signature) -> bool
    ensures { result ≡ signature_agrees function.now signature.now }
{
    signature.params.len() == function.params.len()
        && (params_agree(signature.params.as_slice(), function.params.as_slice())
            && result_agrees(&signature.result, &function.result))
}

/// Whether a signature is by another method, or agrees with a function.
fn agrees_by(method: u32, function: &FnNote, signature: &Signature) -> bool
    ensures { result ≡ (if nat_eq signature.now.method method then signature_agrees function.now signature.now else true) }
{
    if signature.method == method {
        signature_agrees(function, signature)
    } else {
        true
    }
}

/// Whether a function agrees with each signature by a method.
fn function_agrees(notes: &Notes, method: u32, function: &FnNote) -> bool
    ensures { result ≡ function_agrees notes.now method function.now }
{
    notes
        .signature
        .as_slice()
        .iter()
        .all(|signature| agrees_by(method, function, signature))
}

/// Whether the firmware may enter a function of B: it isn't the entry function, and it is marked so.
fn may_enter(notes: &Notes, function: u32) -> bool
    ensures { result ≡ may_enter notes.now function }
{
    if function == notes.entry {
        return false;
    }
    match notes.function.as_slice().get(function as usize) {
        Some(note) => note.enter,
        None => false,
    }
}

impl Bind {
    /// Whether the bind agrees with the notes of both images: the firmware may enter its function, which isn't the entry function of B,
    /// and each signature of A by its method has as many parameters as the function, of the same kinds, takes no more than they
    /// take, and has no result or one that the function's is below.
    #[tactic(auto, unfolding(crate::specs::Binds::bind_agrees))]
    pub fn agrees(&self, a: &Notes, b: &Notes) -> bool
        ensures { result ≡ bind_agrees a.now b.now self.now }
    {
        if !may_enter(b, self.function) {
            return false;
        }
        match b.function.as_slice().get(self.function as usize) {
            Some(function) => function_agrees(a, self.method, function),
            None => false,
        }
    }
}

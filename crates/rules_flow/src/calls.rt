//! Calls of functions and of native methods, returns, and thunks.

ghost use Rattle.std.specs.Prelude.{◌≡◌, ◌<◌, ◌+◌, ◌^◌, IfOk, length, map, option_copied};
ghost use Rattle.std.specs.Bool.{OnTrue};
ghost use Rattle.std.specs.List.Sorted.{IsStrictlyIncreasing};
ghost use Rattle.ebc_insn.specs.Spelling.{ExtraFits, IsOperand, TargetFits};
ghost use Rattle.rules_base.specs.Outcomes.{gives_map};
ghost use Rattle.rules_flow.specs.Calls.{all_made, break_row, call_fails, call_native_row, call_row, call_to, callee_at, callee_method};
ghost use Rattle.rules_flow.specs.Calls.{called, direct_method, fits_need, is_lower, is_next_thunk, is_saved, loaded_method, may_return};
ghost use Rattle.rules_flow.specs.Calls.{method_of, native_call, result_type, return_row, signature_at, site_at, with_thunk, written_after};
ghost use Rattle.rules_flow.specs.Steps.{FitsStep, successors_of};

use crate::arguments::{all_lent_out, arguments, native_arguments};
use crate::frames::{at, items_size};
use crate::jumps::{Aim, target_of};
use crate::placed::{number_at, number_from};
use crate::step::{Step, Update};
use ebc_insn::Extra;
use note_types::{FnNote, Notes, Pair, RuleName, Signature, Site, State, Ty, ty_below};
use rules_base::{
    Access, Here, Loaded, also, both, extra_distance, load_at, local_fields, locals_size, needs,
};

/// What a call changes: R4 to R7 are the callee's, and nothing is known of the flag.
pub fn set_called(s: &mut State, value: Ty, written: u64)
    ensures { s.new ≡ called s.old value written }
{
    s.regs = [
        s.regs[0],
        s.regs[1],
        s.regs[2],
        s.regs[3],
        Ty::Any,
        Ty::Any,
        Ty::Any,
        value,
    ];
    s.written = written;
    s.fact = None;
}

// Whether all thunks are made.
fn all_made(notes: &Notes, s: &State) -> bool
    requires { length notes.now.thunk < 2 ^ 32 }
    ensures { result ≡ all_made notes.now s.now }
{
    s.made as usize == notes.thunk.len()
}

// ---- CALL

// The function that begins at a place, other than the entry function.
#[tactic(auto, unfolding(crate::specs::Calls::callee_at))]
fn callee_at(notes: &Notes, place: i128) -> Option<&FnNote>
    requires { IsStrictlyIncreasing (map (λ g. g.place) notes.now.function) }
    ensures { option_copied result ≡ callee_at notes.now place }
{
    let functions = notes.function.as_slice();
    let g = number_from(functions, place)?;
    if g == notes.entry as usize {
        None
    } else {
        functions.get(g)
    }
}

// Whether what a call takes fits the caller's need at both widths: its items, the return cell of 16 bytes and what the
// callee needs.
fn fits_need(items: Pair, need: Pair, whole: Pair) -> bool
    ensures { result ≡ fits_need items need whole }
{
    !(at(4, whole) < at(4, items) + 16 + at(4, need))
        && !(at(8, whole) < at(8, items) + 16 + at(8, need))
}

// Whether the callee is of a lower level, and what it needs fits the caller's need at both widths.
#[tactic(auto, unfolding(crate::specs::Calls::is_lower))]
fn is_lower(notes: &Notes, f: &FnNote, s: &State, g: &FnNote) -> bool
    ensures { result ≡ is_lower notes.now f.now s.now g.now }
{
    let items = items_size(locals_size(notes, f), s.items.as_slice());
    g.level < f.level && fits_need(items, g.need, f.need)
}

// The conditions on a call of a function, beside one another.
fn call_fails(notes: &Notes, f: &FnNote, s: &State, g: &FnNote) -> Option<RuleName>
    requires { length notes.now.thunk < 2 ^ 32 }
    ensures { result ≡ call_fails notes.now f.now s.now g.now }
{
    both(
        both(
            needs(RuleName::Level, is_lower(notes, f, s, g)),
            needs(RuleName::Thunk, all_made(notes, s)),
        ),
        arguments(
            local_fields(notes, f),
            s.written,
            g.params.as_slice(),
            s.items.as_slice(),
        ),
    )
}

// A call of the function that begins at a place.
#[tactic(auto, unfolding(crate::specs::Calls::call_to))]
fn call_to(notes: &Notes, f: &FnNote, s: &State, place: i128) -> Result<Step, RuleName>
    requires thunks { length notes.now.thunk < 2 ^ 32 }
    requires ascend { IsStrictlyIncreasing (map (λ g. g.place) notes.now.function) }
    ensures goes { gives_map (successors_of s.now) result ≡ call_to notes.now f.now s.now place }
    ensures fits { IfOk result (FitsStep s.now) }
{
    let g = callee_at(notes, place).ok_or(RuleName::Target)?;
    match call_fails(notes, f, s, g) {
        Some(rule) => Err(rule),
        None => Ok(Step::Falls(Update::Called {
            ty: g.result,
            written: s.written,
        })),
    }
}

/// CALL of byte code.
#[tactic(auto, unfolding(crate::specs::Calls::call_row))]
pub fn call_row(
    notes: &Notes,
    f: &FnNote,
    here: &Here,
    s: &State,
    aim: Aim,
) -> Result<Step, RuleName>
    requires thunks { length notes.now.thunk < 2 ^ 32 }
    requires ascend { IsStrictlyIncreasing (map (λ g. g.place) notes.now.function) }
    ensures goes { gives_map (successors_of s.now) result ≡
        call_row notes.now f.now here.now s.now aim.entry.far aim.entry.relative aim.entry.op.now aim.entry.extra.now }
    ensures fits { IfOk result (FitsStep s.now) }
{
    let place = target_of(here, aim)?;
    call_to(notes, f, s, place)
}

// ---- CALLEX

// The method whose address a value is.
fn method_of(t: Ty) -> Result<u32, RuleName>
    ensures { result ≡ method_of t }
{
    match t {
        Ty::Method(method) => Ok(method),
        _ => Err(RuleName::Form),
    }
}

// What is loaded has to be made before it is looked at.
fn loaded_method(loaded: Loaded) -> Result<u32, RuleName>
    ensures { result ≡ loaded_method loaded }
{
    if loaded.made {
        method_of(loaded.ty)
    } else {
        Err(RuleName::Thunk)
    }
}

// A register with nothing beside it.
fn direct_method(s: &State, reg: u8, extra: &Extra) -> Result<u32, RuleName>
    requires { reg < 8 }
    ensures { result ≡ direct_method s.now reg extra.now }
{
    match extra {
        Extra::Nothing => method_of(s.regs[reg as usize]),
        Extra::Imm(_) | Extra::Idx(_) => Err(RuleName::Form),
    }
}

// The method that a native call calls: it is absolute, not far, and its operand isn't on R0.
#[tactic(auto, unfolding(crate::specs::Calls::callee_method))]
fn callee_method(notes: &Notes, f: &FnNote, s: &State, aim: Aim) -> Result<u32, RuleName>
    requires { TargetFits aim.far aim.op.now aim.extra.now }
    ensures { result ≡ callee_method notes.now f.now s.now aim.entry.far aim.entry.relative aim.entry.op.now aim.entry.extra.now }
{
    if aim.far {
        return Err(RuleName::Form);
    }
    if aim.relative {
        return Err(RuleName::Form);
    }
    if aim.op.reg == 0 {
        return Err(RuleName::Form);
    }
    if aim.op.indirect {
        let d = extra_distance(32, aim.op, aim.extra);
        let loaded = load_at(notes, f, s, Access::Natural, aim.op.reg, d)?;
        loaded_method(loaded)
    } else {
        direct_method(s, aim.op.reg, aim.extra)
    }
}

// The site at a place.
#[tactic(auto, unfolding(crate::specs::Calls::site_at))]
fn site_at(sites: &[Site], place: u32) -> Option<&Site>
    requires { IsStrictlyIncreasing (map (λ x. x.place) sites.now) }
    ensures { option_copied result ≡ site_at sites.now place }
{
    let number = number_at(sites, u128::from(place))?;
    sites.get(number)
}

// The signature of a method by which the instruction at a place calls it.
#[tactic(auto, unfolding(crate::specs::Calls::signature_at))]
fn signature_at(notes: &Notes, place: u32, method: u32) -> Option<&Signature>
    requires { IsStrictlyIncreasing (map (λ x. x.place) notes.now.site) }
    ensures { option_copied result ≡ signature_at notes.now place method }
{
    let x = site_at(notes.site.as_slice(), place)?;
    let g = notes.signature.as_slice().get(x.signature as usize)?;
    if g.method == method { Some(g) } else { None }
}

// The type of the result, which grants these local fields where it is a status.
fn result_type(declared: Option<Ty>, lent: u64) -> Ty
    ensures { result ≡ result_type declared lent }
{
    match declared {
        Some(Ty::Status(_)) => Ty::Status(lent),
        Some(t) => t,
        None => Ty::Any,
    }
}

// The written fields, to which these are added where the result isn't a status.
fn written_after(declared: Option<Ty>, written: u64, lent: u64) -> u64
    ensures { result ≡ written_after declared written lent }
{
    match declared {
        Some(Ty::Status(_)) => written,
        _ => written | lent,
    }
}

// A call by a signature.
#[tactic(auto, unfolding(crate::specs::Calls::native_call))]
fn native_call(notes: &Notes, f: &FnNote, s: &State, g: &Signature) -> Result<Step, RuleName>
    requires { length notes.now.thunk < 2 ^ 32 }
    ensures goes { gives_map (successors_of s.now) result ≡ native_call notes.now f.now s.now g.now }
    ensures fits { IfOk result (FitsStep s.now) }
{
    let (params, items) = (g.params.as_slice(), s.items.as_slice());
    let fails = both(
        needs(RuleName::Thunk, all_made(notes, s)),
        native_arguments(local_fields(notes, f), s.written, params, items),
    );
    if let Some(rule) = fails {
        return Err(rule);
    }
    let lent = all_lent_out(params, items);
    Ok(Step::Falls(Update::Called {
        ty: result_type(g.result, lent),
        written: written_after(g.result, s.written, lent),
    }))
}

/// CALLEX.
#[tactic(auto, unfolding(crate::specs::Calls::call_native_row))]
pub fn call_native_row(
    notes: &Notes,
    f: &FnNote,
    here: &Here,
    s: &State,
    aim: Aim,
) -> Result<Step, RuleName>
    requires thunks { length notes.now.thunk < 2 ^ 32 }
    requires ascend { IsStrictlyIncreasing (map (λ x. x.place) notes.now.site) }
    requires target { TargetFits aim.far aim.op.now aim.extra.now }
    ensures goes { gives_map (successors_of s.now) result ≡
        call_native_row notes.now f.now here.now s.now aim.entry.far aim.entry.relative aim.entry.op.now aim.entry.extra.now }
    ensures fits { IfOk result (FitsStep s.now) }
{
    let method = callee_method(notes, f, s, aim)?;
    let g = signature_at(notes, here.place, method).ok_or(RuleName::Site)?;
    native_call(notes, f, s, g)
}

// ---- RET

// Whether a register is what it was at the entry.
fn is_saved(s: &State, reg: u8) -> bool
    requires { reg < 8 }
    ensures { result ≡ is_saved s.now reg }
{
    match s.regs[reg as usize] {
        Ty::Saved(number) => number == reg,
        _ => false,
    }
}

// Whether a function may return.
#[tactic(auto, unfolding(crate::specs::Calls::may_return))]
fn may_return(f: &FnNote, s: &State) -> bool
    ensures { result ≡ may_return f.now s.now }
{
    s.items.len() == 0
        && is_saved(s, 1)
        && is_saved(s, 2)
        && is_saved(s, 3)
        && ty_below(&s.regs[7], &f.result)
}

/// RET.
#[tactic(auto, unfolding(crate::specs::Calls::return_row))]
pub fn return_row(f: &FnNote, s: &State) -> Result<Step, RuleName>
    ensures goes { gives_map (successors_of s.now) result ≡ return_row f.now s.now }
    ensures fits { IfOk result (FitsStep s.now) }
{
    if may_return(f, s) {
        Ok(Step::Ends)
    } else {
        Err(RuleName::Return)
    }
}

// ---- BREAK

// Whether a value is the address of the thunk cell that is made next.
fn is_next_thunk(notes: &Notes, s: &State, t: Ty) -> bool
    ensures value { result ≡ is_next_thunk notes.now s.now t }
    ensures left { OnTrue result (s.now.made < length notes.now.thunk) }
{
    match t {
        Ty::ThunkAt(thunk) => thunk == s.made && (thunk as usize) < notes.thunk.len(),
        _ => false,
    }
}

/// One more thunk is made.
pub fn set_made(s: &mut State)
    requires { s.old.made + 1 < 2 ^ 32 }
    ensures { s.new ≡ with_thunk s.old }
{
    s.made += 1;
}

/// BREAK 5 makes the next thunk, the one whose cell R7 is the address of.
#[tactic(auto, unfolding(crate::specs::Calls::break_row))]
pub fn break_row(notes: &Notes, s: &State, code: u8) -> Result<Step, RuleName>
    requires { length notes.now.thunk < 2 ^ 32 }
    ensures goes { gives_map (successors_of s.now) result ≡ break_row notes.now s.now code }
    ensures fits { IfOk result (FitsStep s.now) }
{
    if code != 5 {
        return Err(RuleName::Form);
    }
    if is_next_thunk(notes, s, s.regs[7]) {
        Ok(Step::Falls(Update::Made))
    } else {
        Err(RuleName::Thunk)
    }
}

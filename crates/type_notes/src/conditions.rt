//! The conditions on functions, signatures and sites by themselves.
ghost use Rattle.std.specs.Prelude.{◌≡◌, ◌+◌, ◌-◌, ◌*◌, ◌<◌, ◌^◌, not};
ghost use Rattle.std.specs.List.{position, list_all};
ghost use Rattle.type_notes.specs.Conditions.{code_size, first_past, frame_size, gives_unhanded, has_item_thunk, has_many_locals};
ghost use Rattle.type_notes.specs.Conditions.{is_entered, is_natural_slot, keeps_param, keeps_params, keeps_want, keeps_wants, overflows};
ghost use Rattle.type_notes.specs.Conditions.{overfull, params_have_thunks, passes_params, regs_have_thunks, stack_has_thunks};
ghost use Rattle.type_notes.specs.Conditions.{takes_handed_in, takes_unhanded, thunkless, thunkless_points, too_large, unhanded, unkept};
ghost use Rattle.type_notes.specs.Conditions.{unpassed, unreturned};
ghost use Rattle.type_notes.specs.PointLocals.{locals_fields};
ghost use Rattle.type_notes.specs.TypeKinds.{is_returned};

use crate::type_kinds::{
    has_thunk, is_handed_back, is_handed_in, is_kept, is_kept_want, is_passed, is_returned,
};
use note_draft::{
    Finding, FunctionDraft, Key, NameTables, NotesDraft, PointDraft, SignatureDraft, TableList,
};
use note_texts::{FieldText, ItemText, ParamText, WantParamText};
use note_types::{Name, SlotKind, code_limit};

const STACK_LIMIT: u128 = 1024 * 1024;

// ---- natural slots

fn is_natural_slot(kind: SlotKind) -> bool
    ensures { result ≡ is_natural_slot kind }
{
    matches!(kind, SlotKind::N)
}

fn keeps_param(param: &ParamText) -> bool
    ensures { result ≡ keeps_param param.now }
{
    !is_natural_slot(param.kind) || is_kept(&param.ty)
}

fn keeps_want(param: &WantParamText) -> bool
    ensures { result ≡ keeps_want param.now }
{
    !is_natural_slot(param.kind) || is_kept_want(&param.want)
}

fn keeps_params(function: &FunctionDraft) -> bool
    ensures { result ≡ keeps_params function.now }
{
    function
        .params
        .as_slice()
        .iter()
        .all(|param| keeps_param(param))
}

fn keeps_wants(signature: &SignatureDraft) -> bool
    ensures { result ≡ keeps_wants signature.now }
{
    signature
        .params
        .as_slice()
        .iter()
        .all(|param| keeps_want(param))
}

fn first_unkept_params(functions: &[FunctionDraft]) -> Option<usize>
    ensures { result ≡ position (λ f. not (keeps_params f)) functions.now }
{
    functions
        .iter()
        .position(|function| !keeps_params(function))
}

fn first_unkept_wants(signatures: &[SignatureDraft]) -> Option<usize>
    ensures { result ≡ position (λ s. not (keeps_wants s)) signatures.now }
{
    signatures
        .iter()
        .position(|signature| !keeps_wants(signature))
}

/// The first natural slot with a type that a move of natural size doesn't keep.
pub fn unkept(draft: &NotesDraft) -> Option<Finding>
    ensures { result ≡ unkept draft.now }
{
    let params = first_unkept_params(draft.function.as_slice());
    let wants = first_unkept_wants(draft.signature.as_slice());
    Finding::at(TableList::Function, Key::Params, params).or_else(|| Finding::at(
        TableList::Signature,
        Key::Params,
        wants,
    ))
}

// ---- functions that the firmware enters

fn is_entered(function: &FunctionDraft, entry: &Name) -> bool
    ensures { result ≡ is_entered entry.now function.now }
{
    function.enter || function.name == *entry
}

fn takes_handed_in(function: &FunctionDraft) -> bool
    ensures { result ≡ takes_handed_in function.now }
{
    function
        .params
        .as_slice()
        .iter()
        .all(|param| is_handed_in(&param.ty))
}

fn takes_unhanded(function: &FunctionDraft, entry: &Name) -> bool
    ensures { result ≡ takes_unhanded entry.now function.now }
{
    is_entered(function, entry) && !takes_handed_in(function)
}

fn gives_unhanded(function: &FunctionDraft, entry: &Name) -> bool
    ensures { result ≡ gives_unhanded entry.now function.now }
{
    is_entered(function, entry) && !is_handed_back(&function.result)
}

fn first_taking_unhanded(functions: &[FunctionDraft], entry: &Name) -> Option<usize>
    ensures { result ≡ position (takes_unhanded entry.now) functions.now }
{
    functions
        .iter()
        .position(|function| takes_unhanded(function, entry))
}

fn first_giving_unhanded(functions: &[FunctionDraft], entry: &Name) -> Option<usize>
    ensures { result ≡ position (gives_unhanded entry.now) functions.now }
{
    functions
        .iter()
        .position(|function| gives_unhanded(function, entry))
}

/// The first function that the firmware enters with a parameter or result that can't pass between the two.
pub fn unhanded(draft: &NotesDraft) -> Option<Finding>
    ensures { result ≡ unhanded draft.now }
{
    let functions = draft.function.as_slice();
    let params = first_taking_unhanded(functions, &draft.entry);
    let result = first_giving_unhanded(functions, &draft.entry);
    Finding::sooner(
        Finding::at(TableList::Function, Key::Params, params),
        Finding::at(TableList::Function, Key::Result, result),
    )
}

// ---- parameters and results

fn passes_params(function: &FunctionDraft) -> bool
    ensures { result ≡ passes_params function.now }
{
    function
        .params
        .as_slice()
        .iter()
        .all(|param| is_passed(&param.ty))
}

fn first_unpassed(functions: &[FunctionDraft]) -> Option<usize>
    ensures { result ≡ position (λ f. not (passes_params f)) functions.now }
{
    functions
        .iter()
        .position(|function| !passes_params(function))
}

fn first_unreturned(functions: &[FunctionDraft]) -> Option<usize>
    ensures { result ≡ position (λ f. not (is_returned f.result)) functions.now }
{
    functions
        .iter()
        .position(|function| !is_returned(&function.result))
}

/// The first parameter that says something of the caller's frame.
pub fn unpassed(draft: &NotesDraft) -> Option<Finding>
    ensures { result ≡ unpassed draft.now }
{
    let item = first_unpassed(draft.function.as_slice());
    Finding::at(TableList::Function, Key::Params, item)
}

/// The first result that says something of a frame or of a thunk cell.
pub fn unreturned(draft: &NotesDraft) -> Option<Finding>
    ensures { result ≡ unreturned draft.now }
{
    let item = first_unreturned(draft.function.as_slice());
    Finding::at(TableList::Function, Key::Result, item)
}

// ---- thunks

fn has_item_thunk(item: &ItemText, thunks: usize) -> bool
    ensures { result ≡ has_item_thunk thunks item.now }
{
    match item {
        ItemText::Slot { ty, .. } => has_thunk(ty, thunks),
        ItemText::Locals => true,
    }
}

fn params_have_thunks(function: &FunctionDraft, thunks: usize) -> bool
    ensures { result ≡ params_have_thunks thunks function.now }
{
    function
        .params
        .as_slice()
        .iter()
        .all(|param| has_thunk(&param.ty, thunks))
}

fn regs_have_thunks(point: &PointDraft, thunks: usize) -> bool
    ensures { result ≡ regs_have_thunks thunks point.now }
{
    point
        .regs
        .as_slice()
        .iter()
        .all(|register| has_thunk(&register.ty, thunks))
}

fn stack_has_thunks(point: &PointDraft, thunks: usize) -> bool
    ensures { result ≡ stack_has_thunks thunks point.now }
{
    point
        .stack
        .as_slice()
        .iter()
        .all(|item| has_item_thunk(item, thunks))
}

fn first_thunkless_params(functions: &[FunctionDraft], thunks: usize) -> Option<usize>
    ensures { result ≡ position (λ f. not (params_have_thunks thunks f)) functions.now }
{
    functions
        .iter()
        .position(|function| !params_have_thunks(function, thunks))
}

fn first_thunkless_regs(points: &[PointDraft], thunks: usize) -> Option<usize>
    ensures { result ≡ position (λ p. not (regs_have_thunks thunks p)) points.now }
{
    points
        .iter()
        .position(|point| !regs_have_thunks(point, thunks))
}

fn first_thunkless_stack(points: &[PointDraft], thunks: usize) -> Option<usize>
    ensures { result ≡ position (λ p. not (stack_has_thunks thunks p)) points.now }
{
    points
        .iter()
        .position(|point| !stack_has_thunks(point, thunks))
}

fn thunkless_points(points: &[PointDraft], thunks: usize) -> Option<Finding>
    ensures { result ≡ thunkless_points thunks points.now }
{
    let regs = first_thunkless_regs(points, thunks);
    let stack = first_thunkless_stack(points, thunks);
    Finding::sooner(
        Finding::at(TableList::Point, Key::Regs, regs),
        Finding::at(TableList::Point, Key::Stack, stack),
    )
}

/// The first text that names a thunk which isn't there.
pub fn thunkless(draft: &NotesDraft) -> Option<Finding>
    ensures { result ≡ thunkless draft.now }
{
    let thunks = draft.thunk.len();
    let params = first_thunkless_params(draft.function.as_slice(), thunks);
    Finding::at(TableList::Function, Key::Params, params).or_else(|| thunkless_points(
        draft.point.as_slice(),
        thunks,
    ))
}

// ---- limits

/// The fields of the shape of that name; none where no shape is named.
#[tactic(auto, unfolding(crate::specs::PointLocals::locals_fields))]
pub fn locals_fields<'a>(
    names: &NameTables,
    draft: &'a NotesDraft,
    locals: &Option<Name>,
) -> &'a [FieldText]
    ensures { result.now ≡ locals_fields names.now draft.now locals.now }
{
    let Some(name) = locals else {
        return &[];
    };
    match draft
        .shape
        .as_slice()
        .get(names.shape.number(name) as usize)
    {
        Some(shape) => shape.fields.as_slice(),
        None => &[],
    }
}

fn has_many_locals(names: &NameTables, draft: &NotesDraft, function: &FunctionDraft) -> bool
    ensures { result ≡ has_many_locals names.now draft.now function.now }
{
    locals_fields(names, draft, &function.locals).len() > 64
}

fn first_with_many_locals(names: &NameTables, draft: &NotesDraft) -> Option<usize>
    ensures { result ≡ position (has_many_locals names.now draft.now) draft.now.function }
{
    draft
        .function
        .as_slice()
        .iter()
        .position(|function| has_many_locals(names, draft, function))
}

/// The first function whose locals have more than 64 fields.
pub fn overfull(names: &NameTables, draft: &NotesDraft) -> Option<Finding>
    ensures { result ≡ overfull names.now draft.now }
{
    Finding::at(
        TableList::Function,
        Key::Locals,
        first_with_many_locals(names, draft),
    )
}

fn code_size(function: &FunctionDraft) -> u64
    ensures value { result ≡ code_size function.now }
    ensures bound { result < 2 ^ 32 }
{
    u64::from(size_between(function.place, function.end))
}

fn size_between(place: u32, end: u32) -> u32
    ensures { result ≡ end - place }
{
    end.saturating_sub(place)
}

fn first_past(limit: u64, functions: &[FunctionDraft]) -> Option<usize>
    requires { limit < 2 ^ 32 }
    ensures { result ≡ first_past limit functions.now }
{
    let mut code = 0u64;
    for i in 0..functions.len() {
        code += code_size(&functions[i]);
        if code > limit {
            return Some(i);
        }
    }
    None
}

// Natural units and bytes, as bytes where a pointer has 8.
fn wide_size(n: u64, c: u64) -> u128
    ensures value { result ≡ 8 * n + c }
    ensures bound { result < 2 ^ 68 }
{
    8 * u128::from(n) + u128::from(c)
}

fn frame_size(function: &FunctionDraft) -> u128
    ensures value { result ≡ frame_size function.now }
    ensures bound { result < 2 ^ 72 }
{
    let params = function.params.len() as u128;
    8 * params + 16 + wide_size(function.need.n, function.need.c)
}

fn overflows(function: &FunctionDraft, entry: &Name) -> bool
    ensures { result ≡ overflows entry.now function.now }
{
    is_entered(function, entry) && 9 * frame_size(function) > STACK_LIMIT
}

fn first_overflow(functions: &[FunctionDraft], entry: &Name) -> Option<usize>
    ensures { result ≡ position (overflows entry.now) functions.now }
{
    functions
        .iter()
        .position(|function| overflows(function, entry))
}

/// The first function with which the code or the stack passes its limit.
pub fn too_large(draft: &NotesDraft) -> Option<Finding>
    ensures { result ≡ too_large draft.now }
{
    let functions = draft.function.as_slice();
    let code = first_past(code_limit(draft.version), functions);
    let stack = first_overflow(functions, &draft.entry);
    Finding::at(TableList::Function, Key::End, code).or_else(|| Finding::at(
        TableList::Function,
        Key::Need,
        stack,
    ))
}

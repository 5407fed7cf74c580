//! The third pass over notes: whether the names in them are there.
ghost use Rattle.std.specs.Prelude.{◌≡◌, not};
ghost use Rattle.std.specs.List.{position};
ghost use Rattle.ebc_base.specs.Tables.{is_named};
ghost use Rattle.note_texts.specs.Outcome.{Gives};
ghost use Rattle.note_draft.specs.Known.{known, knows_cell, knows_fields, knows_item, knows_locals, knows_params, knows_regs, knows_result};
ghost use Rattle.note_draft.specs.Known.{knows_stack, knows_type, knows_want, knows_wants, unknown, unknown_in_functions};
ghost use Rattle.note_draft.specs.Known.{unknown_in_points, unknown_in_shapes, unknown_in_signatures, unknown_in_sites, unknown_in_statics};
ghost use Rattle.note_draft.specs.Known.{unknown_in_thunks};

use crate::draft::{
    FunctionDraft, NotesDraft, PointDraft, ShapeDraft, SignatureDraft, SiteDraft, StaticDraft,
    ThunkDraft,
};
use crate::finding::{Finding, Key, Refusal, TableList, refuse};
use crate::tables::NameTables;
use note_texts::{CellText, ItemText, TypeText, WantText};
use note_types::{Name, NotesEnd, TomlFault};
use std::alloc::Global;

impl NameTables {
    // ---- the names in a text

    fn knows_cell(&self, cell: &CellText) -> bool
        ensures { result ≡ knows_cell self.now cell.now }
    {
        match cell {
            CellText::Ptr { shape, .. } | CellText::P64 { shape, .. } => self.shape.has(shape),
            CellText::Method(method) => self.method.has(method),
            _ => true,
        }
    }

    fn knows_type(&self, ty: &TypeText) -> bool
        ensures { result ≡ knows_type self.now ty.now }
    {
        match ty {
            TypeText::Ptr { shape, .. } => self.shape.has(shape),
            TypeText::Lent(cell) => self.knows_cell(cell),
            TypeText::Method(method) => self.method.has(method),
            _ => true,
        }
    }

    fn knows_want(&self, want: &WantText) -> bool
        ensures { result ≡ knows_want self.now want.now }
    {
        match want {
            WantText::Out(cell) | WantText::Inout(cell) => self.knows_cell(cell),
            _ => true,
        }
    }

    fn knows_item(&self, item: &ItemText) -> bool
        ensures { result ≡ knows_item self.now item.now }
    {
        match item {
            ItemText::Slot { ty, .. } => self.knows_type(ty),
            ItemText::Locals => true,
        }
    }

    fn knows_result(&self, ty: &Option<TypeText>) -> bool
        ensures { result ≡ knows_result self.now ty.now }
    {
        match ty {
            Some(ty) => self.knows_type(ty),
            None => true,
        }
    }

    fn knows_locals(&self, locals: &Option<Name>) -> bool
        ensures { result ≡ knows_locals self.now locals.now }
    {
        match locals {
            Some(shape) => self.shape.has(shape),
            None => true,
        }
    }

    // ---- the names in a table

    fn knows_fields(&self, shape: &ShapeDraft) -> bool
        ensures { result ≡ knows_fields self.now shape.now }
    {
        let mut fields = shape.fields.as_slice().iter();
        fields.all(|field| self.knows_cell(&field.cell))
    }

    fn knows_params(&self, function: &FunctionDraft) -> bool
        ensures { result ≡ knows_params self.now function.now }
    {
        let mut params = function.params.as_slice().iter();
        params.all(|param| self.knows_type(&param.ty))
    }

    fn knows_regs(&self, point: &PointDraft) -> bool
        ensures { result ≡ knows_regs self.now point.now }
    {
        let mut regs = point.regs.as_slice().iter();
        regs.all(|register| self.knows_type(&register.ty))
    }

    fn knows_stack(&self, point: &PointDraft) -> bool
        ensures { result ≡ knows_stack self.now point.now }
    {
        let mut items = point.stack.as_slice().iter();
        items.all(|item| self.knows_item(item))
    }

    fn knows_wants(&self, signature: &SignatureDraft) -> bool
        ensures { result ≡ knows_wants self.now signature.now }
    {
        let mut params = signature.params.as_slice().iter();
        params.all(|param| self.knows_want(&param.want))
    }

    // ---- the first item with a name that isn't there

    fn first_unknown_fields(&self, shapes: &[ShapeDraft]) -> Option<usize>
        ensures { result ≡ position (λ s. not (knows_fields self.now s)) shapes.now }
    {
        shapes.iter().position(|shape| !self.knows_fields(shape))
    }

    fn first_unknown_static(&self, statics: &[StaticDraft]) -> Option<usize>
        ensures { result ≡ position (λ o. not (is_named o.shape self.now.shape)) statics.now }
    {
        statics
            .iter()
            .position(|object| !self.shape.has(&object.shape))
    }

    fn first_unknown_thunk(&self, thunks: &[ThunkDraft]) -> Option<usize>
        ensures { result ≡ position (λ o. not (is_named o.function self.now.function)) thunks.now }
    {
        thunks
            .iter()
            .position(|thunk| !self.function.has(&thunk.function))
    }

    fn first_unknown_locals(&self, functions: &[FunctionDraft]) -> Option<usize>
        ensures { result ≡ position (λ f. not (knows_locals self.now f.locals)) functions.now }
    {
        functions
            .iter()
            .position(|function| !self.knows_locals(&function.locals))
    }

    fn first_unknown_params(&self, functions: &[FunctionDraft]) -> Option<usize>
        ensures { result ≡ position (λ f. not (knows_params self.now f)) functions.now }
    {
        functions
            .iter()
            .position(|function| !self.knows_params(function))
    }

    fn first_unknown_result(&self, functions: &[FunctionDraft]) -> Option<usize>
        ensures { result ≡ position (λ f. not (knows_type self.now f.result)) functions.now }
    {
        functions
            .iter()
            .position(|function| !self.knows_type(&function.result))
    }

    fn first_unknown_regs(&self, points: &[PointDraft]) -> Option<usize>
        ensures { result ≡ position (λ p. not (knows_regs self.now p)) points.now }
    {
        points.iter().position(|point| !self.knows_regs(point))
    }

    fn first_unknown_stack(&self, points: &[PointDraft]) -> Option<usize>
        ensures { result ≡ position (λ p. not (knows_stack self.now p)) points.now }
    {
        points.iter().position(|point| !self.knows_stack(point))
    }

    fn first_unknown_wants(&self, signatures: &[SignatureDraft]) -> Option<usize>
        ensures { result ≡ position (λ s. not (knows_wants self.now s)) signatures.now }
    {
        signatures
            .iter()
            .position(|signature| !self.knows_wants(signature))
    }

    fn first_unknown_native_result(&self, signatures: &[SignatureDraft]) -> Option<usize>
        ensures { result ≡ position (λ s. not (knows_result self.now s.result.ty)) signatures.now }
    {
        signatures
            .iter()
            .position(|signature| !self.knows_result(&signature.result.ty))
    }

    fn first_unknown_site(&self, sites: &[SiteDraft]) -> Option<usize>
        ensures { result ≡ position (λ s. not (is_named s.signature self.now.signature)) sites.now }
    {
        sites
            .iter()
            .position(|site| !self.signature.has(&site.signature))
    }
}

// ---- the first name that isn't there

fn unknown_in_shapes(names: &NameTables, draft: &NotesDraft) -> Option<Finding>
    ensures { result ≡ unknown_in_shapes names.now draft.now }
{
    let item = names.first_unknown_fields(draft.shape.as_slice());
    Finding::at(TableList::Shape, Key::Fields, item)
}

fn unknown_in_statics(names: &NameTables, draft: &NotesDraft) -> Option<Finding>
    ensures { result ≡ unknown_in_statics names.now draft.now }
{
    let item = names.first_unknown_static(draft.statics.as_slice());
    Finding::at(TableList::Static, Key::Shape, item)
}

fn unknown_in_thunks(names: &NameTables, draft: &NotesDraft) -> Option<Finding>
    ensures { result ≡ unknown_in_thunks names.now draft.now }
{
    let item = names.first_unknown_thunk(draft.thunk.as_slice());
    Finding::at(TableList::Thunk, Key::Function, item)
}

fn unknown_in_functions(names: &NameTables, draft: &NotesDraft) -> Option<Finding>
    ensures { result ≡ unknown_in_functions names.now draft.now }
{
    let functions = draft.function.as_slice();
    let locals = names.first_unknown_locals(functions);
    let params = names.first_unknown_params(functions);
    let result = names.first_unknown_result(functions);
    Finding::sooner(
        Finding::at(TableList::Function, Key::Locals, locals),
        Finding::sooner(
            Finding::at(TableList::Function, Key::Params, params),
            Finding::at(TableList::Function, Key::Result, result),
        ),
    )
}

fn unknown_in_points(names: &NameTables, draft: &NotesDraft) -> Option<Finding>
    ensures { result ≡ unknown_in_points names.now draft.now }
{
    let points = draft.point.as_slice();
    Finding::sooner(
        Finding::at(
            TableList::Point,
            Key::Regs,
            names.first_unknown_regs(points),
        ),
        Finding::at(
            TableList::Point,
            Key::Stack,
            names.first_unknown_stack(points),
        ),
    )
}

fn unknown_in_signatures(names: &NameTables, draft: &NotesDraft) -> Option<Finding>
    ensures { result ≡ unknown_in_signatures names.now draft.now }
{
    let signatures = draft.signature.as_slice();
    let wants = names.first_unknown_wants(signatures);
    let result = names.first_unknown_native_result(signatures);
    Finding::sooner(
        Finding::at(TableList::Signature, Key::Params, wants),
        Finding::at(TableList::Signature, Key::Result, result),
    )
}

fn unknown_in_sites(names: &NameTables, draft: &NotesDraft) -> Option<Finding>
    ensures { result ≡ unknown_in_sites names.now draft.now }
{
    let item = names.first_unknown_site(draft.site.as_slice());
    Finding::at(TableList::Site, Key::Signature, item)
}

// The first name in a list of tables that isn't there.
#[tactic(auto, unfolding(crate::specs::Known::unknown))]
fn unknown(names: &NameTables, draft: &NotesDraft) -> Option<Finding>
    ensures { result ≡ unknown names.now draft.now }
{
    unknown_in_shapes(names, draft)
        .or_else(|| unknown_in_statics(names, draft))
        .or_else(|| unknown_in_thunks(names, draft))
        .or_else(|| unknown_in_functions(names, draft))
        .or_else(|| unknown_in_points(names, draft))
        .or_else(|| unknown_in_signatures(names, draft))
        .or_else(|| unknown_in_sites(names, draft))
}

/// Nothing where each name that notes use is there.
///
/// # Errors
///
/// `TomlFault::Name` with the path of the first that isn't; no memory.
#[tactic(auto, unfolding(crate::specs::Known::known))]
pub fn all_known(alloc: Global, names: &NameTables, draft: &NotesDraft) -> Result<(), NotesEnd>
    ensures { Gives result (known names.now draft.now) }
{
    if !names.function.has(&draft.entry) {
        let path = Name::new(String::from_str(alloc, "entry")?);
        return Err(NotesEnd::Fault(TomlFault::Name(path)));
    }
    refuse(alloc, Refusal::Name, unknown(names, draft))
}

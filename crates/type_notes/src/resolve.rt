//! Texts and tables whose names are numbers.
ghost use Rattle.std.specs.Prelude.{◌≡◌, map, IfOk, bytes_eq};
ghost use Rattle.std.specs.List.{position};
ghost use Rattle.note_draft.specs.declared.tables.NameTables.{NameTables};
ghost use Rattle.type_notes.specs.Locals.{IsFieldSet, field_bit, field_number, field_set};
ghost use Rattle.type_notes.specs.Owners.{AreOwners};
ghost use Rattle.type_notes.specs.Resolved.{resolved, resolved_cell, resolved_field, resolved_function, resolved_item, resolved_locals};
ghost use Rattle.type_notes.specs.Resolved.{resolved_param, resolved_point, resolved_result, resolved_shape, resolved_signature};
ghost use Rattle.type_notes.specs.Resolved.{resolved_site, resolved_static, resolved_thunk, resolved_type, resolved_want};
ghost use Rattle.type_notes.specs.Resolved.{resolved_want_param};

use crate::points::resolve_points;
use note_draft::{
    FunctionDraft, NameTables, NotesDraft, ShapeDraft, SignatureDraft, SiteDraft, StaticDraft,
    ThunkDraft,
};
use note_texts::{CellText, FieldText, ItemText, ParamText, TypeText, WantParamText, WantText};
use note_types::{
    Cell, Field, FnNote, Functions, Item, Name, Names, NoMemory, Notes, Param, Placed, PlacedList,
    Points, Sequence, Shape, Shapes, Signature, Signatures, Site, Sites, Static, Statics, Thunk,
    Thunks, Ty, Want, WantParam,
};
use std::alloc::Global;

// ---- texts

#[tactic(auto, unfolding(crate::specs::Resolved::resolved_cell))]
fn resolve_cell(names: &NameTables, cell: &CellText) -> Cell
    ensures { result ≡ resolved_cell names.now cell.now }
{
    match cell {
        CellText::I8 => Cell::I8,
        CellText::I16 => Cell::I16,
        CellText::I32 => Cell::I32,
        CellText::I64 => Cell::I64,
        CellText::N => Cell::N,
        CellText::Stat => Cell::Stat,
        CellText::Handle => Cell::Handle,
        CellText::Entry => Cell::Entry,
        CellText::Ptr { shape, count, null } => Cell::Ptr {
            shape: names.shape.number(shape),
            count: *count,
            null: *null,
        },
        CellText::P64 { shape, count, null } => Cell::P64 {
            shape: names.shape.number(shape),
            count: *count,
            null: *null,
        },
        CellText::Method(method) => Cell::Method(names.method.number(method)),
    }
}

/// A type, where the locals have these fields.
#[tactic(auto, unfolding(crate::specs::Resolved::resolved_type))]
pub fn resolve_type(names: &NameTables, fields: &[FieldText], ty: &TypeText) -> Ty
    ensures { result ≡ resolved_type names.now fields.now ty.now }
{
    match ty {
        TypeText::Any => Ty::Any,
        TypeText::Int { lo, hi, div } => Ty::Int {
            lo: *lo,
            hi: *hi,
            div: *div,
        },
        TypeText::Lin { n, c } => Ty::Lin { n: *n, c: *c },
        TypeText::Scaled { n, c, hi } => Ty::Scaled {
            n: *n,
            c: *c,
            hi: *hi,
        },
        TypeText::Ptr {
            shape,
            count,
            n,
            c,
            null,
        } => Ty::Ptr {
            shape: names.shape.number(shape),
            count: *count,
            n: *n,
            c: *c,
            null: *null,
        },
        TypeText::Local(field) => Ty::Local(field_number(fields, field)),
        TypeText::Lent(cell) => Ty::Lent(resolve_cell(names, cell)),
        TypeText::Status(grants) => Ty::Status(field_set(fields, grants)),
        TypeText::SignedStatus(grants) => Ty::SignedStatus(field_set(fields, grants)),
        TypeText::Mask => Ty::Mask,
        TypeText::Handle => Ty::Handle,
        TypeText::Entry => Ty::Entry,
        TypeText::Method(method) => Ty::Method(names.method.number(method)),
        TypeText::ThunkAt(thunk) => Ty::ThunkAt(*thunk),
        TypeText::Saved(register) => Ty::Saved(*register),
    }
}

#[tactic(auto, unfolding(crate::specs::Resolved::resolved_want))]
fn resolve_want(names: &NameTables, want: &WantText) -> Want
    ensures { result ≡ resolved_want names.now want.now }
{
    match want {
        WantText::Any => Want::Any,
        WantText::Int { lo, hi } => Want::Int { lo: *lo, hi: *hi },
        WantText::Size { n, c } => Want::Size { n: *n, c: *c },
        WantText::Ptr => Want::Ptr,
        WantText::Handle => Want::Handle,
        WantText::Status => Want::Status,
        WantText::Entry => Want::Entry,
        WantText::Out(cell) => Want::Out(resolve_cell(names, cell)),
        WantText::Inout(cell) => Want::Inout(resolve_cell(names, cell)),
    }
}

#[tactic(auto, unfolding(crate::specs::Resolved::resolved_item))]
pub fn resolve_item(names: &NameTables, fields: &[FieldText], item: &ItemText) -> Item
    ensures { result ≡ resolved_item names.now fields.now item.now }
{
    match item {
        ItemText::Slot { kind, ty } => Item::Slot {
            kind: *kind,
            ty: resolve_type(names, fields, ty),
        },
        ItemText::Locals => Item::Locals,
    }
}

#[tactic(auto, unfolding(crate::specs::Resolved::resolved_locals))]
fn resolve_locals(names: &NameTables, locals: &Option<Name>) -> Option<u32>
    ensures { result ≡ resolved_locals names.now locals.now }
{
    match locals {
        Some(shape) => Some(names.shape.number(shape)),
        None => None,
    }
}

#[tactic(auto, unfolding(crate::specs::Resolved::resolved_result))]
fn resolve_result(names: &NameTables, ty: &Option<TypeText>) -> Option<Ty>
    ensures { result ≡ resolved_result names.now ty.now }
{
    match ty {
        Some(ty) => Some(resolve_type(names, &[], ty)),
        None => None,
    }
}

/// The number of the field of that name; 64 where none of the first 64 has it.
#[tactic(auto, unfolding(crate::specs::Locals::field_number))]
fn field_number(fields: &[FieldText], name: &Name) -> u32
    ensures { result ≡ field_number fields.now name.now }
{
    match field_position(fields, name) {
        Some(number) if number < 64 => number as u32,
        _ => 64,
    }
}

fn field_position(fields: &[FieldText], name: &Name) -> Option<usize>
    ensures { result ≡ position (λ f. bytes_eq f.name name.now) fields.now }
{
    fields.iter().position(|field| field.name == *name)
}

fn field_bit(number: u32) -> u64
    ensures { result ≡ field_bit number }
{
    if number < 64 { 1 << number } else { 0 }
}

#[tactic(auto, unfolding(crate::specs::Locals::field_set))]
fn field_bits(fields: &[FieldText], names: &Names) -> u64
    ensures { result ≡ field_set fields.now names.now }
{
    names
        .as_slice()
        .iter()
        .fold(0, |set, name| set | field_bit(field_number(fields, name)))
}

/// The set of the fields of these names, as its bits: bit f is set exactly where f is below 64 and some name is that of
/// field f.
pub fn field_set(fields: &[FieldText], names: &Names) -> u64
    ensures value { result ≡ field_set fields.now names.now }
    ensures fields { IsFieldSet fields.now names.now result }
{
    field_bits(fields, names)
}

// ---- tables

/// What has names of things of the notes, which are to be their numbers.
pub trait Resolve {
    type Resolved: Drop;

    /// The same with numbers.
    ghost resolved: { NameTables → Self → Self.Resolved };

    /// The same with numbers.
    ///
    /// # Errors
    ///
    /// There was no memory.
    fn resolve(&self, alloc: Global, names: &NameTables) -> Result<Self::Resolved, NoMemory>
        ensures { IfOk result (λ value. value ≡ resolved names.now self.now) };
}

/// All items of a list with numbers.
///
/// # Errors
///
/// There was no memory.
pub fn resolve_all<T: Resolve>(
    alloc: Global,
    names: &NameTables,
    items: &[T],
) -> Result<Sequence<T::Resolved>, NoMemory>
    ensures { IfOk result (λ values. values ≡ map (T.resolved names.now) items.now) }
{
    let mut values = Vec::new(alloc);
    for item in items {
        values.push(item.resolve(alloc, names)?)?;
    }
    Ok(Sequence::new(values))
}

// Things that begin at places, with numbers, in their order.
fn resolve_placed<T: Resolve>(
    alloc: Global,
    names: &NameTables,
    items: &[T],
) -> Result<PlacedList<T::Resolved>, NoMemory>
where
    T::Resolved: Placed,
    ensures { IfOk result (λ values. values ≡ map (T.resolved names.now) items.now) }
{
    let values = resolve_all(alloc, names, items)?;
    Ok(PlacedList::new(alloc, values.into_vec())?)
}

impl Resolve for FieldText {
    type Resolved = Field;

    ghost resolved = { resolved_field };

    #[tactic(auto, unfolding(crate::specs::Resolved::resolved_field))]
    fn resolve(&self, alloc: Global, names: &NameTables) -> Result<Field, NoMemory> {
        Ok(Field {
            name: self.name.copy(alloc)?,
            n: self.n,
            c: self.c,
            cell: resolve_cell(names, &self.cell),
        })
    }
}

impl Resolve for ParamText {
    type Resolved = Param;

    ghost resolved = { resolved_param };

    #[tactic(auto, unfolding(crate::specs::Resolved::resolved_param))]
    fn resolve(&self, _: Global, names: &NameTables) -> Result<Param, NoMemory> {
        Ok(Param {
            kind: self.kind,
            ty: resolve_type(names, &[], &self.ty),
        })
    }
}

impl Resolve for WantParamText {
    type Resolved = WantParam;

    ghost resolved = { resolved_want_param };

    #[tactic(auto, unfolding(crate::specs::Resolved::resolved_want_param))]
    fn resolve(&self, _: Global, names: &NameTables) -> Result<WantParam, NoMemory> {
        Ok(WantParam {
            kind: self.kind,
            want: resolve_want(names, &self.want),
        })
    }
}

impl Resolve for ShapeDraft {
    type Resolved = Shape;

    ghost resolved = { resolved_shape };

    #[tactic(auto, unfolding(crate::specs::Resolved::resolved_shape))]
    fn resolve(&self, alloc: Global, names: &NameTables) -> Result<Shape, NoMemory> {
        Ok(Shape {
            name: self.name.copy(alloc)?,
            n: self.n,
            c: self.c,
            fields: resolve_all(alloc, names, self.fields.as_slice())?,
        })
    }
}

impl Resolve for StaticDraft {
    type Resolved = Static;

    ghost resolved = { resolved_static };

    #[tactic(auto, unfolding(crate::specs::Resolved::resolved_static))]
    fn resolve(&self, _: Global, names: &NameTables) -> Result<Static, NoMemory> {
        Ok(Static {
            place: self.place,
            shape: names.shape.number(&self.shape),
            count: self.count,
        })
    }
}

impl Resolve for ThunkDraft {
    type Resolved = Thunk;

    ghost resolved = { resolved_thunk };

    #[tactic(auto, unfolding(crate::specs::Resolved::resolved_thunk))]
    fn resolve(&self, _: Global, names: &NameTables) -> Result<Thunk, NoMemory> {
        Ok(Thunk {
            place: self.place,
            function: names.function.number(&self.function),
        })
    }
}

impl Resolve for FunctionDraft {
    type Resolved = FnNote;

    ghost resolved = { resolved_function };

    #[tactic(auto, unfolding(crate::specs::Resolved::resolved_function))]
    fn resolve(&self, alloc: Global, names: &NameTables) -> Result<FnNote, NoMemory> {
        Ok(FnNote {
            name: self.name.copy(alloc)?,
            place: self.place,
            end: self.end,
            level: self.level,
            need: self.need,
            locals: resolve_locals(names, &self.locals),
            params: resolve_all(alloc, names, self.params.as_slice())?,
            result: resolve_type(names, &[], &self.result),
            enter: self.enter,
        })
    }
}

impl Resolve for SignatureDraft {
    type Resolved = Signature;

    ghost resolved = { resolved_signature };

    #[tactic(auto, unfolding(crate::specs::Resolved::resolved_signature))]
    fn resolve(&self, alloc: Global, names: &NameTables) -> Result<Signature, NoMemory> {
        Ok(Signature {
            name: self.name.copy(alloc)?,
            method: names.method.number(&self.method),
            params: resolve_all(alloc, names, self.params.as_slice())?,
            result: resolve_result(names, &self.result.ty),
        })
    }
}

impl Resolve for SiteDraft {
    type Resolved = Site;

    ghost resolved = { resolved_site };

    #[tactic(auto, unfolding(crate::specs::Resolved::resolved_site))]
    fn resolve(&self, _: Global, names: &NameTables) -> Result<Site, NoMemory> {
        Ok(Site {
            place: self.place,
            signature: names.signature.number(&self.signature),
        })
    }
}

// ---- the whole

/// The lists of data with numbers.
#[derive(Drop)]
struct DataNotes {
    shape: Shapes,
    statics: Statics,
    thunk: Thunks,
}

fn resolve_data(
    alloc: Global,
    names: &NameTables,
    draft: &NotesDraft,
) -> Result<DataNotes, NoMemory>
    ensures shape { IfOk result (λ lists. lists.shape ≡ map (resolved_shape names.now) draft.now.shape) }
    ensures statics { IfOk result (λ lists. lists.statics ≡ map (resolved_static names.now) draft.now.statics) }
    ensures thunk { IfOk result (λ lists. lists.thunk ≡ map (resolved_thunk names.now) draft.now.thunk) }
{
    Ok(DataNotes {
        shape: resolve_all(alloc, names, draft.shape.as_slice())?,
        statics: resolve_placed(alloc, names, draft.statics.as_slice())?,
        thunk: resolve_placed(alloc, names, draft.thunk.as_slice())?,
    })
}

/// The lists of code with numbers.
#[derive(Drop)]
struct CodeNotes {
    function: Functions,
    point: Points,
}

fn resolve_code(
    alloc: Global,
    names: &NameTables,
    draft: &NotesDraft,
    owners: &[usize],
) -> Result<CodeNotes, NoMemory>
    requires { AreOwners draft.now.function draft.now.point owners.now }
    ensures function { IfOk result (λ lists. lists.function ≡ map (resolved_function names.now) draft.now.function) }
    ensures point { IfOk result (λ lists. lists.point ≡ map (resolved_point names.now draft.now) draft.now.point) }
{
    Ok(CodeNotes {
        function: resolve_placed(alloc, names, draft.function.as_slice())?,
        point: resolve_points(alloc, names, draft, owners)?,
    })
}

/// The lists of native calls with numbers.
#[derive(Drop)]
struct CallNotes {
    signature: Signatures,
    site: Sites,
}

fn resolve_calls(
    alloc: Global,
    names: &NameTables,
    draft: &NotesDraft,
) -> Result<CallNotes, NoMemory>
    ensures signature { IfOk result (λ lists. lists.signature ≡ map (resolved_signature names.now) draft.now.signature) }
    ensures site { IfOk result (λ lists. lists.site ≡ map (resolved_site names.now) draft.now.site) }
{
    Ok(CallNotes {
        signature: resolve_all(alloc, names, draft.signature.as_slice())?,
        site: resolve_all(alloc, names, draft.site.as_slice())?,
    })
}

/// All lists with numbers.
#[derive(Drop)]
struct ListNotes {
    things: DataNotes,
    code: CodeNotes,
    calls: CallNotes,
}

fn resolve_lists(
    alloc: Global,
    names: &NameTables,
    draft: &NotesDraft,
    owners: &[usize],
) -> Result<ListNotes, NoMemory>
    requires { AreOwners draft.now.function draft.now.point owners.now }
    ensures shape { IfOk result (λ lists. lists.things.shape ≡ map (resolved_shape names.now) draft.now.shape) }
    ensures statics { IfOk result (λ lists. lists.things.statics ≡ map (resolved_static names.now) draft.now.statics) }
    ensures thunk { IfOk result (λ lists. lists.things.thunk ≡ map (resolved_thunk names.now) draft.now.thunk) }
    ensures function { IfOk result (λ lists. lists.code.function ≡ map (resolved_function names.now) draft.now.function) }
    ensures point { IfOk result (λ lists. lists.code.point ≡ map (resolved_point names.now draft.now) draft.now.point) }
    ensures signature { IfOk result (λ lists. lists.calls.signature ≡ map (resolved_signature names.now) draft.now.signature) }
    ensures site { IfOk result (λ lists. lists.calls.site ≡ map (resolved_site names.now) draft.now.site) }
{
    let things = resolve_data(alloc, names, draft)?;
    let code = resolve_code(alloc, names, draft, owners)?;
    let calls = resolve_calls(alloc, names, draft)?;
    Ok(ListNotes {
        things,
        code,
        calls,
    })
}

fn methods_of(alloc: Global, names: NameTables) -> Result<Names, NoMemory>
    ensures { IfOk result (λ methods. methods ≡ names.method) }
{
    let NameTables {
        shape,
        function,
        signature,
        method,
    } = names;
    drop(shape);
    drop(function);
    drop(signature);
    Ok(method.into_names(alloc)?)
}

// The notes that have these lists, and the methods of the names.
fn notes_of_lists(
    alloc: Global,
    version: u32,
    entry: u32,
    lists: ListNotes,
    names: NameTables,
) -> Result<Notes, NoMemory>
    ensures { IfOk result (λ notes.
        notes ≡ record {
          version = version;
          entry = entry;
          shape = lists.things.shape;
          statics = lists.things.statics;
          thunk =
              lists.things.thunk;
          function = lists.code.function;
          point = lists.code.point;
          signature = lists.calls.signature;
          site =
              lists.calls.site;
          methods = names.method;
        }) }
{
    let methods = methods_of(alloc, names)?;
    let ListNotes {
        things,
        code,
        calls,
    } = lists;
    Ok(Notes {
        version,
        entry,
        shape: things.shape,
        statics: things.statics,
        thunk: things.thunk,
        function: code.function,
        point: code.point,
        signature: calls.signature,
        site: calls.site,
        methods,
    })
}

/// The notes that a draft stands for. The owner of a point is the number of its function.
///
/// # Errors
///
/// There was no memory.
#[tactic(auto, unfolding(crate::specs::Resolved::resolved))]
pub fn resolve_notes(
    alloc: Global,
    names: NameTables,
    draft: &NotesDraft,
    owners: &[usize],
) -> Result<Notes, NoMemory>
    requires { AreOwners draft.now.function draft.now.point owners.now }
    ensures { IfOk result (λ notes. notes ≡ resolved names draft.now) }
{
    let entry = names.function.number(&draft.entry);
    let lists = resolve_lists(alloc, &names, draft, owners)?;
    notes_of_lists(alloc, draft.version, entry, lists, names)
}

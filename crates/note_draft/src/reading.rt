//! The first pass over notes: the draft that a TOML table stands for, by its keys and those of the tables of its lists.
ghost use Rattle.std.specs.Prelude.{◌≡◌, ◌≤◌, ◌<◌, ◌-◌, ◌^◌, [], length, IfOk};
ghost use Rattle.toml.specs.View.{view, table_view, items_view};
ghost use Rattle.note_texts.specs.Keys.{only_keys};
ghost use Rattle.ebc_base.specs.Tables.{with_name};
ghost use Rattle.note_texts.specs.Outcome.{Gives, GivesBy};
ghost use Rattle.note_draft.specs.Drafts.{call_lists, code_lists, data_lists, draft_keys, draft_lists, extent_of, function_enter};
ghost use Rattle.note_draft.specs.Drafts.{function_keys, interface_of, shape_of, static_of, thunk_of, function_of, point_keys, point_made};
ghost use Rattle.note_draft.specs.Drafts.{point_of, has_room, method_of, signature_in, signature_of, signature_result, site_of};
ghost use Rattle.note_draft.specs.Drafts.{signatures_from, signatures_at, draft_of};

use crate::draft::{
    FunctionDraft, NotesDraft, PointDraft, ShapeDraft, SignatureDraft, SiteDraft, StaticDraft,
    ThunkDraft,
};
use crate::stack::StackText;
use ebc_base::NameTable;
use note_texts::{
    FieldText, FromTable, ItemText, ParamText, RegisterText, ResultText, Row, TypeText,
    WantParamText, row_prefix, table_of_item,
};
use note_types::{Name, Names, NotesEnd, Pair, Sequence, TomlFault, point_limit};
use std::alloc::Global;
use toml::{Table, Value};

/// The greatest place in an image, in bytes.
const LAST_PLACE: u64 = 4_194_303;

const MAX_FIELDS: usize = 256;

const MAX_PARAMS: usize = 16;

/// Slots of a stack, beside the locals.
const MAX_SLOTS: usize = 64;

const MAX_SHAPES: usize = 1024;

const MAX_FUNCTIONS: usize = 4096;

const MAX_METHODS: usize = 1024;

/// Tables of a list that has no lower limit.
const MAX_TABLES: usize = 4_294_967_295;

impl FromTable for ShapeDraft {
    ghost reads_as = { shape_of };

    #[tactic(auto, unfolding(crate::specs::Drafts::shape_of))]
    fn from_table(alloc: Global, row: Row) -> Result<Self, NotesEnd> {
        let name = row.text::<Name>(alloc, "name")?;
        let size = row.pair(alloc, "size", u32::MAX as u64)?;
        let fields = row.texts::<FieldText>(alloc, "fields", MAX_FIELDS)?;
        row.only_keys(alloc, &["name", "size", "fields"])?;
        Ok(ShapeDraft {
            name,
            n: size.n as u32,
            c: size.c as u32,
            fields: Sequence::new(fields),
        })
    }
}

impl FromTable for StaticDraft {
    ghost reads_as = { static_of };

    #[tactic(auto, unfolding(crate::specs::Drafts::static_of))]
    fn from_table(alloc: Global, row: Row) -> Result<Self, NotesEnd> {
        let place = row.number(alloc, "place", 0, LAST_PLACE)?;
        let shape = row.text::<Name>(alloc, "shape")?;
        let count = row.number(alloc, "count", 1, u64::MAX)?;
        row.only_keys(alloc, &["place", "shape", "count"])?;
        Ok(StaticDraft {
            place: place as u32,
            shape,
            count,
        })
    }
}

impl FromTable for ThunkDraft {
    ghost reads_as = { thunk_of };

    #[tactic(auto, unfolding(crate::specs::Drafts::thunk_of))]
    fn from_table(alloc: Global, row: Row) -> Result<Self, NotesEnd> {
        let place = row.number(alloc, "place", 0, LAST_PLACE)?;
        let function = row.text::<Name>(alloc, "function")?;
        row.only_keys(alloc, &["place", "function"])?;
        Ok(ThunkDraft {
            place: place as u32,
            function,
        })
    }
}

/// Where a function's code lies, and how deep its calls and its stack go.
#[derive(Clone, Copy)]
pub struct Extent {
    pub place: u32,
    pub end: u32,
    pub level: u64,
    pub need: Pair,
}

#[tactic(auto, unfolding(crate::specs::Drafts::extent_of))]
fn extent_of(alloc: Global, row: Row) -> Result<Extent, NotesEnd>
    ensures { Gives result (extent_of row.entry.prefix.now (table_view row.entry.table.now)) }
{
    let place = row.number(alloc, "place", 0, LAST_PLACE)?;
    let end = row.number(alloc, "end", 0, LAST_PLACE + 1)?;
    let level = row.number(alloc, "level", 0, u64::MAX)?;
    let need = row.pair(alloc, "need", u64::MAX)?;
    Ok(Extent {
        place: place as u32,
        end: end as u32,
        level,
        need,
    })
}

/// What a function keeps, takes and gives.
#[derive(Drop)]
pub struct Interface {
    pub locals: Option<Name>,
    pub params: Sequence<ParamText>,
    pub result: TypeText,
}

#[tactic(auto, unfolding(crate::specs::Drafts::interface_of))]
fn interface_of(alloc: Global, row: Row) -> Result<Interface, NotesEnd>
    ensures { Gives result (interface_of row.entry.prefix.now (table_view row.entry.table.now)) }
{
    let locals = row.optional_text::<Name>(alloc, "locals")?;
    let params = row.texts::<ParamText>(alloc, "params", MAX_PARAMS)?;
    let result = row.text::<TypeText>(alloc, "result")?;
    Ok(Interface {
        locals,
        params: Sequence::new(params),
        result,
    })
}

fn only_function_keys(alloc: Global, row: Row) -> Result<(), NotesEnd>
    ensures { Gives result (only_keys row.entry.prefix.now function_keys (table_view row.entry.table.now)) }
{
    row.only_keys(
        alloc,
        &[
            "name", "place", "end", "level", "need", "locals", "params", "result", "enter",
        ],
    )
}

// Whether a function is marked `enter`; its table may have no keys but a function's.
#[tactic(auto, unfolding(crate::specs::Drafts::function_enter))]
fn function_enter(alloc: Global, row: Row) -> Result<bool, NotesEnd>
    ensures { Gives result (function_enter row.entry.prefix.now (table_view row.entry.table.now)) }
{
    let enter = row.flag(alloc, "enter")?;
    only_function_keys(alloc, row)?;
    Ok(enter)
}

impl FromTable for FunctionDraft {
    ghost reads_as = { function_of };

    #[tactic(auto, unfolding(crate::specs::Drafts::function_of))]
    fn from_table(alloc: Global, row: Row) -> Result<Self, NotesEnd> {
        let name = row.text::<Name>(alloc, "name")?;
        let extent = extent_of(alloc, row)?;
        let interface = interface_of(alloc, row)?;
        let enter = function_enter(alloc, row)?;
        let Interface {
            locals,
            params,
            result,
        } = interface;
        Ok(FunctionDraft {
            name,
            place: extent.place,
            end: extent.end,
            level: extent.level,
            need: extent.need,
            locals,
            params,
            result,
            enter,
        })
    }
}

fn only_point_keys(alloc: Global, row: Row) -> Result<(), NotesEnd>
    ensures { Gives result (only_keys row.entry.prefix.now point_keys (table_view row.entry.table.now)) }
{
    row.only_keys(alloc, &["place", "regs", "stack", "written", "made"])
}

// How many thunks are made at a point; its table may have no keys but a point's.
#[tactic(auto, unfolding(crate::specs::Drafts::point_made))]
fn point_made(alloc: Global, row: Row) -> Result<u32, NotesEnd>
    ensures { Gives result (point_made row.entry.prefix.now (table_view row.entry.table.now)) }
{
    let made = row.number(alloc, "made", 0, u32::MAX as u64)?;
    only_point_keys(alloc, row)?;
    Ok(made as u32)
}

impl FromTable for PointDraft {
    ghost reads_as = { point_of };

    #[tactic(auto, unfolding(crate::specs::Drafts::point_of))]
    fn from_table(alloc: Global, row: Row) -> Result<Self, NotesEnd> {
        let place = row.number(alloc, "place", 0, LAST_PLACE)?;
        let regs = row.texts::<RegisterText>(alloc, "regs", usize::MAX)?;
        let stack = row.texts_beside::<ItemText>(alloc, "stack", MAX_SLOTS, "locals")?;
        let written = row.texts::<Name>(alloc, "written", usize::MAX)?;
        let made = point_made(alloc, row)?;
        Ok(PointDraft {
            place: place as u32,
            regs: Sequence::new(regs),
            stack: StackText::new(stack),
            written: Names::new(written),
            made,
        })
    }
}

impl FromTable for SiteDraft {
    ghost reads_as = { site_of };

    #[tactic(auto, unfolding(crate::specs::Drafts::site_of))]
    fn from_table(alloc: Global, row: Row) -> Result<Self, NotesEnd> {
        let place = row.number(alloc, "place", 0, LAST_PLACE)?;
        let signature = row.text::<Name>(alloc, "signature")?;
        row.only_keys(alloc, &["place", "signature"])?;
        Ok(SiteDraft {
            place: place as u32,
            signature,
        })
    }
}

fn has_room(methods: &NameTable, method: &Name) -> bool
    ensures { result ≡ has_room methods.now method.now }
{
    methods.has(method) || methods.len() < MAX_METHODS
}

// The method of a signature after others that name these methods.
#[tactic(auto, unfolding(crate::specs::Drafts::method_of))]
fn method_of(alloc: Global, methods: &NameTable, row: Row) -> Result<Name, NotesEnd>
    ensures { Gives result (method_of methods.now row.entry.prefix.now (table_view row.entry.table.now)) }
{
    let method = row.text::<Name>(alloc, "method")?;
    if !has_room(methods, &method) {
        return Err(NotesEnd::Fault(TomlFault::Range(row.path(alloc, "method")?)));
    }
    Ok(method)
}

// The result of a signature; its table may have no keys but a signature's.
#[tactic(auto, unfolding(crate::specs::Drafts::signature_result))]
fn signature_result(alloc: Global, row: Row) -> Result<ResultText, NotesEnd>
    ensures { Gives result (signature_result row.entry.prefix.now (table_view row.entry.table.now)) }
{
    let result = row.text::<ResultText>(alloc, "result")?;
    row.only_keys(alloc, &["name", "method", "params", "result"])?;
    Ok(result)
}

// A signature after others that name these methods.
#[tactic(auto, unfolding(crate::specs::Drafts::signature_of))]
fn signature(alloc: Global, methods: &NameTable, row: Row) -> Result<SignatureDraft, NotesEnd>
    ensures { Gives result (signature_of methods.now row.entry.prefix.now (table_view row.entry.table.now)) }
{
    let name = row.text::<Name>(alloc, "name")?;
    let method = method_of(alloc, methods, row)?;
    let params = row.texts::<WantParamText>(alloc, "params", MAX_PARAMS)?;
    let result = signature_result(alloc, row)?;
    Ok(SignatureDraft {
        name,
        method,
        params: Sequence::new(params),
        result,
    })
}

fn signature_in(
    alloc: Global,
    methods: &NameTable,
    path: &str,
    index: usize,
    value: &Value,
) -> Result<SignatureDraft, NotesEnd>
    ensures { Gives result (signature_in methods.now path.now index (view value.now)) }
{
    let table = table_of_item(alloc, path, index, value)?;
    let prefix = row_prefix(alloc, path, index)?;
    signature(
        alloc,
        methods,
        Row {
            prefix: prefix.as_str(),
            table,
        },
    )
}

// A signature after others that name these methods, which get its own beside them.
fn next_signature(
    alloc: Global,
    methods: &mut NameTable,
    path: &str,
    index: usize,
    value: &Value,
) -> Result<SignatureDraft, NotesEnd>
    requires { length methods.old < 2 ^ 32 - 1 }
    ensures signature { Gives result (signature_in methods.old path.now index (view value.now)) }
    ensures methods { IfOk result (λ signature. methods.new ≡ with_name signature.method methods.old) }
{
    let signature = signature_in(alloc, methods, path, index, value)?;
    methods.add(alloc, &signature.method)?;
    Ok(signature)
}

// The signatures of a list; their methods are put into the table, which has none before.
fn next_signatures(
    alloc: Global,
    methods: &mut NameTable,
    path: &str,
    values: &[Value],
) -> Result<Vec<SignatureDraft>, NotesEnd>
    requires few { length values.now < 2 ^ 32 }
    requires none { methods.old ≡ [] }
    ensures signatures { GivesBy (λ drafts. drafts.items) result (signatures_from [] path.now 0 (items_view values.now)) }
    ensures all { IfOk result (λ drafts. length drafts.items ≡ length values.now) }
{
    let mut signatures = Vec::new(alloc);
    for i in 0..values.len() {
        signatures.push(next_signature(alloc, methods, path, i, &values[i])?)?;
    }
    Ok(signatures)
}

fn signatures_of(
    alloc: Global,
    path: &str,
    values: &[Value],
) -> Result<Vec<SignatureDraft>, NotesEnd>
    requires { length values.now < 2 ^ 32 }
    ensures signatures { GivesBy (λ drafts. drafts.items) result (signatures_from [] path.now 0 (items_view values.now)) }
    ensures all { IfOk result (λ drafts. length drafts.items ≡ length values.now) }
{
    let mut methods = NameTable::new(alloc);
    next_signatures(alloc, &mut methods, path, values)
}

#[tactic(auto, unfolding(crate::specs::Drafts::signatures_at))]
fn signatures(alloc: Global, row: Row) -> Result<Vec<SignatureDraft>, NotesEnd>
    ensures signatures { GivesBy (λ drafts. drafts.items) result (signatures_at row.entry.prefix.now (table_view row.entry.table.now)) }
    ensures within { IfOk result (λ drafts. length drafts.items < 2 ^ 32) }
{
    let values = row.list(alloc, "signature", MAX_TABLES)?;
    let path = row.path(alloc, "signature")?;
    signatures_of(alloc, path.as_str(), values)
}

/// The lists of data.
#[derive(Drop)]
pub struct DataLists {
    pub shape: Sequence<ShapeDraft>,
    pub statics: Sequence<StaticDraft>,
    pub thunk: Sequence<ThunkDraft>,
}

#[tactic(auto, unfolding(crate::specs::Drafts::data_lists))]
fn data_lists(alloc: Global, table: &Table) -> Result<DataLists, NotesEnd>
    ensures lists { Gives result (data_lists (table_view table.now)) }
    ensures shapes { IfOk result (λ lists. length lists.shape ≤ 1024) }
{
    let row = Row { prefix: "", table };
    let shape = row.tables::<ShapeDraft>(alloc, "shape", MAX_SHAPES)?;
    let statics = row.tables::<StaticDraft>(alloc, "static", MAX_TABLES)?;
    let thunk = row.tables::<ThunkDraft>(alloc, "thunk", MAX_TABLES)?;
    Ok(DataLists {
        shape: Sequence::new(shape),
        statics: Sequence::new(statics),
        thunk: Sequence::new(thunk),
    })
}

/// The lists of code.
#[derive(Drop)]
pub struct CodeLists {
    pub function: Sequence<FunctionDraft>,
    pub point: Sequence<PointDraft>,
}

#[tactic(auto, unfolding(crate::specs::Drafts::code_lists))]
fn code_lists(alloc: Global, version: u32, table: &Table) -> Result<CodeLists, NotesEnd>
    ensures lists { Gives result (code_lists version (table_view table.now)) }
    ensures functions { IfOk result (λ lists. length lists.function ≤ 4096) }
{
    let row = Row { prefix: "", table };
    let function = row.tables::<FunctionDraft>(alloc, "function", MAX_FUNCTIONS)?;
    let most = point_limit(version) as usize;
    let point = row.tables::<PointDraft>(alloc, "point", most)?;
    Ok(CodeLists {
        function: Sequence::new(function),
        point: Sequence::new(point),
    })
}

fn only_draft_keys(alloc: Global, table: &Table) -> Result<(), NotesEnd>
    ensures { Gives result (only_keys [] draft_keys (table_view table.now)) }
{
    let row = Row { prefix: "", table };
    row.only_keys(
        alloc,
        &[
            "version",
            "entry",
            "shape",
            "static",
            "thunk",
            "function",
            "point",
            "signature",
            "site",
        ],
    )
}

/// The lists of native calls.
#[derive(Drop)]
pub struct CallLists {
    pub signature: Sequence<SignatureDraft>,
    pub site: Sequence<SiteDraft>,
}

// The lists of native calls; the text may have no keys but those of notes.
#[tactic(auto, unfolding(crate::specs::Drafts::call_lists))]
fn call_lists(alloc: Global, table: &Table) -> Result<CallLists, NotesEnd>
    ensures lists { Gives result (call_lists (table_view table.now)) }
    ensures signatures { IfOk result (λ lists. length lists.signature < 2 ^ 32) }
{
    let row = Row { prefix: "", table };
    let signature = signatures(alloc, row)?;
    let site = row.tables::<SiteDraft>(alloc, "site", MAX_TABLES)?;
    only_draft_keys(alloc, table)?;
    Ok(CallLists {
        signature: Sequence::new(signature),
        site: Sequence::new(site),
    })
}

/// All lists of the text.
#[derive(Drop)]
pub struct DraftLists {
    pub things: DataLists,
    pub code: CodeLists,
    pub calls: CallLists,
}

#[tactic(auto, unfolding(crate::specs::Drafts::draft_lists))]
fn draft_lists(alloc: Global, version: u32, table: &Table) -> Result<DraftLists, NotesEnd>
    ensures lists { Gives result (draft_lists version (table_view table.now)) }
    ensures shapes { IfOk result (λ lists. length lists.things.shape ≤ 1024) }
    ensures functions { IfOk result (λ lists. length lists.code.function ≤ 4096) }
    ensures signatures { IfOk result (λ lists. length lists.calls.signature < 2 ^ 32) }
{
    let things = data_lists(alloc, table)?;
    let code = code_lists(alloc, version, table)?;
    let calls = call_lists(alloc, table)?;
    Ok(DraftLists {
        things,
        code,
        calls,
    })
}

/// The draft that a table stands for, the whole text of notes.
///
/// # Errors
///
/// The first fault, key by key in the order of docs/NOTES.md: `TomlFault::Missing`, `TomlFault::Kind` or
/// `TomlFault::Range` with the path of the key; no memory.
#[tactic(auto, unfolding(crate::specs::Drafts::draft_of))]
pub fn read_draft(alloc: Global, table: &Table) -> Result<NotesDraft, NotesEnd>
    ensures draft { Gives result (draft_of (table_view table.now)) }
    ensures shapes { IfOk result (λ draft. length draft.shape ≤ 1024) }
    ensures functions { IfOk result (λ draft. length draft.function ≤ 4096) }
    ensures signatures { IfOk result (λ draft. length draft.signature < 2 ^ 32) }
{
    let row = Row { prefix: "", table };
    let version = row.number(alloc, "version", 1, 2)? as u32;
    let entry = row.text::<Name>(alloc, "entry")?;
    let lists = draft_lists(alloc, version, table)?;
    let DraftLists {
        things,
        code,
        calls,
    } = lists;
    Ok(NotesDraft {
        version,
        entry,
        shape: things.shape,
        statics: things.statics,
        thunk: things.thunk,
        function: code.function,
        point: code.point,
        signature: calls.signature,
        site: calls.site,
    })
}

//! The first pass over scripts: the draft that a TOML table stands for, by its keys and those of the tables of its lists.
ghost use Rattle.std.specs.Prelude.{◌≡◌, [], IfOk};
ghost use Rattle.toml.specs.View.{table_view};
ghost use Rattle.note_texts.specs.Keys.{only_keys};
ghost use Rattle.note_texts.specs.Outcome.{Gives};
ghost use Rattle.script_draft.specs.Drafts.{call_keys, call_of, draft_of, notifications_of, notify_of, object_draft};
ghost use Rattle.script_draft.specs.Drafts.{reply_of, script_keys};
ghost use Rattle.script_draft.specs.Records.{IsDraft};

use crate::draft::{CallDraft, NotifyDraft, ObjectDraft, ScriptDraft};
use crate::parts::{CallbackText, CellValueText, OutText, WriteText};
use crate::value::{ArgumentText, ValueText};
use note_texts::{FromTable, Row};
use note_types::{Name, NotesEnd, Sequence};
use std::alloc::Global;
use toml::Table;

/// Items of a list.
const MAX_ITEMS: usize = 4_294_967_295;

/// Instructions that a notification waits for.
const MAX_INSTRUCTIONS: u64 = 10_000_000;

impl FromTable for ObjectDraft {
    ghost reads_as = { object_draft };

    #[tactic(auto, unfolding(crate::specs::Drafts::object_draft))]
    fn from_table(alloc: Global, row: Row) -> Result<Self, NotesEnd> {
        let shape = row.text::<Name>(alloc, "shape")?;
        let count = row.number(alloc, "count", 1, u64::MAX)?;
        let cells = row.texts::<CellValueText>(alloc, "cells", MAX_ITEMS)?;
        row.only_keys(alloc, &["shape", "count", "cells"])?;
        Ok(ObjectDraft {
            shape,
            count,
            cells: Sequence::new(cells),
        })
    }
}

/// What the firmware leaves and gives where it replies.
#[derive(Drop)]
pub struct Reply {
    pub out: Sequence<OutText>,
    pub write: Sequence<WriteText>,
    pub result: ValueText,
}

#[tactic(auto, unfolding(crate::specs::Drafts::reply_of))]
fn reply_of(alloc: Global, row: Row) -> Result<Reply, NotesEnd>
    ensures { Gives result (reply_of row.entry.prefix.now (table_view row.entry.table.now)) }
{
    let out = row.texts::<OutText>(alloc, "out", MAX_ITEMS)?;
    let write = row.texts::<WriteText>(alloc, "write", MAX_ITEMS)?;
    let result = row.text::<ValueText>(alloc, "result")?;
    Ok(Reply {
        out: Sequence::new(out),
        write: Sequence::new(write),
        result,
    })
}

fn only_call_keys(alloc: Global, row: Row) -> Result<(), NotesEnd>
    ensures { Gives result (only_keys row.entry.prefix.now call_keys (table_view row.entry.table.now)) }
{
    row.only_keys(
        alloc,
        &[
            "signature",
            "args",
            "enter",
            "make",
            "out",
            "write",
            "result",
        ],
    )
}

impl FromTable for CallDraft {
    ghost reads_as = { call_of };

    #[tactic(auto, unfolding(crate::specs::Drafts::call_of))]
    fn from_table(alloc: Global, row: Row) -> Result<Self, NotesEnd> {
        let signature = row.text::<Name>(alloc, "signature")?;
        let args = row.texts::<ArgumentText>(alloc, "args", MAX_ITEMS)?;
        let enter = row.texts::<CallbackText>(alloc, "enter", MAX_ITEMS)?;
        let make = row.tables::<ObjectDraft>(alloc, "make", MAX_ITEMS)?;
        let reply = reply_of(alloc, row)?;
        only_call_keys(alloc, row)?;
        let Reply { out, write, result } = reply;
        Ok(CallDraft {
            signature,
            args: Sequence::new(args),
            enter: Sequence::new(enter),
            make: Sequence::new(make),
            out,
            write,
            result,
        })
    }
}

impl FromTable for NotifyDraft {
    ghost reads_as = { notify_of };

    #[tactic(auto, unfolding(crate::specs::Drafts::notify_of))]
    fn from_table(alloc: Global, row: Row) -> Result<Self, NotesEnd> {
        let at = row.number(alloc, "at", 0, MAX_INSTRUCTIONS)?;
        let function = row.text::<Name>(alloc, "function")?;
        let args = row.texts::<ValueText>(alloc, "args", MAX_ITEMS)?;
        row.only_keys(alloc, &["at", "function", "args"])?;
        Ok(NotifyDraft {
            at,
            function,
            args: Sequence::new(args),
        })
    }
}

#[tactic(auto, unfolding(crate::specs::Drafts::notifications_of))]
fn notifications_of(
    alloc: Global,
    version: u32,
    table: &Table,
) -> Result<Sequence<NotifyDraft>, NotesEnd>
    ensures { Gives result (notifications_of version (table_view table.now)) }
{
    if version != 2 {
        return Ok(Sequence::new(Vec::new(alloc)));
    }
    let row = Row { prefix: "", table };
    let notify = row.tables::<NotifyDraft>(alloc, "notify", MAX_ITEMS)?;
    Ok(Sequence::new(notify))
}

fn only_script_keys(alloc: Global, version: u32, table: &Table) -> Result<(), NotesEnd>
    ensures { Gives result (only_keys [] (script_keys version) (table_view table.now)) }
{
    let row = Row { prefix: "", table };
    if version == 2 {
        return row.only_keys(alloc, &["version", "args", "object", "call", "notify"]);
    }
    row.only_keys(alloc, &["version", "args", "object", "call"])
}

#[tactic(auto, unfolding(crate::specs::Drafts::draft_of))]
fn read_keys(alloc: Global, table: &Table) -> Result<ScriptDraft, NotesEnd>
    ensures { Gives result (draft_of (table_view table.now)) }
{
    let row = Row { prefix: "", table };
    let version = row.number(alloc, "version", 1, 2)? as u32;
    let args = row.texts::<ValueText>(alloc, "args", MAX_ITEMS)?;
    let object = row.tables::<ObjectDraft>(alloc, "object", MAX_ITEMS)?;
    let call = row.tables::<CallDraft>(alloc, "call", MAX_ITEMS)?;
    let notify = notifications_of(alloc, version, table)?;
    only_script_keys(alloc, version, table)?;
    Ok(ScriptDraft {
        version,
        args: Sequence::new(args),
        object: Sequence::new(object),
        call: Sequence::new(call),
        notify,
    })
}

/// The draft that a table stands for, the whole text of a script.
///
/// # Errors
///
/// The first fault, key by key in the order of docs/SCRIPTS.md: `TomlFault::Missing`, `TomlFault::Kind` or
/// `TomlFault::Range` with the path of the key; no memory.
pub fn read_draft(alloc: Global, table: &Table) -> Result<ScriptDraft, NotesEnd>
    ensures draft { Gives result (draft_of (table_view table.now)) }
    ensures meets { IfOk result IsDraft }
{
    read_keys(alloc, table)
}

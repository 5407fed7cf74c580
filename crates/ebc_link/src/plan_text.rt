//! Reads a link plan, a TOML text, as the record that the text stands for, or tells its first fault with the key where it
//! stands. docs/LINKING.md, "Plans".

ghost use Rattle.std.specs.Prelude.{◌≡◌, ◌≢◌, ◌≤◌, ◌<◌, ◌%◌, ◌^◌, ℕ, List, [], length, codes, All, AllPairs, IfOk, OnOk, option_map};
ghost use Rattle.toml.specs.Data.{get_member};
ghost use Rattle.toml.specs.View.{view, table_view, items_view};
ghost use Rattle.note_texts.specs.Outcome.{Gives, GivesBy};
ghost use Rattle.note_texts.specs.Keys.{text_of};
ghost use Rattle.note_texts.specs.Lists.{texts_of};
ghost use Rattle.ebc_link.specs.Plans.{IsPlan};
ghost use Rattle.ebc_link.specs.PlanTexts.{base_at, object_items, object_list, objects_at, objects_once, plan_in, plan_of, some_text};

use crate::plan::LinkPlan;
use ebc_base::{Name, NameTable, Sequence};
use note_texts::{Row, document};
use note_types::{NotesEnd, TomlFault};
use std::alloc::{AllocError, Global};
use toml::{Table, Value};

/// The most objects of a plan.
const MAX_OBJECTS: usize = 256;

/// The greatest number of 32 bits.
const MAX_BASE: u64 = 4_294_967_295;

/// What each base is a multiple of: 64 KiB.
const BASE_UNIT: u64 = 65_536;

// The path of the list of the objects.
fn objects_path(alloc: Global) -> Result<Name, AllocError>
    ensures { IfOk result (λ path. path ≡ codes "objects") }
{
    Ok(Name::new(String::from_str(alloc, "objects")?))
}

fn objects_value(table: &Table) -> Option<&Value>
    ensures { option_map (λ v. view v.now) result ≡ get_member (codes "objects") (table_view table.now) }
{
    table.get("objects")
}

#[tactic(auto, unfolding(crate::specs::PlanTexts::object_list))]
fn object_list(alloc: Global, table: &Table) -> Result<&[Value], NotesEnd>
    ensures { GivesBy (λ v. items_view v.now) result (object_list (table_view table.now)) }
{
    let Some(value) = objects_value(table) else {
        return Err(NotesEnd::Fault(TomlFault::Missing(objects_path(alloc)?)));
    };
    match value.as_array() {
        Some(values) => Ok(values.as_slice()),
        None => Err(NotesEnd::Fault(TomlFault::Kind(objects_path(alloc)?))),
    }
}

#[tactic(auto, using(note_texts::proofs::Counts::count_view), unfolding(crate::specs::PlanTexts::object_items))]
fn object_items(alloc: Global, table: &Table) -> Result<&[Value], NotesEnd>
    ensures items { GivesBy (λ v. items_view v.now) result (object_items (table_view table.now)) }
    ensures some { IfOk result (λ v. 1 ≤ length v.now) }
    ensures few { IfOk result (λ v. length v.now ≤ 256) }
{
    let values = object_list(alloc, table)?;
    if values.is_empty() || values.len() > MAX_OBJECTS {
        return Err(NotesEnd::Fault(TomlFault::Range(objects_path(alloc)?)));
    }
    Ok(values)
}

// The name of an object's file.
fn object_name(alloc: Global, value: &Value) -> Result<Name, NotesEnd>
    ensures name { Gives result (text_of some_text (codes "objects") (view value.now)) }
    ensures some { IfOk result (λ name. name ≢ []) }
{
    let Some(text) = value.as_str() else {
        return Err(NotesEnd::Fault(TomlFault::Kind(objects_path(alloc)?)));
    };
    if text.is_empty() {
        return Err(NotesEnd::Fault(TomlFault::Range(objects_path(alloc)?)));
    }
    Ok(Name::new(String::from_str(alloc, text)?))
}

fn object_names(alloc: Global, values: &[Value]) -> Result<Vec<Name>, NotesEnd>
    ensures names { GivesBy (λ v. v.items) result (texts_of some_text (codes "objects") (items_view values.now)) }
    ensures all { IfOk result (λ v. length v.items ≡ length values.now) }
    ensures some { IfOk result (λ v. All (λ (name : List ℕ). name ≢ []) v.items) }
{
    let mut names = Vec::new(alloc);
    for i in 0..values.len() {
        names.push(object_name(alloc, &values[i])?)?;
    }
    Ok(names)
}

#[tactic(auto, unfolding(crate::specs::PlanTexts::objects_at))]
fn objects_at(alloc: Global, table: &Table) -> Result<Sequence<Name>, NotesEnd>
    ensures objects { Gives result (objects_at (table_view table.now)) }
    ensures some { IfOk result (λ objects. 1 ≤ length objects) }
    ensures few { IfOk result (λ objects. length objects ≤ 256) }
    ensures names { IfOk result (λ objects. All (λ (name : List ℕ). name ≢ []) objects) }
{
    let values = object_items(alloc, table)?;
    Ok(Sequence::new(object_names(alloc, values)?))
}

#[tactic(auto, unfolding(crate::specs::PlanTexts::base_at))]
fn base_at(alloc: Global, table: &Table) -> Result<u64, NotesEnd>
    ensures base { Gives result (base_at (table_view table.now)) }
    ensures whole { IfOk result (λ base. base % 65536 ≡ 0) }
    ensures small { IfOk result (λ base. base < 2 ^ 32) }
{
    let row = Row { prefix: "", table };
    let base = row.number(alloc, "base", 0, MAX_BASE)?;
    if base % BASE_UNIT != 0 {
        return Err(NotesEnd::Fault(TomlFault::Range(row.path(alloc, "base")?)));
    }
    Ok(base)
}

// Nothing where no name stands there again.
fn objects_once(alloc: Global, objects: &[Name]) -> Result<(), NotesEnd>
    requires { length objects.now ≤ 256 }
    ensures once { Gives result (objects_once objects.now) }
    ensures apart { OnOk result (AllPairs (λ (n m : List ℕ). n ≢ m) objects.now) }
{
    let mut names = NameTable::new(alloc);
    for object in objects {
        if !names.add(alloc, object)? {
            return Err(NotesEnd::Fault(TomlFault::Twice(objects_path(alloc)?)));
        }
    }
    Ok(())
}

// The plan that a table stands for, the whole text.
#[tactic(auto, unfolding(crate::specs::PlanTexts::plan_in))]
fn plan_in(alloc: Global, table: &Table) -> Result<LinkPlan, NotesEnd>
    ensures plan { Gives result (plan_in (table_view table.now)) }
    ensures sound { IfOk result IsPlan }
{
    let row = Row { prefix: "", table };
    let objects = objects_at(alloc, table)?;
    let entry = row.text::<Name>(alloc, "entry")?;
    let subsystem = row.number(alloc, "subsystem", 10, 12)?;
    let base = base_at(alloc, table)?;
    row.only_keys(alloc, &["objects", "entry", "subsystem", "base"])?;
    objects_once(alloc, objects.as_slice())?;
    Ok(LinkPlan {
        objects,
        entry,
        subsystem: subsystem as u16,
        base,
    })
}

/// The link plan that a text stands for.
///
/// # Errors
///
/// The first fault, with the path of the key where it stands, as docs/LINKING.md lists them: `TomlFault::NotToml`; then
/// `Missing`, `Kind` and `Range` key by key; then `Twice` where an object is named again. Or there was no memory.
#[tactic(auto, unfolding(crate::specs::PlanTexts::plan_of))]
pub fn read_plan(alloc: Global, text: &[u8]) -> Result<LinkPlan, NotesEnd>
    ensures plan { Gives result (plan_of text.now) }
    ensures sound { IfOk result IsPlan }
{
    let table = document(alloc, text)?;
    plan_in(alloc, &table)
}

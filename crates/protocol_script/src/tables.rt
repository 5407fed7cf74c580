//! The conditions on tables of objects, each tried on all of them.
ghost use Rattle.std.specs.Prelude.{◌≡◌, ◌+◌, ◌≤◌, ◌<◌, ◌^◌, ◌++◌, codes, length, IfOk};
ghost use Rattle.std.specs.List.{list_all};
ghost use Rattle.note_texts.specs.Keys.{row_prefix};
ghost use Rattle.note_texts.specs.Outcome.{Gives};
ghost use Rattle.note_types.specs.declared.fault.NotesEnd.TheVariants.{Fault};
ghost use Rattle.note_types.specs.declared.fault.TomlFault.TheVariants.{Range};
ghost use Rattle.ebc_base.specs.Steps.{passes};
ghost use Rattle.host_model.specs.Objects.{made_objects};
ghost use Rattle.protocol_script.specs.Conditions.{all_tables_pass, call_passes, calls_pass, is_there, table_conditions, table_key};
ghost use Rattle.protocol_script.specs.Conditions.{table_meets, table_passes, tables_pass, writes_meet};

use crate::contents::{are_by, are_contents, are_inside};
use crate::shapes::is_shape_at;
use host_model::TypedObject;
use note_texts::row_prefix;
use note_types::{Name, Notes, NotesEnd, Script, ScriptCall, ScriptObject, TomlFault, WriteValue};
use std::alloc::{AllocError, Global};

/// A condition on each table of objects.
#[derive(Clone, Copy)]
pub enum TableCondition {
    /// The instances of the cells are there, and so are the objects and instances of writes.
    Instances,
    /// The shape is well formed.
    WellFormed,
    /// The cells fit, and those that have to be given are.
    Contents,
    /// Pointers in the cells name no later object.
    Pointers,
}

impl TableCondition {
    // The key that the condition names.
    fn key(self) -> &'static str
        ensures { result.now ≡ table_key self }
    {
        match self {
            TableCondition::Instances => "cells",
            TableCondition::WellFormed => "shape",
            TableCondition::Contents => "cells",
            TableCondition::Pointers => "cells",
        }
    }

    // Whether the typed object of that number meets the condition.
    #[tactic(auto, unfolding(crate::specs::Conditions::table_meets))]
    fn is_met(self, notes: &Notes, made: &[TypedObject], number: u64, object: &ScriptObject) -> bool
        ensures { result ≡ table_meets self notes.now made.now number object.now }
    {
        match self {
            TableCondition::Instances => are_inside(object),
            TableCondition::WellFormed => is_shape_at(notes, object.shape),
            TableCondition::Contents => are_contents(notes, made, object),
            TableCondition::Pointers => are_by(number, object),
        }
    }

    // Whether the `write` texts of a call meet it.
    fn is_met_by_writes(self, made: &[TypedObject], writes: &[WriteValue]) -> bool
        ensures { result ≡ writes_meet self made.now writes.now }
    {
        match self {
            TableCondition::Instances => all_there(made, writes),
            TableCondition::WellFormed => true,
            TableCondition::Contents => true,
            TableCondition::Pointers => true,
        }
    }
}

fn is_there(made: &[TypedObject], object: u64, instance: u64) -> bool
    ensures { result ≡ is_there made.now object instance }
{
    match made.get(object as usize) {
        Some(object) => instance < object.count,
        None => false,
    }
}

fn all_there(made: &[TypedObject], writes: &[WriteValue]) -> bool
    ensures { result ≡ list_all (λ w. is_there made.now w.object w.instance) writes.now }
{
    writes
        .iter()
        .all(|write| is_there(made, write.object, write.instance))
}

/// The refusal of a condition at a key of an item of the list at a path.
///
/// # Errors
///
/// There was no memory.
pub fn refused_at(
    alloc: Global,
    path: &str,
    index: usize,
    key: &str,
) -> Result<NotesEnd, AllocError>
    ensures { IfOk result (λ end. end ≡ Fault (Range (row_prefix path.now index ++ key.now))) }
{
    let prefix = row_prefix(alloc, path, index)?;
    let key = format!(in alloc; "{prefix}{key}")?;
    Ok(NotesEnd::Fault(TomlFault::Range(Name::new(key))))
}

/// Nothing where a condition is met.
///
/// # Errors
///
/// `TomlFault::Range` of a key of an item of the list at a path; no memory.
pub fn met_at(
    alloc: Global,
    is_met: bool,
    path: &str,
    index: usize,
    key: &str,
) -> Result<(), NotesEnd>
    ensures { Gives result (passes is_met (Range (row_prefix path.now index ++ key.now))) }
{
    if is_met {
        return Ok(());
    }
    Err(refused_at(alloc, path, index, key)?)
}

/// A condition, and what it is tried with: notes, and all typed objects.
#[derive(Clone, Copy)]
pub struct Trial<'a> {
    pub condition: TableCondition,
    pub notes: &'a Notes,
    pub made: &'a [TypedObject],
}

// A table of the list at a path, which is the typed object of that number.
fn table_passes(
    alloc: Global,
    trial: Trial,
    path: &str,
    number: u64,
    index: usize,
    object: &ScriptObject,
) -> Result<(), NotesEnd>
    ensures { Gives result (table_passes trial.entry.condition trial.entry.notes.now trial.entry.made.now path.now number index
        object.now) }
{
    let condition = trial.condition;
    let is_met = condition.is_met(trial.notes, trial.made, number, object);
    met_at(alloc, is_met, path, index, condition.key())
}

// The tables of the list at a path, of which the first is the typed object of that number.
fn tables_pass(
    alloc: Global,
    trial: Trial,
    path: &str,
    first: u64,
    objects: &[ScriptObject],
) -> Result<(), NotesEnd>
    requires { first + length objects.now ≤ length trial.made.now }
    ensures { Gives result (tables_pass trial.entry.condition trial.entry.notes.now trial.entry.made.now path.now first objects.now) }
{
    for i in 0..objects.len() {
        table_passes(alloc, trial, path, first + i as u64, i, &objects[i])?;
    }
    Ok(())
}

// What a call makes and writes, where its first object is the typed object of that number.
#[tactic(auto, unfolding(crate::specs::Conditions::call_passes))]
fn call_passes(
    alloc: Global,
    trial: Trial,
    first: u64,
    index: usize,
    call: &ScriptCall,
) -> Result<(), NotesEnd>
    requires { first + length call.now.make ≤ length trial.made.now }
    ensures { Gives result (call_passes trial.entry.condition trial.entry.notes.now trial.entry.made.now first index call.now) }
{
    let prefix = row_prefix(alloc, "call", index)?;
    let path = format!(in alloc; "{prefix}make")?;
    tables_pass(alloc, trial, path.as_str(), first, call.make.as_slice())?;
    let is_met = trial
        .condition
        .is_met_by_writes(trial.made, call.write.as_slice());
    met_at(alloc, is_met, "call", index, "write")
}

fn calls_pass(alloc: Global, trial: Trial, script: &Script) -> Result<(), NotesEnd>
    requires few { length trial.made.now < 2 ^ 64 }
    requires made { trial.made.now ≡ made_objects trial.notes.now script.now (length script.now.call) }
    ensures { Gives result (calls_pass trial.entry.condition trial.entry.notes.now script.now trial.entry.made.now) }
{
    let calls = script.call.as_slice();
    let mut first = (trial.notes.statics.len() + script.object.len()) as u64;
    for i in 0..calls.len() {
        let call = &calls[i];
        call_passes(alloc, trial, first, i, call)?;
        first += call.make.len() as u64;
    }
    Ok(())
}

// All tables of objects, of the start and then call by call.
#[tactic(auto, unfolding(crate::specs::Conditions::all_tables_pass))]
fn all_tables_pass(alloc: Global, trial: Trial, script: &Script) -> Result<(), NotesEnd>
    requires few { length trial.made.now < 2 ^ 64 }
    requires made { trial.made.now ≡ made_objects trial.notes.now script.now (length script.now.call) }
    ensures { Gives result (all_tables_pass trial.entry.condition trial.entry.notes.now script.now trial.entry.made.now) }
{
    let first = trial.notes.statics.len() as u64;
    tables_pass(alloc, trial, "object", first, script.object.as_slice())?;
    calls_pass(alloc, trial, script)
}

/// Nothing where all tables of objects meet all conditions on them, one after the other.
///
/// # Errors
///
/// `TomlFault::Range` with the path of the key at which the first that isn't met is named; no memory.
#[tactic(auto, unfolding(crate::specs::Conditions::table_conditions))]
pub fn tables_meet(
    alloc: Global,
    notes: &Notes,
    script: &Script,
    made: &[TypedObject],
) -> Result<(), NotesEnd>
    requires { made.now ≡ made_objects notes.now script.now (length script.now.call) }
    ensures { Gives result (table_conditions notes.now script.now made.now) }
{
    let instances = Trial {
        condition: TableCondition::Instances,
        notes,
        made,
    };
    let well_formed = Trial {
        condition: TableCondition::WellFormed,
        ..instances
    };
    let contents = Trial {
        condition: TableCondition::Contents,
        ..instances
    };
    let pointers = Trial {
        condition: TableCondition::Pointers,
        ..instances
    };
    all_tables_pass(alloc, instances, script)?;
    all_tables_pass(alloc, well_formed, script)?;
    all_tables_pass(alloc, contents, script)?;
    all_tables_pass(alloc, pointers, script)
}

//! The names that two labels or more have.
ghost use Rattle.std.specs.Prelude.{◌≡◌, IfOk, OnOk, not};
ghost use Rattle.ebc_base.specs.Tables.{is_named, with_name};
ghost use Rattle.label_notes.specs.Maps.{AreShared};
ghost use Rattle.label_notes.specs.Steps.{shared_with};

use ebc_base::{Name, NameTable, NoMemory};
use label_places::Label;
use std::alloc::Global;

// The most names, all of which a table holds.
const MOST_NAMES: usize = u32::MAX as usize;

// Adds a name to a table unless it is there, and tells whether it was new. Names past the most find no memory.
fn add_name(alloc: Global, table: &mut NameTable, name: &Name) -> Result<bool, NoMemory>
    ensures new { IfOk result (λ new. new ≡ not (is_named name.now table.old)) }
    ensures table { OnOk result (table.new ≡ with_name name.now table.old) }
{
    if table.len() >= MOST_NAMES {
        return Err(NoMemory);
    }
    Ok(table.add(alloc, name)?)
}

// The names so far, and those that came again.
#[derive(Drop)]
struct Names {
    all: NameTable,
    shared: NameTable,
}

impl Names {
    // One name more.
    fn add(&mut self, alloc: Global, name: &Name) -> Result<(), NoMemory>
        ensures all { OnOk result (self.new.all ≡ with_name name.now self.old.all) }
        ensures shared { OnOk result (self.new.shared ≡ shared_with name.now self.old.all self.old.shared) }
    {
        if !add_name(alloc, &mut self.all, name)? {
            add_name(alloc, &mut self.shared, name)?;
        }
        Ok(())
    }
}

/// The names that two labels or more have.
pub(crate) fn shared_names(alloc: Global, labels: &[Label]) -> Result<NameTable, NoMemory>
    ensures { IfOk result (AreShared labels.now) }
{
    let mut names = Names {
        all: NameTable::new(alloc),
        shared: NameTable::new(alloc),
    };
    for label in labels {
        names.add(alloc, &label.name)?;
    }
    let Names { all, shared } = names;
    drop(all);
    Ok(shared)
}

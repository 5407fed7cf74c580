//! The bytes of a run's objects that are others than at its start.
ghost use Rattle.std.specs.Prelude.{◌≡◌, ◌+◌, ◌^◌, ◌<◌, ◌≤◌, ◌++◌, IfOk, OnOk, false, length, nat_eq, not, true};
ghost use Rattle.std.specs.Prelude.{slice_index, slice_index_or};
ghost use Rattle.step_texts.specs.RowTexts.{row_line};
ghost use Rattle.ebc_width.specs.Width.{IsWidth};
ghost use Rattle.host_model.specs.RunState.{RunState};
ghost use Rattle.host_model.specs.World.{World};
ghost use Rattle.pe_image.specs.Images.{IsImage};
ghost use Rattle.pe_image.specs.declared.image.Image.{Image};
ghost use Rattle.twin_run.specs.Runner.{IsRunner};
ghost use Rattle.run_trace.specs.Changes.{bytes_at, changed_lines, object_lines, row_of, row_place, rows_differ};
ghost use Rattle.run_trace.specs.Walks.{RunsImage};

use crate::addresses::{Located, meaning_of};
use crate::walking::{first_base, next_base};
use note_types::{NoMemory, Notes};
use std::alloc::Global;
use step_texts::{Change, append_more, append_row};
use twin_run::Runner;

// How many bytes a row has.
const ROW: usize = 16;

// How many rows are told of an object.
const ROWS: u64 = 8;

// The first object of a memory that is told: the image. The native area never changes, and the stack isn't told.
const IMAGE: u64 = 2;

// The bytes of a row: those from an offset on.
fn row_of(bytes: &[u8], at: usize) -> &[u8]
    ensures { result.now ≡ row_of bytes.now at }
{
    let rest = bytes.get(at..).unwrap_or(&[]);
    rest.get(..ROW).unwrap_or(rest)
}

// Whether a byte of a row is another than before; what there wasn't was zero.
fn byte_differs(old: &[u8], new: &[u8], k: usize) -> bool
    requires { k < length new.now }
    ensures { result ≡ not (nat_eq (slice_index_or old.now k 0) (slice_index new.now k)) }
{
    old.get(k).copied().unwrap_or(0) != new[k]
}

// Whether a row has a byte that is another than before.
#[tactic(auto, using(crate::proofs::RowLaws::same_all))]
fn rows_differ(old: &[u8], new: &[u8]) -> bool
    ensures { result ≡ rows_differ old.now new.now }
{
    for k in 0..new.len() {
        if byte_differs(old, new, k) {
            return true;
        }
    }
    false
}

// Where a row of an object lies, by its offset.
fn row_place(notes: &Notes, base: u64, object: u64, at: usize) -> Change
    requires few { object < 2 ^ 60 }
    requires statics { length notes.now.statics < 2 ^ 32 }
    ensures { result ≡ row_place notes.now base object at }
{
    let offset = at as u64;
    Change {
        number: base.wrapping_add(offset),
        meaning: meaning_of(notes, Located { object, offset }),
    }
}

// Appends the line of a row if it has changed, and so few rows are told before it that it is told too. Gives how many have changed now.
fn append_if_changed(
    alloc: Global,
    notes: &Notes,
    place: Change,
    before: &[u8],
    row: &[u8],
    rows: u64,
    out: &mut Vec<u8>,
) -> Result<u64, NoMemory>
    requires { rows < 2 ^ 63 }
    ensures count_same { rows_differ before.now row.now ≡ false → IfOk result (λ n. n ≡ rows) }
    ensures count_more { rows_differ before.now row.now ≡ true → IfOk result (λ n. n ≡ rows + 1) }
    ensures same { rows_differ before.now row.now ≡ false → out.new ≡ out.old }
    ensures told { rows_differ before.now row.now ≡ true → rows < 8 → OnOk result
        (out.new.items ≡ out.old.items ++ row_line notes.now place before.now row.now) }
    ensures more { rows_differ before.now row.now ≡ true → 8 ≤ rows → out.new ≡ out.old }
{
    if !rows_differ(before, row) {
        return Ok(rows);
    }
    if ROWS <= rows {
        return Ok(rows + 1);
    }
    append_row(alloc, notes, place, before, row, out)?;
    Ok(rows + 1)
}

// Appends the rows of an object that have changed, and how many more they are than are told.
fn append_object(
    alloc: Global,
    notes: &Notes,
    base: u64,
    object: u64,
    old: &[u8],
    new: &[u8],
    out: &mut Vec<u8>,
) -> Result<(), NoMemory>
    requires few { object < 2 ^ 60 }
    requires statics { length notes.now.statics < 2 ^ 32 }
    ensures { OnOk result (out.new.items ≡ out.old.items ++ object_lines notes.now base object old.now new.now) }
{
    let mut rows = 0;
    for k in 0..new.len().div_ceil(ROW) {
        let before = row_of(old, ROW * k);
        let row = row_of(new, ROW * k);
        let place = row_place(notes, base, object, ROW * k);
        rows = append_if_changed(alloc, notes, place, before, row, rows, out)?;
    }
    append_more(alloc, rows.saturating_sub(ROWS), out)?;
    Ok(())
}

// Appends the rows of an object that have changed, if it is one that is told.
fn append_told<const W: usize>(
    alloc: Global,
    notes: &Notes,
    before: &Runner<W>,
    base: u64,
    object: u64,
    new: &[u8],
    out: &mut Vec<u8>,
) -> Result<(), NoMemory>
    requires few { object < 2 ^ 60 }
    requires statics { length notes.now.statics < 2 ^ 32 }
    ensures untold { object < 2 → out.new ≡ out.old }
    ensures told { 2 ≤ object → OnOk result ((world : World) (r : RunState) → IsRunner W world before.now r
        → out.new.items ≡ out.old.items ++ object_lines notes.now base object (bytes_at r.machine base) new.now) }
{
    if object < IMAGE {
        return Ok(());
    }
    match before.bytes_from(base) {
        Some(old) => append_object(alloc, notes, base, object, old, new, out),
        None => append_object(alloc, notes, base, object, &[], new, out),
    }
}

/// Appends the rows of the image and of the script's objects that are others than at the start of the run.
///
/// # Errors
///
/// There is no memory for the text.
pub(crate) fn append_changed<const W: usize>(
    alloc: Global,
    notes: &Notes,
    before: &Runner<W>,
    runner: &Runner<W>,
    out: &mut Vec<u8>,
) -> Result<(), NoMemory>
    requires width { IsWidth W }
    requires runs { RunsImage W runner.now }
    requires statics { length notes.now.statics < 2 ^ 32 }
    ensures { OnOk result ((image : Image) (world : World) (r s : RunState) → IsImage image → world.image_size ≡ image.size
        → IsRunner W world before.now r → IsRunner W world runner.now s
        → out.new.items ≡ out.old.items ++ changed_lines notes.now r s) }
{
    let mut base = first_base::<W>();
    let mut object = 0;
    while let Some(new) = runner.bytes_from(base) {
        append_told(alloc, notes, before, base, object, new, out)?;
        let Some(next) = next_base(base, new.len()) else {
            return Ok(());
        };
        base = next;
        object += 1;
    }
    Ok(())
}

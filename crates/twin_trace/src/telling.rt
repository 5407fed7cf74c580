//! What is printed of the runs of an image at both widths.
ghost use Rattle.std.specs.Prelude.{◌≡◌, ◌-◌, ◌<◌, ◌++◌, IfOk, IfSome, OnOk, Some, max, min};
ghost use Rattle.ebc_width.specs.Width.{IsWidth};
ghost use Rattle.host_model.specs.Runs.{world_of};
ghost use Rattle.host_model.specs.Scripts.{IsScript};
ghost use Rattle.note_types.specs.Records.{IsNotes};
ghost use Rattle.pe_image.specs.Images.{IsImage};
ghost use Rattle.pe_image.specs.Mapped.{AreBytes};
ghost use Rattle.twin_run.specs.Differs.{DifferAt};
ghost use Rattle.twin_run.specs.Reported.{IsReport};
ghost use Rattle.twin_run.specs.declared.reports.RunReport.{RunReport};
ghost use Rattle.run_trace.specs.Following.{world_under};
ghost use Rattle.twin_trace.specs.BothTraces.{AreBothAfter, HasEnds, IsBothText, both_told_lines, last_line, last_told, steps_beside};
ghost use Rattle.twin_trace.specs.BothTraces.{told_steps};

use crate::runs::BothRuns;
use ebc_base::NoMemory;
use note_types::{Notes, Script};
use pe_image::Image;
use printed_texts::{append_end, differ_line};
use run_trace::Program;
use side_by_side::append_beside;
use std::alloc::Global;
use twin_run::{run, twin};

// After how many steps the runs first differ, up to a last one.
fn parting(alloc: Global, program: Program, last: u64) -> Result<Option<u64>, NoMemory>
    requires image { IsImage program.image.now }
    requires bytes { AreBytes program.image.now }
    requires notes { IsNotes program.notes.now }
    requires script { IsScript program.notes.now program.script.now }
    ensures { IfOk result (DifferAt program.entry.image.now (world_under program.entry) last) }
{
    let report = twin(alloc, program.image, program.notes, program.script, last)?;
    Ok(report.differ)
}

// The last step that is told.
fn last_told(last: u64, differ: Option<u64>) -> u64
    ensures { result ≡ last_told last differ }
{
    match differ {
        None => last,
        Some(0) => 1,
        Some(steps) => steps,
    }
}

// How many steps are passed over in front of a first one that is told, and of the one before the last.
fn passed_over(first: u64, last: u64) -> u64
    ensures { result ≡ min (first - 1) (last - 2) }
{
    let before = first.saturating_sub(1);
    let parting = last.saturating_sub(2);
    if before < parting { before } else { parting }
}

// Appends the lines of the steps behind the first so many, up to the last of that number.
fn append_steps(
    alloc: Global,
    program: Program,
    runs: &mut BothRuns,
    passed: u64,
    last: u64,
    out: &mut Vec<u8>,
) -> Result<(), NoMemory>
    requires image { IsImage program.image.now }
    requires before { AreBothAfter program 0 runs.old }
    ensures after { OnOk result (AreBothAfter program.entry last runs.new) }
    ensures text { OnOk result
        (out.new.items ≡ out.old.items ++ steps_beside program.entry.image.now (world_under program.entry) passed last) }
{
    let passed = passed.min(last);
    runs.pass(program, 0, passed)?;
    runs.tell(alloc, program, passed, last, out)
}

// Appends the lines of the steps up to the last one, which parts the runs after so many steps.
fn append_parting(
    alloc: Global,
    program: Program,
    runs: &mut BothRuns,
    first: u64,
    last: u64,
    steps: u64,
    out: &mut Vec<u8>,
) -> Result<(), NoMemory>
    requires image { IsImage program.image.now }
    requires some { 0 < last }
    requires before { AreBothAfter program 0 runs.old }
    ensures after { OnOk result (AreBothAfter program.entry last runs.new) }
    ensures text { OnOk result
        (out.new.items ≡ out.old.items ++ told_steps program.entry.image.now (world_under program.entry) first last (Some steps)) }
{
    let passed = passed_over(first, last);
    append_steps(alloc, program, runs, passed, last - 1, out)?;
    let line = differ_line(alloc, Some(steps))?;
    out.extend_from_slice(line.as_bytes())?;
    runs.tell(alloc, program, last - 1, last, out)
}

// Appends the lines of the steps that are told, up to the last one.
fn append_told(
    alloc: Global,
    program: Program,
    runs: &mut BothRuns,
    first: u64,
    last: u64,
    differ: Option<u64>,
    out: &mut Vec<u8>,
) -> Result<(), NoMemory>
    requires image { IsImage program.image.now }
    requires some { IfSome differ (λ _. 0 < last) }
    requires before { AreBothAfter program 0 runs.old }
    ensures after { OnOk result (AreBothAfter program.entry last runs.new) }
    ensures text { OnOk result
        (out.new.items ≡ out.old.items ++ told_steps program.entry.image.now (world_under program.entry) first last differ) }
{
    match differ {
        None => append_steps(alloc, program, runs, first.saturating_sub(1), last, out),
        Some(steps) => append_parting(alloc, program, runs, first, last, steps, out),
    }
}

// Appends the lines of the steps that are told, up to the last one, and of the states after it.
fn append_lines(
    alloc: Global,
    program: Program,
    first: u64,
    last: u64,
    differ: Option<u64>,
    out: &mut Vec<u8>,
) -> Result<(), NoMemory>
    requires image { IsImage program.image.now }
    requires bytes { AreBytes program.image.now }
    requires notes { IsNotes program.notes.now }
    requires script { IsScript program.notes.now program.script.now }
    requires some { IfSome differ (λ _. 0 < last) }
    ensures { OnOk result
        (out.new.items ≡ out.old.items ++ both_told_lines program.entry.image.now (world_under program.entry) first last differ) }
{
    let mut runs = BothRuns::start(alloc, program)?;
    append_told(alloc, program, &mut runs, first, last, differ, out)?;
    runs.append_states(alloc, program, out)
}

// The last line of the run at a width up to a last step.
fn end_at<const W: usize>(alloc: Global, program: Program, last: u64) -> Result<Vec<u8>, NoMemory>
    requires width { IsWidth W }
    requires image { IsImage program.image.now }
    requires bytes { AreBytes program.image.now }
    requires notes { IsNotes program.notes.now }
    requires script { IsScript program.notes.now program.script.now }
    ensures { IfOk result (λ line. (report : RunReport) × IsReport W program.entry.image.now (world_under program.entry) last report
        × (line.items ≡ last_line (world_under program.entry).notes report)) }
{
    let mut line = Vec::new(alloc);
    let report = run::<W>(alloc, program.image, program.notes, program.script, last)?;
    append_end(
        alloc,
        program.notes,
        report.steps,
        report.spot,
        report.ending,
        &mut line,
    )?;
    Ok(line)
}

// Appends the last lines of both runs up to a last step.
fn append_ends(
    alloc: Global,
    program: Program,
    last: u64,
    out: &mut Vec<u8>,
) -> Result<(), NoMemory>
    requires image { IsImage program.image.now }
    requires bytes { AreBytes program.image.now }
    requires notes { IsNotes program.notes.now }
    requires script { IsScript program.notes.now program.script.now }
    ensures { OnOk result (HasEnds program.entry.image.now (world_under program.entry) last out.old.items out.new.items) }
{
    let at32 = end_at::<4>(alloc, program, last)?;
    let at64 = end_at::<8>(alloc, program, last)?;
    append_beside(at32.as_slice(), at64.as_slice(), out)?;
    Ok(())
}

/// The lines of the steps of an image's runs at both widths, from the first to the last that is asked for, side by side, those of the
/// states after them, and the last lines of both. Where the runs differ the step that parts them is the last one; it is among them, and
/// the one before it, whatever the first is.
///
/// # Errors
///
/// There is no memory for the runs or for the text.
pub fn both(
    alloc: Global,
    image: &Image,
    notes: &Notes,
    script: &Script,
    first: u64,
    last: u64,
) -> Result<Vec<u8>, NoMemory>
    requires image { IsImage image.now }
    requires bytes { AreBytes image.now }
    requires notes { IsNotes notes.now }
    requires script { IsScript notes.now script.now }
    ensures { IfOk result (λ text. IsBothText image.now (world_of image.now notes.now script.now) first last text.items) }
{
    let program = Program {
        image,
        notes,
        script,
    };
    let differ = parting(alloc, program, last)?;
    let last = last_told(last, differ);
    let mut out = Vec::new(alloc);
    append_lines(alloc, program, first, last, differ, &mut out)?;
    append_ends(alloc, program, last, &mut out)?;
    Ok(out)
}

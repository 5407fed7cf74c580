//! What is printed of a run that is done.
ghost use Rattle.std.specs.Prelude.{◌≡◌, ◌≤◌, ◌++◌, IfOk};
ghost use Rattle.ebc_width.specs.Width.{IsWidth};
ghost use Rattle.cli_base.specs.Inputs.{IsReadImage};
ghost use Rattle.host_model.specs.Runs.{world_of};
ghost use Rattle.host_model.specs.Scripts.{IsScript};
ghost use Rattle.note_types.specs.Records.{IsNotes};
ghost use Rattle.printed_texts.specs.RunTexts.{end_line};
ghost use Rattle.run_trace.specs.Traces.{trace_lines};
ghost use Rattle.twin_run.specs.Reported.{IsReport};
ghost use Rattle.twin_run.specs.declared.reports.RunReport.{RunReport};

use crate::request::{Request, Widths};
use ebc_base::NoMemory;
use ebc_outside::{Folder, MemFolder};
use file_inputs::read_as;
use note_types::{Notes, Script};
use pe_image::Image;
use printed_texts::append_end;
use protocol_script::read_script;
use run_trace::trace;
use std::alloc::Global;
use twin_trace::both;

// How many bytes a script may have.
const SCRIPT_LIMIT: u64 = 1048576;

// The lines of the steps of a run at a width from the first to the last, and the last line of the run up to that one.
fn lines_at<const W: usize>(
    alloc: Global,
    image: &Image,
    notes: &Notes,
    script: &Script,
    first: u64,
    last: u64,
) -> Result<Vec<u8>, NoMemory>
    requires width { IsWidth W }
    requires image { IsReadImage image.now }
    requires notes { IsNotes notes.now }
    requires script { IsScript notes.now script.now }
    requires first { 1 ≤ first }
    ensures { IfOk result (λ text. (report : RunReport) × IsReport W image.now (world_of image.now notes.now script.now) last report
        × (text.items ≡ trace_lines W image.now (world_of image.now notes.now script.now) first last
        ++ end_line notes.now report.steps report.spot report.ending)) }
{
    let mut out = Vec::new(alloc);
    let report = trace::<W>(alloc, image, notes, script, first, last, &mut out)?;
    append_end(
        alloc,
        notes,
        report.steps,
        report.spot,
        report.ending,
        &mut out,
    )?;
    Ok(out)
}

// The same of the run and the steps that are asked for.
fn lines(
    alloc: Global,
    request: &Request,
    image: &Image,
    notes: &Notes,
    script: &Script,
) -> Result<Vec<u8>, NoMemory>
    requires image { IsReadImage image.now }
    requires notes { IsNotes notes.now }
    requires script { IsScript notes.now script.now }
{
    let (first, last) = (request.first(), request.last());
    match request.widths {
        Widths::Only32 => lines_at::<4>(alloc, image, notes, script, first, last),
        Widths::Only64 => lines_at::<8>(alloc, image, notes, script, first, last),
        Widths::Both => both(alloc, image, notes, script, first, last),
    }
}

/// The lines of the steps that are asked for, and the last line of the run, of files that `run` has read.
///
/// # Errors
///
/// There is no memory. So it is too where a file wasn't kept, since files of a run that is done are lacking for want of memory alone.
pub(crate) fn traced(
    alloc: Global,
    request: &Request,
    folder: &mut MemFolder,
) -> Result<Vec<u8>, NoMemory> {
    let Ok(image) = read_as::<Image, MemFolder>(alloc, folder, 1, request.image) else {
        return Err(NoMemory);
    };
    let Ok(notes) = read_as::<Notes, MemFolder>(alloc, folder, 2, request.notes) else {
        return Err(NoMemory);
    };
    let Ok(text) = folder.read(alloc, request.script, SCRIPT_LIMIT) else {
        return Err(NoMemory);
    };
    let Ok(script) = read_script(alloc, text.as_slice(), &notes) else {
        return Err(NoMemory);
    };
    lines(alloc, request, &image, &notes, &script)
}

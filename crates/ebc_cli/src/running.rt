//! What `run` and `twin` read, and what is printed of the runs.
ghost use Rattle.std.specs.Prelude.{◌≡◌, ◌≤◌, ◌<◌, None, Some, IfSome, IfOk, IsErrOf};
ghost use Rattle.host_model.specs.Runs.{world_of};
ghost use Rattle.host_model.specs.Scripts.{IsScript};
ghost use Rattle.note_types.specs.Records.{IsNotes};
ghost use Rattle.twin_run.specs.Reported.{IsReport};
ghost use Rattle.ebc_cli.specs.Inputs.{script_limit, script_meaning};
ghost use Rattle.file_inputs.specs.Inputs.{input};
ghost use Rattle.ebc_cli.specs.Numbers.{address_bytes};
ghost use Rattle.file_inputs.specs.Reads.{Reads};
ghost use Rattle.ebc_cli.specs.Runnings.{TellsRun, TellsTwin, report_text, run_files, twin_outcome, twin_report_text};
ghost use Rattle.cli_base.specs.Inputs.{IsReadImage, Means};
ghost use Rattle.cli_base.specs.Outcomes.{IsBadInput, IsWorkAnswer};
ghost use Rattle.cli_base.specs.Outputs.{written_name};
ghost use Rattle.cli_base.specs.Readings.{IfStop};

use crate::width::Width;
use cli_base::text::printed;
use cli_base::{End, Outcome, Reply, file};
use ebc_base::NoMemory;
use ebc_outside::Folder;
use file_inputs::read_as;
use file_inputs::text::bad_notes;
use note_types::{Notes, NotesEnd, Script};
use pe_image::Image;
use printed_texts::{ShownRun, run_text, twin_text};
use protocol_script::read_script;
use std::alloc::Global;
use twin_run::{RunReport, TwinReport, run, twin};

/// How many steps a run may be asked for.
pub const STEP_LIMIT: u64 = 10000000;

/// How many bytes a script may have.
const SCRIPT_LIMIT: u64 = 1048576;

/// The script that a text stands for under notes, or the answer to its first fault. The bytes are those of a word, by its number and its
/// name.
pub fn script_in(
    alloc: Global,
    word: u8,
    name: &str,
    bytes: &[u8],
    notes: &Notes,
) -> Result<Script, End>
    ensures meaning { Means result (script_meaning notes.now word name.now bytes.now) }
    ensures valid { IfOk result (IsScript notes.now) }
    ensures stop { IfStop result (λ reply. IsBadInput reply.outcome) }
    ensures output { IfStop result (λ reply. written_name reply.output ≡ None) }
{
    match read_script(alloc, bytes, notes) {
        Ok(script) => Ok(script),
        Err(NotesEnd::Fault(fault)) => Err(End::Stop(bad_notes(alloc, word, name, &fault)?)),
        Err(NotesEnd::NoMemory) => Err(End::NoMemory),
    }
}

// The script that the file of a word stands for under notes.
#[tactic(auto, unfolding(file_inputs::specs::Inputs::input))]
fn read_script_file<F: Folder>(
    alloc: Global,
    folder: &mut F,
    word: u8,
    name: &str,
    notes: &Notes,
) -> Result<Script, End>
    ensures reads { Reads F.contents F.asked F.read_faults F.write_faults folder.old folder.new result
        (input script_limit (script_meaning notes.now) word name.now) }
    ensures script { IfOk result (IsScript notes.now) }
{
    let bytes = file(alloc, folder, word, name, SCRIPT_LIMIT)?;
    script_in(alloc, word, name, bytes.as_slice(), notes)
}

/// The image, the notes and the script under them that the words from this one on name, each read whole before the next.
#[tactic(auto, unfolding(crate::specs::Runnings::run_files))]
pub fn read_run<F: Folder>(
    alloc: Global,
    folder: &mut F,
    word: u8,
    image: &str,
    notes: &str,
    script: &str,
) -> Result<(Image, Notes, Script), End>
    requires { word < 5 }
    ensures reads { Reads F.contents F.asked F.read_faults F.write_faults folder.old folder.new result
        (run_files word image.now notes.now script.now) }
    ensures image { IfOk result (λ read. IsReadImage read.0) }
    ensures notes { IfOk result (λ read. IsNotes read.1) }
    ensures script { IfOk result (λ read. IsScript read.1 read.2) }
{
    let image = read_as::<Image, F>(alloc, folder, word, image)?;
    // Values of many parts are dropped by calls: their drop at the end of an arm would be proved part by part.
    match read_as::<Notes, F>(alloc, folder, word + 1, notes) {
        Ok(notes) => match read_script_file(alloc, folder, word + 2, script, &notes) {
            Ok(script) => Ok((image, notes, script)),
            Err(end) => {
                drop(image);
                drop(notes);
                Err(end)
            }
        },
        Err(end) => {
            drop(image);
            Err(end)
        }
    }
}

// What the run of an image at a width shows.
fn report_at(
    alloc: Global,
    width: Width,
    image: &Image,
    notes: &Notes,
    script: &Script,
    steps: u64,
) -> Result<RunReport, NoMemory>
    requires image { IsReadImage image.now }
    requires notes { IsNotes notes.now }
    requires script { IsScript notes.now script.now }
    ensures { IfOk result (IsReport (address_bytes width) image.now (world_of image.now notes.now script.now) steps) }
{
    match width {
        Width::Bits32 => run::<4>(alloc, image, notes, script, steps),
        Width::Bits64 => run::<8>(alloc, image, notes, script, steps),
    }
}

// The text of a run.
fn report_text(alloc: Global, notes: &Notes, report: &RunReport) -> Result<Vec<u8>, NoMemory>
    ensures { IfOk result (λ text. text.items ≡ report_text notes.now report.now) }
{
    let shown = ShownRun {
        steps: report.steps,
        spot: report.spot,
        ending: report.ending,
        events: report.events.as_slice(),
    };
    run_text(alloc, notes, &shown)
}

/// The answer of the run of an image at a width, for at most so many steps.
pub fn run_reply(
    alloc: Global,
    width: Width,
    image: &Image,
    notes: &Notes,
    script: &Script,
    steps: u64,
) -> Result<Reply, NoMemory>
    requires image { IsReadImage image.now }
    requires notes { IsNotes notes.now }
    requires script { IsScript notes.now script.now }
    ensures tells { IfOk result (TellsRun (address_bytes width) image.now notes.now script.now steps) }
    ensures answer { IfOk result (λ r. IsWorkAnswer r.outcome) }
    ensures output { IfOk result (λ r. written_name r.output ≡ None) }
{
    let report = report_at(alloc, width, image, notes, script, steps)?;
    let text = report_text(alloc, notes, &report)?;
    Ok(printed(Outcome::Done, text))
}

// The text of the runs at both widths.
fn twin_report_text(alloc: Global, notes: &Notes, report: &TwinReport) -> Result<Vec<u8>, NoMemory>
    ensures { IfOk result (λ text. text.items ≡ twin_report_text notes.now report.now) }
{
    let at4 = ShownRun {
        steps: report.at4.steps,
        spot: report.at4.spot,
        ending: report.at4.ending,
        events: report.at4.events.as_slice(),
    };
    let at8 = ShownRun {
        steps: report.at8.steps,
        spot: report.at8.spot,
        ending: report.at8.ending,
        events: report.at8.events.as_slice(),
    };
    twin_text(alloc, notes, &at4, &at8, report.differ)
}

/// How the runs at both widths end.
pub fn twin_outcome(differ: Option<u64>) -> Outcome
    ensures { result ≡ twin_outcome differ }
{
    match differ {
        None => Outcome::Done,
        Some(step) => Outcome::Differ { step },
    }
}

/// The answer of the runs of an image at both widths, for at most so many steps.
pub fn twin_reply(
    alloc: Global,
    image: &Image,
    notes: &Notes,
    script: &Script,
    steps: u64,
) -> Result<Reply, NoMemory>
    requires image { IsReadImage image.now }
    requires notes { IsNotes notes.now }
    requires script { IsScript notes.now script.now }
    ensures tells { IfOk result (TellsTwin image.now notes.now script.now steps) }
    ensures answer { IfOk result (λ r. IsWorkAnswer r.outcome) }
    ensures output { IfOk result (λ r. written_name r.output ≡ None) }
{
    let report = twin(alloc, image, notes, script, steps)?;
    let text = twin_report_text(alloc, notes, &report)?;
    Ok(printed(twin_outcome(report.differ), text))
}

//! What `pair` reads, and what is printed of the runs.
ghost use Rattle.std.specs.Prelude.{◌≡◌, ◌<◌, None, IfOk};
ghost use Rattle.note_types.specs.Records.{IsNotes};
ghost use Rattle.pair_model.specs.Binds.{AllAgree};
ghost use Rattle.ebc_cli.specs.Inputs.{binds_limit, binds_meaning};
ghost use Rattle.file_inputs.specs.Inputs.{input};
ghost use Rattle.ebc_cli.specs.Pairings.{TellsPair, driver_files, pair_files, pair_twin_text, unnotified};
ghost use Rattle.ebc_cli.specs.Reads.{IsReadDriver, IsReadPair};
ghost use Rattle.file_inputs.specs.Reads.{Reads};
ghost use Rattle.cli_base.specs.Inputs.{Means};
ghost use Rattle.cli_base.specs.Outcomes.{IsBadInput, IsWorkAnswer};
ghost use Rattle.cli_base.specs.Outputs.{written_name};
ghost use Rattle.cli_base.specs.Readings.{IfStop};

use crate::command::DriverFiles;
use crate::running::{read_run, twin_outcome};
use bind_texts::read_binds;
use cli_base::text::printed;
use cli_base::{End, Reply, file};
use ebc_base::{Name, NoMemory};
use ebc_outside::Folder;
use file_inputs::text::bad_notes;
use note_types::{Notes, NotesEnd, Script, TomlFault};
use pair_host::{Binds, PairReport, pair};
use pe_image::Image;
use printed_texts::{ShownPair, pair_text};
use std::alloc::Global;

/// How many steps the run of a pair may be asked for.
pub const PAIR_STEP_LIMIT: u64 = 100000;

/// How many bytes a text of binds may have.
const BINDS_LIMIT: u64 = 1048576;

/// A driver of a pair, as its files were read.
#[derive(Drop)]
pub struct ReadDriver {
    pub image: Image,
    pub notes: Notes,
    /// Its script under its notes.
    pub script: Script,
}

// Nothing, where a script has no notifications, or the answer to one that has some. It is that of a word, by its number and its name.
#[tactic(auto, unfolding(crate::specs::Pairings::unnotified))]
fn unnotified(alloc: Global, word: u8, name: &str, script: &Script) -> Result<(), End>
    ensures meaning { Means result (unnotified word name.now script.now) }
    ensures stop { IfStop result (λ reply. IsBadInput reply.outcome) }
    ensures output { IfStop result (λ reply. written_name reply.output ≡ None) }
{
    if script.notify.len() == 0 {
        return Ok(());
    }
    let path = Name::new(String::from_str(alloc, "notify")?);
    let fault = TomlFault::Range(path);
    Err(End::Stop(bad_notes(alloc, word, name, &fault)?))
}

// What is read of a driver, whose files the words from this one on name.
#[tactic(auto, unfolding(crate::specs::Pairings::driver_files))]
fn read_driver<F: Folder>(
    alloc: Global,
    folder: &mut F,
    word: u8,
    names: &DriverFiles,
) -> Result<ReadDriver, End>
    requires { word < 5 }
    ensures reads { Reads F.contents F.asked F.read_faults F.write_faults folder.old folder.new result
        (driver_files word names.now) }
    ensures read { IfOk result IsReadDriver }
{
    let (image, notes, script) = read_run(
        alloc,
        folder,
        word,
        names.image.as_str(),
        names.notes.as_str(),
        names.script.as_str(),
    )?;
    // Values of many parts are dropped by calls: their drop at the end of an arm would be proved part by part.
    match unnotified(alloc, word + 2, names.script.as_str(), &script) {
        Ok(()) => Ok(ReadDriver {
            image,
            notes,
            script,
        }),
        Err(end) => {
            drop(image);
            drop(notes);
            drop(script);
            Err(end)
        }
    }
}

// The binds that a text stands for under the notes of both images, or the answer to its first fault. The bytes are those of the word 7, by
// its name.
fn binds_in(alloc: Global, name: &str, bytes: &[u8], a: &Notes, b: &Notes) -> Result<Binds, End>
    ensures meaning { Means result (binds_meaning a.now b.now 7 name.now bytes.now) }
    ensures agree { IfOk result (AllAgree a.now b.now) }
    ensures stop { IfStop result (λ reply. IsBadInput reply.outcome) }
    ensures output { IfStop result (λ reply. written_name reply.output ≡ None) }
{
    match read_binds(alloc, bytes, a, b) {
        Ok(binds) => Ok(binds),
        Err(NotesEnd::Fault(fault)) => Err(End::Stop(bad_notes(alloc, 7, name, &fault)?)),
        Err(NotesEnd::NoMemory) => Err(End::NoMemory),
    }
}

// The binds that the file of the word 7 stands for under the notes of both images.
#[tactic(auto, unfolding(file_inputs::specs::Inputs::input))]
fn read_binds_file<F: Folder>(
    alloc: Global,
    folder: &mut F,
    name: &str,
    a: &Notes,
    b: &Notes,
) -> Result<Binds, End>
    ensures reads { Reads F.contents F.asked F.read_faults F.write_faults folder.old folder.new result
        (input binds_limit (binds_meaning a.now b.now) 7 name.now) }
    ensures agree { IfOk result (AllAgree a.now b.now) }
{
    let bytes = file(alloc, folder, 7, name, BINDS_LIMIT)?;
    binds_in(alloc, name, bytes.as_slice(), a, b)
}

/// What is read for a pair: image A and what is read with it, image B and what is read with it, and the binds, each read whole before the
/// next.
#[tactic(auto, unfolding(crate::specs::Pairings::pair_files))]
pub fn read_pair<F: Folder>(
    alloc: Global,
    folder: &mut F,
    a: &DriverFiles,
    b: &DriverFiles,
    binds: &str,
) -> Result<(ReadDriver, ReadDriver, Binds), End>
    ensures reads { Reads F.contents F.asked F.read_faults F.write_faults folder.old folder.new result
        (pair_files a.now b.now binds.now) }
    ensures read { IfOk result (λ read. IsReadPair read.0 read.1 read.2) }
{
    let a = read_driver(alloc, folder, 1, a)?;
    // The drivers are dropped by calls, as above.
    match read_driver(alloc, folder, 4, b) {
        Ok(b) => match read_binds_file(alloc, folder, binds, &a.notes, &b.notes) {
            Ok(binds) => Ok((a, b, binds)),
            Err(end) => {
                drop(a);
                drop(b);
                Err(end)
            }
        },
        Err(end) => {
            drop(a);
            Err(end)
        }
    }
}

// The text of the runs of a pair at both widths.
fn pair_twin_text(
    alloc: Global,
    a: &Notes,
    b: &Notes,
    report: &PairReport,
) -> Result<Vec<u8>, NoMemory>
    ensures { IfOk result (λ text. text.items ≡ pair_twin_text a.now b.now report.now) }
{
    let at4 = ShownPair {
        steps: report.at4.steps,
        spot: report.at4.spot,
        ending: report.at4.ending,
        events: report.at4.events.as_slice(),
    };
    let at8 = ShownPair {
        steps: report.at8.steps,
        spot: report.at8.spot,
        ending: report.at8.ending,
        events: report.at8.events.as_slice(),
    };
    pair_text(alloc, a, b, &at4, &at8, report.differ)
}

/// The answer of the runs of image A and image B on one host, at both widths, for at most so many steps.
pub fn pair_reply(
    alloc: Global,
    a: &ReadDriver,
    b: &ReadDriver,
    binds: &Binds,
    steps: u64,
) -> Result<Reply, NoMemory>
    requires { IsReadPair a.now b.now binds.now }
    ensures tells { IfOk result (TellsPair a.now b.now binds.now steps) }
    ensures answer { IfOk result (λ r. IsWorkAnswer r.outcome) }
    ensures output { IfOk result (λ r. written_name r.output ≡ None) }
{
    let report = pair(
        alloc, &a.image, &a.notes, &a.script, &b.image, &b.notes, &b.script, binds, steps,
    )?;
    let text = pair_twin_text(alloc, &a.notes, &b.notes, &report)?;
    Ok(printed(twin_outcome(report.differ), text))
}

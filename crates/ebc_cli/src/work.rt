//! The work that words ask for, and the reply to it.
ghost use Rattle.std.specs.Prelude.{◌≡◌, ◌≢◌, ◌≤◌, None, Some, IfSome, IfOk, IsErrOf, length};
ghost use Rattle.ebc_outside.specs.Counts.{Rose};
ghost use Rattle.note_types.specs.Records.{IsNotes};
ghost use Rattle.ebc_object.specs.Files.{object_bytes};
ghost use Rattle.ebc_object.specs.Objects.{IsObject};
ghost use Rattle.option_rom.specs.Files.{rom_bytes};
ghost use Rattle.pe_image.specs.Files.{file_of};
ghost use Rattle.pe_image.specs.Linked.{IsLinked};
ghost use Rattle.ebc_disasm.specs.Listings.{listing_of};
ghost use Rattle.plain_check.specs.PlainRules as plain;
ghost use Rattle.width_checker.specs.Typed.{Typed};
ghost use Rattle.width_checker.specs.Verdicts.{IsRefused};
ghost use Rattle.ebc_cli.specs.Commands.{command_of, output_of};
ghost use Rattle.ebc_cli.specs.Reads.{AnswersWords, CanBeDone, RepliesTo, output_name};
ghost use Rattle.ebc_cli.specs.RomTexts.{rom_listing};
ghost use Rattle.cli_base.specs.Words.{word_bytes};
ghost use Rattle.cli_base.specs.Inputs.{IsReadImage, image_limit};
ghost use Rattle.cli_base.specs.Outcomes.{IsWorkAnswer};
ghost use Rattle.cli_base.specs.Readings.{Follows, IfStop};
ghost use Rattle.cli_base.specs.Outputs.{written_name};
ghost use Rattle.ebc_cli.specs.Works.{TellsVerdict, file_reply, listing_reply, plain_code_limit, work_of};

use crate::command::command_of;
use crate::inferring::infer_reply;
use crate::pairing::{ReadDriver, pair_reply};
use crate::reading::read_command;
use crate::rom_text::rom_listing;
use crate::running::{run_reply, twin_reply};
use crate::sampling::{BuiltSample, sample_reply};
use crate::text;
use crate::width::Width;
use cli_base::{End, Reply};
use ebc_base::{Name, NoMemory, Sequence};
use ebc_disasm::list;
use ebc_object::{Object, write_object};
use ebc_outside::Folder;
use note_types::{Notes, Script};
use option_rom::{RomImages, wrap};
use pair_host::Binds;
use pe_image::{Image, write_image};
use std::alloc::Global;
use twin_run::check;
use width_checker::check_plain;

/// What a command has to do once its files are read.
#[derive(Drop)]
pub enum Work {
    /// The plain check of raw code.
    CheckCode {
        code: Sequence<u8>,
    },
    /// The check of an image under notes.
    CheckImage {
        image: Image,
        notes: Notes,
    },
    /// The listing of an image.
    ListImage {
        image: Image,
    },
    /// The writing of an object's file under a name.
    WriteObject {
        name: Name,
        object: Object,
    },
    /// The writing of an image's file under a name.
    WriteImage {
        name: Name,
        image: Image,
    },
    /// The run of an image at a width, under notes and with a script, for at most so many steps.
    Run {
        width: Width,
        image: Image,
        notes: Notes,
        script: Script,
        steps: u64,
    },
    /// The runs of an image at both widths.
    Twin {
        image: Image,
        notes: Notes,
        script: Script,
        steps: u64,
    },
    /// The runs of image A and image B on one host, at both widths, for at most so many steps. The binds agree with the notes of both.
    Pair {
        a: ReadDriver,
        b: ReadDriver,
        binds: Binds,
        steps: u64,
    },
    /// The check and the runs of a sample.
    Sample {
        sample: BuiltSample,
    },
    /// The writing of an option ROM under a name, for the device of a vendor, with the file of an image of a subsystem in it.
    WriteRom {
        name: Name,
        vendor: u16,
        device: u16,
        subsystem: u16,
        image: Sequence<u8>,
    },
    /// The listing of an option ROM.
    ListRom {
        images: RomImages,
    },
    /// The writing of what was taken out of an option ROM, under a name.
    WriteTaken {
        name: Name,
        bytes: Sequence<u8>,
    },
    /// The search for points of the image of a name, under notes.
    InferPoints {
        name: Name,
        image: Image,
        notes: Notes,
    },
}

/// Reads the files that the words name, and says what the words ask for.
#[tactic(auto, unfolding(crate::specs::Works::work_of))]
pub fn read_work<F: Folder>(alloc: Global, words: &Vec<String>, folder: &mut F) -> Result<Work, End>
    ensures follows { IfSome (F.contents folder.old) (λ files.
        Follows (F.asked folder.old) (F.asked folder.new) result (work_of (word_bytes words.now) files)) }
    ensures work { IfOk result CanBeDone }
    ensures command { IfOk result (λ _. command_of (word_bytes words.now) ≢ None) }
    ensures output { IfOk result (λ work. output_name work ≡ output_of (command_of (word_bytes words.now))) }
    ensures stop { IfStop result (AnswersWords (word_bytes words.now) (F.contents folder.old)
        (F.read_faults folder.old) (F.read_faults folder.new)) }
    ensures fault { IsErrOf result End.ReadFault →
        Rose (F.read_faults folder.old) (F.read_faults folder.new) }
    ensures uncounted { IfSome (F.contents folder.old) (λ _. ¬ IsErrOf result End.ReadFault →
        F.read_faults folder.new ≡ F.read_faults folder.old) }
    ensures contents { F.contents folder.new ≡ F.contents folder.old }
    ensures write_faults { F.write_faults folder.new ≡ F.write_faults folder.old }
{
    match command_of(alloc, words)? {
        None => Err(End::Stop(text::usage(alloc)?)),
        Some(command) => read_command(alloc, command, folder),
    }
}

// The answer of the plain check of raw code.
fn code_reply(alloc: Global, code: Sequence<u8>) -> Result<Reply, NoMemory>
    requires { length code ≤ plain_code_limit }
    ensures reply { IfOk result (TellsVerdict (plain.IsNeutral code) (plain.IsRefused code)) }
    ensures answer { IfOk result (λ r. IsWorkAnswer r.outcome) }
    ensures output { IfOk result (λ r. written_name r.output ≡ None) }
{
    let verdict = check_plain(alloc, code.as_slice())?;
    Ok(text::verdict(alloc, verdict)?)
}

// The answer of the check of an image under notes.
fn image_reply(alloc: Global, image: &Image, notes: &Notes) -> Result<Reply, NoMemory>
    requires image { IsReadImage image.now }
    requires notes { IsNotes notes.now }
    ensures reply { IfOk result (TellsVerdict (Typed image.now notes.now) (IsRefused image.now notes.now)) }
    ensures answer { IfOk result (λ r. IsWorkAnswer r.outcome) }
    ensures output { IfOk result (λ r. written_name r.output ≡ None) }
{
    let verdict = check(alloc, image, notes)?;
    Ok(text::verdict(alloc, verdict)?)
}

// The listing of an image.
fn image_listing(alloc: Global, image: Image) -> Result<Reply, NoMemory>
    requires { IsReadImage image }
    ensures { IfOk result (λ r. r ≡ listing_reply (listing_of image)) }
{
    let listing = list(alloc, &image)?;
    Ok(text::listing(listing))
}

// The file of an object, under a name.
fn object_file(alloc: Global, name: Name, object: Object) -> Result<Reply, NoMemory>
    requires { IsObject object }
    ensures { IfOk result (λ r. r ≡ file_reply name (object_bytes object)) }
{
    let file = write_object(alloc, &object)?;
    Ok(text::file(name, file))
}

// The file of an image, under a name.
fn image_file(alloc: Global, name: Name, image: Image) -> Result<Reply, NoMemory>
    requires { IsLinked image }
    ensures { IfOk result (λ r. r ≡ file_reply name (file_of image)) }
{
    let file = write_image(alloc, &image)?;
    Ok(text::file(name, file))
}

// The file of an option ROM, under a name, with the file of an image of a subsystem in it.
fn rom_file(
    alloc: Global,
    name: Name,
    vendor: u16,
    device: u16,
    subsystem: u16,
    image: Sequence<u8>,
) -> Result<Reply, NoMemory>
    requires { length image ≤ image_limit }
    ensures { IfOk result (λ r. r ≡ file_reply name (rom_bytes vendor device subsystem image)) }
{
    let file = wrap(alloc, vendor, device, subsystem, image.as_slice())?;
    Ok(text::file(name, file))
}

// The listing of an option ROM.
fn images_listing(alloc: Global, images: RomImages) -> Result<Reply, NoMemory>
    ensures { IfOk result (λ r. r ≡ listing_reply (rom_listing images)) }
{
    let listing = rom_listing(alloc, images.as_slice())?;
    Ok(text::listing(listing))
}

impl Work {
    /// Does the work, with what was read for it.
    pub fn reply(self, alloc: Global) -> Result<Reply, NoMemory>
        requires { CanBeDone self }
        ensures { RepliesTo self result }
    {
        // A value of many parts is dropped by a call: its drop at the end of an arm would be proved part by part.
        match self {
            Work::CheckCode { code } => code_reply(alloc, code),
            Work::CheckImage { image, notes } => {
                let reply = image_reply(alloc, &image, &notes);
                drop(image);
                drop(notes);
                reply
            }
            Work::ListImage { image } => image_listing(alloc, image),
            Work::WriteObject { name, object } => object_file(alloc, name, object),
            Work::WriteImage { name, image } => image_file(alloc, name, image),
            Work::Run {
                width,
                image,
                notes,
                script,
                steps,
            } => {
                let reply = run_reply(alloc, width, &image, &notes, &script, steps);
                drop(image);
                drop(notes);
                drop(script);
                reply
            }
            Work::Twin {
                image,
                notes,
                script,
                steps,
            } => {
                let reply = twin_reply(alloc, &image, &notes, &script, steps);
                drop(image);
                drop(notes);
                drop(script);
                reply
            }
            Work::Pair { a, b, binds, steps } => {
                let reply = pair_reply(alloc, &a, &b, &binds, steps);
                drop(a);
                drop(b);
                drop(binds);
                reply
            }
            Work::Sample { sample } => {
                let reply = sample_reply(alloc, &sample);
                drop(sample);
                reply
            }
            Work::WriteRom {
                name,
                vendor,
                device,
                subsystem,
                image,
            } => rom_file(alloc, name, vendor, device, subsystem, image),
            Work::ListRom { images } => images_listing(alloc, images),
            Work::WriteTaken { name, bytes } => Ok(text::file(name, bytes.into_vec())),
            Work::InferPoints { name, image, notes } => {
                let reply = infer_reply(alloc, name.as_str(), &image, &notes);
                drop(image);
                drop(notes);
                reply
            }
        }
    }
}

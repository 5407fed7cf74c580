//! What each command reads before its work is done.
ghost use Rattle.std.specs.Prelude.{◌≡◌, ◌≤◌, All, None, Ok, Some, IfOk};
ghost use Rattle.option_rom.specs.Roms.{rom_of};
ghost use Rattle.option_rom.specs.Takes.{IsTakeable};
ghost use Rattle.cli_base.specs.Inputs.{Means};
ghost use Rattle.cli_base.specs.Outcomes.{IsBadInput};
ghost use Rattle.cli_base.specs.Outputs.{written_name};
ghost use Rattle.cli_base.specs.Readings.{IfStop};
ghost use Rattle.ebc_cli.specs.Commands.{output_of};
ghost use Rattle.ebc_cli.specs.Inputs.{number_meaning, rom_number_limit, sample_limit, step_limit};
ghost use Rattle.file_inputs.specs.Inputs.{taking_meaning};
ghost use Rattle.ebc_cli.specs.Reads.{IsRomCommand, IsRunCommand, ReadsWork};
ghost use Rattle.ebc_cli.specs.Works.{assembly, code_check, image_check, image_listing, inference, linking, rom_images};
ghost use Rattle.ebc_cli.specs.Works.{pairing, rom_taking, rom_taking_of, rom_wrapping, running, sampling, twinning, work_for};

use crate::command::{Command, DriverFiles};
use crate::pairing::{PAIR_STEP_LIMIT, read_pair};
use crate::running::{STEP_LIMIT, read_run};
use crate::sampling::{SAMPLE_LIMIT, built_sample};
use crate::width::Width;
use crate::work::Work;
use cli_base::text::large;
use cli_base::{End, file};
use ebc_base::{Name, Sequence};
use ebc_outside::Folder;
use file_inputs::text::bad_taking;
use file_inputs::{read_as, read_image_with_notes, read_linked, read_with_bytes};
use note_texts::number_in;
use option_rom::{RomImage, RomImages, take};
use pe_image::Image;
use std::alloc::Global;

/// How many bytes a file of plain code may have.
const PLAIN_CODE_LIMIT: u64 = 262144;

/// The greatest number by which an image of an option ROM may be asked for.
const ROM_NUMBER_LIMIT: u64 = 65535;

/// Reads the files that a command names, and says what it asks for.
pub fn read_command<F: Folder>(alloc: Global, command: Command, folder: &mut F) -> Result<Work, End>
    ensures { ReadsWork F.contents F.asked F.read_faults F.write_faults folder.old folder.new result (work_for (Some command))
        (output_of (Some command)) }
{
    match command {
        Command::CheckCode { code } => read_code_check(alloc, code, folder),
        Command::CheckImage { image, notes } => read_image_check(alloc, image, notes, folder),
        Command::ListImage { image } => read_image_listing(alloc, image, folder),
        Command::Assemble { source, object } => read_assembly(alloc, source, object, folder),
        Command::Link { plan, image } => read_linking(alloc, plan, image, folder),
        Command::InferPoints { image, notes } => read_inference(alloc, image, notes, folder),
        Command::Run { .. }
        | Command::Twin { .. }
        | Command::Pair { .. }
        | Command::Sample { .. } => read_run_command(alloc, command, folder),
        Command::WrapRom { .. } | Command::ListRom { .. } | Command::TakeRom { .. } => {
            read_rom_command(alloc, command, folder)
        }
    }
}

// The commands that run images, whose work keeps none of their names.
fn read_run_command<F: Folder>(alloc: Global, command: Command, folder: &mut F) -> Result<Work, End>
    requires { IsRunCommand command }
    ensures { ReadsWork F.contents F.asked F.read_faults F.write_faults folder.old folder.new result (work_for (Some command))
        (output_of (Some command)) }
{
    let work = read_for_run(alloc, &command, folder);
    drop(command);
    work
}

// What such a command reads.
fn read_for_run<F: Folder>(alloc: Global, command: &Command, folder: &mut F) -> Result<Work, End>
    requires { IsRunCommand command.now }
    ensures { ReadsWork F.contents F.asked F.read_faults F.write_faults folder.old folder.new result
        (work_for (Some command.now)) (output_of (Some command.now)) }
{
    match command {
        Command::Run {
            width,
            image,
            notes,
            script,
            steps,
        } => read_running(alloc, *width, image, notes, script, steps, folder),
        Command::Twin {
            image,
            notes,
            script,
            steps,
        } => read_twinning(alloc, image, notes, script, steps, folder),
        Command::Pair { a, b, binds, steps } => read_pairing(alloc, a, b, binds, steps, folder),
        Command::Sample { functions } => read_sampling(alloc, functions, folder),
        _ => unreachable!(),
    }
}

// The commands on option ROMs.
fn read_rom_command<F: Folder>(alloc: Global, command: Command, folder: &mut F) -> Result<Work, End>
    requires { IsRomCommand command }
    ensures { ReadsWork F.contents F.asked F.read_faults F.write_faults folder.old folder.new result (work_for (Some command))
        (output_of (Some command)) }
{
    match command {
        Command::WrapRom {
            vendor,
            device,
            image,
            rom,
        } => read_wrapping(alloc, vendor, device, image, rom, folder),
        Command::ListRom { rom } => read_rom_listing(alloc, rom, folder),
        Command::TakeRom { rom, number, image } => read_taking(alloc, rom, number, image, folder),
        _ => unreachable!(),
    }
}

// `check CODE`
#[tactic(auto, unfolding(crate::specs::Works::code_check))]
fn read_code_check<F: Folder>(alloc: Global, code: Name, folder: &mut F) -> Result<Work, End>
    ensures { ReadsWork F.contents F.asked F.read_faults F.write_faults folder.old folder.new result (code_check code) None }
{
    let code = file(alloc, folder, 1, code.as_str(), PLAIN_CODE_LIMIT)?;
    Ok(Work::CheckCode { code })
}

// `check IMAGE NOTES`
#[tactic(auto, unfolding(crate::specs::Works::image_check))]
fn read_image_check<F: Folder>(
    alloc: Global,
    image: Name,
    notes: Name,
    folder: &mut F,
) -> Result<Work, End>
    ensures { ReadsWork F.contents F.asked F.read_faults F.write_faults folder.old folder.new result (image_check image notes) None }
{
    let (image, notes) = read_image_with_notes(alloc, folder, 1, image.as_str(), notes.as_str())?;
    Ok(Work::CheckImage { image, notes })
}

// `infer IMAGE NOTES`
#[tactic(auto, unfolding(crate::specs::Works::inference))]
fn read_inference<F: Folder>(
    alloc: Global,
    name: Name,
    notes: Name,
    folder: &mut F,
) -> Result<Work, End>
    ensures { ReadsWork F.contents F.asked F.read_faults F.write_faults folder.old folder.new result (inference name notes) None }
{
    let (image, notes) = read_image_with_notes(alloc, folder, 1, name.as_str(), notes.as_str())?;
    Ok(Work::InferPoints { name, image, notes })
}

// `list IMAGE`
#[tactic(auto, unfolding(crate::specs::Works::image_listing))]
fn read_image_listing<F: Folder>(alloc: Global, image: Name, folder: &mut F) -> Result<Work, End>
    ensures { ReadsWork F.contents F.asked F.read_faults F.write_faults folder.old folder.new result (image_listing image) None }
{
    let image = read_as(alloc, folder, 1, image.as_str())?;
    Ok(Work::ListImage { image })
}

// `asm SRC OBJ`: the object has the second name.
#[tactic(auto, unfolding(crate::specs::Works::assembly))]
fn read_assembly<F: Folder>(
    alloc: Global,
    source: Name,
    name: Name,
    folder: &mut F,
) -> Result<Work, End>
    ensures { ReadsWork F.contents F.asked F.read_faults F.write_faults folder.old folder.new result (assembly source name) (Some name) }
{
    let object = read_as(alloc, folder, 1, source.as_str())?;
    Ok(Work::WriteObject { name, object })
}

// `link PLAN IMAGE`: the image has the second name.
#[tactic(auto, unfolding(crate::specs::Works::linking))]
fn read_linking<F: Folder>(
    alloc: Global,
    plan: Name,
    name: Name,
    folder: &mut F,
) -> Result<Work, End>
    ensures { ReadsWork F.contents F.asked F.read_faults F.write_faults folder.old folder.new result (linking plan name) (Some name) }
{
    let image = read_linked(alloc, 1, plan.as_str(), folder)?;
    Ok(Work::WriteImage { name, image })
}

// The number that a word spells, where it is within a limit, or the answer to a larger one.
fn number_of(alloc: Global, limit: u64, word: u8, digits: &str) -> Result<u64, End>
    ensures meaning { Means result (number_meaning limit word digits.now) }
    ensures within { IfOk result (λ n. n ≤ limit) }
{
    match number_in(0, limit, digits.as_bytes()) {
        Some(number) => Ok(number),
        None => Err(End::Stop(large(alloc, word, digits)?)),
    }
}

// `run WIDTH IMAGE NOTES SCRIPT STEPS`
#[tactic(auto, unfolding(crate::specs::Works::running))]
fn read_running<F: Folder>(
    alloc: Global,
    width: Width,
    image: &Name,
    notes: &Name,
    script: &Name,
    digits: &Name,
    folder: &mut F,
) -> Result<Work, End>
    ensures { ReadsWork F.contents F.asked F.read_faults F.write_faults folder.old folder.new result
        (running width image.now notes.now script.now digits.now) None }
{
    let steps = number_of(alloc, STEP_LIMIT, 5, digits.as_str())?;
    let (image, notes, script) = read_run(
        alloc,
        folder,
        2,
        image.as_str(),
        notes.as_str(),
        script.as_str(),
    )?;
    Ok(Work::Run {
        width,
        image,
        notes,
        script,
        steps,
    })
}

// `twin IMAGE NOTES SCRIPT STEPS`
#[tactic(auto, unfolding(crate::specs::Works::twinning))]
fn read_twinning<F: Folder>(
    alloc: Global,
    image: &Name,
    notes: &Name,
    script: &Name,
    digits: &Name,
    folder: &mut F,
) -> Result<Work, End>
    ensures { ReadsWork F.contents F.asked F.read_faults F.write_faults folder.old folder.new result
        (twinning image.now notes.now script.now digits.now) None }
{
    let steps = number_of(alloc, STEP_LIMIT, 4, digits.as_str())?;
    let (image, notes, script) = read_run(
        alloc,
        folder,
        1,
        image.as_str(),
        notes.as_str(),
        script.as_str(),
    )?;
    Ok(Work::Twin {
        image,
        notes,
        script,
        steps,
    })
}

// `pair IMAGE NOTES SCRIPT IMAGE2 NOTES2 SCRIPT2 BINDS STEPS`
#[tactic(auto, unfolding(crate::specs::Works::pairing))]
fn read_pairing<F: Folder>(
    alloc: Global,
    a: &DriverFiles,
    b: &DriverFiles,
    binds: &Name,
    digits: &Name,
    folder: &mut F,
) -> Result<Work, End>
    ensures { ReadsWork F.contents F.asked F.read_faults F.write_faults folder.old folder.new result
        (pairing a.now b.now binds.now digits.now) None }
{
    let steps = number_of(alloc, PAIR_STEP_LIMIT, 8, digits.as_str())?;
    let (a, b, binds) = read_pair(alloc, folder, a, b, binds.as_str())?;
    Ok(Work::Pair { a, b, binds, steps })
}

// `sample N`: no file is read.
#[tactic(auto, unfolding(crate::specs::Works::sampling))]
fn read_sampling<F: Folder>(alloc: Global, digits: &Name, folder: &mut F) -> Result<Work, End>
    ensures { ReadsWork F.contents F.asked F.read_faults F.write_faults folder.old folder.new result (λ _. sampling digits.now) None }
{
    let functions = number_of(alloc, SAMPLE_LIMIT, 1, digits.as_str())?;
    let sample = built_sample(alloc, functions as u32, digits.as_str())?;
    Ok(Work::Sample { sample })
}

// `rom wrap VENDOR DEVICE IMAGE ROM`
#[tactic(auto, unfolding(crate::specs::Works::rom_wrapping))]
fn read_wrapping<F: Folder>(
    alloc: Global,
    vendor: u16,
    device: u16,
    image: Name,
    rom: Name,
    folder: &mut F,
) -> Result<Work, End>
    ensures { ReadsWork F.contents F.asked F.read_faults F.write_faults folder.old folder.new result
        (rom_wrapping vendor device image rom) (Some rom) }
{
    let (image, bytes) = read_with_bytes::<Image, F>(alloc, folder, 4, image.as_str())?;
    Ok(Work::WriteRom {
        name: rom,
        vendor,
        device,
        subsystem: image.subsystem,
        image: bytes,
    })
}

// `rom list ROM`
#[tactic(auto, unfolding(crate::specs::Works::rom_images))]
fn read_rom_listing<F: Folder>(alloc: Global, rom: Name, folder: &mut F) -> Result<Work, End>
    ensures { ReadsWork F.contents F.asked F.read_faults F.write_faults folder.old folder.new result (rom_images rom) None }
{
    let images = read_as(alloc, folder, 2, rom.as_str())?;
    Ok(Work::ListRom { images })
}

// What the image with a number carries, or the answer to the first fault.
#[tactic(auto, using(crate::proofs::RomLemmas::ends_inside), unfolding(option_rom::specs::Takes::bytes_taken))]
fn taken(
    alloc: Global,
    name: &str,
    rom: &[u8],
    images: &[RomImage],
    number: u32,
) -> Result<Sequence<u8>, End>
    requires images { rom_of rom.now ≡ Ok images.now }
    requires takeable { All IsTakeable images.now }
    ensures meaning { Means result (taking_meaning 2 name.now rom.now images.now number) }
    ensures stop { IfStop result (λ reply. IsBadInput reply.outcome) }
    ensures output { IfStop result (λ reply. written_name reply.output ≡ None) }
{
    match take(images, number) {
        Ok((begin, end)) => Ok(Sequence::new(Vec::from_slice(alloc, &rom[begin..end])?)),
        Err(kind) => Err(End::Stop(bad_taking(alloc, 2, name, images, number, kind)?)),
    }
}

// `rom take ROM NUMBER IMAGE`, once the number is known.
#[tactic(auto, unfolding(crate::specs::Works::rom_taking_of))]
fn read_taking_of<F: Folder>(
    alloc: Global,
    rom: Name,
    number: u32,
    image: Name,
    folder: &mut F,
) -> Result<Work, End>
    ensures { ReadsWork F.contents F.asked F.read_faults F.write_faults folder.old folder.new result
        (rom_taking_of rom number image) (Some image) }
{
    let (images, bytes) = read_with_bytes::<RomImages, F>(alloc, folder, 2, rom.as_str())?;
    let bytes = taken(
        alloc,
        rom.as_str(),
        bytes.as_slice(),
        images.as_slice(),
        number,
    )?;
    Ok(Work::WriteTaken { name: image, bytes })
}

// `rom take ROM NUMBER IMAGE`
#[tactic(auto, unfolding(crate::specs::Works::rom_taking))]
fn read_taking<F: Folder>(
    alloc: Global,
    rom: Name,
    digits: Name,
    image: Name,
    folder: &mut F,
) -> Result<Work, End>
    ensures { ReadsWork F.contents F.asked F.read_faults F.write_faults folder.old folder.new result
        (rom_taking rom digits image) (Some image) }
{
    let number = number_of(alloc, ROM_NUMBER_LIMIT, 3, digits.as_str())?;
    read_taking_of(alloc, rom, number as u32, image, folder)
}

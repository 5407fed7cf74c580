//! The commands that words spell.
ghost use Rattle.std.specs.Prelude.{◌≡◌, [], ◌∷◌, map, string_bytes, IfOk};
ghost use Rattle.ebc_cli.specs.Commands.{command_of, driver_of, of_file, of_five_words, of_nine_words, of_six_words, of_two_files};
ghost use Rattle.ebc_cli.specs.Commands.{pairing_of, running_of, sampling_of, taking_of, twinning_of, wrapping_of};
ghost use Rattle.ebc_cli.specs.Numbers.{identifier_of, width_of};
ghost use Rattle.cli_base.specs.Words.{word_bytes};

use crate::number::{identifier_of, is_count, is_decimal_number};
use crate::width::{Width, width_of};
use ebc_base::Name;
use std::alloc::{AllocError, Global};

/// The files of a driver.
#[derive(Drop)]
pub struct DriverFiles {
    pub image: Name,
    pub notes: Name,
    pub script: Name,
}

// The words that name the files of a driver.
#[derive(Clone, Copy)]
struct DriverWords<'a> {
    image: &'a String,
    notes: &'a String,
    script: &'a String,
}

/// What the words ask for.
#[derive(Drop)]
pub enum Command {
    /// `check CODE`: the plain check of a file of raw code.
    CheckCode {
        code: Name,
    },
    /// `check IMAGE NOTES`: the check of an image under notes.
    CheckImage {
        image: Name,
        notes: Name,
    },
    /// `list IMAGE`: the listing of an image.
    ListImage {
        image: Name,
    },
    /// `asm SRC OBJ`: the assembly of a source, whose object is written under a name.
    Assemble {
        source: Name,
        object: Name,
    },
    /// `link PLAN IMAGE`: the linking of the objects that a plan names, whose image is written under a name.
    Link {
        plan: Name,
        image: Name,
    },
    /// `run WIDTH IMAGE NOTES SCRIPT STEPS`: the run of an image at a width, under notes and with a script. The number of steps is in
    /// decimal digits, whatever its size.
    Run {
        width: Width,
        image: Name,
        notes: Name,
        script: Name,
        steps: Name,
    },
    /// `twin IMAGE NOTES SCRIPT STEPS`: its runs at both widths. The number of steps is in decimal digits, whatever its size.
    Twin {
        image: Name,
        notes: Name,
        script: Name,
        steps: Name,
    },
    /// `pair IMAGE NOTES SCRIPT IMAGE2 NOTES2 SCRIPT2 BINDS STEPS`: the runs, at both widths, of image A and image B on one host, where the
    /// calls of bound methods of A enter functions of B. The number of steps is in decimal digits, whatever its size.
    Pair {
        a: DriverFiles,
        b: DriverFiles,
        binds: Name,
        steps: Name,
    },
    /// `sample N`: a sample of so many functions, which is assembled, linked, checked and run. The number is in decimal digits, whatever
    /// its size.
    Sample {
        functions: Name,
    },
    /// `rom wrap VENDOR DEVICE IMAGE ROM`: an image in an option ROM, which is written under a name, for the device of a vendor.
    WrapRom {
        vendor: u16,
        device: u16,
        image: Name,
        rom: Name,
    },
    /// `rom list ROM`: the listing of an option ROM.
    ListRom {
        rom: Name,
    },
    /// `rom take ROM NUMBER IMAGE`: the image with a number, taken out of an option ROM and written under a name. The number is in
    /// decimal digits, whatever its size.
    TakeRom {
        rom: Name,
        number: Name,
        image: Name,
    },
    /// `infer IMAGE NOTES`: the points that are found for an image from notes whose own points are ignored.
    InferPoints {
        image: Name,
        notes: Name,
    },
}

/// The command that the words spell, if they spell one.
pub fn command_of(alloc: Global, words: &Vec<String>) -> Result<Option<Command>, AllocError>
    ensures { IfOk result (λ command. command ≡ command_of (word_bytes words.now)) }
{
    match words.as_slice() {
        [word, file] => with_one_file(alloc, word, file),
        [word, one, two] => with_two_words(alloc, word, one, two),
        [word, one, two, three, four] => of_five_words(alloc, word, one, two, three, four),
        [word, one, two, three, four, five] => {
            of_six_words(alloc, word, one, two, three, four, five)
        }
        [word, one, two, three, four, five, six, others @ ..] => {
            let a = DriverWords {
                image: one,
                notes: two,
                script: three,
            };
            let b = DriverWords {
                image: four,
                notes: five,
                script: six,
            };
            of_nine_words(alloc, word, &a, &b, others)
        }
        _ => Ok(None),
    }
}

// The name that a word spells.
fn name_of(alloc: Global, word: &String) -> Result<Name, AllocError>
    ensures { IfOk result (λ name. name ≡ string_bytes word.now) }
{
    Ok(Name::new(String::from_str(alloc, word.as_str())?))
}

#[tactic(auto, unfolding(crate::specs::Numbers::is_decimal_number))]
fn with_one_file(alloc: Global, word: &String, file: &String) -> Result<Option<Command>, AllocError>
    ensures { IfOk result (λ command. command ≡ command_of (string_bytes word.now ∷ string_bytes file.now ∷ [])) }
{
    if file.len() == 0 {
        return Ok(None);
    }
    if word.as_str() == "check" {
        let code = name_of(alloc, file)?;
        return Ok(Some(Command::CheckCode { code }));
    }
    if word.as_str() == "list" {
        let image = name_of(alloc, file)?;
        return Ok(Some(Command::ListImage { image }));
    }
    if word.as_str() == "sample" {
        return sampling(alloc, file);
    }
    Ok(None)
}

fn with_two_words(
    alloc: Global,
    word: &String,
    one: &String,
    two: &String,
) -> Result<Option<Command>, AllocError>
    ensures { IfOk result (λ command. command ≡ command_of (string_bytes word.now ∷ string_bytes one.now ∷ string_bytes two.now ∷ [])) }
{
    if word.as_str() == "check" {
        return image_checking(alloc, one, two);
    }
    if word.as_str() == "asm" {
        return assembling(alloc, one, two);
    }
    if word.as_str() == "link" {
        return linking(alloc, one, two);
    }
    if word.as_str() == "infer" {
        return inferring(alloc, one, two);
    }
    if word.as_str() == "rom" && one.as_str() == "list" {
        return rom_listing(alloc, two);
    }
    Ok(None)
}

fn image_checking(
    alloc: Global,
    image: &String,
    notes: &String,
) -> Result<Option<Command>, AllocError>
    ensures { IfOk result (λ command. command ≡ of_two_files Command.CheckImage (string_bytes image.now) (string_bytes notes.now)) }
{
    if image.len() == 0 || notes.len() == 0 {
        return Ok(None);
    }
    Ok(Some(Command::CheckImage {
        image: name_of(alloc, image)?,
        notes: name_of(alloc, notes)?,
    }))
}

fn assembling(
    alloc: Global,
    source: &String,
    object: &String,
) -> Result<Option<Command>, AllocError>
    ensures { IfOk result (λ command. command ≡ of_two_files Command.Assemble (string_bytes source.now) (string_bytes object.now)) }
{
    if source.len() == 0 || object.len() == 0 {
        return Ok(None);
    }
    Ok(Some(Command::Assemble {
        source: name_of(alloc, source)?,
        object: name_of(alloc, object)?,
    }))
}

fn linking(alloc: Global, plan: &String, image: &String) -> Result<Option<Command>, AllocError>
    ensures { IfOk result (λ command. command ≡ of_two_files Command.Link (string_bytes plan.now) (string_bytes image.now)) }
{
    if plan.len() == 0 || image.len() == 0 {
        return Ok(None);
    }
    Ok(Some(Command::Link {
        plan: name_of(alloc, plan)?,
        image: name_of(alloc, image)?,
    }))
}

fn inferring(alloc: Global, image: &String, notes: &String) -> Result<Option<Command>, AllocError>
    ensures { IfOk result (λ command. command ≡ of_two_files Command.InferPoints (string_bytes image.now) (string_bytes notes.now)) }
{
    if image.len() == 0 || notes.len() == 0 {
        return Ok(None);
    }
    Ok(Some(Command::InferPoints {
        image: name_of(alloc, image)?,
        notes: name_of(alloc, notes)?,
    }))
}

fn rom_listing(alloc: Global, rom: &String) -> Result<Option<Command>, AllocError>
    ensures { IfOk result (λ command. command ≡ of_file Command.ListRom (string_bytes rom.now)) }
{
    if rom.len() == 0 {
        return Ok(None);
    }
    let rom = name_of(alloc, rom)?;
    Ok(Some(Command::ListRom { rom }))
}

#[tactic(auto, unfolding(crate::specs::Commands::of_five_words))]
fn of_five_words(
    alloc: Global,
    word: &String,
    one: &String,
    two: &String,
    three: &String,
    four: &String,
) -> Result<Option<Command>, AllocError>
    ensures { IfOk result (λ command. command ≡ of_five_words (string_bytes word.now) (string_bytes one.now) (string_bytes two.now)
        (string_bytes three.now) (string_bytes four.now)) }
{
    if word.as_str() == "twin" {
        return twinning(alloc, one, two, three, four);
    }
    if word.as_str() == "rom" && one.as_str() == "take" {
        return rom_taking(alloc, two, three, four);
    }
    Ok(None)
}

#[tactic(auto, unfolding(crate::specs::Commands::of_six_words))]
fn of_six_words(
    alloc: Global,
    word: &String,
    one: &String,
    two: &String,
    three: &String,
    four: &String,
    five: &String,
) -> Result<Option<Command>, AllocError>
    ensures { IfOk result (λ command. command ≡ of_six_words (string_bytes word.now) (string_bytes one.now) (string_bytes two.now)
        (string_bytes three.now) (string_bytes four.now) (string_bytes five.now)) }
{
    if word.as_str() == "run" {
        return running(alloc, one, two, three, four, five);
    }
    if word.as_str() == "rom" && one.as_str() == "wrap" {
        return rom_wrapping(alloc, two, three, four, five);
    }
    Ok(None)
}

fn of_nine_words(
    alloc: Global,
    word: &String,
    a: &DriverWords,
    b: &DriverWords,
    others: &[String],
) -> Result<Option<Command>, AllocError>
    ensures { IfOk result (λ command. command ≡ of_nine_words (string_bytes word.now)
        (driver_of (string_bytes a.now.image.now) (string_bytes a.now.notes.now) (string_bytes a.now.script.now))
        (driver_of (string_bytes b.now.image.now) (string_bytes b.now.notes.now) (string_bytes b.now.script.now))
        (map string_bytes others.now)) }
{
    // Each number of words has an arm, since what they are is then computed.
    match others {
        [binds, steps] => {
            if word.as_str() == "pair" {
                return pairing(alloc, a, b, binds, steps);
            }
            Ok(None)
        }
        [] => Ok(None),
        [_one] => Ok(None),
        [_one, _two, _three, _more @ ..] => Ok(None),
    }
}

fn running(
    alloc: Global,
    width: &String,
    image: &String,
    notes: &String,
    script: &String,
    steps: &String,
) -> Result<Option<Command>, AllocError>
    ensures { IfOk result (λ command. command ≡ running_of (width_of (string_bytes width.now)) (string_bytes image.now)
        (string_bytes notes.now) (string_bytes script.now) (string_bytes steps.now)) }
{
    let Some(width) = width_of(width.as_str()) else {
        return Ok(None);
    };
    if !is_decimal_number(steps.as_str()) {
        return Ok(None);
    }
    if image.len() == 0 || notes.len() == 0 || script.len() == 0 {
        return Ok(None);
    }
    Ok(Some(Command::Run {
        width,
        image: name_of(alloc, image)?,
        notes: name_of(alloc, notes)?,
        script: name_of(alloc, script)?,
        steps: name_of(alloc, steps)?,
    }))
}

fn twinning(
    alloc: Global,
    image: &String,
    notes: &String,
    script: &String,
    steps: &String,
) -> Result<Option<Command>, AllocError>
    ensures { IfOk result (λ command. command ≡ twinning_of (string_bytes image.now) (string_bytes notes.now)
        (string_bytes script.now) (string_bytes steps.now)) }
{
    if !is_decimal_number(steps.as_str()) {
        return Ok(None);
    }
    if image.len() == 0 || notes.len() == 0 || script.len() == 0 {
        return Ok(None);
    }
    Ok(Some(Command::Twin {
        image: name_of(alloc, image)?,
        notes: name_of(alloc, notes)?,
        script: name_of(alloc, script)?,
        steps: name_of(alloc, steps)?,
    }))
}

// The files of a driver, where none of the words is empty.
#[tactic(auto, unfolding(crate::specs::Commands::driver_of))]
fn driver_of(alloc: Global, words: &DriverWords) -> Result<Option<DriverFiles>, AllocError>
    ensures { IfOk result (λ files. files ≡ driver_of (string_bytes words.now.image.now) (string_bytes words.now.notes.now)
        (string_bytes words.now.script.now)) }
{
    if words.image.len() == 0 || words.notes.len() == 0 || words.script.len() == 0 {
        return Ok(None);
    }
    Ok(Some(DriverFiles {
        image: name_of(alloc, words.image)?,
        notes: name_of(alloc, words.notes)?,
        script: name_of(alloc, words.script)?,
    }))
}

fn pairing(
    alloc: Global,
    a: &DriverWords,
    b: &DriverWords,
    binds: &String,
    steps: &String,
) -> Result<Option<Command>, AllocError>
    ensures { IfOk result (λ command. command ≡ pairing_of
        (driver_of (string_bytes a.now.image.now) (string_bytes a.now.notes.now) (string_bytes a.now.script.now))
        (driver_of (string_bytes b.now.image.now) (string_bytes b.now.notes.now) (string_bytes b.now.script.now))
        (string_bytes binds.now) (string_bytes steps.now)) }
{
    if !is_decimal_number(steps.as_str()) || binds.len() == 0 {
        return Ok(None);
    }
    let binds = name_of(alloc, binds)?;
    let steps = name_of(alloc, steps)?;
    let Some(a) = driver_of(alloc, a)? else {
        return Ok(None);
    };
    let Some(b) = driver_of(alloc, b)? else {
        return Ok(None);
    };
    Ok(Some(Command::Pair { a, b, binds, steps }))
}

fn sampling(alloc: Global, functions: &String) -> Result<Option<Command>, AllocError>
    ensures { IfOk result (λ command. command ≡ sampling_of (string_bytes functions.now)) }
{
    if !is_count(functions.as_str()) {
        return Ok(None);
    }
    Ok(Some(Command::Sample {
        functions: name_of(alloc, functions)?,
    }))
}

fn rom_taking(
    alloc: Global,
    rom: &String,
    number: &String,
    image: &String,
) -> Result<Option<Command>, AllocError>
    ensures { IfOk result (λ command. command ≡ taking_of (string_bytes rom.now) (string_bytes number.now) (string_bytes image.now)) }
{
    if !is_decimal_number(number.as_str()) {
        return Ok(None);
    }
    if rom.len() == 0 || image.len() == 0 {
        return Ok(None);
    }
    Ok(Some(Command::TakeRom {
        rom: name_of(alloc, rom)?,
        number: name_of(alloc, number)?,
        image: name_of(alloc, image)?,
    }))
}

fn rom_wrapping(
    alloc: Global,
    vendor: &String,
    device: &String,
    image: &String,
    rom: &String,
) -> Result<Option<Command>, AllocError>
    ensures { IfOk result (λ command. command ≡ wrapping_of (identifier_of (string_bytes vendor.now))
        (identifier_of (string_bytes device.now)) (string_bytes image.now) (string_bytes rom.now)) }
{
    let Some(vendor) = identifier_of(vendor.as_str()) else {
        return Ok(None);
    };
    let Some(device) = identifier_of(device.as_str()) else {
        return Ok(None);
    };
    if image.len() == 0 || rom.len() == 0 {
        return Ok(None);
    }
    Ok(Some(Command::WrapRom {
        vendor,
        device,
        image: name_of(alloc, image)?,
        rom: name_of(alloc, rom)?,
    }))
}

//! The check of an image under notes by the bytes of two files: no folder, no output and no words stand between.
ghost use Rattle.std.specs.Prelude.{◌≡◌, ◌↔◌, IfOk, Ok};
ghost use Rattle.cli_base.specs.Inputs.{IsReadImage};
ghost use Rattle.note_types.specs.Records.{IsNotes};
ghost use Rattle.note_types.specs.declared.notes.Notes.{Notes};
ghost use Rattle.pe_image.specs.declared.image.Image.{Image};
ghost use Rattle.twin_run.specs.Headline.{RunsAsOne};
ghost use Rattle.type_notes.specs.Notes.{notes_of};
ghost use Rattle.ebc_cli.specs.Checks.{AreTyped, IsToldAs, StandFor};
ghost use Rattle.ebc_cli.specs.Reads.{TellsCheck, TellsUnder, checked_of};

use ebc_base::NoMemory;
use note_types::{Notes, NotesEnd, TomlFault};
use pe_image::{Image, ImageEnd, ImageFault, read_image};
use std::alloc::Global;
use twin_run::check;
use type_notes::read_notes;
use width_checker::{RuleName, Verdict};

/// What a check tells of the bytes of two files.
#[derive(Drop)]
pub enum Checked {
    /// They stand for an image and for notes, under which it is typed.
    Neutral,
    /// The first place at which a rule fails, in bytes from the image's base, and the first rule that fails there.
    Refused { place: u32, rule: RuleName },
    /// The first file is no image: its first fault, and the offset in bytes where this stands.
    NoImage { kind: ImageFault, offset: u64 },
    /// The second file is no notes: the first fault.
    NoNotes { fault: TomlFault },
}

// What a verdict tells.
fn told(verdict: Verdict) -> Checked
    ensures { result ≡ checked_of verdict }
{
    match verdict {
        Verdict::Neutral => Checked::Neutral,
        Verdict::Refused { place, rule } => Checked::Refused { place, rule },
    }
}

// The check of an image under notes.
fn check_image(alloc: Global, image: Image, notes: Notes) -> Result<Checked, NoMemory>
    requires image { IsReadImage image }
    requires notes { IsNotes notes }
    ensures { IfOk result (TellsCheck image notes) }
{
    let verdict = check(alloc, &image, &notes);
    drop(image);
    drop(notes);
    Ok(told(verdict?))
}

// The check of an image under the notes that a text stands for.
fn check_under(alloc: Global, image: Image, text: &[u8]) -> Result<Checked, NoMemory>
    requires { IsReadImage image }
    ensures exactly { IfOk result (TellsUnder image text.now) }
    ensures as_one { IfOk result (λ x. x ≡ Checked.Neutral → (notes : Notes) → notes_of text.now ≡ Ok notes → RunsAsOne image notes) }
{
    match read_notes(alloc, text) {
        Ok(notes) => check_image(alloc, image, notes),
        Err(NotesEnd::Fault(fault)) => {
            drop(image);
            Ok(Checked::NoNotes { fault })
        }
        Err(NotesEnd::NoMemory) => {
            drop(image);
            Err(NoMemory)
        }
    }
}

/// The check of the image that the bytes of one file stand for, under the notes that those of another stand for. They may be of any length:
/// limits are those of the commands.
///
/// # Errors
///
/// Want of memory alone.
pub fn check_bytes(alloc: Global, image: &[u8], notes: &[u8]) -> Result<Checked, NoMemory>
    // It tells Neutral exactly where the bytes stand for an image and for notes under which this is typed.
    ensures typed_exactly { IfOk result (λ x. x ≡ Checked.Neutral ↔ AreTyped image.now notes.now) }

    // Then all runs of the image show one behaviour, memory and all, for every script under the notes, whatever the width, the valid
    // placement and the number of steps, and have raised nothing but a division by zero.
    ensures runs_as_one { IfOk result (λ x. x ≡ Checked.Neutral → (i : Image) (n : Notes) →
        StandFor image.now notes.now i n → RunsAsOne i n) }

    // Each other answer comes exactly where it is so: the first place at which a rule fails, or the first fault of a file.
    ensures told_exactly { IfOk result (λ x. (wanted : Checked) → x ≡ wanted ↔ IsToldAs image.now notes.now wanted) }
{
    match read_image(alloc, image) {
        Ok(image) => check_under(alloc, image, notes),
        Err(ImageEnd::Fault { kind, offset }) => Ok(Checked::NoImage { kind, offset }),
        Err(ImageEnd::NoMemory) => Err(NoMemory),
    }
}

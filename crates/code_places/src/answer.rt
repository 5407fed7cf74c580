//! The top call: the words, the image, and what is printed.
ghost use Rattle.std.specs.Prelude.{◌≡◌, ◌≢◌, ◌++◌, ◌↔◌, ◌⊎◌, ℕ, [], None, IfSome, IfNone, IfOk, IfErr, IsErrOf, map, option_map};
ghost use Rattle.std.specs.List.{filter, flat_map};
ghost use Rattle.ebc_outside.specs.Counts.{Rose};
ghost use Rattle.ebc_outside.specs.Files.{AppendsPart};
ghost use Rattle.ebc_disasm.specs.CodeItems.{items_of, line_of, says_bytes};
ghost use Rattle.ebc_disasm.specs.Listings.{has_code, section_lines};
ghost use Rattle.pe_image.specs.declared.image.Image.{Image};
ghost use Rattle.cli_base.specs.declared.reply.Reply.{Reply};
ghost use Rattle.cli_base.specs.Outcomes.{IsAnswer, ReadsAll};
ghost use Rattle.cli_base.specs.Outputs.{printed, written_name};
ghost use Rattle.cli_base.specs.Readings.{AsksPart, CommandAnswer, Follows, IfStop, MissingHasCause};
ghost use Rattle.cli_base.specs.Words.{word_bytes};
ghost use Rattle.code_places.specs.Answers.{Answers, Decides, IsPrinted, ShowsImage, answer_of, answer_text, answer_to_words, file_named};
ghost use Rattle.code_places.specs.Answers.{usage_reply};
ghost use Rattle.code_places.specs.Places.{places_text};

use crate::line::places_text;
use cli_base::text::printed;
use cli_base::{End, IMAGE_LIMIT, Outcome, Reply, file, finish, image_in};
use ebc_outside::{Folder, Sink};
use std::alloc::{AllocError, Global};

/// Prints a line for each place of the code of the image that the one word names: the place, its bytes, and the line of the listing,
/// with the place that it names by a distance. docs/COMMANDS.md, "The places of an image", has the answers.
pub fn places<F: Folder, O: Sink>(
    alloc: Global,
    words: &Vec<String>,
    folder: &mut F,
    out: &mut O,
) -> Outcome
    // Where the folder tells its files, the outcome and the printed text are those of the answer to the words. The file asked for is the
    // one that they name, also where the output then fails, and at most that where a read failed or memory ran out.
    ensures answer { IfSome (F.contents folder.old) (λ files. IsAnswer result →
        Answers (answer_to_words (word_bytes words.now) files) result (O.written out.old) (O.written out.new)) }
    ensures asked { IfSome (F.contents folder.old) (λ files.
        ReadsAll result → F.asked folder.new ≡ F.asked folder.old ++ (answer_to_words (word_bytes words.now) files).asked) }
    ensures asked_part { IfSome (F.contents folder.old) (λ files.
        AsksPart (F.asked folder.old) (answer_to_words (word_bytes words.now) files).asked (F.asked folder.new)) }

    // The lines of an image within the limit are printed, each with the listing's line, and they are those that say bytes of its
    // sections with code.
    ensures shows { IfSome (F.contents folder.old) (λ files. (image : Image) → ShowsImage (word_bytes words.now) files image →
        IsAnswer result → (result ≡ Outcome.Done) × (O.written out.new ≡ printed (places_text image) (O.written out.old))) }
    ensures listed { (image : Image) → map line_of (items_of image)
        ≡ filter says_bytes (flat_map (section_lines image) (filter has_code image.sections)) }

    // An answer with no text puts nothing, and then no fault of the output is told.
    ensures unput { IfSome (F.contents folder.old) (λ files.
        answer_text (word_bytes words.now) files ≡ [] → out.new ≡ out.old) }
    ensures untold { IfSome (F.contents folder.old) (λ files.
        answer_text (word_bytes words.now) files ≡ [] → result ≢ Outcome.WriteFault) }

    // No file changes, and a text of which a part was printed is that of the answer.
    ensures contents { F.contents folder.new ≡ F.contents folder.old }
    ensures write_faults { F.write_faults folder.new ≡ F.write_faults folder.old }
    ensures write_fault_leaves { IfSome (F.contents folder.old) (λ files. result ≡ Outcome.WriteFault →
        AppendsPart (answer_text (word_bytes words.now) files) (O.written out.old) (O.written out.new)) }

    // Why an answer comes, also where the folder doesn't tell its files.
    ensures bad_words { IsAnswer result → (result ≡ Outcome.BadWords ↔ file_named (word_bytes words.now) ≡ None) }
    ensures missing { IfNone (F.contents folder.old) ((word : ℕ) → result ≡ Outcome.Missing word →
        Rose (F.read_faults folder.old) (F.read_faults folder.new)) }
    ensures read_fault { result ≡ Outcome.ReadFault → Rose (F.read_faults folder.old) (F.read_faults folder.new) }
    ensures uncounted { IfSome (F.contents folder.old) (λ _. result ≢ Outcome.ReadFault →
        F.read_faults folder.new ≡ F.read_faults folder.old) }
    ensures write_fault { result ≡ Outcome.WriteFault → Rose (O.faults out.old) (O.faults out.new) }
    ensures read_fault_leaves { result ≡ Outcome.ReadFault → out.new ≡ out.old }
    ensures no_memory_leaves { result ≡ Outcome.NoMemory → O.written out.new ≡ O.written out.old }
{
    match decide(alloc, words, folder) {
        Ok(reply) => finish(alloc, &reply, folder, out),
        Err(outcome) => outcome,
    }
}

// The answer to words that aren't the name of a file.
fn usage(alloc: Global) -> Result<Reply, AllocError>
    ensures { IfOk result (λ r. r ≡ usage_reply) }
{
    Ok(printed(Outcome::BadWords, b"usage: IMAGE\n".to_vec(alloc)?))
}

// The answer to the name of a file.
#[tactic(auto, unfolding(crate::specs::Answers::answer_of))]
fn read_places<F: Folder>(alloc: Global, name: &str, folder: &mut F) -> Result<Reply, End>
    ensures follows { IfSome (F.contents folder.old) (λ files.
        Follows (F.asked folder.old) (F.asked folder.new) result (answer_of name.now files)) }
    ensures stop { IfStop result (CommandAnswer (F.contents folder.old) (F.read_faults folder.old) (F.read_faults folder.new)) }
    ensures shown { IfOk result (λ r. (r.outcome ≡ Outcome.Done) × (written_name r.output ≡ None)) }
    ensures fault { IsErrOf result End.ReadFault → Rose (F.read_faults folder.old) (F.read_faults folder.new) }
    ensures uncounted { IfSome (F.contents folder.old) (λ _. ¬ IsErrOf result End.ReadFault →
        F.read_faults folder.new ≡ F.read_faults folder.old) }
    ensures contents { F.contents folder.new ≡ F.contents folder.old }
    ensures write_faults { F.write_faults folder.new ≡ F.write_faults folder.old }
{
    let bytes = file(alloc, folder, 0, name, IMAGE_LIMIT)?;
    let image = image_in(alloc, 0, name, bytes.as_slice())?;
    Ok(printed(Outcome::Done, places_text(alloc, &image)?))
}

// The answer to words, or how the call ends without one.
#[tactic(auto, unfolding(crate::specs::Answers::answer_to_words))]
fn decide<F: Folder>(alloc: Global, words: &Vec<String>, folder: &mut F) -> Result<Reply, Outcome>
    ensures decided { IfSome (F.contents folder.old) (λ files.
        Decides (F.asked folder.old) (F.asked folder.new) result (answer_to_words (word_bytes words.now) files)) }
    ensures reply { IfOk result (IsPrinted (word_bytes words.now)) }
    ensures missing { IfOk result (λ r.
        MissingHasCause (F.contents folder.old) (F.read_faults folder.old) (F.read_faults folder.new) r.outcome) }
    ensures ends { IfErr result (λ end. (end ≡ Outcome.ReadFault) ⊎ (end ≡ Outcome.NoMemory)) }
    ensures fault { IsErrOf result Outcome.ReadFault → Rose (F.read_faults folder.old) (F.read_faults folder.new) }
    ensures uncounted { IfSome (F.contents folder.old) (λ _. ¬ IsErrOf result Outcome.ReadFault →
        F.read_faults folder.new ≡ F.read_faults folder.old) }
    ensures contents { F.contents folder.new ≡ F.contents folder.old }
    ensures write_faults { F.write_faults folder.new ≡ F.write_faults folder.old }
{
    let Some(name) = file_named(words) else {
        return match usage(alloc) {
            Ok(reply) => Ok(reply),
            Err(_) => Err(Outcome::NoMemory),
        };
    };
    match read_places(alloc, name, folder) {
        Ok(reply) => Ok(reply),
        Err(End::Stop(reply)) => Ok(reply),
        Err(End::ReadFault) => Err(Outcome::ReadFault),
        Err(End::NoMemory) => Err(Outcome::NoMemory),
    }
}

// The file that the one word names, where there is one word and it isn't empty.
fn file_named(words: &Vec<String>) -> Option<&str>
    ensures { option_map (λ name. name.now) result ≡ file_named (word_bytes words.now) }
{
    match words.as_slice() {
        [name] if name.len() > 0 => Some(name.as_str()),
        _ => None,
    }
}

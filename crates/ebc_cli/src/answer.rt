//! The top call: what is read, what is answered, and what is printed or written.
ghost use Rattle.std.specs.Prelude.{◌≡◌, ◌≢◌, ◌++◌, ◌↔◌, ◌⊎◌, ◌<◌, ◌≤◌, ◌^◌, ℕ, List, Option, Some, None, Ok, Err};
ghost use Rattle.std.specs.Prelude.{IfSome, IfNone, IfOk, IfErr, IsErrOf};
ghost use Rattle.std.specs.Fmt.{decimal};
ghost use Rattle.ebc_outside.specs.Counts.{Rose};
ghost use Rattle.host_model.specs.Runs.{world_of};
ghost use Rattle.note_infer.specs.Inferred.{IsInferred};
ghost use Rattle.note_infer.specs.Rounds.{with_points};
ghost use Rattle.note_infer.specs.declared.inferred.Inferred.TheVariants.{Points, Stuck};
ghost use Rattle.note_texts.specs.Numbers.{number_in};
ghost use Rattle.note_types.specs.declared.notes.Notes.{Notes};
ghost use Rattle.note_types.specs.declared.notes.Point.{Point};
ghost use Rattle.note_types.specs.declared.rule.RuleName.{RuleName};
ghost use Rattle.note_types.specs.declared.script.Script.{Script};
ghost use Rattle.note_types.specs.declared.state.State.{State};
ghost use Rattle.option_rom.specs.Images.{IsRom};
ghost use Rattle.option_rom.specs.Roms.{FailsFirst, rom_of};
ghost use Rattle.option_rom.specs.declared.fault.RomFault.{RomFault};
ghost use Rattle.option_rom.specs.declared.image.RomImage.{RomImage};
ghost use Rattle.pair_host.specs.PairDiffers.{PairsDifferAt};
ghost use Rattle.pair_model.specs.declared.bind.Bind.{Bind};
ghost use Rattle.pe_image.specs.declared.image.Image.{Image};
ghost use Rattle.plain_check.specs.PlainRules as plain;
ghost use Rattle.plain_check.specs.PlainRuns.{RunsAlike};
ghost use Rattle.printed_texts.specs.PrintedStates.{points_text};
ghost use Rattle.printed_texts.specs.Refusals.{refused_line};
ghost use Rattle.printed_texts.specs.RunTexts.{differ_line};
ghost use Rattle.twin_run.specs.Differs.{DifferAt};
ghost use Rattle.width_checker.specs.Typed.{Typed};
ghost use Rattle.width_checker.specs.Verdicts.{IsRefused};
ghost use Rattle.cli_base.specs.Outcomes.{IsAnswer, ReadsAll};
ghost use Rattle.cli_base.specs.Outputs.{SameBut, printed};
ghost use Rattle.cli_base.specs.Readings.{AsksPart};
ghost use Rattle.cli_base.specs.Words.{word_bytes};
ghost use Rattle.ebc_cli.specs.declared.pairing.ReadDriver.{ReadDriver};
ghost use Rattle.ebc_cli.specs.declared.work.Work.{Work};
ghost use Rattle.ebc_cli.specs.Answers.{Answers, ChecksCode, ChecksImage, EndsWith, HasNoText, InfersPoints, IsOutcomeOfWork, IsStop};
ghost use Rattle.ebc_cli.specs.Answers.{LeavesPart, PairsImages, SameForScripts, SamePairForScripts, StopsWith, TwinsImage};
ghost use Rattle.ebc_cli.specs.Commands.{command_of, output_of};
ghost use Rattle.ebc_cli.specs.Pairings.{images_of, pair_world_of};
ghost use Rattle.ebc_cli.specs.Reads.{AnswersWords, Decides};
ghost use Rattle.ebc_cli.specs.Runnings.{twin_outcome};
ghost use Rattle.ebc_cli.specs.Texts.{neutral_line};
ghost use Rattle.ebc_cli.specs.Works.{work_of};

use crate::work::read_work;
use cli_base::{End, Outcome, Reply, finish};
use ebc_outside::{Folder, Sink};
use std::alloc::Global;

/// Does what the words after the program's name ask for: reads the files that they name from `folder`, prints
/// the answer to `out` by one put or writes a file, and says how it ended. docs/COMMANDS.md has the commands and their answers.
pub fn ebc<F: Folder, O: Sink>(
    alloc: Global,
    words: &Vec<String>,
    folder: &mut F,
    out: &mut O,
) -> Outcome
    // Where the folder tells its files, the outcome, the printed text and the files that are left are those of an answer to the
    // words (`work_of`, `IsReplyTo`), whatever the counts of faults did. The names asked for are those that the words ask for, also
    // where the output then fails, and a first part of them where a read failed or memory ran out.
    ensures answer { IfSome (F.contents folder.old) (λ files. IsAnswer result →
        Answers (word_bytes words.now) files result (O.written out.old) (O.written out.new) (F.contents folder.new)) }
    ensures asked { IfSome (F.contents folder.old) (λ files.
        ReadsAll result → F.asked folder.new ≡ F.asked folder.old ++ (work_of (word_bytes words.now) files).asked) }
    ensures asked_part { IfSome (F.contents folder.old) (λ files.
        AsksPart (F.asked folder.old) (work_of (word_bytes words.now) files).asked (F.asked folder.new)) }

    // No file changes but the one that the words name as an output, if they name one.
    ensures files { SameBut (output_of (command_of (word_bytes words.now))) (F.contents folder.old) (F.contents folder.new) }

    // `check IMAGE NOTES` calls an image neutral, by the line `neutral`, exactly where it is typed under the notes, and refuses it, by the
    // line of a place and a rule, exactly at the first place at which a rule fails, by the first rule that fails there.
    ensures neutral_exactly { IfSome (F.contents folder.old) (λ files. IsAnswer result → (image : Image) (notes : Notes) →
        ChecksImage (word_bytes words.now) files image notes → (result ≡ Outcome.Done ↔ Typed image notes)
        × (result ≡ Outcome.Done → O.written out.new ≡ printed neutral_line (O.written out.old))) }
    ensures refused_exactly { IfSome (F.contents folder.old) (λ files.
        IsAnswer result → (image : Image) (notes : Notes) (place : ℕ) (rule : RuleName) →
        ChecksImage (word_bytes words.now) files image notes → (result ≡ Outcome.Refused place rule ↔ IsRefused image notes place rule)
        × (result ≡ Outcome.Refused place rule → O.written out.new ≡ printed (refused_line place rule) (O.written out.old))) }

    // A neutral image is the same at both widths: for every text that stands for a script under the notes, all valid placements and
    // every number of steps, the 32-bit and the 64-bit machine stand at the same instruction, have made the same calls with the
    // same replies, and have raised no exception but a division by zero that both raise.
    ensures neutral_alike { IfSome (F.contents folder.old) (λ files. result ≡ Outcome.Done → (image : Image) (notes : Notes) →
        ChecksImage (word_bytes words.now) files image notes → SameForScripts image notes) }

    // `twin IMAGE NOTES SCRIPT STEPS` is Done exactly where the two runs are the same after each number of steps up to STEPS, and Differ
    // exactly by the least after which they aren't. Where the image is typed under the notes they are, and `same` is printed last.
    ensures differ_exactly { IfSome (F.contents folder.old) (λ files.
        IsAnswer result → (image : Image) (notes : Notes) (script : Script) (steps : ℕ) (differ : Option ℕ) →
        TwinsImage (word_bytes words.now) files image notes script steps →
        result ≡ twin_outcome differ ↔ DifferAt image (world_of image notes script) steps differ) }
    ensures twin_same { IfSome (F.contents folder.old) (λ files.
        IsAnswer result → (image : Image) (notes : Notes) (script : Script) (steps : ℕ) →
        TwinsImage (word_bytes words.now) files image notes script steps → Typed image notes →
        (result ≡ Outcome.Done) × EndsWith (differ_line None) (O.written out.old) (O.written out.new)) }

    // `pair IMAGE NOTES SCRIPT IMAGE2 NOTES2 SCRIPT2 BINDS STEPS` so tells of the runs of image B, the second, and then image A, whose
    // calls of bound methods enter functions of B. Where both images are typed under their notes the two runs are the same; and so are
    // those with all other scripts, for all valid placements and every number of steps, and no exception is raised but a division by zero.
    ensures pair_differ_exactly { IfSome (F.contents folder.old) (λ files.
        IsAnswer result → (a b : ReadDriver) (binds : List Bind) (steps : ℕ) (differ : Option ℕ) →
        PairsImages (word_bytes words.now) files a b binds steps →
        result ≡ twin_outcome differ ↔ PairsDifferAt (images_of a b) (pair_world_of a b binds) steps differ) }
    ensures pair_same { IfSome (F.contents folder.old) (λ files.
        IsAnswer result → (a b : ReadDriver) (binds : List Bind) (steps : ℕ) →
        PairsImages (word_bytes words.now) files a b binds steps → Typed a.image a.notes → Typed b.image b.notes →
        (result ≡ Outcome.Done) × EndsWith (differ_line None) (O.written out.old) (O.written out.new)) }
    ensures pair_alike { IfSome (F.contents folder.old) (λ files.
        IsAnswer result → (a b : ReadDriver) (binds : List Bind) (steps : ℕ) →
        PairsImages (word_bytes words.now) files a b binds steps → Typed a.image a.notes → Typed b.image b.notes →
        SamePairForScripts a b binds) }

    // `infer IMAGE NOTES` is Done exactly where points are found, from notes whose own points are ignored; these are printed, and the image
    // is typed under the notes with them. It refuses exactly where the search is stuck.
    ensures points_exactly { IfSome (F.contents folder.old) (λ files.
        IsAnswer result → (name : List ℕ) (image : Image) (notes : Notes) →
        InfersPoints (word_bytes words.now) files name image notes →
        result ≡ Outcome.Done ↔ ((points : List Point) × IsInferred image notes (Points points))) }
    ensures points_typed { IfSome (F.contents folder.old) (λ files.
        IsAnswer result → (name : List ℕ) (image : Image) (notes : Notes) →
        InfersPoints (word_bytes words.now) files name image notes → result ≡ Outcome.Done →
        (points : List Point) × (O.written out.new ≡ printed (points_text notes points) (O.written out.old))
        × Typed image (with_points notes points)) }
    ensures stuck_exactly { IfSome (F.contents folder.old) (λ files.
        IsAnswer result → (name : List ℕ) (image : Image) (notes : Notes) (place : ℕ) (rule : RuleName) →
        InfersPoints (word_bytes words.now) files name image notes →
        result ≡ Outcome.Refused place rule ↔ ((state : Option State) × IsInferred image notes (Stuck place rule state))) }

    // `check CODE` calls code neutral, by the line `neutral`, exactly where each of its instructions meets the rules of plain code, and
    // refuses it exactly at the first place at which a rule fails, by the first rule that fails there. Neutral code has the same plain runs
    // at both widths.
    ensures plain_neutral_exactly { IfSome (F.contents folder.old) (λ files. IsAnswer result → (code : List ℕ) →
        ChecksCode (word_bytes words.now) files code → (result ≡ Outcome.Done ↔ plain.IsNeutral code)
        × (result ≡ Outcome.Done → O.written out.new ≡ printed neutral_line (O.written out.old))) }
    ensures plain_refused_exactly { IfSome (F.contents folder.old) (λ files.
        IsAnswer result → (code : List ℕ) (place : ℕ) (rule : RuleName) →
        ChecksCode (word_bytes words.now) files code → (result ≡ Outcome.Refused place rule ↔ plain.IsRefused code place rule)
        × (result ≡ Outcome.Refused place rule → O.written out.new ≡ printed (refused_line place rule) (O.written out.old))) }
    ensures plain_neutral_alike { IfSome (F.contents folder.old) (λ files. result ≡ Outcome.Done → (code : List ℕ) →
        ChecksCode (word_bytes words.now) files code → RunsAlike code) }

    // A number among the words is the one that it spells, within its limit. What a file is read as for an option ROM are the images of the
    // option ROM that it is, or its first fault.
    ensures numbers_exactly { (limit n : ℕ) (digits : List ℕ) → limit < 2 ^ 64 →
        number_in 0 limit digits ≡ Some n ↔ ((digits ≡ decimal n) × (n ≤ limit)) }
    ensures roms_exactly { (bytes : List ℕ) → ((images : List RomImage) → rom_of bytes ≡ Ok images ↔ IsRom bytes images)
        × ((kind : RomFault) (offset : ℕ) → rom_of bytes ≡ Err (kind, offset) ↔ FailsFirst bytes kind offset) }

    // The answer is Missing, TooLarge or BadInput exactly where the reading of what the words name stops so (`work_of`): at the first
    // number, file or text of a sample, each in its turn, that isn't there, is past its limit, or stands for nothing, by its first fault;
    // or where `infer` finds more leaders than notes may have points. Where all was read it is Done, Refused or Differ, or this TooLarge.
    ensures stops_exactly { IfSome (F.contents folder.old) (λ files. IsAnswer result → (outcome : Outcome) → IsStop outcome →
        result ≡ outcome ↔ StopsWith (work_of (word_bytes words.now) files).value outcome) }
    ensures completes { IfSome (F.contents folder.old) (λ files. IsAnswer result →
        IfOk (work_of (word_bytes words.now) files).value (IsOutcomeOfWork result)) }

    // Where the answer has no text nothing is put, and then a fault is told only of a file that is written.
    ensures unput { IfSome (F.contents folder.old) (λ files. (work : Work) →
        (work_of (word_bytes words.now) files).value ≡ Ok work → HasNoText work → (out.new ≡ out.old) × (result ≡ Outcome.WriteFault →
        (output_of (command_of (word_bytes words.now)) ≢ None) × Rose (F.write_faults folder.old) (F.write_faults folder.new))) }

    // Why an answer comes, and what failures leave, also where the folder doesn't tell its files.
    ensures bad_words { IsAnswer result → (result ≡ Outcome.BadWords ↔ command_of (word_bytes words.now) ≡ None) }
    ensures missing { IfNone (F.contents folder.old) ((word : ℕ) → result ≡ Outcome.Missing word →
        Rose (F.read_faults folder.old) (F.read_faults folder.new)) }
    ensures read_fault { result ≡ Outcome.ReadFault → Rose (F.read_faults folder.old) (F.read_faults folder.new)
        × (out.new ≡ out.old) × (F.contents folder.new ≡ F.contents folder.old) }
    ensures write_fault { result ≡ Outcome.WriteFault →
        Rose (O.faults out.old) (O.faults out.new) ⊎ Rose (F.write_faults folder.old) (F.write_faults folder.new) }
    ensures unwritten { output_of (command_of (word_bytes words.now)) ≡ None →
        F.write_faults folder.new ≡ F.write_faults folder.old }
    ensures no_memory { result ≡ Outcome.NoMemory → (O.written out.new ≡ O.written out.old)
        × (F.contents folder.new ≡ F.contents folder.old) }

    // Where it does, no fault is counted but the one that is told, and a failed output leaves a first part of the answer.
    ensures uncounted { IfSome (F.contents folder.old) (λ _.
        (result ≢ Outcome.ReadFault → F.read_faults folder.new ≡ F.read_faults folder.old)
        × (result ≢ Outcome.WriteFault → F.write_faults folder.new ≡ F.write_faults folder.old)) }
    ensures write_fault_leaves { IfSome (F.contents folder.old) (λ files. result ≡ Outcome.WriteFault →
        LeavesPart (word_bytes words.now) files (O.written out.old) (O.written out.new) (F.contents folder.new)) }
{
    match decide(alloc, words, folder) {
        Ok(reply) => finish(alloc, &reply, folder, out),
        Err(outcome) => outcome,
    }
}

// Reads what the words name, does the work and gives the answer, or how the call ends without one.
fn decide<F: Folder>(alloc: Global, words: &Vec<String>, folder: &mut F) -> Result<Reply, Outcome>
    ensures decided { IfSome (F.contents folder.old) (λ files.
        Decides (F.asked folder.old) (F.asked folder.new) result (work_of (word_bytes words.now) files)) }
    ensures reply { IfOk result (AnswersWords (word_bytes words.now) (F.contents folder.old)
        (F.read_faults folder.old) (F.read_faults folder.new)) }
    ensures ends { IfErr result (λ end. (end ≡ Outcome.ReadFault) ⊎ (end ≡ Outcome.NoMemory)) }
    ensures fault { IsErrOf result Outcome.ReadFault → Rose (F.read_faults folder.old) (F.read_faults folder.new) }
    ensures uncounted { IfSome (F.contents folder.old) (λ _. ¬ IsErrOf result Outcome.ReadFault →
        F.read_faults folder.new ≡ F.read_faults folder.old) }
    ensures contents { F.contents folder.new ≡ F.contents folder.old }
    ensures write_faults { F.write_faults folder.new ≡ F.write_faults folder.old }
{
    let work = match read_work(alloc, words, folder) {
        Ok(work) => work,
        Err(End::Stop(reply)) => return Ok(reply),
        Err(End::ReadFault) => return Err(Outcome::ReadFault),
        Err(End::NoMemory) => return Err(Outcome::NoMemory),
    };
    match work.reply(alloc) {
        Ok(reply) => Ok(reply),
        Err(_) => Err(Outcome::NoMemory),
    }
}

//! What `sample` builds of a sample's texts, and what is printed of it.
ghost use Rattle.std.specs.Prelude.{◌≡◌, ◌≤◌, None, IfSome, IfOk};
ghost use Rattle.note_types.specs.Records.{IsNotes};
ghost use Rattle.host_model.specs.Scripts.{IsScript};
ghost use Rattle.ebc_object.specs.Objects.{IsObject};
ghost use Rattle.printed_texts.specs.Samples.{notes_text, script_text, source_text};
ghost use Rattle.ebc_cli.specs.Inputs.{sample_limit, script_meaning};
ghost use Rattle.file_inputs.specs.Inputs.{notes_meaning, source_meaning};
ghost use Rattle.ebc_cli.specs.Reads.{IsBuilt};
ghost use Rattle.ebc_cli.specs.Samplings.{TellsSample, built_line, sample_image, sample_of};
ghost use Rattle.cli_base.specs.Inputs.{IsReadImage, Means};
ghost use Rattle.cli_base.specs.Outcomes.{IsBadInput, IsWorkAnswer};
ghost use Rattle.cli_base.specs.Outputs.{written_name};
ghost use Rattle.cli_base.specs.Readings.{IfStop};

use crate::running::{STEP_LIMIT, script_in};
use crate::text::verdict_text;
use cli_base::text::printed;
use cli_base::{End, Outcome, Reply};
use ebc_base::NoMemory;
use ebc_object::Object;
use file_inputs::{Input, linked, notes_in};
use note_types::{Notes, Script};
use pe_image::Image;
use printed_texts::differ_line;
use printed_texts::sample::{ShownSample, notes, plan, sample_line, script, source};
use std::alloc::Global;
use twin_run::{TwinReport, check, twin};
use width_checker::Verdict;

/// How many functions a sample may have.
pub const SAMPLE_LIMIT: u64 = 4096;

/// What the texts of a sample come to.
#[derive(Drop)]
pub struct BuiltSample {
    /// How many functions it has.
    pub functions: u32,
    /// How many bytes of code.
    pub code: usize,
    /// The image that its source is assembled and linked to.
    pub image: Image,
    /// Its notes.
    pub notes: Notes,
    /// Its script under them.
    pub script: Script,
}

// The object that the source of a sample stands for.
fn sample_object(alloc: Global, functions: u32, digits: &str) -> Result<Object, End>
    requires { functions ≤ sample_limit }
    ensures meaning { Means result (source_meaning 1 digits.now (source_text functions)) }
    ensures valid { IfOk result IsObject }
    ensures stop { IfStop result (λ reply. IsBadInput reply.outcome) }
    ensures output { IfStop result (λ reply. written_name reply.output ≡ None) }
{
    let text = source(alloc, functions)?;
    Object::of(alloc, 1, digits, text.as_slice())
}

// How many bytes of code a sample has, and its image.
#[tactic(auto, unfolding(crate::specs::Samplings::sample_image))]
fn sample_image(alloc: Global, functions: u32, digits: &str) -> Result<(usize, Image), End>
    requires { functions ≤ sample_limit }
    ensures meaning { Means result (sample_image digits.now functions) }
    ensures valid { IfOk result (λ built. IsReadImage built.1) }
    ensures stop { IfStop result (λ reply. IsBadInput reply.outcome) }
    ensures output { IfStop result (λ reply. written_name reply.output ≡ None) }
{
    let object = sample_object(alloc, functions, digits)?;
    let code = object.code.len();
    let plan = plan(alloc)?;
    // With `?` the drops of the object and the plan would be proved once more.
    match linked(alloc, 1, digits, &[object], &plan) {
        Ok(image) => Ok((code, image)),
        Err(end) => Err(end),
    }
}

// The notes of a sample.
fn sample_notes(alloc: Global, functions: u32, digits: &str) -> Result<Notes, End>
    requires { functions ≤ sample_limit }
    ensures meaning { Means result (notes_meaning 1 digits.now (notes_text functions)) }
    ensures valid { IfOk result IsNotes }
    ensures stop { IfStop result (λ reply. IsBadInput reply.outcome) }
    ensures output { IfStop result (λ reply. written_name reply.output ≡ None) }
{
    let text = notes(alloc, functions)?;
    notes_in(alloc, 1, digits, text.as_slice())
}

// The script of a sample.
fn sample_script(alloc: Global, digits: &str, notes: &Notes) -> Result<Script, End>
    ensures meaning { Means result (script_meaning notes.now 1 digits.now script_text) }
    ensures valid { IfOk result (IsScript notes.now) }
    ensures stop { IfStop result (λ reply. IsBadInput reply.outcome) }
    ensures output { IfStop result (λ reply. written_name reply.output ≡ None) }
{
    let text = script(alloc)?;
    script_in(alloc, 1, digits, text.as_slice(), notes)
}

/// What the texts of a sample of so many functions come to, or the answer to the first fault, which is told of the word with these digits.
#[tactic(auto, unfolding(crate::specs::Samplings::sample_of))]
pub fn built_sample(alloc: Global, functions: u32, digits: &str) -> Result<BuiltSample, End>
    requires { functions ≤ sample_limit }
    ensures meaning { Means result (sample_of digits.now functions) }
    ensures valid { IfOk result IsBuilt }
    ensures stop { IfStop result (λ reply. IsBadInput reply.outcome) }
    ensures output { IfStop result (λ reply. written_name reply.output ≡ None) }
{
    let (code, image) = sample_image(alloc, functions, digits)?;
    let notes = sample_notes(alloc, functions, digits)?;
    let script = sample_script(alloc, digits, &notes)?;
    Ok(BuiltSample {
        functions,
        code,
        image,
        notes,
        script,
    })
}

// The line of a sample.
fn built_line(
    alloc: Global,
    sample: &BuiltSample,
    verdict: Verdict,
    report: &TwinReport,
) -> Result<Vec<u8>, NoMemory>
    ensures { IfOk result (λ line. line.items ≡ built_line sample.now verdict report.now) }
{
    let verdict = verdict_text(alloc, verdict)?;
    let last = differ_line(alloc, report.differ)?;
    let shown = ShownSample {
        functions: sample.functions,
        code: sample.code,
        ending: report.at4.ending,
        steps: report.at4.steps,
        verdict: verdict.as_str(),
        last: last.as_str(),
    };
    sample_line(alloc, &shown)
}

/// The answer of a sample: its image is checked and run at both widths.
pub fn sample_reply(alloc: Global, sample: &BuiltSample) -> Result<Reply, NoMemory>
    requires { IsBuilt sample.now }
    ensures tells { IfOk result (TellsSample sample.now) }
    ensures answer { IfOk result (λ r. IsWorkAnswer r.outcome) }
    ensures output { IfOk result (λ r. written_name r.output ≡ None) }
{
    let verdict = check(alloc, &sample.image, &sample.notes)?;
    let report = twin(
        alloc,
        &sample.image,
        &sample.notes,
        &sample.script,
        STEP_LIMIT,
    )?;
    let line = built_line(alloc, sample, verdict, &report)?;
    Ok(printed(Outcome::Done, line))
}

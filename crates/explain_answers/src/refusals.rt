//! What is said of refused images, and of refused plain code.
ghost use Rattle.std.specs.Prelude.{◌≡◌, ◌<◌, ◌^◌, length};
ghost use Rattle.note_types.specs.Records.{IsNotes};
ghost use Rattle.pe_image.specs.Images.{IsImage};

use crate::answer::Answer;
use crate::keys::add_key;
use crate::rules::{rule_page, rule_said};
use crate::since::add_since;
use crate::sites::add_cause;
use cli_base::End;
use ebc_base::NoMemory;
use ebc_decode::decode;
use ebc_insn::{Insn, well_formed};
use ebc_outside::MemFolder;
use explain_base::{Line, Said, Scene, is_text};
use explain_checks::{Refused, check_said};
use explain_rows::row_said;
use file_inputs::read_as;
use note_filling::Filled;
use note_infer::{Inferred, infer};
use note_types::{Notes, RuleName, State};
use pe_image::Image;
use printed_texts::state_text;
use state_walk::{Before, before, given};
use std::alloc::Global;

// Whether a rule looks at the state.
fn looks_at_state(rule: RuleName) -> bool {
    match rule {
        RuleName::Shape
        | RuleName::Function
        | RuleName::Static
        | RuleName::Decode
        | RuleName::State
        | RuleName::Point
        | RuleName::Relocation
        | RuleName::Target
        | RuleName::Site
        | RuleName::End => false,
        _ => true,
    }
}

/// An instruction with its state, if it has one, and if it is spelled by its bytes.
pub(crate) fn scene_of<'a>(alloc: Global, notes: &'a Notes, at: &'a Before) -> Option<Scene<'a>> {
    let f = notes.function.as_slice().get(at.func as usize)?;
    let (insn, _) = at.insn.as_ref()?;
    Some(Scene {
        alloc,
        notes,
        f,
        func: at.func,
        here: at.here?,
        insn,
        state: at.state.as_ref()?,
    })
}

// What is said of the row of an instruction.
fn said_of_row(alloc: Global, notes: &Notes, at: &Before, rule: RuleName) -> Option<Said> {
    let scene = scene_of(alloc, notes, at)?;
    if !well_formed(scene.insn) {
        return None;
    }
    row_said(&scene, rule)
}

/// The line of the instruction at a place or an offset.
pub(crate) fn instruction_line(alloc: Global, place: u32, insn: &Insn) -> Line {
    let mut line = Line::new(alloc);
    line.at(place).text(" ").insn(insn);
    line
}

// Adds the line of the instruction, with the place that its relocated immediate names.
fn add_instruction(alloc: Global, at: &Before, said: &mut Said) {
    let Some((insn, _)) = &at.insn else {
        return;
    };
    let mut line = instruction_line(alloc, at.place, insn);
    let reloc = match &at.here {
        Some(here) => here.reloc,
        None => None,
    };
    if let Some(place) = reloc {
        line.text(", the address of place ").at(place);
    }
    said.add(line);
}

// Adds the lines of the state before it.
fn add_state(alloc: Global, notes: &Notes, at: &Before, said: &mut Said) -> Result<(), NoMemory> {
    if let Some(state) = &at.state {
        let text = state_text(alloc, notes, at.place, state)?;
        for line in text.as_str().lines() {
            said.add(Line::of(alloc, line));
        }
    }
    Ok(())
}

// Adds what stands before the instruction: its line, and if the rule looks at it the state.
fn add_before(
    alloc: Global,
    image: &Image,
    notes: &Notes,
    at: &Before,
    rule: RuleName,
    said: &mut Said,
) -> Result<(), NoMemory>
    requires image { IsImage image.now }
    requires notes { IsNotes notes.now }
{
    add_instruction(alloc, at, said);
    if looks_at_state(rule) {
        add_since(image, notes, at, said);
        add_state(alloc, notes, at, said)?;
    }
    Ok(())
}

// What is said of an image that is refused.
fn said_of(refused: &Refused) -> Result<Option<Said>, NoMemory>
    requires image { IsImage refused.now.image.now }
    requires notes { IsNotes refused.now.notes.now }
{
    if let Some(said) = check_said(refused)? {
        return Ok(Some(said));
    }
    match refused.at {
        Some(at) => Ok(said_of_row(refused.alloc, refused.notes, at, refused.rule)),
        None => Ok(None),
    }
}

/// A refused image: what was read of it and of its notes, and the text of the notes.
#[derive(Clone, Copy)]
pub(crate) struct Read<'a> {
    pub image: &'a Image,
    pub notes: &'a Notes,
    pub text: &'a [u8],
    /// Whether the search for points refuses it, which takes no points of the notes.
    pub infers: bool,
    /// What the notes were read from, if the text is one of notes with labels that was filled.
    pub filled: Option<&'a Filled>,
}

/// What is said of an image that is refused at a place by a rule, and of what stands before the instruction there, with the rule's page.
pub(crate) fn read_said(
    answer: &Answer,
    read: &Read,
    place: u32,
    rule: RuleName,
    at: Option<&Before>,
) -> Result<Said, NoMemory>
    requires image { IsImage read.now.image.now }
    requires notes { IsNotes read.now.notes.now }
{
    let alloc = answer.alloc;
    let refused = Refused {
        alloc,
        image: read.image,
        notes: read.notes,
        place,
        rule,
        at,
        infers: read.infers,
    };
    let mut said = match said_of(&refused)? {
        Some(said) => said,
        None => rule_said(answer, rule),
    };
    if let Some(at) = at {
        add_before(alloc, read.image, read.notes, at, rule, &mut said)?;
    }
    if let RuleName::Site = rule {
        add_cause(answer, read, place, at, &mut said)?;
    }
    if !said.key.is_empty() {
        add_key(answer, read, &mut said)?;
    }
    said.see = rule_page(answer, rule);
    Ok(said)
}

// The state with which `infer` stands at the place, if it has one.
fn inferred_state(alloc: Global, image: &Image, notes: &Notes) -> Result<Option<State>, NoMemory>
    requires image { IsImage image.now }
    requires notes { IsNotes notes.now }
{
    match infer(alloc, image, notes)? {
        Inferred::Stuck { state, .. } => Ok(state),
        other => {
            drop(other);
            Ok(None)
        }
    }
}

// What stands before the instruction at a place.
fn before_place(
    answer: &Answer,
    image: &Image,
    notes: &Notes,
    place: u32,
) -> Result<Option<Before>, NoMemory>
    requires image { IsImage image.now }
    requires notes { IsNotes notes.now }
{
    if answer.word(0) == "infer" {
        if let Some(state) = inferred_state(answer.alloc, image, notes)? {
            return Ok(given(image, notes, place, state));
        }
    }
    Ok(before(image, notes, place))
}

// What was read of an image that is refused under notes without labels.
fn image_read<'a>(image: &'a Image, notes: &'a Notes, text: &'a [u8], infers: bool) -> Read<'a>
    ensures image { result.image.now ≡ image.now }
    ensures notes { result.notes.now ≡ notes.now }
{
    Read {
        image,
        notes,
        text,
        infers,
        filled: None,
    }
}

/// What is said of a refusal of `check IMAGE NOTES`, or of `infer`, by the notes and their text; the rule alone if the image wasn't kept.
pub fn refused_image_said(
    answer: &Answer,
    notes: &Notes,
    text: &[u8],
    place: u32,
    rule: RuleName,
    folder: &mut MemFolder,
) -> Result<Said, NoMemory>
    requires { IsNotes notes.now }
{
    match read_as::<Image, MemFolder>(answer.alloc, folder, 1, answer.word(1)) {
        Ok(image) => {
            let at = before_place(answer, &image, notes, place)?;
            let infers = answer.word(0) == "infer";
            let read = image_read(&image, notes, text, infers);
            read_said(answer, &read, place, rule, at.as_ref())
        }
        Err(End::NoMemory) => Err(NoMemory),
        Err(_) => Ok(rule_said(answer, rule)),
    }
}

// What is said of a rule that plain code breaks.
fn code_text(code: &[u8], rule: RuleName) -> &'static str {
    match rule {
        _ if is_text(code) => {
            "the file is a text, and `check` with one file takes raw code; a source is assembled by asm and linked by link first"
        }
        RuleName::Form if code.starts_with(b"MZ") => {
            "the file begins as an image, and `check` with one file takes raw code; wanted: check IMAGE NOTES"
        }
        RuleName::Form => {
            "raw code has MOVIqw, ADD64, CMP64eq, JMP8 and RET alone, on registers without memory"
        }
        RuleName::Decode => "the bytes are no instruction",
        RuleName::Target => "the jump goes to no start of an instruction",
        RuleName::End if code.is_empty() => {
            "the file is empty; wanted: code that ends with RET or a jump"
        }
        _ => "the code ends here; wanted: RET or an unconditional JMP8 as the last instruction",
    }
}

// Adds the line of the instruction at a place of raw code, if one decodes there.
fn add_code(code: &[u8], place: u32, said: &mut Said) {
    let offset = place as usize;
    if offset <= code.len() && !code.starts_with(b"MZ") && !is_text(code) {
        if let Ok((insn, _)) = decode(code, offset) {
            said.add(instruction_line(said.what.alloc, place, &insn));
        }
    }
}

/// What is said of a refusal of `check CODE`; the rule alone if the file wasn't kept.
pub fn refused_code_said(
    answer: &Answer,
    place: u32,
    rule: RuleName,
    folder: &mut MemFolder,
) -> Result<Said, NoMemory> {
    let Some(bytes) = answer.bytes_of(1, folder)? else {
        return Ok(rule_said(answer, rule));
    };
    let code = bytes.as_slice();
    let mut said = Said::text(answer.alloc, code_text(code, rule));
    said.see = rule_page(answer, rule);
    add_code(code, place, &mut said);
    Ok(said)
}

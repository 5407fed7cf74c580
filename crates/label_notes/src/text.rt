//! What is printed of what comes of a text.
ghost use Rattle.std.specs.Prelude.{◌≡◌, ◌++◌, IfOk};
ghost use Rattle.cli_base.specs.Inputs.{bad_reply};
ghost use Rattle.cli_base.specs.Outputs.{prints};
ghost use Rattle.file_inputs.specs.Faults.{key_path, toml_fault_number, toml_fault_text};
ghost use Rattle.printed_texts.specs.Refusals.{refused_line};
ghost use Rattle.label_notes.specs.Answers.{completion_reply};

use crate::mark::mark_of;
use crate::near::near_line;
use cli_base::text::{bad, large, printed};
use cli_base::{Outcome, Reply};
use ebc_base::NoMemory;
use file_inputs::{key_path, toml_fault_number, toml_fault_text};
use note_completion::{Completion, Flaw, Linked};
use note_types::{RuleName, TomlFault};
use printed_texts::refused_line;
use std::alloc::{AllocError, Global};

// The answer where the text of the name has a fault, with more behind its path.
fn faulty(alloc: Global, name: &str, fault: &TomlFault, more: &str) -> Result<Reply, AllocError>
    ensures { IfOk result (λ r.
        r ≡ bad_reply 1 name.now (toml_fault_number fault.now) (toml_fault_text fault.now) (key_path fault.now ++ more.now)) }
{
    let number = toml_fault_number(fault);
    let path = key_path(fault);
    let detail = format!(in alloc; "{path}{more}")?;
    bad(
        alloc,
        1,
        name,
        number,
        toml_fault_text(fault),
        detail.as_str(),
    )
}

// The answer where a rule fails at a place, with more behind the line.
fn refused(alloc: Global, place: u32, rule: RuleName, more: &str) -> Result<Reply, AllocError>
    ensures { IfOk result (λ r. r ≡ prints (Outcome.Refused place rule) (refused_line place rule ++ more.now)) }
{
    let mut text = refused_line(alloc, place, rule)?;
    text.extend_from_slice(more.as_bytes())?;
    Ok(printed(Outcome::Refused { place, rule }, text))
}

/// The answer that tells what comes of the text of the name, with more behind the path of a fault, or behind the line of a refusal.
pub(crate) fn completion_reply(
    alloc: Global,
    name: &str,
    more: &str,
    completion: Completion,
) -> Result<Reply, AllocError>
    ensures { IfOk result (λ r. r ≡ completion_reply name.now more.now completion) }
{
    match completion {
        Completion::Whole(text) => Ok(printed(Outcome::Done, text.into_bytes())),
        Completion::Fault(flaw) => {
            let reply = faulty(alloc, name, &flaw.fault, more);
            drop(flaw);
            reply
        }
        Completion::Refused { place, rule, state } => {
            let reply = refused(alloc, place, rule, more);
            drop(state);
            reply
        }
        Completion::Large => large(alloc, 1, name),
    }
}

// A label, where there is one, and where in the text the fault stands, where that is found.
fn behind_path(alloc: Global, text: &[u8], flaw: &Flaw) -> Result<String, NoMemory> {
    let label = match &flaw.label {
        Some(label) => Some(label.as_str()),
        None => None,
    };
    let mark = mark_of(alloc, text, key_path(&flaw.fault), label)?;
    let mut more = String::new(alloc);
    if let Some(label) = label {
        more.push_str(" ")?;
        more.push_str(label)?;
    }
    if let Some(mark) = mark {
        let line = mark.line;
        let column = mark.column;
        let place = format!(in alloc; " {line}:{column}")?;
        more.push_str(place.as_str())?;
    }
    Ok(more)
}

// The label before a place, and lines of the state there.
fn behind_refusal(
    alloc: Global,
    linked: Linked,
    place: u32,
    state: &str,
) -> Result<String, NoMemory> {
    let objects = linked.plan.objects.as_slice();
    let near = near_line(alloc, objects, linked.labels.labels.as_slice(), place)?;
    Ok(format!(in alloc; "{near}{state}")?)
}

/// What is printed behind the path of a fault, or behind the line of a refusal: the label there, and where the fault stands in the text;
/// or the label before the place, and the lines of the state there.
///
/// # Errors
///
/// There is no memory.
pub(crate) fn more_of(
    alloc: Global,
    linked: Linked,
    text: &[u8],
    completion: &Completion,
) -> Result<String, NoMemory> {
    match completion {
        Completion::Fault(flaw) => behind_path(alloc, text, flaw),
        Completion::Refused { place, state, .. } => {
            behind_refusal(alloc, linked, *place, state.as_str())
        }
        Completion::Whole(_) | Completion::Large => Ok(String::new(alloc)),
    }
}

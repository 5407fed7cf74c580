//! The answers that print a text, and those to a file that isn't there, is too large or is no image.
ghost use Rattle.std.specs.Prelude.{◌≡◌, IfOk};
ghost use Rattle.std.specs.Fmt.{decimal};
ghost use Rattle.cli_base.specs.Inputs.{bad_image_reply, bad_reply};
ghost use Rattle.cli_base.specs.Outputs.{prints};
ghost use Rattle.cli_base.specs.Readings.{large_reply, missing_reply};

use crate::fault::{image_fault_number, image_fault_text};
use crate::outcome::Outcome;
use crate::reply::{Output, Reply};
use ebc_base::Sequence;
use pe_image::ImageFault;
use std::alloc::{AllocError, Global};

/// The answer that prints a text.
pub fn printed(outcome: Outcome, text: Vec<u8>) -> Reply
    ensures { result ≡ prints outcome text.items }
{
    Reply {
        outcome,
        output: Output::Text(Sequence::new(text)),
    }
}

/// The answer where the folder has no file of the name.
pub fn missing(alloc: Global, word: u8, name: &str) -> Result<Reply, AllocError>
    ensures { IfOk result (λ r. r ≡ missing_reply word name.now) }
{
    let text = format!(in alloc; "missing {name}\n")?.into_bytes();
    Ok(printed(Outcome::Missing { word }, text))
}

/// The answer where the file of the name, or the number that is this word, is past its limit.
pub fn large(alloc: Global, word: u8, name: &str) -> Result<Reply, AllocError>
    ensures { IfOk result (λ r. r ≡ large_reply word name.now) }
{
    let text = format!(in alloc; "large {name}\n")?.into_bytes();
    Ok(printed(Outcome::TooLarge { word }, text))
}

/// The answer where the file of the name has a fault, by its number, its name and where in the file it stands.
pub fn bad(
    alloc: Global,
    word: u8,
    name: &str,
    number: u8,
    fault: &str,
    detail: &str,
) -> Result<Reply, AllocError>
    ensures { IfOk result (λ r. r ≡ bad_reply word name.now number fault.now detail.now) }
{
    let text = format!(in alloc; "bad {name} {fault} {detail}\n")?.into_bytes();
    Ok(printed(
        Outcome::BadInput {
            word,
            fault: number,
        },
        text,
    ))
}

/// The answer where the file of the name has a fault at an offset or a line.
pub fn bad_at(
    alloc: Global,
    word: u8,
    name: &str,
    number: u8,
    fault: &str,
    at: u64,
) -> Result<Reply, AllocError>
    ensures { IfOk result (λ r. r ≡ bad_reply word name.now number fault.now (decimal at)) }
{
    let detail = format!(in alloc; "{at}")?;
    bad(alloc, word, name, number, fault, detail.as_str())
}

/// The answer where the file of the name is no image, by a fault at an offset.
pub fn bad_image(
    alloc: Global,
    word: u8,
    name: &str,
    kind: ImageFault,
    offset: u64,
) -> Result<Reply, AllocError>
    ensures { IfOk result (λ r. r ≡ bad_image_reply word name.now (kind, offset)) }
{
    let number = image_fault_number(kind);
    bad_at(alloc, word, name, number, image_fault_text(kind), offset)
}

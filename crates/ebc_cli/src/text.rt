//! The lines that are printed.
ghost use Rattle.std.specs.Prelude.{◌≡◌, IfOk, string_bytes};
ghost use Rattle.ebc_cli.specs.Texts.{verdict_text};
ghost use Rattle.ebc_cli.specs.Works.{verdict_reply, listing_reply, file_reply, usage_reply};

use cli_base::text::printed;
use cli_base::{Outcome, Output, Reply};
use ebc_base::{Name, Sequence};
use printed_texts::{Place, refused_line, rule_text};
use std::alloc::{AllocError, Global};
use width_checker::{RuleName, Verdict};

/// The answer of a check.
pub fn verdict(alloc: Global, verdict: Verdict) -> Result<Reply, AllocError>
    ensures { IfOk result (λ r. r ≡ verdict_reply verdict) }
{
    match verdict {
        Verdict::Neutral => Ok(printed(Outcome::Done, b"neutral\n".to_vec(alloc)?)),
        Verdict::Refused { place, rule } => refused(alloc, place, rule),
    }
}

fn refused(alloc: Global, place: u32, rule: RuleName) -> Result<Reply, AllocError>
    ensures { IfOk result (λ r. r ≡ verdict_reply (Verdict.Refused place rule)) }
{
    let text = refused_line(alloc, place, rule)?;
    Ok(printed(Outcome::Refused { place, rule }, text))
}

/// The line of a check without the line feed.
pub fn verdict_text(alloc: Global, verdict: Verdict) -> Result<String, AllocError>
    ensures { IfOk result (λ text. string_bytes text ≡ verdict_text verdict) }
{
    match verdict {
        Verdict::Neutral => String::from_str(alloc, "neutral"),
        Verdict::Refused { place, rule } => {
            let shown = Place(place);
            let name = rule_text(rule);
            format!(in alloc; "refused {shown} {name}")
        }
    }
}

/// The answer of a listing: the text itself.
pub fn listing(text: Vec<u8>) -> Reply
    ensures { result ≡ listing_reply text.items }
{
    printed(Outcome::Done, text)
}

/// The answer that writes a file under a name, and prints nothing.
pub fn file(name: Name, bytes: Vec<u8>) -> Reply
    ensures { result ≡ file_reply name bytes.items }
{
    Reply {
        outcome: Outcome::Done,
        output: Output::File {
            name,
            bytes: Sequence::new(bytes),
        },
    }
}

/// The answer to words that are no command.
pub fn usage(alloc: Global) -> Result<Reply, AllocError>
    ensures { IfOk result (λ r. r ≡ usage_reply) }
{
    let text =
        b"usage: asm SRC OBJ | link PLAN IMAGE | check CODE | check IMAGE NOTES | list IMAGE | run WIDTH IMAGE NOTES SCRIPT STEPS | twin IMAGE NOTES SCRIPT STEPS | sample N | rom wrap VENDOR DEVICE IMAGE ROM | rom list ROM | rom take ROM NUMBER IMAGE | infer IMAGE NOTES | pair IMAGE NOTES SCRIPT IMAGE2 NOTES2 SCRIPT2 BINDS STEPS\n";
    Ok(printed(Outcome::BadWords, text.to_vec(alloc)?))
}

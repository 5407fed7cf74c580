//! Refusals: the rule that fails at a place.
ghost use Rattle.std.specs.Prelude.{◌≡◌, IfOk};
ghost use Rattle.printed_texts.specs.Refusals.{refused_line, rule_text};

use crate::number::Place;
use note_types::RuleName;
use std::alloc::{AllocError, Global};

/// The name of a rule, as it is printed.
pub fn rule_text(rule: RuleName) -> &'static str
    ensures { result.now ≡ rule_text rule }
{
    match rule {
        RuleName::Shape => "shape",
        RuleName::Function => "function",
        RuleName::Static => "static",
        RuleName::Decode => "decode",
        RuleName::State => "state",
        RuleName::Point => "point",
        RuleName::Relocation => "relocation",
        RuleName::Form => "form",
        RuleName::Stack => "stack",
        RuleName::Address => "address",
        RuleName::Null => "null",
        RuleName::Unwritten => "unwritten",
        RuleName::Store => "store",
        RuleName::Compare => "compare",
        RuleName::Divide => "divide",
        RuleName::Target => "target",
        RuleName::Site => "site",
        RuleName::Level => "level",
        RuleName::Thunk => "thunk",
        RuleName::Arguments => "arguments",
        RuleName::Return => "return",
        RuleName::Below => "below",
        RuleName::End => "end",
    }
}

/// The line of a rule that fails at a place.
pub fn refused_line(alloc: Global, place: u32, rule: RuleName) -> Result<Vec<u8>, AllocError>
    ensures { IfOk result (λ text. text.items ≡ refused_line place rule) }
{
    let shown = Place(place);
    let name = rule_text(rule);
    Ok(format!(in alloc; "refused {shown} {name}\n")?.into_bytes())
}

//! What is said of a rule where the image or its notes aren't at hand.

use crate::answer::Answer;
use explain_base::{Line, Said};
use note_types::RuleName;
use printed_texts::rule_text;

// What a rule refuses, in short. docs/RULES.md, "The verdict".
fn sentence(rule: RuleName) -> &'static str {
    match rule {
        RuleName::Shape =>
            "where a pointer has 4 bytes or 8, fields overlap or pass the size, or there is none",
        RuleName::Function =>
            "a place or end doesn't fit the image, or the image is entered elsewhere",
        RuleName::Static =>
            "a static object or thunk cell doesn't fit the image, or has other bytes than its shape says",
        RuleName::Decode => "the bytes here are no instruction",
        RuleName::State => "nothing falls to the instruction, and no point stands here",
        RuleName::Point => "a point lies inside the instruction",
        RuleName::Relocation =>
            "a relocation is here that may not be, is missing, or names no object",
        RuleName::Form => "the instruction's form has no row",
        RuleName::Stack => "the stack passes need, or hasn't on top what the instruction takes",
        RuleName::Address => "no field, parameter or local is there, or it takes another move",
        RuleName::Null => "the pointer may be null",
        RuleName::Unwritten => "the field may not be written yet",
        RuleName::Store => "the cell doesn't take such a value",
        RuleName::Compare => "the two values don't compare alike at both widths",
        RuleName::Divide => "the divisor may be no number",
        RuleName::Target => "the jump or call goes where no point or function is",
        RuleName::Site => "the native call has no site, or one of another method",
        RuleName::Level =>
            "the function that is called has no lower level, or its need is too much here",
        RuleName::Thunk => "a thunk isn't made yet, or isn't the next one",
        RuleName::Arguments => "the slots on top aren't the arguments that are wanted",
        RuleName::Return => "RET with items on the stack, or with other registers than are wanted",
        RuleName::Below => "the state says less than the point to which it leads",
        RuleName::End => "the last instruction falls out of its function",
    }
}

/// The page on a rule by which an answer refuses.
pub(crate) fn rule_page(answer: &Answer, rule: RuleName) -> Line {
    if answer.checks_code() {
        return Line::of(answer.alloc, "docs/PLAIN.md, \"The check\"");
    }
    let mut page = Line::new(answer.alloc);
    if answer.program.completes() {
        page.text("docs/LABELS.md, \"A refusal\", and ");
    }
    page.text("docs/RULES.md, \"The verdict\", ")
        .text(rule_text(rule));
    page
}

/// What is said of a rule by which an answer refuses, whatever is refused.
pub fn rule_said(answer: &Answer, rule: RuleName) -> Said {
    let mut said = Said::text(answer.alloc, sentence(rule));
    said.see = rule_page(answer, rule);
    said
}

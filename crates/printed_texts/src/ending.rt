//! Endings of runs.
ghost use Rattle.std.specs.Prelude.{◌≡◌, Some};
ghost use Rattle.printed_texts.specs.RunTexts.{ending_text, exception_text, reason_text};

use crate::value::ShownValue;
use note_types::{Ending, Exception, Notes, Reason};
use std::fmt;

// The name of an exception.
fn exception_text(exception: Exception) -> &'static str
    ensures { result.now ≡ exception_text exception }
{
    match exception {
        Exception::DivideError => "divide_error",
        Exception::Breakpoint => "breakpoint",
        Exception::InvalidOpcode => "invalid_opcode",
        Exception::StackFault => "stack_fault",
        Exception::AlignmentCheck => "alignment_check",
        Exception::InstructionEncoding => "instruction_encoding",
        Exception::BadBreak => "bad_break",
        Exception::MemoryFault => "memory_fault",
    }
}

// Why a run and its script don't match, as it is printed.
#[derive(Clone, Copy)]
struct ShownReason(Reason);

impl fmt::Display for ShownReason {
    ghost output = { λ r. Some (reason_text r.0) };

    fn fmt<W: fmt::Write>(&self, f: &mut fmt::Formatter<W>) -> fmt::Result {
        match self.0 {
            Reason::Site { .. } => f.write_str("site"),
            Reason::Target { .. } => f.write_str("target"),
            Reason::Signature { .. } => f.write_str("signature"),
            Reason::Argument { number, .. } => write!(f, "argument {number}"),
            Reason::Reply { .. } => f.write_str("reply"),
            Reason::Enter { .. } => f.write_str("enter"),
            Reason::Depth => f.write_str("depth"),
            Reason::Thunk { .. } => f.write_str("thunk"),
            Reason::Notify { .. } => f.write_str("notify"),
            Reason::Bind { .. } => f.write_str("bind"),
        }
    }
}

// How far a run is, with the things of the notes by their names.
#[derive(Clone, Copy)]
pub(crate) struct ShownEnding<'a> {
    pub notes: &'a Notes,
    pub ending: Ending,
}

impl fmt::Display for ShownEnding<'_> {
    ghost output = { λ e. Some (ending_text e.notes.now e.ending) };

    fn fmt<W: fmt::Write>(&self, f: &mut fmt::Formatter<W>) -> fmt::Result {
        match self.ending {
            Ending::Running => f.write_str("running"),
            Ending::Finished(value) => {
                let value = ShownValue {
                    notes: self.notes,
                    value,
                };
                write!(f, "finished {value}")
            }
            Ending::Raised(exception) => {
                let name = exception_text(exception);
                write!(f, "raised {name}")
            }
            Ending::Mismatch(reason) => {
                let reason = ShownReason(reason);
                write!(f, "mismatch {reason}")
            }
            Ending::ScriptEnd => f.write_str("script end"),
        }
    }
}

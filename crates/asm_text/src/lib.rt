//! Assembly text: what the lines of a source say, and how a listing writes them (docs/ASSEMBLY.md). An assembler and a
//! lister stand on this crate, neither on the other.
//!
//! Promises:
//!
//! - `line_in`: `same` says that the answer is what the grammar's `line_in` gives of the line: its label and its
//!   statement, or the lowest of the faults that are seen in the line alone; `held`, that the numbers of such a
//!   statement are numbers, that its instruction is well formed, and that a name stands only in place of an immediate
//!   that may have one.
//! - `label_of`: the label of a line, whatever else is wrong with the line; none where it has none.
//! - `next_line`: the first line of a text and what follows it; none where the text is empty.
//! - `Numbers::append_to`: appends the bytes of the numbers that a statement has, where there is memory.
//! - `AsmFault::number`: the number of a fault, exactly `asm_fault_number`.
//! - `Listed::append_text`: appends the line that `listed_text` gives, where there is memory; `Listed::append_to`, that
//!   and a line feed.
//! - `reading_laws`: `written`, the text of every well-formed instruction, with every operand and every index, and with
//!   a name in place of its immediate where one may stand, is read as that instruction with that name; `listed`, every
//!   line of a listing is read as what it says.
#![tactic(auto)]

ghost use Rattle.asm_text.specs.Writing.{ReadsListed, ReadsWritten};

mod directive;
mod fault;
mod form;
mod indexes;
mod instructions;
mod lines;
mod listing;
mod mnemonics;
mod names;
mod numbers;
mod operands;
mod splits;
mod statements;
mod texts;
mod words;
mod writing;

pub use directive::Directive;
pub use fault::AsmFault;
pub use form::Form;
pub use lines::{Line, label_of, line_in, next_line};
pub use listing::Listed;
pub use statements::{Numbers, Statement};

/// The laws of what is written: the text of each instruction, with each index, is read as that instruction, with the name
/// that stands in place of its immediate; and each line of a listing is read as what it says.
#[tactic(auto, using(crate::proofs::ListLaws::reads_written, crate::proofs::ListLaws::reads_listed))]
pub fn reading_laws()
    ensures written { ReadsWritten }
    ensures listed { ReadsListed }
{}

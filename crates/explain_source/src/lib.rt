//! What is said of a source that doesn't assemble, beside the fault and its line: the column, what was found there and
//! what is wanted. docs/ASSEMBLY.md has the language. No sentence has a clause.
//!
//! Promises:
//!
//! No sentence has a clause. The call ends, and fails by want of memory alone.
//!
//! - `source_said`: by the fault and the line that `assemble` tells. A byte that no line may have is told first: one
//!   past ASCII, a tab or a carriage return. Then comes `#` or `//` where it is to begin a comment.
//!
//! | Fault | Sentence |
//! |---|---|
//! | Word | the word, and the mnemonics that begin with its letters, or how they are written; or which directives there are |
//! | Operand | a space too many or too few around a comma, signs of an index that differ, a register that there is none; else the operands, and which are wanted |
//! | Number | the number, and its range; or the index whose parts are none |
//! | Index | the index, and how much room its bits have |
//! | Label | what stands for a label or a name; or the `.global` name that no line has |
//! | Twice | the label, and the first line that has it |
//! | Far, Section | where the section passes 1 MiB, or where an instruction stands in data |
//!
//! Which of several operands has the fault is tried by reading the line with one of them alone (`line_in` of
//! `asm_text`).
#![tactic(auto)]

mod form;
mod index;
mod label;
mod mnemonic;
mod number;
mod operand;
mod part;
mod source;
mod statement;
mod trial;
mod word;

pub use source::source_said;

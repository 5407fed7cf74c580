//! Sources as they are assembled (docs/ASSEMBLY.md, "Objects" and "Faults"): the object that a source stands for, or
//! the first line that fails with the lowest of its faults.
//!
//! Promises:
//!
//! - `assemble`: `reading` says that the answer is what the source stands for, `object_of`: the object, or the number
//!   of the first line that fails and the lowest of its faults. Besides these there is only want of memory; a source
//!   with 2^32 - 1 names or more may be answered so too, since a table of names holds no more. `counted` says that an
//!   object of at most 2^20 symbols and as many fixups meets the conditions of `ebc_object`, so that it has a file, and
//!   `sound` that that of a source of at most 1 MiB does. A longer source may have more symbols than a file has.
//!
//! Inside the crate `labels_in` gives the labels of a source, and an `Assembler` takes its lines one after the other:
//! it has a table of names with the place of each (`Names`) and two sections that take statements with their fixups
//! (`Section`). Each part has its exact result in its contract.
#![tactic(auto)]

mod assembler;
mod end;
mod names;
mod pieces;
mod sections;
mod source;
mod symbols;

pub use asm_text::AsmFault;
pub use ebc_object::Object;
pub use end::AsmEnd;
pub use source::assemble;

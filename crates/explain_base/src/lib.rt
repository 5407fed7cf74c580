//! What is said on standard error of an answer, as data: `Said`, of which `explain` makes lines. Beside it stand
//! `Line`, a text while it is written, and `Scene`, an instruction with the state before it.
//!
//! Promises:
//!
//! No text has a clause. The calls end, and ask nothing of the notes. None of them fails: a `Line` and a `Said`
//! remember want of memory (`is_short`), and who makes lines of them asks for it.
//!
//! - `Said`: the place and the sentence of an answer, more lines, and notes with a place of their own. It also has the
//!   key of the notes that is concerned, and the page that mends it. `explain` begins its line with the file's name,
//!   and shows no control character of any of them.
//! - `Line`: texts and numbers are added one after the other.
//!   - `word`, `value`: of a long word or value the first 100 bytes. The lines of a value are told as one.
//!   - `list`: a list behind a text, or another text where it is empty.
//!   - `place`: a place by its function, as `main+0x12`, or as a number if no function has it.
//!   - `size`, `distance`, `pair`: counts of natural units and of bytes, as `(1, 8)`.
//!   - `type_of`, `cell`, `item`: types and what has a type, as notes spell them. A pointer's cell of 64 bits is told by
//!     the type of what is loaded.
//!   - `insn`: an instruction as `list` prints it, its immediate as a number. Nothing is added for an instruction that
//!     no bytes spell.
//! - `access_text`, `accesses_of`: how an instruction reaches memory, and by which instructions a cell is reached.
//! - `kind_text`: the letter of a slot's kind.
//! - `is_text`: whether bytes are those of a text.
#![tactic(auto)]

mod line;
mod listing;
mod place;
mod saying;
mod scene;
mod sizes;
mod texts;
mod types;

pub use line::Line;
pub use saying::Said;
pub use scene::Scene;
pub use texts::is_text;
pub use types::{access_text, accesses_of, kind_text};

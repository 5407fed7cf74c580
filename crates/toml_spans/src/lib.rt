//! Where the things of a text in TOML stand: the key at a path, the value there and its items, by their offsets, and
//! the line and the column of an offset. The paths are those by which readers tell a fault, as `function[2].need`.
//!
//! Promises:
//!
//! - `key_span`: of a path, as readers tell it, the key, the value and its items. If something is found, all of it lies
//!   within the text: the key isn't after the value, and each item ends where it begins or after it (`IsSpanIn`). No
//!   clause says that it is what has the path.
//! - `position_of`: the line and the column of an offset, both from 1, exactly `position_at`. A column counts bytes.
//!
//! The walk goes through the text once, up to what is sought, and skips each key and value that isn't on the way there.
//! Of a table that isn't on the way it looks at brackets alone, unless the text has strings of several lines. It is for
//! texts that a reader has read. It ends on each text, also on one that is no document.
//!
//! | Path | What is found |
//! |---|---|
//! | `need`, `a.b.need` | the key, and its value |
//! | `function[2]` | the header of the third table of that list |
//! | `function[2].need[1]` | the second item of the list |
//! | `"odd key"` | the key in quotes, whichever way the text spells it |
#![tactic(auto)]

mod lists;
mod path;
mod position;
mod skip;
mod span;
mod walk;

pub use position::{Position, position_of};
pub use span::KeySpan;
pub use walk::key_span;

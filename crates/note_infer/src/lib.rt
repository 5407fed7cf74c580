//! Points that the program finds: the states at the places of jumps, found from notes without points.
//! docs/crates/note_infer.md has the words.
//!
//! Promises:
//!
//! `promises`, for notes that meet their conditions and leaders within the limit:
//!
//! - `ends`: a round changes no leader's state, or less is known after it at all leaders together, by a number
//!   (`leaders_rank`).
//! - `begins`: before the first round that number is 796 for each leader.
//! - `notes`: the conditions on notes hold of the notes with the points that are found after any number of rounds, so
//!   that these may be checked.
//! - `typed`: where points are the answer, the image is typed under the notes with them.
//!
//! `Inferred` is plain data: the answer.
//! - `infer`: the answer (`IsInferred`), which is the only one; where it is points, the image is typed under the notes
//!   with them (`Typed`). Only want of memory stands in its way.
//! - `Rounds::settle`: the states on which rounds settle (`IsSettled`), or where they get stuck (`IsNotFound`).
//! - `find_leaders`: the leaders, in ascending order (`AreLeaders`).
//! - `marked`: the notes with a point at each leader (`marked` of `note_infer`).
//! - `names_place`, `jump_names`: the place that a jump names (`names_place` of `note_infer`), and by the same rule
//!   that of a call. `reloc_at`: the place that a relocated immediate names.
//! - `row`: the states after an instruction, or the first rule of its row that fails (`row_of`).
//! - `insn_at`: an instruction of a function's code, and a later place, within the code or at its end, where the next
//!   one is.
//! - `Coming::take_in_at`: the leader at a place of the function takes a state (`Takes`), or it clashes.
//! - `turn_of`: what an instruction does, told by what changes (`after_turn`), or the first rule of its row that fails.
//! - `Walk::take_turn`: what the instruction gives was joined in, and the state is the one that falls on; or it clashes,
//!   and the state is as it was.
//! - `Walk::pass`, `Walk::step`: the instruction meets its rules, what it gives was joined in (`Passes`), and the state
//!   is the one that falls on; or the first rule that fails, and the state is as it was.
//! - `Walk::go`: the round has come past where the walk ended (`HasPassed`), or it is stuck there (`IsStuck`).
//! - `Rounds::walk_all`: the round has passed all places (`Reached`), or it is stuck.
//! - `same_state`: whether two states are one.
//! - `Coming::take_over`: what has come to a leader becomes the state of the round before; it is given back where it is
//!   another one.
//! - `Coming::sort_given`: the numbers of the leaders to which something was given ascend, each once.
//! - `Rounds::owner`: the number of the function whose code has a place.
//! - `Rounds::entries`: the starts of the first round (`AreStarts`, `AreEntries`).
//! - `Rounds::changes`: the starts of the next round (`AreStarts`, `AreChanges`), and what has come is the states
//!   before it.
//! - `tables_hold`: whether the rules of shapes, functions, static objects and thunk cells hold (`TablesHold`).
//! - `points_of`: the points at the leaders that have a state.
//! - `join_types`: exactly the type of the table (`joined`); both types, within their bounds, are below it (`below`);
//!   it names only what they name (`known`); it is the first type, or says less by a number from 0 to 9 (`weaker`,
//!   `rank_of`); equal types give the type itself (`equal`).
//! - `join_states`: exactly the join, or none where the states clash (`joined`); two states of a function are both
//!   below it, and it is a state of the function (`below`); it is the first state, or says less by a number (`weaker`,
//!   `state_rank`); a state with no fact and itself give that state (`equal`). It takes no memory.
//! - `joins_settle`: a type that is within its bounds, or a state of a function, takes what was joined in a second time
//!   without a change (`types_again`, `states_again`), also where others were joined in since (`types_settle`,
//!   `states_settle`); and so does the first state that comes, without its fact (`first_again`). That a state is below
//!   another one doesn't say so: the Ints 0 to 5 and 2 to 3 join to that from 0 to 2^31 - 1. So what is given again to
//!   a place need not be joined in again.
#![tactic(auto)]

mod beginnings;
mod coming;
mod copies;
mod finder;
mod inferred;
mod insns;
mod jumps;
mod leaders;
mod marks;
mod promised;
mod rounds;
mod rows;
mod settled_joins;
mod state_joins;
mod states;
mod tables;
mod turns;
mod type_joins;
mod walk;

pub use ebc_base::NoMemory;
pub use finder::infer;
pub use inferred::Inferred;
pub use insns::insn_at;
pub use jumps::{jump_names, names_place, reloc_at};
pub use leaders::find_leaders;
pub use marks::marked;
pub use promised::promises;
pub use rows::row;
pub use settled_joins::joins_settle;
pub use state_joins::join_states;
pub use type_joins::join_types;

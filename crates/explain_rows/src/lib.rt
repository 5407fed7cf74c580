//! What is said of an image that is refused by a rule of an instruction's row: `form`, `stack`, `address`, `null`,
//! `unwritten`, `store`, `compare`, `divide`, `site`, `level`, `thunk`, `arguments` and `return`. docs/RULES.md has the
//! rules.
//!
//! The row gave the first rule that fails. So the part of it that failed is found by asking the calls of `rules_base`
//! again, which the row is made of, for those parts alone that fail by this rule.
#![tactic(auto)]

mod arguments;
mod callee;
mod calls;
mod fields;
mod form;
mod loss;
mod memory;
mod numbers;
mod operands;
mod returns;
mod row;
mod sizes;
mod stack;
mod store;
mod sums;
mod thunks;
mod values;

pub use arguments::candidate_line;
pub use loss::loss_line;
pub use row::row_said;

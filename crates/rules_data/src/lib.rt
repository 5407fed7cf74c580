//! The typing rules of the instructions on data: arithmetic, comparisons and moves. docs/RULES.md has the rules in
//! words, and "Where each rule stands" names their files.
//!
//! Promises:
//!
//! - `after_data`: the state after an instruction that has a spelling, or the first rule that fails, exactly as the
//!   definition of the same name gives it. It needs fewer than 2^32 thunks. It takes no memory and copies the state
//!   once.
//! - `data_change`: what such an instruction changes, or the first rule that fails, exactly as its definition gives it.
//!   A checker that keeps one state makes the change in it (`Change::apply` of `rules_base`), and copies none.
#![tactic(auto)]

mod arithmetic;
mod compares;
mod constants;
mod data;
mod rows;

pub use data::{after_data, data_change};
pub use rules_base::Here;

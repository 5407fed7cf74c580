//! The plain check, of raw code that works on registers alone: whether every instruction meets its rules at both
//! pointer widths, and else the first that doesn't. docs/PLAIN.md has its rules.
//!
//! Promises:
//!
//! `check_plain`, of code whose places have 32 bits:
//!
//! - `neutral_exactly`: the verdict is Neutral exactly where each instruction that lengths lead to meets every rule of
//!   plain code.
//! - `refused_exactly`: the verdict is Refused at a place by a rule exactly where that place is the first that lengths
//!   lead to and at which a rule fails, and the rule is the first that fails there; and of empty code at place 0 by
//!   `end`.
//! - `neutral_alike`: where the verdict is Neutral, the runs of the machine on the code are equal at widths 4 and 8
//!   after every number of steps, and each stands at a place at which an instruction starts or has ended at a RET, and
//!   has raised nothing.
//! - `value`: the verdict is that of `plain_verdict`.
//!
//! Want of memory is the only error. A `Verdict` is plain data; that of the plain check names one of the four rules
//! `decode`, `form`, `target` and `end`. `RuleName` and `NoMemory` are those of `note_types` and `ebc_base`.
#![tactic(auto)]

mod plain;
mod verdict;

pub use ebc_base::NoMemory;
pub use note_types::RuleName;
pub use plain::check_plain;
pub use verdict::Verdict;

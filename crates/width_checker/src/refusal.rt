//! A rule that fails.

use note_types::RuleName;

/// The place at which a rule fails, and the rule.
#[derive(Clone, Copy, PartialEq, Eq)]
pub struct Refusal {
    pub place: u32,
    pub rule: RuleName,
}

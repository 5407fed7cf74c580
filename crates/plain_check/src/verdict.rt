//! What a check says of code.

use note_types::RuleName;

/// What a check says of code.
#[derive(Clone, Copy, PartialEq, Eq)]
pub enum Verdict {
    /// Every instruction meets every rule.
    Neutral,
    /// The first place at which a rule fails, an offset in bytes, and the first rule that fails there.
    Refused { place: u32, rule: RuleName },
}

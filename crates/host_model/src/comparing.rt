//! Whether values of scripts and traces are one: the definition by which the host compares arguments is the equality of the
//! types.
ghost use Rattle.host_model.specs.ScriptValues.{same_seen, same_value};
ghost use Rattle.std.specs.Prelude.{◌≡◌};

use note_types::{Seen, Value};

/// Whether two values are one.
#[tactic(auto, unfolding(crate::specs::ScriptValues::same_value))]
pub fn same_value(value: &Value, other: &Value) -> bool
    ensures { result ≡ same_value value.now other.now }
{
    value == other
}

/// Whether two values are one as native calls see them.
#[tactic(auto, unfolding(crate::specs::ScriptValues::same_value))]
pub fn same_seen(seen: &Seen, other: &Seen) -> bool
    ensures { result ≡ same_seen seen.now other.now }
{
    seen == other
}

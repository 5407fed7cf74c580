//! How a run ends.
use crate::exception::Exception;
use crate::reason::Reason;
use crate::value::Value;

/// How far a run is. One that ended stays as it is.
#[derive(Clone, Copy, PartialEq, Eq)]
pub enum Ending {
    /// It goes on.
    Running,
    /// The entry function returned a value.
    Finished(Value),
    /// The machine raised an exception.
    Raised(Exception),
    /// Run and script don't match.
    Mismatch(Reason),
    /// A native call came after all those of the script.
    ScriptEnd,
}

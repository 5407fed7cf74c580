//! What a step of the host comes to.
ghost use Rattle.std.specs.Prelude.{◌≡◌, IsSome, Some};
ghost use Rattle.native_host.specs.Steps.{end_step};

use note_types::{Args, Ending, Exception, Reason};

/// What a step of the host comes to, for whoever runs the machine.
#[derive(Drop)]
pub enum HostStep {
    /// The native call is accepted. It goes on with `Host::next`.
    Accepted,
    /// The function, by its number in the notes' order, is to be entered with these values.
    Enter { func: u32, args: Args },
    /// The native call is over, and R7 gets this number.
    Reply(u64),
    /// The run ends: it and the script don't match.
    Mismatch(Reason),
    /// The run ends: the script has no call left.
    ScriptEnd,
    /// The run ends: this is raised.
    Raised(Exception),
}

/// What the end of a run comes to.
pub(crate) fn end_step(ending: &Ending) -> HostStep
    requires { IsSome (end_step ending.now) }
    ensures { Some result ≡ end_step ending.now }
{
    match ending {
        Ending::Mismatch(reason) => HostStep::Mismatch(*reason),
        Ending::Raised(exception) => HostStep::Raised(*exception),
        _ => HostStep::ScriptEnd,
    }
}

//! How far a pair is.
use note_types::{Args, Value};

/// How far a pair is. Signatures are those of image A, and functions those of image B, each by its number.
#[derive(Drop)]
pub(crate) enum Stage {
    /// Image B's own run is under way.
    ProviderRuns,
    /// Image A runs.
    CallerRuns,
    /// A bound call was taken, and the next step enters the function with the values of these arguments.
    CallTaken {
        signature: u32,
        function: u32,
        args: Args,
    },
    /// The function of a bound call is under way.
    CallRuns {
        signature: u32,
    },
    /// It returned this value, and the next step is the reply.
    CallReturned {
        signature: u32,
        value: Value,
    },
}

/// The images, of which A calls and B provides.
#[derive(Clone, Copy, PartialEq, Eq)]
pub(crate) enum Side {
    A,
    B,
}

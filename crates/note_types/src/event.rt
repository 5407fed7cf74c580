//! What a run reports.
use crate::args::Args;
use crate::value::Value;

/// What firmware and code do with one another, as a run reports it. Functions and signatures are their numbers in the
/// notes' order.
#[derive(PartialEq, Drop)]
pub enum Event {
    /// The call instruction at a place, an offset from the image's base in bytes, called a native method by the signature
    /// of its site, `None` where the place has no site. It has no arguments where the place has no site or an argument
    /// slot isn't mapped.
    Called {
        place: u32,
        signature: Option<u32>,
        args: Args,
    },
    /// The firmware entered a function, with the values as the script writes them. That the entry function is entered is
    /// no event.
    Entered {
        func: u32,
        args: Args,
    },
    /// A function that the firmware entered returned a value.
    Returned {
        func: u32,
        value: Value,
    },
    /// A native method gave its result, by the script's call of that number, from 0.
    Replied {
        entry: u32,
        value: Value,
    },
    /// The firmware entered a function as a notification, with the values as the script writes them.
    Notified {
        func: u32,
        args: Args,
    },
    /// A function that the firmware entered as a notification returned a value.
    Resumed {
        func: u32,
        value: Value,
    },
}

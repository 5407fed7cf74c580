//! How a run leaves its script.
use crate::seen::Seen;

/// Why a run and its script don't match.
#[derive(Clone, Copy, PartialEq, Eq)]
pub enum Reason {
    /// The call instruction at the place, an offset from the image's base in bytes, has no site.
    Site {
        place: u32,
    },
    /// The target of the call isn't the method of its site.
    Target {
        address: u64,
    },
    /// The script's call is one by another signature: `found` is the site's, `wanted` the script's.
    Signature {
        found: u32,
        wanted: u32,
    },
    /// The argument of that number, from 0, isn't that of the script's call.
    Argument {
        number: u32,
        found: Seen,
        wanted: Seen,
    },
    /// The reply of the script's call doesn't fit.
    Reply {
        entry: u32,
    },
    /// A function that the script's call enters can't be entered so.
    Enter {
        entry: u32,
        callback: u32,
    },
    /// A function would be entered while nine that the firmware entered haven't returned, the entry function among them.
    Depth,
    /// The first four bytes of a thunk cell lead to no function that the firmware may enter; the address is the cell's,
    /// in R7.
    Thunk {
        address: u64,
    },
    /// The script's notification of that number, from 0, can't be entered so, or not before all thunk cells are made.
    Notify {
        number: u32,
    },
    /// A method that is bound to that function of another image is called before all thunk cells of that image are made.
    Bind {
        function: u32,
    },
}

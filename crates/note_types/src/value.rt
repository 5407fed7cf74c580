//! Values as a script and a trace write them: the same text stands for what lies in memory at either width.

/// A value as a script writes it and a run reports it. Objects, instances, handles, functions and methods are their
/// numbers: typed objects as docs/HOST.md, "Objects", counts them, functions and methods in the notes' order.
#[derive(Clone, Copy, PartialEq, Eq)]
pub enum Value {
    /// A number.
    Int(u64),
    /// The number n × W + c, where an address has W bytes.
    Size { n: u32, c: u32 },
    /// The address of an instance of a typed object.
    Ptr { object: u64, instance: u64 },
    /// The address or handle 0.
    Null,
    /// A status without error, which is its code; the code is below 2^31.
    StatusOk(u32),
    /// A status with the error bit, and its code below that bit; the code is below 2^31.
    StatusError(u32),
    /// A handle, below 1,024.
    Handle(u32),
    /// The thunk of a function.
    Entry(u32),
    /// The address of a native method.
    Method(u32),
    /// Nothing is said of the number.
    Any,
    /// The address of a cell that a method writes. No number is told.
    Out,
    /// A number that has no reading of its kind.
    Wild(u64),
}

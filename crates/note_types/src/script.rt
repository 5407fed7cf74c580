//! The records of a script file: what the firmware holds at the start, and what it does at each native call. Things of the
//! notes are their numbers, from 0 in the notes' order. docs/SCRIPTS.md says what a script file holds.
use crate::seen::Seen;
use crate::value::Value;
use ebc_base::Sequence;

/// What a cell of an object holds at first.
#[derive(Clone, Copy, PartialEq, Eq)]
pub struct CellValue {
    pub instance: u64,
    pub field: u32,
    pub value: Value,
}

/// An object of `count` instances of a shape, at least one. What `cells` doesn't name is zero.
#[derive(Drop)]
pub struct ScriptObject {
    pub shape: u32,
    pub count: u64,
    pub cells: CellValues,
}

/// A function that the firmware enters during a native call, and the values of its parameters.
#[derive(Drop)]
pub struct Callback {
    pub function: u32,
    pub values: Values,
}

/// What a native method leaves in the cell that an argument, counted from 0, is the address of.
#[derive(Clone, Copy, PartialEq, Eq)]
pub struct OutValue {
    pub argument: u64,
    pub value: Value,
}

/// What a native method leaves in a cell of a typed object.
#[derive(Clone, Copy, PartialEq, Eq)]
pub struct WriteValue {
    pub object: u64,
    pub instance: u64,
    pub field: u32,
    pub value: Value,
}

/// One native call: which arguments it takes, and what the firmware does then, in this order: it makes objects, enters
/// functions, writes cells of objects and then cells that the arguments are addresses of, and gives a result.
#[derive(Drop)]
pub struct ScriptCall {
    pub signature: u32,
    pub args: SeenValues,
    pub enter: Callbacks,
    pub make: ScriptObjects,
    pub out: OutValues,
    pub write: WriteValues,
    pub result: Value,
}

/// A function that the firmware enters as a notification, before the first instruction that comes once `at` instructions are
/// done, and the values of its parameters.
#[derive(Drop)]
pub struct Notify {
    pub at: u64,
    pub function: u32,
    pub args: Values,
}

/// What the firmware does in a run: the arguments of the entry function, the objects that are there from the start, and
/// the native calls and the notifications, each in the order in which they are to come. A script of version 1 has no
/// notifications.
#[derive(Drop)]
pub struct Script {
    pub version: u32,
    pub args: Values,
    pub object: ScriptObjects,
    pub call: ScriptCalls,
    pub notify: Notifications,
}

/// A list of values.
pub type Values = Sequence<Value>;

/// A list of values as a native call sees them.
pub type SeenValues = Sequence<Seen>;

/// A list of what cells hold.
pub type CellValues = Sequence<CellValue>;

/// A list of objects.
pub type ScriptObjects = Sequence<ScriptObject>;

/// A list of functions to be entered.
pub type Callbacks = Sequence<Callback>;

/// A list of what arguments' cells get.
pub type OutValues = Sequence<OutValue>;

/// A list of what objects' cells get.
pub type WriteValues = Sequence<WriteValue>;

/// A list of native calls.
pub type ScriptCalls = Sequence<ScriptCall>;

/// A list of notifications.
pub type Notifications = Sequence<Notify>;

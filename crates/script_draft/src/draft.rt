//! Scripts as their text has them: things of the notes are named, not yet numbered.
use crate::parts::{CallbackText, CellValueText, OutText, WriteText};
use crate::value::{ArgumentText, ValueText};
use note_types::{Name, Sequence};

/// A table of the list `object` or `make`.
#[derive(Drop)]
pub struct ObjectDraft {
    pub shape: Name,
    /// How many instances there are, at least one.
    pub count: u64,
    pub cells: Sequence<CellValueText>,
}

/// A table of the list `call`.
#[derive(Drop)]
pub struct CallDraft {
    pub signature: Name,
    pub args: Sequence<ArgumentText>,
    pub enter: Sequence<CallbackText>,
    pub make: Sequence<ObjectDraft>,
    pub out: Sequence<OutText>,
    pub write: Sequence<WriteText>,
    pub result: ValueText,
}

/// A table of the list `notify`.
#[derive(Drop)]
pub struct NotifyDraft {
    /// How many instructions it waits for.
    pub at: u64,
    pub function: Name,
    pub args: Sequence<ValueText>,
}

/// The whole text.
#[derive(Drop)]
pub struct ScriptDraft {
    pub version: u32,
    pub args: Sequence<ValueText>,
    pub object: Sequence<ObjectDraft>,
    pub call: Sequence<CallDraft>,
    pub notify: Sequence<NotifyDraft>,
}

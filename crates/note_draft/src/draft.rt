//! Notes as their text has them: things of the notes are named, not yet numbered.
use crate::stack::StackText;
use note_texts::{FieldText, ParamText, RegisterText, ResultText, TypeText, WantParamText};
use note_types::{Name, Names, Pair, Sequence};

/// A table of the list `shape`.
#[derive(Drop)]
pub struct ShapeDraft {
    pub name: Name,
    /// Natural units of the size.
    pub n: u32,
    /// Bytes of the size.
    pub c: u32,
    pub fields: Sequence<FieldText>,
}

/// A table of the list `static`.
#[derive(Drop)]
pub struct StaticDraft {
    pub place: u32,
    pub shape: Name,
    pub count: u64,
}

/// A table of the list `thunk`.
#[derive(Drop)]
pub struct ThunkDraft {
    pub place: u32,
    pub function: Name,
}

/// A table of the list `function`.
#[derive(Drop)]
pub struct FunctionDraft {
    pub name: Name,
    pub place: u32,
    pub end: u32,
    pub level: u64,
    pub need: Pair,
    /// The shape of its locals, where it has any.
    pub locals: Option<Name>,
    pub params: Sequence<ParamText>,
    pub result: TypeText,
    pub enter: bool,
}

/// A table of the list `point`.
#[derive(Drop)]
pub struct PointDraft {
    pub place: u32,
    pub regs: Sequence<RegisterText>,
    /// The items of the stack from the top.
    pub stack: StackText,
    /// Names of fields of the function's locals.
    pub written: Names,
    pub made: u32,
}

/// A table of the list `signature`.
#[derive(Drop)]
pub struct SignatureDraft {
    pub name: Name,
    pub method: Name,
    pub params: Sequence<WantParamText>,
    pub result: ResultText,
}

/// A table of the list `site`.
#[derive(Drop)]
pub struct SiteDraft {
    pub place: u32,
    pub signature: Name,
}

/// The whole text.
#[derive(Drop)]
pub struct NotesDraft {
    pub version: u32,
    /// The name of the entry function.
    pub entry: Name,
    pub shape: Sequence<ShapeDraft>,
    pub statics: Sequence<StaticDraft>,
    pub thunk: Sequence<ThunkDraft>,
    pub function: Sequence<FunctionDraft>,
    pub point: Sequence<PointDraft>,
    pub signature: Sequence<SignatureDraft>,
    pub site: Sequence<SiteDraft>,
}

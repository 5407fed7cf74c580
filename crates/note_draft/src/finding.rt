//! Where in notes a condition fails.
ghost use Rattle.std.specs.Prelude.{◌≡◌, IfOk};
ghost use Rattle.note_texts.specs.Outcome.{Gives};
ghost use Rattle.note_draft.specs.Findings.{at, fault_of, key_name, list_name, path_of, refused, sooner};

use note_types::{Name, NotesEnd, TomlFault};
use std::alloc::{AllocError, Global};

/// A list of tables.
#[derive(Clone, Copy)]
pub enum TableList {
    Shape,
    Static,
    Thunk,
    Function,
    Point,
    Signature,
    Site,
}

impl TableList {
    fn name(self) -> &'static str
        ensures { result.now ≡ list_name self }
    {
        match self {
            TableList::Shape => "shape",
            TableList::Static => "static",
            TableList::Thunk => "thunk",
            TableList::Function => "function",
            TableList::Point => "point",
            TableList::Signature => "signature",
            TableList::Site => "site",
        }
    }
}

/// A key of a table.
#[derive(Clone, Copy)]
pub enum Key {
    Name,
    Fields,
    Place,
    Shape,
    Function,
    End,
    Need,
    Locals,
    Params,
    Result,
    Regs,
    Stack,
    Written,
    Signature,
}

impl Key {
    fn name(self) -> &'static str
        ensures { result.now ≡ key_name self }
    {
        match self {
            Key::Name => "name",
            Key::Fields => "fields",
            Key::Place => "place",
            Key::Shape => "shape",
            Key::Function => "function",
            Key::End => "end",
            Key::Need => "need",
            Key::Locals => "locals",
            Key::Params => "params",
            Key::Result => "result",
            Key::Regs => "regs",
            Key::Stack => "stack",
            Key::Written => "written",
            Key::Signature => "signature",
        }
    }
}

/// The key at which a condition fails, in the item of that number, from 0.
#[derive(Clone, Copy)]
pub struct Finding {
    pub list: TableList,
    pub item: usize,
    pub key: Key,
}

impl Finding {
    /// A key of the item of this number, where there is one.
    #[tactic(auto, unfolding(crate::specs::Findings::at))]
    pub fn at(list: TableList, key: Key, item: Option<usize>) -> Option<Finding>
        ensures { result ≡ at list key item }
    {
        match item {
            Some(item) => Some(Finding { list, item, key }),
            None => None,
        }
    }

    /// The sooner of two findings in one list: that of the lesser item, and in one item the first.
    #[tactic(auto, unfolding(crate::specs::Findings::sooner))]
    pub fn sooner(a: Option<Finding>, b: Option<Finding>) -> Option<Finding>
        ensures { result ≡ sooner a b }
    {
        match (a, b) {
            (Some(x), Some(y)) if y.item < x.item => Some(y),
            (Some(x), _) => Some(x),
            (None, _) => b,
        }
    }

    /// The path of the key.
    ///
    /// # Errors
    ///
    /// There was no memory.
    pub fn path(self, alloc: Global) -> Result<Name, AllocError>
        ensures { IfOk result (λ path. path ≡ path_of self) }
    {
        let list = self.list.name();
        let item = self.item;
        let key = self.key.name();
        Ok(Name::new(format!(in alloc; "{list}[{item}].{key}")?))
    }
}

/// What is said of a finding.
#[derive(Clone, Copy)]
pub enum Refusal {
    /// Something stands there again.
    Twice,
    /// A name that isn't there.
    Name,
    /// A condition fails.
    Range,
}

impl Refusal {
    /// The fault at a path.
    pub fn at(self, path: Name) -> TomlFault
        ensures { result ≡ fault_of self path }
    {
        match self {
            Refusal::Twice => TomlFault::Twice(path),
            Refusal::Name => TomlFault::Name(path),
            Refusal::Range => TomlFault::Range(path),
        }
    }
}

/// Nothing where nothing was found.
///
/// # Errors
///
/// The refusal with the path of the finding; no memory.
pub fn refuse(alloc: Global, refusal: Refusal, finding: Option<Finding>) -> Result<(), NotesEnd>
    ensures { Gives result (refused refusal finding) }
{
    match finding {
        Some(finding) => Err(NotesEnd::Fault(refusal.at(finding.path(alloc)?))),
        None => Ok(()),
    }
}

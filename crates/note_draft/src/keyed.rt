//! The tables of notes that have a name, those that have a place, and items that may not repeat.
ghost use Rattle.std.specs.Prelude.{◌≡◌, Bool, List, ℕ};
ghost use Rattle.note_draft.specs.Once.{same_name, same_register};

use crate::draft::{
    FunctionDraft, PointDraft, ShapeDraft, SignatureDraft, SiteDraft, StaticDraft, ThunkDraft,
};
use note_texts::{FieldText, RegisterText};
use note_types::Name;

/// An item of a list in which no two may be the same in one thing.
pub trait Distinct {
    /// Whether two are the same in it.
    ghost same: { Self → Self → Bool };

    fn is_same(&self, other: &Self) -> bool
        ensures { result ≡ same self.now other.now };
}

/// A table that has a name.
pub trait Named {
    /// Its name.
    ghost name: { Self → List ℕ };

    fn name(&self) -> &Name
        ensures { result.now ≡ name self.now };
}

/// A table that has a place.
pub trait Placed {
    /// Its place, an offset from the image's base in bytes.
    ghost place: { Self → ℕ };

    fn place(&self) -> u32
        ensures { result ≡ place self.now };
}

impl Distinct for FieldText {
    ghost same = { same_name };

    fn is_same(&self, other: &FieldText) -> bool {
        self.name == other.name
    }
}

impl Distinct for RegisterText {
    ghost same = { same_register };

    fn is_same(&self, other: &RegisterText) -> bool {
        self.register == other.register
    }
}

impl Named for ShapeDraft {
    ghost name = { λ shape. shape.name };

    fn name(&self) -> &Name {
        &self.name
    }
}

impl Named for FunctionDraft {
    ghost name = { λ function. function.name };

    fn name(&self) -> &Name {
        &self.name
    }
}

impl Named for SignatureDraft {
    ghost name = { λ signature. signature.name };

    fn name(&self) -> &Name {
        &self.name
    }
}

impl Placed for StaticDraft {
    ghost place = { λ object. object.place };

    fn place(&self) -> u32 {
        self.place
    }
}

impl Placed for ThunkDraft {
    ghost place = { λ thunk. thunk.place };

    fn place(&self) -> u32 {
        self.place
    }
}

impl Placed for FunctionDraft {
    ghost place = { λ function. function.place };

    fn place(&self) -> u32 {
        self.place
    }
}

impl Placed for PointDraft {
    ghost place = { λ point. point.place };

    fn place(&self) -> u32 {
        self.place
    }
}

impl Placed for SiteDraft {
    ghost place = { λ site. site.place };

    fn place(&self) -> u32 {
        self.place
    }
}

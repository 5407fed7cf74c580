//! What a text stands for.
ghost use Rattle.std.specs.Prelude.{◌≡◌, List, ℕ, Option, IfOk};

use std::alloc::{AllocError, Global};

/// What stands in a small text of its own form.
pub trait FromText: Sized + Drop {
    /// What a text stands for, if it is of the form.
    ghost reads_as: { List ℕ → Option Self };

    /// What the text stands for; `None` where it isn't of the form.
    ///
    /// # Errors
    ///
    /// There was no memory.
    fn from_text(alloc: Global, text: &str) -> Result<Option<Self>, AllocError>
        ensures { IfOk result (λ value. value ≡ reads_as text.now) };
}

//! A text, and what it is made complete over.

ghost use Rattle.std.specs.Prelude.{◌≡◌, IfErr};
ghost use Rattle.note_completion.specs.Halts.{GoesOnOrHalts, IsCaused, first_label_fault};

use crate::completion::Linked;
use crate::halt::Halt;
use note_filling::{Context, check_forms};
use note_texts::document;
use std::alloc::Global;

/// A text of notes with labels, over objects that are linked.
#[derive(Clone, Copy)]
pub(crate) struct Task<'a> {
    pub linked: Linked<'a>,
    pub text: &'a [u8],
}

impl<'a> Task<'a> {
    /// The labels, and the names of the objects' files.
    pub fn context(self) -> Context<'a>
        ensures labels { result.labels ≡ self.entry.linked.labels }
        ensures names { result.names.now ≡ self.entry.linked.plan.now.objects }
    {
        Context {
            labels: self.linked.labels,
            names: self.linked.plan.objects.as_slice(),
        }
    }

    /// Whether the text, in its own order, has the forms and the names of notes.
    pub fn check_forms(self, alloc: Global) -> Result<(), Halt>
        ensures faults { GoesOnOrHalts result (first_label_fault self.entry) }
        ensures cause { IfErr result (IsCaused self.entry) }
    {
        let table = document(alloc, self.text)?;
        check_forms(alloc, self.context(), &self.linked.plan.entry, table)?;
        Ok(())
    }
}

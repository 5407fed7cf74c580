//! A folder of files, each read and written whole.
ghost use Rattle.std.specs.Prelude.{◌≡◌, ℕ, List, Option, option_map, IfSome, IfNone, OnOk, IsErrOf};
ghost use Rattle.std.specs.FinMap as map;
ghost use Rattle.ebc_outside.specs.Counts.{Rose, IsCount};
ghost use Rattle.ebc_outside.specs.Files.{Files, SameOtherFiles};
ghost use Rattle.ebc_outside.specs.Answers.{AnswersFile, asked_after};

use crate::ends::{ReadEnd, WriteEnd};
use std::alloc::Global;

/// The files that a tool may read and write.
pub trait Folder {
    /// The bytes under each name, where the folder tells them.
    ghost contents: { Self → Option Files };

    /// The names of the reads so far, the first in front. It is told where the contents are.
    ghost asked: { Self → List (List ℕ) };

    /// How many reads have failed, a number below 2^64 that stays at the last of them.
    ghost read_faults: { Self → ℕ };

    /// How many writes have failed, a count like that of the reads.
    ghost write_faults: { Self → ℕ };

    /// The first bytes of a file, up to one more than `limit`, so that a longer answer than
    /// `limit` shows a file that is too long. `limit` is a number of bytes, of any size.
    ///
    /// `Missing` comes only where the folder has no file of that name, `Fault` only where the read
    /// failed and was counted, and `NoMemory` where memory was refused.
    fn read(&mut self, alloc: Global, name: &str, limit: u64) -> Result<Vec<u8>, ReadEnd>
        ensures answer { IfSome (contents self.old)
            (λ files. AnswersFile (map.get files name.now) limit result) }
        ensures missing { IfNone (contents self.old)
            (IsErrOf result ReadEnd.Missing → Rose (read_faults self.old) (read_faults self.new)) }
        ensures fault { IsErrOf result ReadEnd.Fault →
            Rose (read_faults self.old) (read_faults self.new) }
        ensures count { IsCount (read_faults self.old) (read_faults self.new) }

        // Where the contents are told, no other answer counts.
        ensures uncounted { IfSome (contents self.old) (λ _. ¬ IsErrOf result ReadEnd.Fault →
            read_faults self.new ≡ read_faults self.old) }
        ensures write_faults { write_faults self.new ≡ write_faults self.old }

        // No read changes a file, and each is remembered.
        ensures contents { contents self.new ≡ contents self.old }
        ensures asked { IfSome (contents self.old)
            (λ _. asked self.new ≡ asked_after name.now result (asked self.old)) };

    /// Makes these bytes the contents of the file of this name, which need not be there yet.
    ///
    /// `Fault` comes only where the write failed and was counted, and then no one knows what the
    /// file of this name holds. `NoMemory` comes where memory was refused, and all is as before.
    fn write(&mut self, alloc: Global, name: &str, bytes: &[u8]) -> Result<(), WriteEnd>
        ensures written { OnOk result (contents self.new
            ≡ option_map (λ files. map.insert files name.now bytes.now) (contents self.old)) }
        ensures fault { IsErrOf result WriteEnd.Fault →
            Rose (write_faults self.old) (write_faults self.new) }
        ensures others { IsErrOf result WriteEnd.Fault →
            SameOtherFiles name.now (contents self.old) (contents self.new) }
        ensures memory { IsErrOf result WriteEnd.NoMemory →
            contents self.new ≡ contents self.old }
        ensures count { IsCount (write_faults self.old) (write_faults self.new) }

        // Where the contents are told, no other answer counts.
        ensures uncounted { IfSome (contents self.old) (λ _. ¬ IsErrOf result WriteEnd.Fault →
            write_faults self.new ≡ write_faults self.old) }
        ensures read_faults { read_faults self.new ≡ read_faults self.old }

        // A write is no read.
        ensures asked { IfSome (contents self.old) (λ _. asked self.new ≡ asked self.old) };
}

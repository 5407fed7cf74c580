//! Where the output goes.
ghost use Rattle.std.specs.Prelude.{◌≡◌, ℕ, List, ◌++◌, Option, option_map, OnOk, IsErrOf};
ghost use Rattle.ebc_outside.specs.Counts.{Rose, IsCount};
ghost use Rattle.ebc_outside.specs.Files.{AppendsPart};

use crate::ends::SinkEnd;
use std::alloc::Global;

/// The output of a tool.
pub trait Sink {
    /// The bytes so far, where the sink tells them.
    ghost written: { Self → Option (List ℕ) };

    /// How many puts have failed, a number below 2^64 that stays at the last of them.
    ghost faults: { Self → ℕ };

    /// Appends all the bytes.
    ///
    /// `Fault` comes only where the put failed and was counted, and then a first part of the bytes
    /// may stand at the end. `NoMemory` comes where memory was refused, and appends nothing.
    fn put(&mut self, alloc: Global, bytes: &[u8]) -> Result<(), SinkEnd>
        ensures written { OnOk result
            (written self.new ≡ option_map (λ text. text ++ bytes.now) (written self.old)) }
        ensures fault { IsErrOf result SinkEnd.Fault → Rose (faults self.old) (faults self.new) }
        ensures part { IsErrOf result SinkEnd.Fault →
            AppendsPart bytes.now (written self.old) (written self.new) }
        ensures memory { IsErrOf result SinkEnd.NoMemory → written self.new ≡ written self.old }
        ensures count { IsCount (faults self.old) (faults self.new) };
}

//! The script of a sample.
ghost use Rattle.std.specs.Prelude.{◌≡◌, IfOk};
ghost use Rattle.printed_texts.specs.Samples.{script_text};

use ebc_base::NoMemory;
use std::alloc::Global;

/// The script of every sample: no arguments, and no call.
///
/// # Errors
///
/// Want of memory alone.
pub fn script(alloc: Global) -> Result<Vec<u8>, NoMemory>
    ensures { IfOk result (λ text. text.items ≡ script_text) }
{
    Ok(b"version = 1\nargs = []\n".to_vec(alloc)?)
}

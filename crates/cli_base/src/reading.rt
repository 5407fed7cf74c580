//! Reading the files that words name.
ghost use Rattle.std.specs.Prelude.{◌≡◌, ◌≤◌, IfSome, IfOk, IsErrOf, length};
ghost use Rattle.ebc_outside.specs.Counts.{Rose};
ghost use Rattle.cli_base.specs.Readings.{file, Follows, IfStop, CommandAnswer};

use crate::outcome::Outcome;
use crate::reply::{End, Reply};
use crate::text;
use ebc_base::Sequence;
use ebc_outside::{Folder, ReadEnd};
use std::alloc::Global;

/// The file that a word names, where it has at most `limit` bytes.
#[tactic(auto, unfolding(crate::specs::Readings::file))]
pub fn file<F: Folder>(
    alloc: Global,
    folder: &mut F,
    word: u8,
    name: &str,
    limit: u64,
) -> Result<Sequence<u8>, End>
    ensures follows { IfSome (F.contents folder.old) (λ files.
        Follows (F.asked folder.old) (F.asked folder.new) result (file word name.now limit files)) }
    ensures stop { IfStop result (CommandAnswer (F.contents folder.old)
        (F.read_faults folder.old) (F.read_faults folder.new)) }
    ensures fault { IsErrOf result End.ReadFault →
        Rose (F.read_faults folder.old) (F.read_faults folder.new) }
    ensures uncounted { IfSome (F.contents folder.old) (λ _. ¬ IsErrOf result End.ReadFault →
        F.read_faults folder.new ≡ F.read_faults folder.old) }
    ensures count { F.read_faults folder.old ≤ F.read_faults folder.new }
    ensures contents { F.contents folder.new ≡ F.contents folder.old }
    ensures write_faults { F.write_faults folder.new ≡ F.write_faults folder.old }
    ensures within { IfOk result (λ bytes. length bytes ≤ limit) }
{
    match folder.read(alloc, name, limit) {
        Ok(bytes) => {
            if bytes.len() as u64 > limit {
                return Err(End::Stop(text::large(alloc, word, name)?));
            }
            Ok(Sequence::new(bytes))
        }
        Err(ReadEnd::Missing) => Err(End::Stop(text::missing(alloc, word, name)?)),
        Err(ReadEnd::Fault) => Err(End::ReadFault),
        Err(ReadEnd::NoMemory) => Err(End::NoMemory),
    }
}

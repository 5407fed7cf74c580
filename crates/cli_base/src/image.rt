//! Reading the image that a file holds.
ghost use Rattle.std.specs.Prelude.{◌≡◌, ◌≤◌, IfOk, None, length};
ghost use Rattle.cli_base.specs.Inputs.{IsReadImage, Means, image_limit, image_meaning};
ghost use Rattle.cli_base.specs.Outcomes.{IsBadInput};
ghost use Rattle.cli_base.specs.Outputs.{written_name};
ghost use Rattle.cli_base.specs.Readings.{IfStop};

use crate::reply::End;
use crate::text;
use pe_image::{Image, ImageEnd, read_image};
use std::alloc::Global;

/// How many bytes the file of an image may have.
pub const IMAGE_LIMIT: u64 = 4194304;

/// The image that the bytes of a file stand for, or the answer to its first fault. The file is that of a word, by its number and its
/// name.
pub fn image_in(alloc: Global, word: u8, name: &str, bytes: &[u8]) -> Result<Image, End>
    requires { length bytes.now ≤ image_limit }
    ensures meaning { Means result (image_meaning word name.now bytes.now) }
    ensures valid { IfOk result IsReadImage }
    ensures stop { IfStop result (λ reply. IsBadInput reply.outcome) }
    ensures output { IfStop result (λ reply. written_name reply.output ≡ None) }
{
    match read_image(alloc, bytes) {
        Ok(image) => Ok(image),
        Err(ImageEnd::Fault { kind, offset }) => Err(End::Stop(text::bad_image(
            alloc, word, name, kind, offset,
        )?)),
        Err(ImageEnd::NoMemory) => Err(End::NoMemory),
    }
}

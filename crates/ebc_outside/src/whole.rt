//! Writing all of some bytes to a writer, piece by piece.
ghost use Rattle.std.specs.Prelude.{◌≡◌, ℕ, OnOk, IsErrOf, take};
ghost use Rattle.std.specs.Io.KnownBytes.{Appends, Keeps};
ghost use Rattle.std.specs.IoError.{error_kind};
ghost use Rattle.ebc_outside.specs.Answers.{put_end_of};

use crate::ends::SinkEnd;
use std::io::{Error, ErrorKind, Write};

/// Gives the writer all the bytes, and has it hand them on. An error that ends it is kept.
pub fn write_whole<W: Write>(
    writer: &mut W,
    bytes: &[u8],
    cause: &mut Option<Error>,
) -> Result<(), SinkEnd>
    ensures whole { OnOk result
        (Appends (W.contents writer.old) (W.contents writer.new) bytes.now) }
    ensures part { IsErrOf result SinkEnd.Fault → (count : ℕ) ×
        Appends (W.contents writer.old) (W.contents writer.new) (take count bytes.now) }
    ensures none { IsErrOf result SinkEnd.NoMemory →
        Keeps (W.contents writer.old) (W.contents writer.new) }
{
    let mut done = 0;
    while done < bytes.len() {
        match writer.write(&bytes[done..]) {
            Ok(0) => return Err(SinkEnd::Fault),
            Ok(count) => done += count,
            Err(error) => {
                let end = end_of(&error, done);
                *cause = Some(error);
                return Err(end);
            }
        }
    }
    match writer.flush() {
        Ok(()) => Ok(()),
        Err(error) => {
            *cause = Some(error);
            Err(SinkEnd::Fault)
        }
    }
}

// How a put ends that met this error after so many bytes.
fn end_of(error: &Error, done: usize) -> SinkEnd
    ensures { result ≡ put_end_of done (error_kind error.now) }
{
    if done == 0 && error.kind() == ErrorKind::OutOfMemory {
        SinkEnd::NoMemory
    } else {
        SinkEnd::Fault
    }
}

//! The files of the system. No clause says what they hold.
ghost use Rattle.std.specs.Prelude.{◌≡◌, None, [], ◌+◌, IfOk, IfSome, IsErrOf, take};
ghost use Rattle.ebc_outside.specs.Counts.{Rose, IsCount};
ghost use Rattle.std.specs.IoError.{error_kind};
ghost use Rattle.ebc_outside.specs.Answers.{host_faults_after, open_end_of, read_end_of, write_faults_after};

use crate::ends::{ReadEnd, WriteEnd};
use crate::folder::Folder;
use crate::host_write::write_file;
use std::alloc::Global;
use std::fs;
use std::io::{Error, ErrorKind, Read};
use std::marker::Model;
use std::rt::Files;

/// The files of the system, by their paths. A name is a path as the system takes it. No contents
/// are told.
///
/// Each read that ends in an error is counted, a name not found among them, but for want of memory.
/// So is each write that ends in an error.
///
/// A write to a regular file, or under a name that isn't there, makes a new file beside it, which
/// takes the name once it is whole: where that fails, what has the name stays as it is. A device, a
/// pipe or the target of a link is written in place, and is emptied first where it can be. Once a
/// file is made or emptied, each error is a fault, want of memory among them.
///
/// The last error that ended a call is kept, for what is said to a reader.
#[derive(Drop)]
pub struct HostFolder<'a, R: Files> {
    rt: &'a R,
    read_faults: u64,
    write_faults: u64,
    cause: Option<Error>,
}

impl<'a, R: Files> Model for HostFolder<'a, R> {
    ghost use Rattle.ebc_outside.specs.Kept.{HostCounts};

    ghost Value = { HostCounts };

    ghost view = { λ f. record { read_faults = f.read_faults; write_faults = f.write_faults } };
}

impl<'a, R: Files> HostFolder<'a, R> {
    /// The files of this runtime, with no failed reads and no failed writes so far.
    pub fn new(rt: &'a R) -> Self
        ensures read_faults { result.read_faults ≡ 0 }
        ensures write_faults { result.write_faults ≡ 0 }
    {
        HostFolder {
            rt,
            read_faults: 0,
            write_faults: 0,
            cause: None,
        }
    }

    /// The error with which the system last ended a read or a write, if there was one.
    pub fn cause(&self) -> Option<&Error> {
        self.cause.as_ref()
    }
}

impl<'a, R: Files> Folder for HostFolder<'a, R> {
    ghost contents = { λ _. None };

    ghost asked = { λ _. [] };

    ghost read_faults = { λ f. f.read_faults };

    ghost write_faults = { λ f. f.write_faults };

    fn read(&mut self, alloc: Global, name: &str, limit: u64) -> Result<Vec<u8>, ReadEnd>
        ensures missing { IsErrOf result ReadEnd.Missing →
            Rose self.old.read_faults self.new.read_faults }
        ensures fault { IsErrOf result ReadEnd.Fault →
            Rose self.old.read_faults self.new.read_faults }
        ensures count { IsCount self.old.read_faults self.new.read_faults }
        ensures faults { self.new.read_faults ≡ host_faults_after result self.old.read_faults }
        ensures write_faults { self.new.write_faults ≡ self.old.write_faults }
    {
        let faults = self.read_faults;
        let answer = read_file(self.rt, alloc, name, limit, &mut self.cause);
        if matches!(answer, Err(ReadEnd::Missing | ReadEnd::Fault)) {
            self.read_faults = faults.saturating_add(1);
        }
        answer
    }

    fn write(&mut self, alloc: Global, name: &str, bytes: &[u8]) -> Result<(), WriteEnd>
        ensures fault { IsErrOf result WriteEnd.Fault →
            Rose self.old.write_faults self.new.write_faults }
        ensures count { IsCount self.old.write_faults self.new.write_faults }
        ensures faults { self.new.write_faults ≡ write_faults_after result self.old.write_faults }
        ensures read_faults { self.new.read_faults ≡ self.old.read_faults }
    {
        let faults = self.write_faults;
        let answer = write_file(self.rt, alloc, name, bytes, &mut self.cause);
        if answer == Err(WriteEnd::Fault) {
            self.write_faults = faults.saturating_add(1);
        }
        answer
    }
}

// The first bytes of a file, up to one more than the limit. An error that ends the read is kept.
fn read_file<R: Files>(
    rt: &R,
    alloc: Global,
    name: &str,
    limit: u64,
    cause: &mut Option<Error>,
) -> Result<Vec<u8>, ReadEnd> {
    match fs::open(rt, name) {
        Ok(mut file) => read_head(&mut file, alloc, limit, cause),
        Err(error) => {
            let end = open_end(&error);
            *cause = Some(error);
            Err(end)
        }
    }
}

// How a read ends whose file could not be opened.
fn open_end(error: &Error) -> ReadEnd
    ensures { result ≡ open_end_of (error_kind error.now) }
{
    match error.kind() {
        ErrorKind::NotFound => ReadEnd::Missing,
        _ => end_of(error),
    }
}

// How a read ends that met this error.
fn end_of(error: &Error) -> ReadEnd
    ensures { result ≡ read_end_of (error_kind error.now) }
{
    match error.kind() {
        ErrorKind::OutOfMemory => ReadEnd::NoMemory,
        _ => ReadEnd::Fault,
    }
}

// The most bytes that one call of `read` is asked for.
const PIECE: u64 = 4096;

// The first bytes that the reader gives, up to one more than the limit. An error that ends the read is kept.
fn read_head<R: Read>(
    reader: &mut R,
    alloc: Global,
    limit: u64,
    cause: &mut Option<Error>,
) -> Result<Vec<u8>, ReadEnd>
    ensures { IfOk result (λ bytes.
        IfSome (R.remaining reader.old) (λ rest. bytes.items ≡ take (limit + 1) rest)) }
{
    let mut bytes = Vec::new(alloc);
    let mut piece = [0u8; PIECE as usize];
    while bytes.len() as u64 <= limit {
        let most = (limit - bytes.len() as u64).min(PIECE - 1) as usize + 1;
        let count = match reader.read(&mut piece[..most]) {
            Ok(0) => return Ok(bytes),
            Ok(count) => count,
            Err(error) => {
                let end = end_of(&error);
                *cause = Some(error);
                return Err(end);
            }
        };
        bytes.extend_from_slice(&piece[..count])?;
    }
    Ok(bytes)
}

#[cfg(test)]
mod tests {
    use super::*;
    use std::io;
    use std::test::Fail;

    // Gives one byte at a time, and an error once these are used up.
    #[derive(Drop)]
    struct Broken {
        left: u8,
    }

    impl Read for Broken {
        fn read(&mut self, buf: &mut [u8]) -> io::Result<usize> {
            if buf.is_empty() {
                return Ok(0);
            }
            if self.left == 0 {
                return Err(ErrorKind::Interrupted.into());
            }
            self.left -= 1;
            buf[0] = b'x';
            Ok(1)
        }
    }

    #[test]
    fn a_reader_that_breaks_off_is_a_fault(rt: HostRuntime) -> Result<(), Fail> {
        let alloc = rt.alloc();
        let head = read_head(&mut Broken { left: 3 }, alloc, 2, &mut None)?;
        assert!(rt; head.as_slice() == b"xxx".as_slice());
        let mut cause = None;
        let broken = read_head(&mut Broken { left: 3 }, alloc, 3, &mut cause);
        assert!(rt; broken.err() == Some(ReadEnd::Fault));
        assert!(rt; matches!(&cause, Some(error) if error.kind() == ErrorKind::Interrupted));
        Ok(())
    }
}

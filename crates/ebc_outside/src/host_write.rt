//! Writing a file of the system, so that a failed write leaves a regular file as it was.
ghost use Rattle.std.specs.Prelude.{◌≡◌, ◌++◌, IfOk, codes};
ghost use Rattle.std.specs.Fmt.{decimal};
ghost use Rattle.std.specs.IoError.{error_kind};
ghost use Rattle.std.specs.Path.{path_buf_bytes, path_with_file_name};
ghost use Rattle.ebc_outside.specs.Answers.{create_end_of};

use crate::ends::WriteEnd;
use crate::whole::write_whole;
use std::alloc::{AllocError, Global};
use std::fs::{OpenFile, OpenOptions, Permissions};
use std::io::{Error, ErrorKind, Write};
use std::os::unix::fs::{OpenOptionsExt, PermissionsExt};
use std::path::{Path, PathBuf};
use std::rt::Files;
use std::{fs, io};

// How many names are tried for a new file: other runs may have some at the moment, and runs that were killed leave theirs.
const NAMES: u32 = 100;

// The bits of a mode that a file keeps: who may read it, write it and run it.
const KEPT: u32 = 0o777;

// The mode of a file that isn't there yet, less what the system masks.
const NEW: u32 = 0o666;

/// Makes the bytes the contents of the file of this name: a regular file is replaced, and what is no
/// regular file is written in place.
///
/// A `Fault` leaves a regular file as it was, and none where there was none. `NoMemory` leaves
/// everything. An error that ends the write is kept.
pub fn write_file<R: Files>(
    rt: &R,
    alloc: Global,
    name: &str,
    bytes: &[u8],
    cause: &mut Option<Error>,
) -> Result<(), WriteEnd> {
    match fs::symlink_metadata(rt, name) {
        Ok(found) if found.is_file() => {
            // A file that may not be written is not replaced either.
            if let Err(error) = OpenOptions::new().write(true).open(rt, name) {
                return Err(refused(error, cause));
            }
            let mode = found.permissions().mode() & KEPT;
            replace(rt, alloc, name, bytes, Some(mode), cause)
        }
        Ok(_) => write_in_place(rt, name, bytes, cause),
        Err(error) if error.kind() == ErrorKind::NotFound => {
            replace(rt, alloc, name, bytes, None, cause)
        }
        Err(error) => Err(refused(error, cause)),
    }
}

fn write_in_place<R: Files>(
    rt: &R,
    name: &str,
    bytes: &[u8],
    cause: &mut Option<Error>,
) -> Result<(), WriteEnd> {
    match fs::create(rt, name) {
        Ok(mut file) => write_whole(&mut file, bytes, cause).map_err(|_| WriteEnd::Fault),
        Err(error) => Err(refused(error, cause)),
    }
}

// Writes a new file, which takes the name once it is whole, and is removed else. The mode is that of the file that has the name.
fn replace<R: Files>(
    rt: &R,
    alloc: Global,
    name: &str,
    bytes: &[u8],
    mode: Option<u32>,
    cause: &mut Option<Error>,
) -> Result<(), WriteEnd> {
    let (beside, file) = create_beside(rt, alloc, name, mode.unwrap_or(NEW), cause)?;
    if fill(file, bytes, mode, cause).is_ok()
        && done(fs::rename(rt, beside.as_path(), Path::new(name)), cause).is_ok()
    {
        return Ok(());
    }
    // What can't be removed stays: the write is a fault in any case.
    let _ = fs::remove_file(rt, beside.as_path());
    Err(WriteEnd::Fault)
}

// A new file in the folder of this name, and its name.
fn create_beside<R: Files>(
    rt: &R,
    alloc: Global,
    name: &str,
    mode: u32,
    cause: &mut Option<Error>,
) -> Result<(PathBuf, R::File), WriteEnd> {
    for number in 0..NAMES {
        let beside = name_beside(alloc, name, number)?;
        match OpenOptions::new()
            .write(true)
            .create_new(true)
            .mode(mode)
            .open(rt, beside.as_path())
        {
            Ok(file) => return Ok((beside, file)),
            Err(error) if error.kind() == ErrorKind::AlreadyExists => {}
            Err(error) => return Err(refused(error, cause)),
        }
    }
    Err(WriteEnd::Fault)
}

fn name_beside(alloc: Global, name: &str, number: u32) -> Result<PathBuf, AllocError>
    ensures { IfOk result (λ beside. path_buf_bytes beside
        ≡ path_with_file_name name.now (codes "ebc-" ++ (decimal number ++ codes ".tmp"))) }
{
    let last = format!(in alloc; "ebc-{number}.tmp")?;
    Path::new(name).with_file_name(alloc, last.as_str())
}

// Gives a new file its bytes and its mode. Some file systems tell what failed only where all is stored.
fn fill<F: Write + OpenFile + Drop>(
    mut file: F,
    bytes: &[u8],
    mode: Option<u32>,
    cause: &mut Option<Error>,
) -> Result<(), WriteEnd> {
    write_whole(&mut file, bytes, cause).map_err(|_| WriteEnd::Fault)?;
    if let Some(mode) = mode {
        let permissions = Permissions::from_mode(mode);
        done(file.set_permissions(permissions), cause)?;
    }
    done(file.sync_all(), cause)
}

// What came of a call once a file was made or emptied: each error is a fault then, and is kept.
fn done(answer: io::Result<()>, cause: &mut Option<Error>) -> Result<(), WriteEnd> {
    match answer {
        Ok(()) => Ok(()),
        Err(error) => {
            *cause = Some(error);
            Err(WriteEnd::Fault)
        }
    }
}

// How a write ends that met this error before a file was made or emptied. The error is kept.
fn refused(error: Error, cause: &mut Option<Error>) -> WriteEnd
    ensures { result ≡ create_end_of (error_kind error) }
{
    let end = create_end(&error);
    *cause = Some(error);
    end
}

// How a write ends that met this error before a file was made or emptied.
fn create_end(error: &Error) -> WriteEnd
    ensures { result ≡ create_end_of (error_kind error.now) }
{
    match error.kind() {
        ErrorKind::OutOfMemory => WriteEnd::NoMemory,
        _ => WriteEnd::Fault,
    }
}

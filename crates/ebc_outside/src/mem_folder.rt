//! A folder in memory, with reads and writes that are to fail.
ghost use Rattle.std.specs.Prelude.{◌≡◌, Some, IfOk, OnOk, OnErr, IsErrOf, IsTrue, ◌+◌, ◌⊎◌, take, []};
ghost use Rattle.std.specs.Option.{ok_or};
ghost use Rattle.std.specs.FinMap as map;
ghost use Rattle.ebc_outside.specs.Counts.{Rose, IsCount, is_listed, next_call};
ghost use Rattle.ebc_outside.specs.Answers.{AnswersFile, asked_after, read_faults_after, write_faults_after};
ghost use Rattle.ebc_outside.specs.Memory.{files_of};

use crate::ends::{ReadEnd, WriteEnd};
use crate::folder::Folder;
use std::alloc::{AllocError, Global};
use std::collections::BTreeMap;
use std::marker::Model;

/// A folder in memory, which tells its contents. A read whose number stands in the list of failing
/// reads answers `Fault`, or `NoMemory` where memory is refused, and no other read answers `Fault`.
/// A write whose number stands in the list of failing writes answers `Fault` and changes no file,
/// and no other write answers `Fault`.
///
/// Reads and writes are counted apart, each from 1, up to 2^64 - 1, the number of all that follow.
#[derive(Drop)]
pub struct MemFolder {
    files: BTreeMap<String, Vec<u8>>,
    asked: Vec<String>,
    reads: u64,
    failing_reads: Vec<u64>,
    read_faults: u64,
    writes: u64,
    failing_writes: Vec<u64>,
    write_faults: u64,
}

impl Model for MemFolder {
    ghost use Rattle.ebc_outside.specs.Kept.{KeptFolder, kept_folder_code};
    ghost use Rattle.ebc_outside.specs.Memory.{files_of, names_of};

    ghost Value = { KeptFolder };

    ghost coded = { kept_folder_code };

    ghost view = { λ f. record {
      files = files_of f.files;
      asked = names_of f.asked;
      reads = f.reads;
      failing_reads = f.failing_reads.items;
      read_faults = f.read_faults;
      writes = f.writes;
      failing_writes = f.failing_writes.items;
      write_faults = f.write_faults;
    } };
}

impl MemFolder {
    /// A folder with no files, of which no read and no write fails.
    pub fn new(alloc: Global) -> Self
        ensures files { result.files ≡ map.empty }
        ensures asked { result.asked ≡ [] }
        ensures reads { result.reads ≡ 0 }
        ensures failing_reads { result.failing_reads ≡ [] }
        ensures read_faults { result.read_faults ≡ 0 }
        ensures writes { result.writes ≡ 0 }
        ensures failing_writes { result.failing_writes ≡ [] }
        ensures write_faults { result.write_faults ≡ 0 }
    {
        MemFolder {
            files: BTreeMap::new(alloc),
            asked: Vec::new(alloc),
            reads: 0,
            failing_reads: Vec::new(alloc),
            read_faults: 0,
            writes: 0,
            failing_writes: Vec::new(alloc),
            write_faults: 0,
        }
    }

    /// Puts the bytes under the name, in the place of what was there. The only error is want of
    /// memory, and then the folder is as before.
    pub fn insert(&mut self, name: &str, bytes: &[u8]) -> Result<(), AllocError>
        ensures files { OnOk result
            (self.new.files ≡ map.insert self.old.files name.now bytes.now) }
        ensures others { self.new ≡ record self.old { files = self.new.files } }
        ensures err { OnErr result (self.new ≡ self.old) }
    {
        let alloc = *self.asked.allocator();
        let copy = String::from_str(alloc, name)?;
        let kept = Vec::from_slice(alloc, bytes)?;
        self.files.insert(copy, kept)?;
        Ok(())
    }

    /// Sets the numbers of the reads that are to fail, counted from 1 since the folder was made,
    /// in the place of those that were set before.
    pub fn fail_reads(&mut self, calls: Vec<u64>)
        ensures { self.new ≡ record self.old { failing_reads = calls.items } }
    {
        self.failing_reads = calls;
    }

    /// Sets the numbers of the writes that are to fail, counted from 1 since the folder was made,
    /// in the place of those that were set before.
    pub fn fail_writes(&mut self, calls: Vec<u64>)
        ensures { self.new ≡ record self.old { failing_writes = calls.items } }
    {
        self.failing_writes = calls;
    }
}

impl Folder for MemFolder {
    ghost contents = { λ f. Some f.files };

    ghost asked = { λ f. f.asked };

    ghost read_faults = { λ f. f.read_faults };

    ghost write_faults = { λ f. f.write_faults };

    fn read(&mut self, alloc: Global, name: &str, limit: u64) -> Result<Vec<u8>, ReadEnd>
        ensures answer { AnswersFile (map.get self.old.files name.now) limit result }
        ensures fault { IsErrOf result ReadEnd.Fault →
            Rose self.old.read_faults self.new.read_faults }
        ensures count { IsCount self.old.read_faults self.new.read_faults }

        // A call on the list fails, and no other.
        ensures listed { IsTrue (is_listed (next_call self.old.reads) self.old.failing_reads) →
            IsErrOf result ReadEnd.Fault ⊎ IsErrOf result ReadEnd.NoMemory }
        ensures unlisted { IsErrOf result ReadEnd.Fault →
            IsTrue (is_listed (next_call self.old.reads) self.old.failing_reads) }
        ensures read_faults { self.new.read_faults ≡ read_faults_after result self.old.read_faults }

        // Each call counts and, unless memory was refused, is remembered. All else stays.
        ensures writes { self.new.writes ≡ self.old.writes }
        ensures failing_writes { self.new.failing_writes ≡ self.old.failing_writes }
        ensures write_faults { self.new.write_faults ≡ self.old.write_faults }
        ensures contents { self.new.files ≡ self.old.files }
        ensures asked { self.new.asked ≡ asked_after name.now result self.old.asked }
        ensures reads { self.new.reads ≡ next_call self.old.reads }
        ensures failing_reads { self.new.failing_reads ≡ self.old.failing_reads }
    {
        let faults = self.read_faults;
        self.reads = self.reads.saturating_add(1);
        let fails = self.failing_reads.contains(&self.reads);
        let copy = String::from_str(alloc, name)?;
        let found = first_bytes(alloc, &self.files, name, limit)?;
        self.asked.push(copy)?;
        if fails {
            self.read_faults = faults.saturating_add(1);
            return Err(ReadEnd::Fault);
        }
        found.ok_or(ReadEnd::Missing)
    }

    fn write(&mut self, _alloc: Global, name: &str, bytes: &[u8]) -> Result<(), WriteEnd>
        ensures written { OnOk result
            (self.new.files ≡ map.insert self.old.files name.now bytes.now) }
        ensures err { OnErr result (self.new.files ≡ self.old.files) }
        ensures fault { IsErrOf result WriteEnd.Fault →
            Rose self.old.write_faults self.new.write_faults }
        ensures count { IsCount self.old.write_faults self.new.write_faults }

        // A call on the list fails, and no other.
        ensures listed { IsTrue (is_listed (next_call self.old.writes) self.old.failing_writes) →
            IsErrOf result WriteEnd.Fault }
        ensures unlisted { IsErrOf result WriteEnd.Fault →
            IsTrue (is_listed (next_call self.old.writes) self.old.failing_writes) }
        ensures write_faults { self.new.write_faults
            ≡ write_faults_after result self.old.write_faults }

        // Each call counts. All else stays.
        ensures writes { self.new.writes ≡ next_call self.old.writes }
        ensures failing_writes { self.new.failing_writes ≡ self.old.failing_writes }
        ensures asked { self.new.asked ≡ self.old.asked }
        ensures reads { self.new.reads ≡ self.old.reads }
        ensures failing_reads { self.new.failing_reads ≡ self.old.failing_reads }
        ensures read_faults { self.new.read_faults ≡ self.old.read_faults }
    {
        let faults = self.write_faults;
        self.writes = self.writes.saturating_add(1);
        if self.failing_writes.contains(&self.writes) {
            self.write_faults = faults.saturating_add(1);
            return Err(WriteEnd::Fault);
        }
        self.insert(name, bytes)?;
        Ok(())
    }
}

// The first bytes of a file, up to one more than the limit, or nothing where there is no file.
fn first_bytes(
    alloc: Global,
    files: &BTreeMap<String, Vec<u8>>,
    name: &str,
    limit: u64,
) -> Result<Option<Vec<u8>>, AllocError>
    ensures { IfOk result (λ found.
        AnswersFile (map.get (files_of files.now) name.now) limit (ok_or found ReadEnd.Missing)) }
{
    match files.get(name) {
        Some(file) => Ok(Some(head(alloc, file, limit)?)),
        None => Ok(None),
    }
}

// The first bytes of a text, up to one more than the limit.
fn head(alloc: Global, file: &[u8], limit: u64) -> Result<Vec<u8>, AllocError>
    ensures { IfOk result (λ bytes. bytes.items ≡ take (limit + 1) file.now) }
{
    let front = match usize::try_from(limit) {
        Ok(limit) if limit < file.len() => &file[..limit + 1],
        _ => file,
    };
    Vec::from_slice(alloc, front)
}

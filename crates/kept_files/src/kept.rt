//! A folder that keeps the files that it gives.
ghost use Rattle.std.specs.Prelude.{◌≡◌, ℕ, Option, option_map, IfSome, IfNone, OnOk, IsErrOf, [], string_bytes};
ghost use Rattle.std.specs.FinMap as map;
ghost use Rattle.ebc_outside.specs.Counts.{Rose, IsCount};
ghost use Rattle.ebc_outside.specs.Files.{SameOtherFiles};
ghost use Rattle.ebc_outside.specs.Answers.{AnswersFile, asked_after};
ghost use Rattle.kept_files.specs.Keeping.{IsNameOrNothing, KeptAfter, Keeps, room_of_all};

use ebc_outside::{Folder, MemFolder, ReadEnd, WriteEnd};
use std::alloc::Global;

// How many bytes are kept in all: 32 MiB.
const ROOM: u64 = 33554432;

/// A folder that gives what another one gives, and keeps a copy of each file that it gave, where there is memory for it and all that is
/// kept has at most 32 MiB. It keeps the name that was asked for last, too.
#[derive(Drop)]
pub struct Kept<F: Folder + Drop> {
    folder: F,
    files: MemFolder,
    room: u64,
    asked: String,
}

impl<F: Folder + Drop> Kept<F> {
    /// A folder over this one, of which nothing is kept yet.
    pub fn new(alloc: Global, folder: F) -> Self
        ensures folder { result.folder ≡ folder }
        ensures files { result.files.files ≡ map.empty }
        ensures room { result.room ≡ room_of_all }
        ensures asked { string_bytes result.asked ≡ [] }
    {
        Kept {
            folder,
            files: MemFolder::new(alloc),
            room: ROOM,
            asked: String::new(alloc),
        }
    }

    /// The name that was asked for last; empty if none was, or if there was no memory for it.
    pub fn asked(&self) -> &str
        ensures { result.now ≡ string_bytes self.now.asked }
    {
        self.asked.as_str()
    }

    /// The folder below.
    pub fn folder(&self) -> &F
        ensures { result.now ≡ self.now.folder }
    {
        &self.folder
    }

    /// The files that are kept, as a folder in memory.
    pub fn replay(self) -> MemFolder
        ensures { result ≡ self.files }
    {
        let Kept { files, .. } = self;
        files
    }

    // Keeps a file, where there is room and memory for it.
    fn keep(&mut self, name: &str, bytes: &[u8])
        ensures folder { self.new.folder ≡ self.old.folder }
        ensures asked { self.new.asked ≡ self.old.asked }
        ensures kept { Keeps name.now bytes.now self.old.files.files self.old.room self.new.files.files self.new.room }
    {
        let (size, room) = (bytes.len() as u64, self.room);
        if size <= room && self.files.insert(name, bytes).is_ok() {
            self.room = room - size;
        }
    }
}

// A copy of a name, and nothing if there is no memory for it.
fn copied(alloc: Global, name: &str) -> String
    ensures { IsNameOrNothing name.now (string_bytes result) }
{
    match String::from_str(alloc, name) {
        Ok(copy) => copy,
        Err(_) => String::new(alloc),
    }
}

impl<F: Folder + Drop> Folder for Kept<F> {
    ghost contents = { λ k. F.contents k.folder };

    ghost asked = { λ k. F.asked k.folder };

    ghost read_faults = { λ k. F.read_faults k.folder };

    ghost write_faults = { λ k. F.write_faults k.folder };

    fn read(&mut self, alloc: Global, name: &str, limit: u64) -> Result<Vec<u8>, ReadEnd>
        ensures answer { IfSome (F.contents self.old.folder) (λ files. AnswersFile (map.get files name.now) limit result) }
        ensures missing { IfNone (F.contents self.old.folder)
            (IsErrOf result ReadEnd.Missing → Rose (F.read_faults self.old.folder) (F.read_faults self.new.folder)) }
        ensures fault { IsErrOf result ReadEnd.Fault → Rose (F.read_faults self.old.folder) (F.read_faults self.new.folder) }
        ensures count { IsCount (F.read_faults self.old.folder) (F.read_faults self.new.folder) }
        ensures uncounted { IfSome (F.contents self.old.folder) (λ _. ¬ IsErrOf result ReadEnd.Fault →
            F.read_faults self.new.folder ≡ F.read_faults self.old.folder) }
        ensures write_faults { F.write_faults self.new.folder ≡ F.write_faults self.old.folder }
        ensures contents { F.contents self.new.folder ≡ F.contents self.old.folder }
        ensures asked { IfSome (F.contents self.old.folder)
            (λ _. F.asked self.new.folder ≡ asked_after name.now result (F.asked self.old.folder)) }

        // What is given is kept, if anything is, and the name, if there is memory for it.
        ensures kept { KeptAfter name.now result self.old.files.files self.old.room self.new.files.files self.new.room }
        ensures name { IsNameOrNothing name.now (string_bytes self.new.asked) }
    {
        self.asked = copied(alloc, name);
        let answer = self.folder.read(alloc, name, limit);
        if let Ok(bytes) = &answer {
            self.keep(name, bytes);
        }
        answer
    }

    fn write(&mut self, alloc: Global, name: &str, bytes: &[u8]) -> Result<(), WriteEnd> {
        self.folder.write(alloc, name, bytes)
    }
}

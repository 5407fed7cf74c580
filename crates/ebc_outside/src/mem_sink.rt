//! A sink in memory, with puts that are to fail.
ghost use Rattle.std.specs.Prelude.{◌≡◌, Some, OnOk, OnErr, IsErrOf, IsTrue, ◌++◌, []};
ghost use Rattle.ebc_outside.specs.Counts.{Rose, IsCount, is_listed, next_call};
ghost use Rattle.ebc_outside.specs.Answers.{put_faults_after};

use crate::ends::SinkEnd;
use crate::sink::Sink;
use std::alloc::Global;
use std::marker::Model;

/// A sink in memory, which tells its text. A put whose number stands in its list answers `Fault`
/// and puts nothing, and no other put answers `Fault`.
///
/// Puts are counted from 1, up to 2^64 - 1, the number of all that follow.
#[derive(Drop)]
pub struct MemSink {
    text: Vec<u8>,
    puts: u64,
    failing_puts: Vec<u64>,
    faults: u64,
}

impl Model for MemSink {
    ghost use Rattle.ebc_outside.specs.Kept.{KeptSink};

    ghost Value = { KeptSink };

    ghost view = { λ s. record {
      text = s.text.items;
      puts = s.puts;
      failing_puts = s.failing_puts.items;
      faults = s.faults;
    } };
}

impl MemSink {
    /// A sink with no text, of which no put fails.
    pub fn new(alloc: Global) -> Self
        ensures text { result.text ≡ [] }
        ensures puts { result.puts ≡ 0 }
        ensures failing_puts { result.failing_puts ≡ [] }
        ensures faults { result.faults ≡ 0 }
    {
        MemSink {
            text: Vec::new(alloc),
            puts: 0,
            failing_puts: Vec::new(alloc),
            faults: 0,
        }
    }

    /// Sets the numbers of the puts that are to fail, counted from 1 since the sink was made, in
    /// the place of those that were set before.
    pub fn fail_puts(&mut self, calls: Vec<u64>)
        ensures { self.new ≡ record self.old { failing_puts = calls.items } }
    {
        self.failing_puts = calls;
    }

    /// The bytes so far.
    pub fn text(&self) -> &[u8]
        ensures { result.now ≡ self.now.text }
    {
        &self.text
    }
}

impl Sink for MemSink {
    ghost written = { λ s. Some s.text };

    ghost faults = { λ s. s.faults };

    fn put(&mut self, _alloc: Global, bytes: &[u8]) -> Result<(), SinkEnd>
        ensures written { OnOk result (self.new.text ≡ self.old.text ++ bytes.now) }
        ensures err { OnErr result (self.new.text ≡ self.old.text) }
        ensures fault { IsErrOf result SinkEnd.Fault → Rose self.old.faults self.new.faults }
        ensures count { IsCount self.old.faults self.new.faults }

        // A call on the list fails, and no other.
        ensures listed { IsTrue (is_listed (next_call self.old.puts) self.old.failing_puts) →
            IsErrOf result SinkEnd.Fault }
        ensures unlisted { IsErrOf result SinkEnd.Fault →
            IsTrue (is_listed (next_call self.old.puts) self.old.failing_puts) }
        ensures faults { self.new.faults ≡ put_faults_after result self.old.faults }

        // Each call counts. The list stays.
        ensures puts { self.new.puts ≡ next_call self.old.puts }
        ensures failing_puts { self.new.failing_puts ≡ self.old.failing_puts }
    {
        let faults = self.faults;
        self.puts = self.puts.saturating_add(1);
        if self.failing_puts.contains(&self.puts) {
            self.faults = faults.saturating_add(1);
            return Err(SinkEnd::Fault);
        }
        self.text.extend_from_slice(bytes)?;
        Ok(())
    }
}

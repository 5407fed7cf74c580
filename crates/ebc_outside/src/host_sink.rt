//! The standard output, or any writer.
ghost use Rattle.std.specs.Prelude.{◌≡◌, ℕ, None, OnOk, IsErrOf, take};
ghost use Rattle.std.specs.Io.KnownBytes.{Appends, Keeps};
ghost use Rattle.ebc_outside.specs.Counts.{Rose, IsCount};
ghost use Rattle.ebc_outside.specs.Answers.{put_faults_after};

use crate::ends::SinkEnd;
use crate::sink::Sink;
use crate::whole::write_whole;
use std::alloc::Global;
use std::io::{Error, Write};
use std::marker::Model;

/// A sink over the standard output, or any writer. It tells no text.
///
/// A put is a fault, and is counted, where the writer answers with an error, an interruption among
/// them, or takes nothing of a non-empty piece. Only where it is refused memory before it took any
/// byte, the put answers `NoMemory` and is not counted.
///
/// The last error that ended a put is kept, for what is said to a reader.
#[derive(Drop)]
pub struct HostSink<W: Write> {
    writer: W,
    faults: u64,
    cause: Option<Error>,
}

impl<W: Write> Model for HostSink<W> {
    ghost use Rattle.ebc_outside.specs.Kept.{KeptWriter, kept_writer_code};

    ghost Value = { KeptWriter W };

    ghost coded = { kept_writer_code W.code };

    ghost view = { λ s. record { writer = s.writer; faults = s.faults } };
}

impl<W: Write> HostSink<W> {
    /// A sink over this writer, with no failed puts so far.
    pub fn new(writer: W) -> Self
        ensures writer { result.writer ≡ writer }
        ensures faults { result.faults ≡ 0 }
    {
        HostSink {
            writer,
            faults: 0,
            cause: None,
        }
    }

    /// The error with which the system last ended a put, if there was one.
    pub fn cause(&self) -> Option<&Error> {
        self.cause.as_ref()
    }
}

impl<W: Write> Sink for HostSink<W> {
    ghost written = { λ _. None };

    ghost faults = { λ s. s.faults };

    fn put(&mut self, _alloc: Global, bytes: &[u8]) -> Result<(), SinkEnd>
        ensures fault { IsErrOf result SinkEnd.Fault → Rose self.old.faults self.new.faults }
        ensures count { IsCount self.old.faults self.new.faults }
        ensures faults { self.new.faults ≡ put_faults_after result self.old.faults }

        // What the writer holds, where that is known: all the bytes more, some of them, or none.
        ensures whole { OnOk result
            (Appends (W.contents self.old.writer) (W.contents self.new.writer) bytes.now) }
        ensures part { IsErrOf result SinkEnd.Fault → (count : ℕ) ×
            Appends (W.contents self.old.writer) (W.contents self.new.writer)
            (take count bytes.now) }
        ensures none { IsErrOf result SinkEnd.NoMemory →
            Keeps (W.contents self.old.writer) (W.contents self.new.writer) }
    {
        let faults = self.faults;
        let answer = write_whole(&mut self.writer, bytes, &mut self.cause);
        if answer == Err(SinkEnd::Fault) {
            self.faults = faults.saturating_add(1);
        }
        answer
    }
}

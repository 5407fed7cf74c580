//! The end of a call: what is printed or written for an answer.
ghost use Rattle.std.specs.Prelude.{◌≡◌, ◌≢◌, ◌⊎◌, [], None, IfSome, option_map};
ghost use Rattle.ebc_outside.specs.Counts.{Rose};
ghost use Rattle.ebc_outside.specs.Files.{AppendsPart, SameOtherFiles};
ghost use Rattle.std.specs.FinMap.{insert};
ghost use Rattle.cli_base.specs.Outcomes.{IsAnswer};
ghost use Rattle.cli_base.specs.Outputs.{SameBut, files_left, printed, text_of, written_name};

use crate::outcome::Outcome;
use crate::reply::{Output, Reply};
use ebc_outside::{Folder, Sink, SinkEnd, WriteEnd};
use std::alloc::Global;

/// Prints the text of an answer, if it has one, or writes its file, and says how the call ends.
pub fn finish<F: Folder, O: Sink>(
    alloc: Global,
    reply: &Reply,
    folder: &mut F,
    out: &mut O,
) -> Outcome
    requires { IsAnswer reply.now.outcome }
    ensures answer { IsAnswer result → result ≡ reply.now.outcome }
    ensures text { IsAnswer result → O.written out.new ≡ printed (text_of reply.now.output) (O.written out.old) }
    ensures files { IsAnswer result → F.contents folder.new ≡ option_map (files_left reply.now.output) (F.contents folder.old) }
    ensures others { SameBut (written_name reply.now.output) (F.contents folder.old) (F.contents folder.new) }
    ensures fault { result ≡ Outcome.WriteFault →
        Rose (O.faults out.old) (O.faults out.new) ⊎ Rose (F.write_faults folder.old) (F.write_faults folder.new) }
    ensures put_fault { written_name reply.now.output ≡ None → result ≡ Outcome.WriteFault → Rose (O.faults out.old) (O.faults out.new) }
    ensures part { result ≡ Outcome.WriteFault →
        AppendsPart (text_of reply.now.output) (O.written out.old) (O.written out.new) }
    ensures memory { result ≡ Outcome.NoMemory → O.written out.new ≡ O.written out.old }
    ensures memory_files { result ≡ Outcome.NoMemory → F.contents folder.new ≡ F.contents folder.old }
    ensures read { result ≡ Outcome.ReadFault → ⊥ }

    // An empty text isn't put, and then a fault is told only of a file that is written.
    ensures unput { text_of reply.now.output ≡ [] → out.new ≡ out.old }
    ensures untold { text_of reply.now.output ≡ [] → result ≡ Outcome.WriteFault →
        (written_name reply.now.output ≢ None) × Rose (F.write_faults folder.old) (F.write_faults folder.new) }

    // Nothing is read, and writes are counted only where the answer writes.
    ensures asked { IfSome (F.contents folder.old) (λ _. F.asked folder.new ≡ F.asked folder.old) }
    ensures read_faults { F.read_faults folder.new ≡ F.read_faults folder.old }
    ensures write_count { written_name reply.now.output ≡ None →
        F.write_faults folder.new ≡ F.write_faults folder.old }
    ensures uncounted { IfSome (F.contents folder.old) (λ _. result ≢ Outcome.WriteFault →
        F.write_faults folder.new ≡ F.write_faults folder.old) }
{
    match &reply.output {
        Output::Text(text) => print(alloc, reply.outcome, text.as_slice(), out),
        Output::File { name, bytes } => write(
            alloc,
            reply.outcome,
            name.as_str(),
            bytes.as_slice(),
            folder,
        ),
    }
}

// Prints a text, unless it is empty.
fn print<O: Sink>(alloc: Global, outcome: Outcome, text: &[u8], out: &mut O) -> Outcome
    requires { IsAnswer outcome }
    ensures answer { IsAnswer result → result ≡ outcome }
    ensures text { IsAnswer result → O.written out.new ≡ printed text.now (O.written out.old) }
    ensures fault { result ≡ Outcome.WriteFault → Rose (O.faults out.old) (O.faults out.new) }
    ensures part { result ≡ Outcome.WriteFault → AppendsPart text.now (O.written out.old) (O.written out.new) }
    ensures memory { result ≡ Outcome.NoMemory → O.written out.new ≡ O.written out.old }
    ensures read { result ≡ Outcome.ReadFault → ⊥ }
    ensures empty { text.now ≡ [] → result ≡ outcome }
    ensures unput { text.now ≡ [] → out.new ≡ out.old }
{
    if text.is_empty() {
        return outcome;
    }
    match out.put(alloc, text) {
        Ok(()) => outcome,
        Err(SinkEnd::Fault) => Outcome::WriteFault,
        Err(SinkEnd::NoMemory) => Outcome::NoMemory,
    }
}

// Writes a file.
fn write<F: Folder>(
    alloc: Global,
    outcome: Outcome,
    name: &str,
    bytes: &[u8],
    folder: &mut F,
) -> Outcome
    requires { IsAnswer outcome }
    ensures answer { IsAnswer result → result ≡ outcome }
    ensures files { IsAnswer result → F.contents folder.new
        ≡ option_map (λ files. insert files name.now bytes.now) (F.contents folder.old) }
    ensures others { SameOtherFiles name.now (F.contents folder.old) (F.contents folder.new) }
    ensures fault { result ≡ Outcome.WriteFault → Rose (F.write_faults folder.old) (F.write_faults folder.new) }
    ensures memory { result ≡ Outcome.NoMemory → F.contents folder.new ≡ F.contents folder.old }
    ensures read { result ≡ Outcome.ReadFault → ⊥ }
    ensures asked { IfSome (F.contents folder.old) (λ _. F.asked folder.new ≡ F.asked folder.old) }
    ensures read_faults { F.read_faults folder.new ≡ F.read_faults folder.old }
    ensures uncounted { IfSome (F.contents folder.old) (λ _. result ≢ Outcome.WriteFault →
        F.write_faults folder.new ≡ F.write_faults folder.old) }
{
    match folder.write(alloc, name, bytes) {
        Ok(()) => outcome,
        Err(WriteEnd::Fault) => Outcome::WriteFault,
        Err(WriteEnd::NoMemory) => Outcome::NoMemory,
    }
}

//! A sink that sees whether a run ended otherwise than finished, and keeps the line of a file that isn't of its form.
ghost use Rattle.std.specs.Prelude.{◌≡◌};

use ebc_outside::{Sink, SinkEnd};
use std::alloc::Global;

/// A sink that puts to another one, and looks at what is put.
#[derive(Drop)]
pub struct Watched<S: Sink + Drop> {
    sink: S,
    amiss: bool,
    fault_line: Option<String>,
}

// Whether a line of a run says an ending other than finished.
fn is_amiss(line: &str) -> bool {
    line.starts_with("end ") && !line.contains(" finished ")
}

fn has_amiss(bytes: &[u8]) -> bool {
    match std::str::from_utf8(bytes) {
        Ok(text) => text.lines().any(|line| is_amiss(line)),
        Err(_) => false,
    }
}

// A copy of what is put, if it is the line of a file that isn't of its form, and if there is memory for it.
fn fault_line(alloc: Global, bytes: &[u8]) -> Option<String> {
    if !bytes.starts_with(b"bad ") {
        return None;
    }
    String::from_str(alloc, std::str::from_utf8(bytes).ok()?).ok()
}

impl<S: Sink + Drop> Watched<S> {
    /// A sink that puts to this one.
    pub fn new(sink: S) -> Self
        ensures { result.sink ≡ sink }
    {
        Watched {
            sink,
            amiss: false,
            fault_line: None,
        }
    }

    /// The sink below.
    pub fn sink(&self) -> &S
        ensures { result.now ≡ self.now.sink }
    {
        &self.sink
    }

    /// Whether what was put last has a line that says how a run ended otherwise than finished.
    pub fn amiss(&self) -> bool
        ensures { result ≡ self.now.amiss }
    {
        self.amiss
    }

    /// What was put last, if it is the line of a file that isn't of its form; empty otherwise, or if there was no memory to keep it.
    pub(crate) fn fault_line(&self) -> &str {
        match &self.fault_line {
            Some(line) => line.as_str(),
            None => "",
        }
    }
}

impl<S: Sink + Drop> Sink for Watched<S> {
    ghost written = { λ w. S.written w.sink };

    ghost faults = { λ w. S.faults w.sink };

    fn put(&mut self, alloc: Global, bytes: &[u8]) -> Result<(), SinkEnd> {
        self.amiss = has_amiss(bytes);
        self.fault_line = fault_line(alloc, bytes);
        self.sink.put(alloc, bytes)
    }
}

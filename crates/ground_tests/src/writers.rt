//! What a sink answers over writers that take little or nothing.
use ebc_outside::{HostSink, Sink, SinkEnd};
use std::io::{self, ErrorKind, Write};

// Takes two bytes at a time, and nothing once it has taken as many as it may.
#[derive(Drop)]
struct Narrow {
    left: usize,
}

impl Write for Narrow {
    fn write(&mut self, buf: &[u8]) -> io::Result<usize> {
        let count = buf.len().min(2).min(self.left);
        self.left -= count;
        Ok(count)
    }

    fn flush(&mut self) -> io::Result<()> {
        Ok(())
    }
}

// Takes nothing where it is full, and else holds back what it took.
#[derive(Drop)]
struct Unflushed {
    full: bool,
}

impl Write for Unflushed {
    fn write(&mut self, buf: &[u8]) -> io::Result<usize> {
        if self.full {
            return Err(ErrorKind::StorageFull.into());
        }
        Ok(buf.len())
    }

    fn flush(&mut self) -> io::Result<()> {
        Err(ErrorKind::StorageFull.into())
    }
}

#[test]
fn a_writer_that_takes_nothing_is_a_fault(rt: HostRuntime) {
    let alloc = rt.alloc();
    let mut sink = HostSink::new(Narrow { left: 8 });
    assert!(rt; sink.put(alloc, b"12345") == Ok(()));
    assert!(rt; sink.put(alloc, b"12345") == Err(SinkEnd::Fault));
    assert!(rt; sink.put(alloc, b"") == Ok(()));
}

#[test]
fn a_writer_that_is_full_at_once_or_at_the_flush_is_a_fault(rt: HostRuntime) {
    for full in [true, false] {
        let mut sink = HostSink::new(Unflushed { full });
        assert!(rt;
            sink.put(rt.alloc(), b"12345") == Err(SinkEnd::Fault),
            "at {full}"
        );
    }
}

//! Outputs that fail, for want of a reader or otherwise.

use crate::output::Output;
use crate::tests::asserts::equal;
use std::io;
use std::io::{ErrorKind, Write};

/// Takes that many bytes and that many flushes, and then fails in this way.
#[derive(Drop)]
struct Failing {
    bytes: usize,
    flushes: usize,
    kind: ErrorKind,
}

impl Write for Failing {
    fn write(&mut self, bytes: &[u8]) -> io::Result<usize> {
        if self.bytes == 0 {
            return Err(io::Error::from(self.kind));
        }
        let count = bytes.len().min(self.bytes);
        self.bytes -= count;
        Ok(count)
    }

    fn flush(&mut self) -> io::Result<()> {
        if self.flushes == 0 {
            return Err(io::Error::from(self.kind));
        }
        self.flushes -= 1;
        Ok(())
    }
}

#[test]
fn a_pipe_that_nobody_reads(rt: HostRuntime) {
    let kind = ErrorKind::BrokenPipe;
    let mut output = Output::new(Failing {
        bytes: 3,
        flushes: 1,
        kind,
    });
    equal(&rt, &output.write(b"ab").expect(&rt, "a write"), &2);
    equal(&rt, &output.write(b"cd").expect(&rt, "a write"), &1);
    output.flush().expect(&rt, "a flush");
    assert!(rt; !output.is_closed());
    assert!(rt; output.write(b"d").is_err_and(|error| error.kind() == kind));
    assert!(rt; output.is_closed());

    let mut unflushed = Output::new(Failing {
        bytes: 3,
        flushes: 0,
        kind,
    });
    assert!(rt; unflushed.flush().is_err_and(|error| error.kind() == kind));
    assert!(rt; unflushed.is_closed());
    // what was seen once is not forgotten
    equal(&rt, &unflushed.write(b"ab").expect(&rt, "a write"), &2);
    assert!(rt; unflushed.is_closed());
}

#[test]
fn another_fault(rt: HostRuntime) {
    let kind = ErrorKind::Other;
    let mut output = Output::new(Failing {
        bytes: 0,
        flushes: 0,
        kind,
    });
    assert!(rt; output.write(b"ab").is_err_and(|error| error.kind() == kind));
    assert!(rt; output.flush().is_err_and(|error| error.kind() == kind));
    assert!(rt; !output.is_closed());
}

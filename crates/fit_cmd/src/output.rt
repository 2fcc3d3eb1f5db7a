//! What the program writes to, which knows whether anybody reads it.
use std::io;
use std::io::{Error, ErrorKind, Write};

/// A writer that remembers whether a call failed because nobody reads the pipe any more.
#[derive(Drop)]
pub(crate) struct Output<W: Write + Drop> {
    writer: W,
    is_closed: bool,
}

impl<W: Write + Drop> Output<W> {
    /// No call has failed yet.
    pub(crate) fn new(writer: W) -> Output<W> {
        Output {
            writer,
            is_closed: false,
        }
    }

    /// Whether a call failed because nobody reads the pipe any more.
    pub(crate) fn is_closed(&self) -> bool {
        self.is_closed
    }

    fn note(&mut self, error: &Error) {
        if error.kind() == ErrorKind::BrokenPipe {
            self.is_closed = true;
        }
    }
}

impl<W: Write + Drop> Write for Output<W> {
    fn write(&mut self, bytes: &[u8]) -> io::Result<usize> {
        let written = self.writer.write(bytes);
        if let Err(error) = &written {
            self.note(error);
        }
        written
    }

    fn flush(&mut self) -> io::Result<()> {
        let flushed = self.writer.flush();
        if let Err(error) = &flushed {
            self.note(error);
        }
        flushed
    }
}

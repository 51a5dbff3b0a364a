//! Writers that keep why they failed.

use crate::failure::Failure;
use std::io::{self, ErrorKind, Write};

/// A writer that keeps of which kind its last error was.
#[derive(Drop)]
pub struct Noting<W> {
    writer: W,
    kind: ErrorKind,
}

impl<W: Write> Noting<W> {
    /// Without an error.
    pub fn new(writer: W) -> Self {
        Noting {
            writer,
            kind: ErrorKind::Other,
        }
    }

    /// Of which kind its last error was.
    pub fn kind(&self) -> ErrorKind {
        self.kind
    }
}

/// What an error of this kind in writing a page comes to: nothing, where its reader wants no more of it.
pub fn unless_closed(kind: ErrorKind) -> Result<(), Failure> {
    match kind {
        ErrorKind::BrokenPipe => Ok(()),
        _ => Err(Failure::of_writing(kind)),
    }
}

impl<W: Write> Write for Noting<W> {
    fn write(&mut self, buf: &[u8]) -> io::Result<usize> {
        let written = self.writer.write(buf);
        if let Err(error) = &written {
            self.kind = error.kind();
        }
        written
    }

    fn flush(&mut self) -> io::Result<()> {
        let flushed = self.writer.flush();
        if let Err(error) = &flushed {
            self.kind = error.kind();
        }
        flushed
    }
}

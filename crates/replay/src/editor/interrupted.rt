//! Runs whose reader is interrupted.

ghost use Rattle.std.specs.Prelude.{◌≡◌, true};
ghost use Rattle.rv_layout.specs.Places.{is_base};

use crate::editor::running::{ALL, end_text, session_base, sink_of};
use rv_commands::run;
use rv_text::StdSource;
use std::alloc::Global;
use std::io;
use std::io::{ErrorKind, Read};
use std::test::Fail;

// A reader of std that gives some bytes, and is interrupted behind them.
#[derive(Drop)]
struct Interrupted<'a> {
    bytes: &'a [u8],
}

impl Read for Interrupted<'_> {
    fn read(&mut self, buffer: &mut [u8]) -> io::Result<usize> {
        if self.bytes.is_empty() {
            return Err(io::Error::from(ErrorKind::Interrupted));
        }
        self.bytes.read(buffer)
    }
}

// How a run ends that is interrupted behind these bytes, and how many bytes of the answers it writes.
fn interrupted_run(alloc: Global, base: u32, bytes: &[u8], answers: &[u8]) -> Result<String, Fail>
    requires { is_base base ≡ true }
{
    let mut source = StdSource::new(Interrupted { bytes });
    let mut sink = sink_of(alloc, ALL)?;
    let end = end_text(run(alloc, &mut source, &mut sink, base));
    let written = sink.inner.inner.bytes();
    if !answers.starts_with(written) {
        return Err(Fail::new("other answers where the reader is interrupted"));
    }
    Ok(format!(in alloc; "{end}, {} bytes\n", written.len())?)
}

/// How a run ends whose reader is interrupted behind so many bytes of the input, and how many bytes of the answers it writes.
pub fn end_where_interrupted(
    alloc: Global,
    base: u32,
    input: &[u8],
    count: u32,
    answers: &[u8],
) -> Result<String, Fail> {
    let base = session_base(base)?;
    let (bytes, _) = input.split_at(input.len().min(count as usize));
    interrupted_run(alloc, base, bytes, answers)
}

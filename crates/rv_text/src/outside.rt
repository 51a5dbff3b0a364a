//! Readers and writers of the outside.

ghost use Rattle.std.specs.Prelude.{◌≡◌, ◌-◌, ◌^◌, ◌<◌, ◌≤◌, None, IfSome, IfOk, length, take};
ghost use Rattle.std.specs.Io.KnownBytes.{Appends, ReadConsumes};
ghost use Rattle.rv_text.specs.Streams.{failures_after};

use crate::streams::{Failed, Sink, Source};
use std::io::{Read, Write};

/// A reader over one of std's. Its bytes are not known, but a call does what that reader does. Each error of that reader is a
/// failed call, an interruption too.
#[derive(Drop)]
pub struct StdSource<R> {
    /// What is read from.
    pub reader: R,
    /// How many calls failed.
    pub failures: u64,
}

impl<R: Read> StdSource<R> {
    /// No call has failed yet.
    pub fn new(reader: R) -> StdSource<R>
        ensures reader { result.reader ≡ reader }
        ensures failures { result.failures ≡ 0 }
    {
        StdSource {
            reader,
            failures: 0,
        }
    }
}

impl<R: Read> Source for StdSource<R> {
    ghost left = { λ _. None };

    ghost failures = { λ s. s.failures };

    fn read(&mut self, buffer: &mut [u8]) -> Result<usize, Failed>
        requires { self.old.failures < 2 ^ 64 - 1 }
        ensures within { IfOk result (λ n. n ≤ length buffer.old) }
        ensures count { self.new.failures ≡ failures_after self.old.failures result }
        ensures bytes { ReadConsumes (R.remaining self.old.reader) (R.remaining self.new.reader) result buffer.new }
    {
        match self.reader.read(buffer) {
            Ok(n) => Ok(n),
            Err(_) => {
                self.failures += 1;
                Err(Failed)
            }
        }
    }
}

/// A writer over one of std's. Its bytes are not known, but what a call took is in that writer, and flushed before the call
/// ends, so that nothing of it waits in a buffer. Each error of that writer or of its flush is a failed call, an
/// interruption too, and so is a call that takes nothing of a slice with bytes.
#[derive(Drop)]
pub struct StdSink<W> {
    /// What is written to.
    pub writer: W,
    /// How many calls failed.
    pub failures: u64,
}

impl<W: Write> StdSink<W> {
    /// No call has failed yet.
    pub fn new(writer: W) -> StdSink<W>
        ensures writer { result.writer ≡ writer }
        ensures failures { result.failures ≡ 0 }
    {
        StdSink {
            writer,
            failures: 0,
        }
    }

    // Writes some bytes and flushes them; None where either fails.
    #[tactic(auto, using(crate::proofs::StreamLemmas::appends_kept))]
    fn handed_on(&mut self, bytes: &[u8]) -> Option<usize>
        ensures failures { self.new.failures ≡ self.old.failures }
        ensures within { IfSome result (λ n. n ≤ length bytes.now) }
        ensures some { IfSome result (λ n. 0 < length bytes.now → 0 < n) }
        ensures bytes { IfSome result (λ n. Appends (W.contents self.old.writer) (W.contents self.new.writer) (take n bytes.now)) }
    {
        match self.writer.write(bytes) {
            Ok(n) if n > 0 || bytes.is_empty() => self.writer.flush().ok().map(|()| n),
            _ => None,
        }
    }
}

impl<W: Write> Sink for StdSink<W> {
    ghost taken = { λ _. None };

    ghost failures = { λ s. s.failures };

    fn write(&mut self, bytes: &[u8]) -> Result<usize, Failed>
        requires { self.old.failures < 2 ^ 64 - 1 }
        ensures within { IfOk result (λ n. n ≤ length bytes.now) }
        ensures some { IfOk result (λ n. 0 < length bytes.now → 0 < n) }
        ensures count { self.new.failures ≡ failures_after self.old.failures result }
        ensures bytes { IfOk result (λ n. Appends (W.contents self.old.writer) (W.contents self.new.writer) (take n bytes.now)) }
    {
        match self.handed_on(bytes) {
            Some(n) => Ok(n),
            None => {
                self.failures += 1;
                Err(Failed)
            }
        }
    }
}

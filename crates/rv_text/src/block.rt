//! Blocks of output: rows and answers are gathered, and written by few calls.

ghost use Rattle.std.specs.Prelude.{◌≡◌, ◌-◌, ◌^◌, ◌<◌, ◌≤◌, [], length, OnOk};
ghost use Rattle.rv_text.specs.Streams.{failures_after, Writes};
ghost use Rattle.rv_text.specs.Blocks.{Gathers};

use crate::streams::{Failed, Sink, write_all};
use arrayvec::ArrayVec;
use std::marker::Model;

/// How many bytes a block gathers at most before they are written.
pub const BLOCK_SIZE: usize = 4096;

/// Output that was given and is not yet written: at most `BLOCK_SIZE` bytes, on the stack. It is written where the next text
/// does not fit beside it, or by `flush`. It takes no memory. Contracts see the bytes that wait.
#[derive(Drop)]
pub struct OutputBlock {
    bytes: ArrayVec<u8, BLOCK_SIZE>,
}

impl Model for OutputBlock {
    ghost use Rattle.std.specs.Prelude.{ℕ, List, length, ◌≤◌};

    ghost Value = { List ℕ };

    ghost view = { λ b. b.bytes.items };

    ghost invariant = { λ b. length b.bytes.items ≤ 4096 };
}

impl OutputBlock {
    /// A block without a byte.
    pub fn new() -> Self
        ensures { result ≡ [] }
    {
        OutputBlock {
            bytes: ArrayVec::new(),
        }
    }

    /// Writes the bytes, up to the first failure of the writer.
    pub fn flush<W: Sink>(&mut self, sink: &mut W) -> Result<(), Failed>
        requires { W.failures sink.old < 2 ^ 64 - 1 }
        ensures text { Writes (W.taken sink.old) self.old result (W.taken sink.new) }
        ensures empty { OnOk result (self.new ≡ []) }
        ensures count { W.failures sink.new ≡ failures_after (W.failures sink.old) result }
    {
        write_all(sink, self.bytes.as_slice())?;
        self.bytes.clear();
        Ok(())
    }

    /// Adds a text of at most `BLOCK_SIZE` bytes. Where there is no room for it, the bytes before it are written first.
    pub fn push<W: Sink>(&mut self, sink: &mut W, text: &[u8]) -> Result<(), Failed>
        requires text { length text.now ≤ 4096 }
        requires failures { W.failures sink.old < 2 ^ 64 - 1 }
        ensures text { Gathers (W.taken sink.old) self.old text.now result (W.taken sink.new) self.new }
        ensures count { W.failures sink.new ≡ failures_after (W.failures sink.old) result }
    {
        if text.len() > BLOCK_SIZE - self.bytes.len() {
            self.flush(sink)?;
        }
        self.bytes.try_extend_from_slice(text).unwrap();
        Ok(())
    }
}

//! One byte, many times.

ghost use Rattle.std.specs.Prelude.{◌≡◌, ◌-◌, ◌^◌, ◌<◌, length, replicate};
ghost use Rattle.rv_text.specs.Streams.{failures_after, Writes};

use rv_text::{Failed, Sink, write_all};

// As many bytes as one call writes.
const BLOCK: usize = 4096;

// Writes a byte so many times, by blocks of it.
fn write_blocks<W: Sink>(sink: &mut W, block: &[u8], byte: u8, count: u64) -> Result<(), Failed>
    requires some { 0 < length block.now }
    requires block { block.now ≡ replicate (length block.now) byte }
    requires failures { W.failures sink.old < 2 ^ 64 - 1 }
    ensures text { Writes (W.taken sink.old) (replicate count byte) result (W.taken sink.new) }
    ensures count { W.failures sink.new ≡ failures_after (W.failures sink.old) result }
{
    let size = block.len() as u64;
    let mut left = count;
    'writing: while left > size {
        write_all(sink, block)?;
        left -= size;
    }
    let (last, _) = block.split_at(left as usize);
    write_all(sink, last)
}

/// Writes a byte so many times, up to the first failure of the writer.
pub fn write_repeated<W: Sink>(sink: &mut W, byte: u8, count: u64) -> Result<(), Failed>
    requires { W.failures sink.old < 2 ^ 64 - 1 }
    ensures text { Writes (W.taken sink.old) (replicate count byte) result (W.taken sink.new) }
    ensures count { W.failures sink.new ≡ failures_after (W.failures sink.old) result }
{
    let block = [byte; BLOCK];
    write_blocks(sink, &block, byte, count)
}

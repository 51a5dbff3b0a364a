//! Answers with a number.

ghost use Rattle.std.specs.Prelude.{◌≡◌, ◌-◌, ◌^◌, ◌<◌, ◌≤◌, length};
ghost use Rattle.rv_text.specs.Streams.{failures_after};
ghost use Rattle.rv_text.specs.Blocks.{Gathers};
ghost use Rattle.rv_commands.specs.Pages.{numbered};

use itoa::Buffer;
use rv_text::{Failed, OutputBlock, OutputRow, Sink};

/// Adds a word, a number in decimal and a line break.
#[tactic(auto, unfolding(crate::specs::Pages::numbered))]
pub fn push_numbered<W: Sink>(
    block: &mut OutputBlock,
    sink: &mut W,
    word: &[u8],
    n: usize,
) -> Result<(), Failed>
    requires word { length word.now ≤ 40 }
    requires failures { W.failures sink.old < 2 ^ 64 - 1 }
    ensures text { Gathers (W.taken sink.old) block.old (numbered word.now n) result (W.taken sink.new) block.new }
    ensures count { W.failures sink.new ≡ failures_after (W.failures sink.old) result }
{
    let mut row = OutputRow::new();
    row.push_text(word);
    let mut digits = Buffer::new();
    row.push_text(digits.format(n).as_bytes());
    row.push_text(b"\n");
    block.push(sink, row.bytes())
}

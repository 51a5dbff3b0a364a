//! Rows of output text and their parts.

ghost use Rattle.std.specs.Prelude.{◌≡◌, ℕ, ◌-◌, ◌^◌, ◌+◌, ◌<◌, ◌≤◌, List, [], ◌++◌, length, codes, decimal, Option, IfOk};
ghost use Rattle.rv_text.specs.Blocks.{Gathers};
ghost use Rattle.rv_text.specs.Streams.{failures_after, Writes};
ghost use Rattle.rv_list.specs.Rows.{spaces, right, count_row};

use crate::error::ListError;
use itoa::{Buffer, Integer};
use rv_text::{BLOCK_SIZE, Failed, OutputBlock, OutputRow, Sink, write_all};

// As many spaces as the widest column takes.
const SPACES: [u8; 16] = [b' '; 16];

/// Adds spaces to a row.
pub fn push_spaces(row: &mut OutputRow, count: usize)
    requires few { count ≤ 16 }
    requires room { length row.old + count ≤ 64 }
    ensures text { row.new ≡ row.old ++ spaces count }
    ensures length { length row.new ≡ length row.old + count }
{
    let (blank, _) = SPACES.split_at(count);
    row.push_text(blank);
}

/// Adds a number to a row, in decimal.
pub fn push_number<I: Integer>(row: &mut OutputRow, number: I)
    requires { length row.old + I.MAX_STR_LEN ≤ 64 }
    ensures text { row.new ≡ row.old ++ I.text number }
    ensures length { length row.new ≤ length row.old + I.MAX_STR_LEN }
{
    let mut buffer = Buffer::new();
    row.push_text(buffer.format(number).as_bytes());
}

/// Adds a number to a row, in decimal, and a space after it.
pub fn push_field<I: Integer>(row: &mut OutputRow, number: I)
    requires { length row.old + I.MAX_STR_LEN + 1 ≤ 64 }
    ensures text { row.new ≡ row.old ++ (I.text number ++ codes " ") }
    ensures length { length row.new ≤ length row.old + I.MAX_STR_LEN + 1 }
{
    push_number(row, number);
    row.push_text(b" ");
}

/// Adds a number to a row, in decimal at the right end of five columns.
pub fn push_right(row: &mut OutputRow, number: u32)
    requires { length row.old + 10 ≤ 64 }
    ensures text { row.new ≡ row.old ++ right 5 (decimal number) }
    ensures length { length row.new ≤ length row.old + 10 }
{
    let mut buffer = Buffer::new();
    let digits = buffer.format(number).as_bytes();
    push_spaces(row, 5usize.saturating_sub(digits.len()));
    row.push_text(digits);
}

/// Adds the row that says how many rows come after it.
#[tactic(auto, unfolding(crate::specs::Rows::count_row))]
pub fn push_count<W: Sink>(
    block: &mut OutputBlock,
    sink: &mut W,
    name: &[u8],
    count: u32,
) -> Result<(), Failed>
    requires name { length name.now ≤ 10 }
    requires failures { W.failures sink.old < 2 ^ 64 - 1 }
    ensures text { Gathers (W.taken sink.old) block.old (count_row name.now count) result (W.taken sink.new) block.new }
    ensures count { W.failures sink.new ≡ failures_after (W.failures sink.old) result }
{
    let mut row = OutputRow::new();
    row.push_text(name);
    row.push_text(b" ");
    push_number(&mut row, count);
    row.push_text(b"\n");
    block.push(sink, row.bytes())
}

/// Adds a text of any length.
pub fn push_text<W: Sink>(block: &mut OutputBlock, sink: &mut W, text: &[u8]) -> Result<(), Failed>
    requires failures { W.failures sink.old < 2 ^ 64 - 1 }
    ensures text { Gathers (W.taken sink.old) block.old text.now result (W.taken sink.new) block.new }
    ensures count { W.failures sink.new ≡ failures_after (W.failures sink.old) result }
{
    if text.len() <= BLOCK_SIZE {
        return block.push(sink, text);
    }
    block.flush(sink)?;
    write_all(sink, text)
}

/// Ends a text that was gathered in an empty block: writes what waits there, unless a call of the writer failed before.
///
/// # Errors
///
/// `Write` if a call of the writer failed.
pub fn end_text<W: Sink>(
    block: &mut OutputBlock,
    sink: &mut W,
    pushed: Result<(), Failed>,
) -> Result<(), ListError>
    requires { IfOk pushed (λ _. W.failures sink.old < 2 ^ 64 - 1) }
    ensures text { (taken : Option (List ℕ)) (text : List ℕ) → Gathers taken [] text pushed (W.taken sink.old) block.old → Writes taken text result (W.taken sink.new) }
    ensures count { (failures : ℕ) → W.failures sink.old ≡ failures_after failures pushed → W.failures sink.new ≡ failures_after failures result }
{
    pushed?;
    block.flush(sink)?;
    Ok(())
}

/// Adds a row that begins with columns, at most 64 bytes, and ends with a text of any length and a line break.
///
/// # Errors
///
/// `Failed` if a call of the writer failed.
pub fn push_row<W: Sink>(
    block: &mut OutputBlock,
    sink: &mut W,
    columns: &[u8],
    text: &[u8],
) -> Result<(), Failed>
    requires columns { length columns.now ≤ 64 }
    requires failures { W.failures sink.old < 2 ^ 64 - 1 }
    ensures text { Gathers (W.taken sink.old) block.old (columns.now ++ (text.now ++ codes "\n")) result (W.taken sink.new) block.new }
    ensures count { W.failures sink.new ≡ failures_after (W.failures sink.old) result }
{
    block.push(sink, columns)?;
    push_text(block, sink, text)?;
    block.push(sink, b"\n")
}

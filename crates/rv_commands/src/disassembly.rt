//! The disassembly of the sections of code.

ghost use Rattle.std.specs.Prelude.{◌≡◌, ◌+◌, ◌*◌, ◌-◌, ◌^◌, ◌<◌, ◌≤◌, ◌++◌, length, codes, All, IfOk};
ghost use Rattle.std.specs.List.{flat_map};
ghost use Rattle.rv_text.specs.Blocks.{Gathers};
ghost use Rattle.rv_text.specs.Rows.{hex};
ghost use Rattle.rv_text.specs.Streams.{failures_after};
ghost use Rattle.rv_store.specs.Shown.{shown_of};
ghost use Rattle.rv_commands.specs.Disassembly.{disassembly_row, disassembly_text, ShowsSection};

use crate::columns::{push_half, push_word};
use crate::numbered::push_numbered;
use rv_dis::{DisError, DisRow, disassemble};
use rv_layout::section_number;
use rv_list::{View, push_row, section_bytes};
use rv_stmt::Sect;
use rv_store::Store;
use rv_text::{Failed, OutputBlock, OutputRow, Sink};
use std::alloc::Global;

/// The rows that show the bytes of a section.
pub fn section_rows(alloc: Global, store: &Store, section: Sect) -> Result<Vec<DisRow>, DisError>
    ensures { IfOk result (λ rows. ShowsSection (shown_of store.now) section rows.items) }
{
    let number = section_number(section);
    let bytes = section_bytes(alloc, &store, number)?;
    disassemble(alloc, bytes.as_slice(), store.section(number).base)
}

// Adds the number of a row to its columns, with two digits for each byte.
fn push_value(columns: &mut OutputRow, row: &DisRow)
    requires size { row.now.len ≤ 4 }
    requires room { length columns.old + 8 ≤ 64 }
    ensures text { columns.new ≡ columns.old ++ hex (2 * row.now.len) row.now.value }
    ensures length { length columns.new ≤ length columns.old + 8 }
{
    match row.len {
        4 => push_word(columns, row.value),
        2 => push_half(columns, (row.value % 65536) as u16),
        len => columns.push_hex(2 * len, row.value),
    }
}

// Adds a row of these columns and a text. A text that fits behind the columns, as each of an instruction does, goes with
// them in one piece.
fn push_columns_and_text<W: Sink>(
    block: &mut OutputBlock,
    sink: &mut W,
    columns: &mut OutputRow,
    text: &[u8],
) -> Result<(), Failed>
    requires columns { length columns.old ≤ 20 }
    requires failures { W.failures sink.old < 2 ^ 64 - 1 }
    ensures text { Gathers (W.taken sink.old) block.old (columns.old ++ (text.now ++ codes "\n")) result (W.taken sink.new) block.new }
    ensures count { W.failures sink.new ≡ failures_after (W.failures sink.old) result }
{
    if text.len() > 40 {
        return push_row(block, sink, columns.bytes(), text);
    }
    columns.push_text(text);
    columns.push_text(b"\n");
    block.push(sink, columns.bytes())
}

// Adds a row.
#[tactic(auto, unfolding(crate::specs::Disassembly::disassembly_row))]
fn push_code_row<W: Sink>(block: &mut OutputBlock, sink: &mut W, row: &DisRow) -> Result<(), Failed>
    requires size { row.now.len ≤ 4 }
    requires failures { W.failures sink.old < 2 ^ 64 - 1 }
    ensures text { Gathers (W.taken sink.old) block.old (disassembly_row row.now) result (W.taken sink.new) block.new }
    ensures count { W.failures sink.new ≡ failures_after (W.failures sink.old) result }
{
    let mut columns = OutputRow::new();
    push_word(&mut columns, row.address);
    columns.push_text(b" ");
    push_value(&mut columns, row);
    columns.push_text(b" ");
    push_columns_and_text(block, sink, &mut columns, row.text.as_str().as_bytes())
}

// Adds the rows.
fn push_code_rows<W: Sink>(
    block: &mut OutputBlock,
    sink: &mut W,
    rows: &[DisRow],
) -> Result<(), Failed>
    requires sizes { All (λ row. row.len ≤ 4) rows.now }
    requires failures { W.failures sink.old < 2 ^ 64 - 1 }
    ensures text { Gathers (W.taken sink.old) block.old (flat_map disassembly_row rows.now) result (W.taken sink.new) block.new }
    ensures count { W.failures sink.new ≡ failures_after (W.failures sink.old) result }
{
    for row in rows {
        push_code_row(block, sink, row)?;
    }
    Ok(())
}

// Adds the rows of two stretches.
fn push_both<W: Sink>(
    block: &mut OutputBlock,
    sink: &mut W,
    first: &[DisRow],
    next: &[DisRow],
) -> Result<(), Failed>
    requires first_sizes { All (λ row. row.len ≤ 4) first.now }
    requires next_sizes { All (λ row. row.len ≤ 4) next.now }
    requires failures { W.failures sink.old < 2 ^ 64 - 1 }
    ensures text { Gathers (W.taken sink.old) block.old (flat_map disassembly_row (first.now ++ next.now)) result (W.taken sink.new) block.new }
    ensures count { W.failures sink.new ≡ failures_after (W.failures sink.old) result }
{
    push_code_rows(block, sink, first)?;
    push_code_rows(block, sink, next)
}

/// Adds how many rows two stretches have, and then the rows.
#[tactic(auto, unfolding(crate::specs::Disassembly::disassembly_text))]
pub fn push_disassembly<W: Sink>(
    block: &mut OutputBlock,
    sink: &mut W,
    first: &[DisRow],
    next: &[DisRow],
) -> Result<(), Failed>
    requires first_sizes { All (λ row. row.len ≤ 4) first.now }
    requires next_sizes { All (λ row. row.len ≤ 4) next.now }
    requires failures { W.failures sink.old < 2 ^ 64 - 1 }
    ensures text { Gathers (W.taken sink.old) block.old (disassembly_text (first.now ++ next.now)) result (W.taken sink.new) block.new }
    ensures count { W.failures sink.new ≡ failures_after (W.failures sink.old) result }
{
    push_numbered(block, sink, b"dis ", first.len() + next.len())?;
    push_both(block, sink, first, next)
}

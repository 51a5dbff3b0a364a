//! The listing of a text.

ghost use Rattle.std.specs.Prelude.{◌≡◌, ◌-◌, ◌^◌, ◌+◌, ◌<◌, ◌≤◌, ◌++◌, ◌*◌, length, take};
ghost use Rattle.std.specs.List.{concat, flat_map};
ghost use Rattle.rv_text.specs.Rows.{hex};
ghost use Rattle.rv_text.specs.Blocks.{Gathers};
ghost use Rattle.rv_text.specs.Streams.{failures_after, Writes};
ghost use Rattle.rv_list.specs.Listing.{listed_bytes, first_bytes, listing_columns, listing_row, listing_rows, listing_text};
ghost use Rattle.rv_list.specs.Shown.{shown_line};

use crate::error::ListError;
use crate::rows::{end_text, push_count, push_right, push_row, push_spaces};
use crate::view::{LineSource, LineView, View, shows_bytes};
use arrayvec::ArrayVec;
use rv_fix::Payload;
use rv_layout::section_number;
use rv_text::{Failed, OutputBlock, OutputRow, Sink};

// How many bytes of a line are shown.
const SHOWN_BYTES: usize = 8;

// The first bytes of a payload.
fn first_of(payload: &Payload) -> ArrayVec<u8, SHOWN_BYTES>
    ensures { result.items ≡ take 8 payload.now }
{
    let mut bytes = ArrayVec::new();
    'taking: while !bytes.is_full() {
        let Some(byte) = payload.byte(bytes.len()) else {
            return bytes;
        };
        bytes.push(byte);
    }
    bytes
}

// Adds bytes to a row, two digits for each.
fn push_bytes(row: &mut OutputRow, bytes: &[u8])
    requires few { length bytes.now ≤ 8 }
    requires room { length row.old + 16 ≤ 64 }
    ensures text { row.new ≡ row.old ++ flat_map (hex 2) bytes.now }
    ensures length { length row.new ≡ length row.old + 2 * length bytes.now }
{
    for byte in bytes {
        row.push_hex(2, u32::from(*byte));
    }
}

// Adds the first bytes of a payload in their columns, and a sign where there are more.
#[tactic(auto, unfolding(crate::specs::Listing::first_bytes))]
fn push_first_bytes(row: &mut OutputRow, payload: &Payload)
    requires { length row.old + 17 ≤ 64 }
    ensures text { row.new ≡ row.old ++ first_bytes payload.now }
    ensures length { length row.new ≡ length row.old + 17 }
{
    let bytes = first_of(payload);
    push_bytes(row, bytes.as_slice());
    push_spaces(row, 2 * (SHOWN_BYTES - bytes.len()));
    if payload.len() > SHOWN_BYTES {
        row.push_text(b"+");
    } else {
        row.push_text(b" ");
    }
}

// Adds the bytes of a line in their columns, if they are shown.
#[tactic(auto, unfolding(crate::specs::Listing::first_bytes))]
fn push_listed_bytes(row: &mut OutputRow, line: &LineView<'_>)
    requires { length row.old + 17 ≤ 64 }
    ensures text { row.new ≡ row.old ++ first_bytes (listed_bytes (shown_line line.now)) }
    ensures length { length row.new ≡ length row.old + 17 }
{
    if shows_bytes(section_number(line.place.section)) {
        push_first_bytes(row, &line.code.payload);
    } else {
        push_spaces(row, 16);
        row.push_text(b" ");
    }
}

// The columns before a line.
#[tactic(auto, unfolding(crate::specs::Listing::listing_columns))]
fn listing_columns(number: u32, line: &LineView<'_>) -> OutputRow
    ensures text { result ≡ listing_columns number (shown_line line.now) }
    ensures short { length result ≤ 64 }
{
    let mut row = OutputRow::new();
    push_right(&mut row, number);
    row.push_text(b" ");
    row.push_hex(8, line.place.address);
    row.push_text(b" ");
    push_listed_bytes(&mut row, line);
    row.push_text(b" ");
    row
}

// Adds the row of a line.
#[tactic(auto, unfolding(crate::specs::Listing::listing_row))]
fn push_listing_row<W: Sink>(
    block: &mut OutputBlock,
    sink: &mut W,
    number: u32,
    line: &LineView<'_>,
) -> Result<(), Failed>
    requires { W.failures sink.old < 2 ^ 64 - 1 }
    ensures text { Gathers (W.taken sink.old) block.old (listing_row number (shown_line line.now)) result (W.taken sink.new) block.new }
    ensures count { W.failures sink.new ≡ failures_after (W.failures sink.old) result }
{
    let columns = listing_columns(number, line);
    push_row(block, sink, columns.bytes(), line.text)
}

// Adds the rows of all lines.
fn push_listing_rows<V: View, W: Sink>(
    block: &mut OutputBlock,
    sink: &mut W,
    view: &V,
) -> Result<(), Failed>
    requires { W.failures sink.old < 2 ^ 64 - 1 }
    ensures text { Gathers (W.taken sink.old) block.old (concat (listing_rows (V.shown view.now))) result (W.taken sink.new) block.new }
    ensures count { W.failures sink.new ≡ failures_after (W.failures sink.old) result }
{
    let mut lines = view.lines();
    for k in 0..view.line_count() {
        lines.advance();
        push_listing_row(block, sink, k + 1, &lines.line())?;
    }
    Ok(())
}

// Adds the whole listing.
#[tactic(auto, unfolding(crate::specs::Listing::listing_text))]
fn push_listing<V: View, W: Sink>(
    block: &mut OutputBlock,
    sink: &mut W,
    view: &V,
) -> Result<(), Failed>
    requires { W.failures sink.old < 2 ^ 64 - 1 }
    ensures text { Gathers (W.taken sink.old) block.old (listing_text (V.shown view.now)) result (W.taken sink.new) block.new }
    ensures count { W.failures sink.new ≡ failures_after (W.failures sink.old) result }
{
    push_count(block, sink, b"listing", view.line_count())?;
    push_listing_rows(block, sink, view)
}

/// Writes the listing of a text, up to the first failure of the writer: how many lines there are, and for each its number, its
/// address, its first eight bytes with a sign where there are more, and the line itself. Takes no memory.
///
/// # Errors
///
/// `Write` if a call of the writer failed.
pub fn write_listing<V: View, W: Sink>(view: &V, sink: &mut W) -> Result<(), ListError>
    requires { W.failures sink.old < 2 ^ 64 - 1 }
    ensures text { Writes (W.taken sink.old) (listing_text (V.shown view.now)) result (W.taken sink.new) }
    ensures count { W.failures sink.new ≡ failures_after (W.failures sink.old) result }
{
    let mut block = OutputBlock::new();
    let pushed = push_listing(&mut block, sink, view);
    end_text(&mut block, sink, pushed)
}

//! Segments as Intel HEX.

ghost use Rattle.std.specs.Prelude.{◌≡◌, ◌+◌, ◌-◌, ◌*◌, ◌%◌, ◌/◌, ◌^◌, ◌<◌, ◌≤◌, ◌++◌, ◌∷◌, [], length, IfOk};
ghost use Rattle.std.specs.List.{flat_map};
ghost use Rattle.rv_text.specs.Blocks.{Gathers};
ghost use Rattle.rv_text.specs.Streams.{failures_after, Writes};
ghost use Rattle.rv_show.specs.Digits.{upper_hex};
ghost use Rattle.rv_files.specs.Hex.{checksum, row_text, record_text, upper_of, upper_records, data_records, hex_records, hex_text, stretches_of, upper_after, start_record, end_record};

use crate::segment::Segment;
use arrayvec::ArrayVec;
use rv_show::upper_digit;
use rv_text::{Failed, OutputBlock, OutputRow, Sink};

// The most bytes of a row: four, sixteen of data and the checksum.
const MAX_ROW: usize = 21;

// The types of records.
const DATA: u8 = 0;

const END: u8 = 1;

const UPPER_ADDRESS: u8 = 4;

const START: u8 = 5;

// The byte that makes the sum of all bytes a multiple of 256.
fn checksum(bytes: &[u8]) -> u8
    ensures { result ≡ checksum bytes.now }
{
    let mut sum = 0u8;
    for byte in bytes {
        sum = sum.wrapping_add(*byte);
    }
    0u8.wrapping_sub(sum)
}

// Adds the row of some bytes.
fn push_bytes<W: Sink>(block: &mut OutputBlock, sink: &mut W, bytes: &[u8]) -> Result<(), Failed>
    requires bytes { length bytes.now ≤ 21 }
    requires failures { W.failures sink.old < 2 ^ 64 - 1 }
    ensures text { Gathers (W.taken sink.old) block.old (row_text bytes.now) result (W.taken sink.new) block.new }
    ensures count { W.failures sink.new ≡ failures_after (W.failures sink.old) result }
{
    let mut row = OutputRow::new();
    row.push_text(b":");
    for byte in bytes {
        row.push_text(&[upper_digit(*byte / 16), upper_digit(*byte % 16)]);
    }
    row.push_text(b"\n");
    block.push(sink, row.bytes())
}

// Adds the row of a record.
fn push_record<W: Sink>(
    block: &mut OutputBlock,
    sink: &mut W,
    kind: u8,
    offset: u16,
    content: &[u8],
) -> Result<(), Failed>
    requires content { length content.now ≤ 16 }
    requires failures { W.failures sink.old < 2 ^ 64 - 1 }
    ensures text { Gathers (W.taken sink.old) block.old (record_text (record { kind = kind; offset = offset; content = content.now })) result (W.taken sink.new) block.new }
    ensures count { W.failures sink.new ≡ failures_after (W.failures sink.old) result }
{
    let mut bytes = ArrayVec::<u8, MAX_ROW>::new();
    let head = [
        content.len() as u8,
        (offset / 256) as u8,
        (offset % 256) as u8,
        kind,
    ];
    bytes.try_extend_from_slice(&head).unwrap();
    bytes.try_extend_from_slice(content).unwrap();
    bytes.push(checksum(bytes.as_slice()));
    push_bytes(block, sink, bytes.as_slice())
}

// Adds the record of the upper 16 bits of the addresses, where they change.
fn push_upper<W: Sink>(
    block: &mut OutputBlock,
    sink: &mut W,
    before: u16,
    after: u16,
) -> Result<(), Failed>
    requires { W.failures sink.old < 2 ^ 64 - 1 }
    ensures text { Gathers (W.taken sink.old) block.old (flat_map record_text (upper_records before after)) result (W.taken sink.new) block.new }
    ensures count { W.failures sink.new ≡ failures_after (W.failures sink.old) result }
{
    if before == after {
        return Ok(());
    }
    let content = [(after / 256) as u8, (after % 256) as u8];
    push_record(block, sink, UPPER_ADDRESS, 0, &content)
}

// Adds the records of up to sixteen bytes at an address, after records whose addresses had these upper 16 bits.
fn push_stretch<W: Sink>(
    block: &mut OutputBlock,
    sink: &mut W,
    upper: u16,
    address: u32,
    bytes: &[u8],
) -> Result<(), Failed>
    requires bytes { length bytes.now ≤ 16 }
    requires failures { W.failures sink.old < 2 ^ 64 - 1 }
    ensures text { Gathers (W.taken sink.old) block.old (flat_map record_text (data_records upper (record { address = address; bytes = bytes.now } ∷ []))) result (W.taken sink.new) block.new }
    ensures count { W.failures sink.new ≡ failures_after (W.failures sink.old) result }
{
    push_upper(block, sink, upper, (address >> 16) as u16)?;
    push_record(block, sink, DATA, (address % 65536) as u16, bytes)
}

// Adds the records of a segment, after records whose addresses had these upper 16 bits, and says what these are now.
fn push_segment<W: Sink>(
    block: &mut OutputBlock,
    sink: &mut W,
    before: u16,
    segment: &Segment,
) -> Result<u16, Failed>
    requires { W.failures sink.old < 2 ^ 64 - 1 }
    ensures text { Gathers (W.taken sink.old) block.old (flat_map record_text (data_records before (stretches_of segment.now))) result (W.taken sink.new) block.new }
    ensures upper { IfOk result (λ upper. upper ≡ upper_after before (stretches_of segment.now)) }
    ensures count { W.failures sink.new ≡ failures_after (W.failures sink.old) result }
{
    let mut upper = before;
    let mut address = segment.address();
    let bytes = segment.bytes();
    let mut left = bytes.left();
    let mut rows = (bytes.len() + 15) / 16;
    'stretches: while rows > 0 {
        let stretch = left.next_row();
        push_stretch(block, sink, upper, address, stretch.as_slice())?;
        upper = (address >> 16) as u16;
        address = address.wrapping_add(16);
        rows -= 1;
    }
    Ok(upper)
}

// Adds the records of all segments.
fn push_segments<W: Sink>(
    block: &mut OutputBlock,
    sink: &mut W,
    mut segments: &[Segment],
) -> Result<(), Failed>
    requires { W.failures sink.old < 2 ^ 64 - 1 }
    ensures text { Gathers (W.taken sink.old) block.old (flat_map record_text (data_records 0 (flat_map stretches_of segments.entry.now))) result (W.taken sink.new) block.new }
    ensures count { W.failures sink.new ≡ failures_after (W.failures sink.old) result }
{
    let mut upper = 0;
    'segments: while let [segment, later @ ..] = segments {
        upper = push_segment(block, sink, upper, segment)?;
        segments = later;
    }
    Ok(())
}

// Adds the address at which the program starts, and the end.
fn push_end<W: Sink>(block: &mut OutputBlock, sink: &mut W, entry: u32) -> Result<(), Failed>
    requires { W.failures sink.old < 2 ^ 64 - 1 }
    ensures text { Gathers (W.taken sink.old) block.old (flat_map record_text (start_record entry ∷ end_record ∷ [])) result (W.taken sink.new) block.new }
    ensures count { W.failures sink.new ≡ failures_after (W.failures sink.old) result }
{
    let start = [
        (entry / 0x100_0000) as u8,
        (entry / 0x1_0000 % 256) as u8,
        (entry / 256 % 256) as u8,
        (entry % 256) as u8,
    ];
    push_record(block, sink, START, 0, &start)?;
    push_record(block, sink, END, 0, b"")
}

// Adds the whole text.
fn push_hex<W: Sink>(
    block: &mut OutputBlock,
    sink: &mut W,
    segments: &[Segment],
    entry: u32,
) -> Result<(), Failed>
    requires { W.failures sink.old < 2 ^ 64 - 1 }
    ensures text { Gathers (W.taken sink.old) block.old (hex_text segments.now entry) result (W.taken sink.new) block.new }
    ensures count { W.failures sink.new ≡ failures_after (W.failures sink.old) result }
{
    push_segments(block, sink, segments)?;
    push_end(block, sink, entry)
}

/// Writes segments as Intel HEX, up to the first failure of the writer: for each segment rows of sixteen bytes, before them a row
/// with the upper 16 bits of their addresses where these change, and at last the address at which the program starts and
/// the end. Takes no memory.
///
/// # Errors
///
/// `Failed` if a call of the writer failed.
pub fn write_hex<W: Sink>(segments: &[Segment], entry: u32, sink: &mut W) -> Result<(), Failed>
    requires { W.failures sink.old < 2 ^ 64 - 1 }
    ensures text { Writes (W.taken sink.old) (hex_text segments.now entry) result (W.taken sink.new) }
    ensures count { W.failures sink.new ≡ failures_after (W.failures sink.old) result }
{
    let mut block = OutputBlock::new();
    push_hex(&mut block, sink, segments, entry)?;
    block.flush(sink)
}

//! The image of a text.

ghost use Rattle.std.specs.Prelude.{◌≡◌, ◌-◌, ◌+◌, ◌^◌, ◌<◌, ◌≤◌, length};
ghost use Rattle.rv_text.specs.Blocks.{Gathers};
ghost use Rattle.rv_text.specs.Streams.{failures_after, Writes};
ghost use Rattle.rv_layout.specs.Sections.{sections};
ghost use Rattle.rv_list.specs.Image.{byte_row, byte_rows, section_row, section_name, section_text, image_text};

use crate::bytes_left::SectionBytes;
use crate::error::ListError;
use crate::rows::{end_text, push_number};
use crate::view::{SectionPlace, View, shows_bytes};
use rv_layout::SECTIONS;
use rv_text::{Failed, OutputBlock, OutputRow, Sink};

// The names of the sections, in the order of their numbers.
const SECTION_NAMES: [&str; SECTIONS] = [
    ".text.init",
    ".text",
    ".rodata",
    ".data",
    ".sdata",
    ".bss",
];

// The name of a section.
#[tactic(auto, unfolding(crate::specs::Image::section_names, crate::specs::Image::section_name))]
fn section_name(section: usize) -> &'static str
    requires { section < sections }
    ensures name { result.now ≡ section_name section }
    ensures short { length result.now ≤ 10 }
{
    SECTION_NAMES[section]
}

// Adds a row of up to sixteen bytes.
fn push_byte_row<W: Sink>(
    block: &mut OutputBlock,
    sink: &mut W,
    address: u32,
    bytes: &[u8],
) -> Result<(), Failed>
    requires bytes { length bytes.now ≤ 16 }
    requires failures { W.failures sink.old < 2 ^ 64 - 1 }
    ensures text { Gathers (W.taken sink.old) block.old (byte_row address bytes.now) result (W.taken sink.new) block.new }
    ensures count { W.failures sink.new ≡ failures_after (W.failures sink.old) result }
{
    let mut row = OutputRow::new();
    row.push_hex(8, address);
    row.push_text(b":");
    for byte in bytes {
        row.push_text(b" ");
        row.push_hex(2, u32::from(*byte));
    }
    row.push_text(b"\n");
    block.push(sink, row.bytes())
}

// Adds the rows of the bytes, from the address `start` on. After the last address the first one comes again.
fn push_byte_rows<V: View, W: Sink>(
    block: &mut OutputBlock,
    sink: &mut W,
    start: u32,
    mut bytes: SectionBytes<V>,
) -> Result<(), Failed>
    requires { W.failures sink.old < 2 ^ 64 - 1 }
    ensures text { Gathers (W.taken sink.old) block.old (byte_rows start bytes) result (W.taken sink.new) block.new }
    ensures count { W.failures sink.new ≡ failures_after (W.failures sink.old) result }
{
    let mut address = start;
    let mut row = bytes.next_row();
    'rows: while !row.is_empty() {
        push_byte_row(block, sink, address, row.as_slice())?;
        address = address.wrapping_add(16);
        row = bytes.next_row();
    }
    Ok(())
}

// Adds the row of a section.
#[tactic(auto, unfolding(crate::specs::Image::section_row))]
fn push_section_row<W: Sink>(
    block: &mut OutputBlock,
    sink: &mut W,
    name: &[u8],
    place: SectionPlace,
) -> Result<(), Failed>
    requires name { length name.now ≤ 10 }
    requires failures { W.failures sink.old < 2 ^ 64 - 1 }
    ensures text { Gathers (W.taken sink.old) block.old (section_row name.now place) result (W.taken sink.new) block.new }
    ensures count { W.failures sink.new ≡ failures_after (W.failures sink.old) result }
{
    let mut row = OutputRow::new();
    row.push_text(name);
    row.push_text(b" 0x");
    row.push_hex(8, place.base);
    row.push_text(b" ");
    push_number(&mut row, place.size);
    row.push_text(b"\n");
    block.push(sink, row.bytes())
}

// Adds a section: its row, and the rows of its bytes where they are shown.
#[tactic(auto, unfolding(crate::specs::Image::section_text))]
fn push_section<V: View, W: Sink>(
    block: &mut OutputBlock,
    sink: &mut W,
    view: &V,
    section: usize,
) -> Result<(), Failed>
    requires section { section < sections }
    requires failures { W.failures sink.old < 2 ^ 64 - 1 }
    ensures text { Gathers (W.taken sink.old) block.old (section_text (V.shown view.now) section) result (W.taken sink.new) block.new }
    ensures count { W.failures sink.new ≡ failures_after (W.failures sink.old) result }
{
    let place = view.section(section);
    push_section_row(block, sink, section_name(section).as_bytes(), place)?;
    if shows_bytes(section) {
        push_byte_rows(block, sink, place.base, SectionBytes::new(view, section))
    } else {
        Ok(())
    }
}

// Adds all sections.
#[tactic(auto, unfolding(crate::specs::Image::image_text))]
fn push_image<V: View, W: Sink>(
    block: &mut OutputBlock,
    sink: &mut W,
    view: &V,
) -> Result<(), Failed>
    requires { W.failures sink.old < 2 ^ 64 - 1 }
    ensures text { Gathers (W.taken sink.old) block.old (image_text (V.shown view.now)) result (W.taken sink.new) block.new }
    ensures count { W.failures sink.new ≡ failures_after (W.failures sink.old) result }
{
    for section in 0..SECTIONS {
        push_section(block, sink, view, section)?;
    }
    Ok(())
}

/// Writes the image of a text, up to the first failure of the writer: for each section its name, its base and its size, and then
/// its bytes, sixteen to a row. Those of `.bss` are not shown. Takes no memory.
///
/// # Errors
///
/// `Write` if a call of the writer failed.
pub fn write_image<V: View, W: Sink>(view: &V, sink: &mut W) -> Result<(), ListError>
    requires { W.failures sink.old < 2 ^ 64 - 1 }
    ensures text { Writes (W.taken sink.old) (image_text (V.shown view.now)) result (W.taken sink.new) }
    ensures count { W.failures sink.new ≡ failures_after (W.failures sink.old) result }
{
    let mut block = OutputBlock::new();
    let pushed = push_image(&mut block, sink, view);
    end_text(&mut block, sink, pushed)
}

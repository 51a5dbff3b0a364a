//! What is shown of a line: its address and bytes, the instructions that it stands for, and what a name or a word in it means.

ghost use Rattle.std.specs.Prelude.{◌≤◌, length};

use crate::encoding::{instruction_rows, is_in_image, push_fields};
use crate::explained::{entry_at, push_entry};
use crate::named::name_at;
use crate::names::text_of;
use crate::symbol_text::push_meaning;
use rv_diagnostics::{Context, Message, Part};
use rv_doc::before_column;
use rv_fix::Payload;
use rv_list::{LineView, View};
use rv_show::Text;
use rv_text::OutputRow;
use std::alloc::{AllocError, Global};

// How many bytes of a line are shown beside it, and how many where the line is asked about.
const HINT_BYTES: usize = 8;

const HOVER_BYTES: usize = 32;

// Appends a space and the two digits of a byte.
fn push_byte(text: &mut Text, byte: u8) -> Result<(), AllocError> {
    let mut row = OutputRow::new();
    row.push_text(b" ");
    row.push_hex(2, u32::from(byte));
    text.push(row.bytes())
}

// Appends the first bytes of a line, and a sign where there are more.
fn push_bytes(text: &mut Text, payload: &Payload, most: usize) -> Result<(), AllocError> {
    for place in 0..most {
        let Some(byte) = payload.byte(place) else {
            return Ok(());
        };
        push_byte(text, byte)?;
    }
    if payload.len() > most {
        text.push(b" ...")?;
    }
    Ok(())
}

// Appends the address and the first bytes of a line. One in `.bss` has none.
fn push_place(text: &mut Text, line: &LineView<'_>, most: usize) -> Result<(), AllocError> {
    text.push_word(line.place.address)?;
    if is_in_image(line) {
        push_bytes(text, &line.code.payload, most)
    } else {
        Ok(())
    }
}

// Appends the instructions that a line stands for, each with its fields.
fn push_instructions(
    text: &mut Text,
    alloc: Global,
    line: &LineView<'_>,
) -> Result<(), AllocError> {
    let rows = instruction_rows(alloc, line)?;
    for row in rows.as_slice() {
        text.push(b"\n")?;
        text.push_word(row.address)?;
        text.push(b"  ")?;
        text.push(row.text.as_str().as_bytes())?;
        push_fields(text, alloc, row)?;
    }
    Ok(())
}

/// The address and the first bytes of a line.
///
/// # Errors
///
/// `AllocError` if there is no memory for the text.
pub fn hint_text(alloc: Global, line: &LineView<'_>) -> Result<String, AllocError> {
    let mut text = Text::new(alloc);
    push_place(&mut text, line, HINT_BYTES)?;
    String::from_utf8_lossy(alloc, text.bytes())
}

// Appends what is said of a line: its address, its bytes, how many they are, and, unless it has a fault, the instructions
// with their fields.
fn push_line(text: &mut Text, alloc: Global, line: &LineView<'_>) -> Result<(), AllocError> {
    push_place(text, line, HOVER_BYTES)?;
    text.push(b" (")?;
    text.push_number(line.place.size)?;
    let unit = if line.place.size == 1 {
        b" byte)".as_slice()
    } else {
        b" bytes)".as_slice()
    };
    text.push(unit)?;
    push_instructions(text, alloc, line)
}

// Appends what is said of the word at a column of a line: what the name there stands for, if one is there that is defined, or what the manual says of the
// name of an instruction or a directive, or of a register.
fn push_word<V: View>(
    text: &mut Text,
    context: &Context<'_>,
    view: &V,
    number: u32,
    line: &LineView<'_>,
    column: u32,
) -> Result<(), AllocError>
    requires { length line.now.stmt.now.labels ≤ 1000 }
{
    let alloc = context.alloc;
    if let Some(name) = name_at(alloc, context.encoding, view, number, line, column)? {
        return push_meaning(text, view, &name.meaning);
    }
    let at = before_column(context.encoding, text_of(line), column);
    match entry_at(alloc, view, line, at)? {
        Some(entry) => push_entry(text, &entry),
        None => Ok(()),
    }
}

// Appends what is said at a column of a line: of the word there, and of the line, if it has bytes.
fn push_said<V: View>(
    text: &mut Text,
    context: &Context<'_>,
    view: &V,
    number: u32,
    line: &LineView<'_>,
    column: u32,
) -> Result<(), AllocError>
    requires { length line.now.stmt.now.labels ≤ 1000 }
{
    push_word(text, context, view, number, line, column)?;
    if line.place.size == 0 {
        return Ok(());
    }
    if !text.bytes().is_empty() {
        text.push(b"\n")?;
    }
    push_line(text, context.alloc, line)
}

/// Writes what is said at a column of a line, by its number from 1 on, or null.
///
/// # Errors
///
/// `AllocError` if there is no memory for it.
pub fn put_hover<V: View>(
    m: &mut Message,
    context: &Context<'_>,
    view: &V,
    number: u32,
    line: &LineView<'_>,
    column: u32,
) -> Result<(), AllocError>
    requires { length line.now.stmt.now.labels ≤ 1000 }
{
    let mut text = Text::new(context.alloc);
    push_said(&mut text, context, view, number, line, column)?;
    if text.bytes().is_empty() {
        return m.null();
    }
    let said = String::from_utf8_lossy(context.alloc, text.bytes())?;
    m.put_all(&[
        Part::BeginObject,
        Part::Key("contents"),
        Part::BeginObject,
        Part::Key("kind"),
        Part::Text("plaintext"),
        Part::Key("value"),
        Part::Text(said.as_str()),
        Part::EndObject,
        Part::EndObject,
    ])
}

//! The fields of the instructions that a line stands for.

ghost use Rattle.std.specs.Prelude.{◌≡◌, IfOk};
ghost use Rattle.rv_dis.specs.Assembling.{GiveBytes};
ghost use Rattle.rv_dis.specs.Rows.{Shows};
ghost use Rattle.rv_list.specs.Shown.{shown_line};
ghost use Rattle.rv_language.specs.Encodings.{instruction_bytes, is_in_image, is_instruction};

use rv_code::Ins;
use rv_diagnostics::{Message, Part};
use rv_dis::{DisRow, disassemble};
use rv_layout::section_number;
use rv_list::LineView;
use rv_manual::{EncodedField, encoded_fields, instruction_of};
use rv_show::Text;
use rv_stmt::{Body, Sect};
use std::alloc::{AllocError, Global};
use std::fmt::Display;

/// Whether a line has bytes in the image: those of `.bss` have none.
pub fn is_in_image(line: &LineView<'_>) -> bool
    ensures { result ≡ is_in_image (shown_line line.now) }
{
    section_number(line.place.section) != section_number(Sect::Bss)
}

// Whether a line stands for instructions.
fn is_instruction(body: &Body) -> bool
    ensures { result ≡ is_instruction body.now }
{
    matches!(body, Body::Instr(_) | Body::Pseudo(_))
}

// The bytes of the instructions that a line stands for.
fn instruction_bytes(alloc: Global, line: &LineView<'_>) -> Result<Vec<u8>, AllocError>
    ensures { IfOk result (λ bytes. bytes.items ≡ instruction_bytes (shown_line line.now)) }
{
    let mut bytes = Vec::new(alloc);
    if is_instruction(&line.stmt.body) && line.code.fault.is_none() && is_in_image(line) {
        line.code.payload.append_to(&mut bytes)?;
    }
    Ok(bytes)
}

/// The rows of the instructions that a line stands for: none if it stands for none, has a fault, or has no bytes in the image.
///
/// # Errors
///
/// `AllocError` if there is no memory for them.
pub fn instruction_rows(alloc: Global, line: &LineView<'_>) -> Result<Vec<DisRow>, AllocError>
    ensures rows { IfOk result (λ rows. Shows line.now.place.address (instruction_bytes (shown_line line.now)) rows.items) }
    ensures bytes { IfOk result (λ rows. GiveBytes rows.items (instruction_bytes (shown_line line.now))) }
{
    let bytes = instruction_bytes(alloc, line)?;
    let Ok(rows) = disassemble(alloc, bytes.as_slice(), line.place.address) else {
        return Err(AllocError);
    };
    Ok(rows)
}

/// Appends the fields of the instruction of a row, each on a line.
///
/// # Errors
///
/// `AllocError` if there is no memory for them.
pub fn push_fields(text: &mut Text, alloc: Global, row: &DisRow) -> Result<(), AllocError> {
    let Some(ins) = instruction_of(row.value, row.len) else {
        return Ok(());
    };
    for field in encoded_fields(&ins).as_slice() {
        let said = format!(in alloc; "\n  {}", field.row(&ins))?;
        text.push(said.as_bytes())?;
    }
    Ok(())
}

// Writes what is shown of a field, under a key.
fn put_shown<D: Display + Copy>(
    m: &mut Message,
    alloc: Global,
    key: &'static str,
    shown: D,
) -> Result<(), AllocError> {
    let text = format!(in alloc; "{shown}")?;
    m.put_string(key, text.as_str())
}

// Writes a field of an instruction.
fn put_field(
    m: &mut Message,
    alloc: Global,
    ins: &Ins,
    field: &EncodedField,
) -> Result<(), AllocError> {
    m.put_all(&[
        Part::BeginObject,
        Part::Key("highest"),
        Part::Number(u64::from(field.highest())),
        Part::Key("lowest"),
        Part::Number(u64::from(field.lowest())),
    ])?;
    put_shown(m, alloc, "name", field.label())?;
    put_shown(m, alloc, "bits", field.digits())?;
    put_shown(m, alloc, "meaning", field.meaning(ins))?;
    m.end_object()
}

// Writes the fields of an instruction, from the highest bit on.
fn put_fields(m: &mut Message, alloc: Global, ins: &Ins) -> Result<(), AllocError> {
    for field in encoded_fields(ins).as_slice() {
        put_field(m, alloc, ins, field)?;
    }
    Ok(())
}

// Writes an instruction of a line: where it lies, its text and its fields.
fn put_instruction(m: &mut Message, alloc: Global, row: &DisRow) -> Result<(), AllocError> {
    let Some(ins) = instruction_of(row.value, row.len) else {
        return Ok(());
    };
    m.put_all(&[
        Part::BeginObject,
        Part::Key("address"),
        Part::Number(u64::from(row.address)),
        Part::Key("size"),
        Part::Number(u64::from(row.len)),
        Part::Key("text"),
        Part::Text(row.text.as_str()),
        Part::Key("fields"),
        Part::BeginArray,
    ])?;
    put_fields(m, alloc, &ins)?;
    m.put_all(&[Part::EndArray, Part::EndObject])
}

/// Writes the instructions that a line stands for, each with its fields.
///
/// # Errors
///
/// `AllocError` if there is no memory for them.
pub fn put_encoding(m: &mut Message, alloc: Global, line: &LineView<'_>) -> Result<(), AllocError> {
    m.begin_array()?;
    let rows = instruction_rows(alloc, line)?;
    for row in rows.as_slice() {
        put_instruction(m, alloc, row)?;
    }
    m.end_array()
}

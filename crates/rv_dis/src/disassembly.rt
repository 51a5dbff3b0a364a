//! The rows of stretches of bytes.

ghost use Rattle.std.specs.Prelude.{◌≡◌, [], ◌≤◌, ◌++◌, IfOk, IfSome, IfNone, length};
ghost use Rattle.rv_ops.specs.declared.op.Op.{Op};
ghost use Rattle.rv_code.specs.declared.instruction.Fields.{Fields};
ghost use Rattle.rv_code.specs.Encoding.{word_of};
ghost use Rattle.rv_dis.specs.Assembling.{GiveBytes};
ghost use Rattle.rv_dis.specs.Rows.{Begins, IsFirst, Shows, byte_row, half_row, instruction_row};
ghost use Rattle.rv_dis.specs.Text.{hexadecimal_of};

use crate::error::DisError;
use crate::laws::rows_give_the_bytes;
use crate::numbers::push_hexadecimal_of;
use crate::row::{DisRow, RowText};
use crate::text::write_instruction;
use rv_code::{Ins, Word, decode16, decode32};
use std::alloc::Global;

// The instruction whose word stands first, if there is one, and its word.
fn instruction_at(bytes: &[u8]) -> Option<(Ins, Word)>
    ensures found { IfSome result (λ found. Begins found.0.0 found.0.1 bytes.now) }
    ensures word { IfSome result (λ found. word_of found.0.0 found.0.1 ≡ found.1) }
    ensures none { IfNone result ((o : Op) (f : Fields) → Begins o f bytes.now → ⊥) }
{
    if bytes.len() < 2 {
        return None;
    }
    if bytes.len() >= 4 {
        let number = u32::from_le_bytes([bytes[0], bytes[1], bytes[2], bytes[3]]);
        if let Some(ins) = decode32(number) {
            return Some((ins, Word::Full(number)));
        }
    }
    let number = u16::from_le_bytes([bytes[0], bytes[1]]);
    match decode16(number) {
        Some(ins) => Some((ins, Word::Half(number))),
        None => None,
    }
}

// Makes an empty row that of an instruction, whose word is given.
fn set_instruction(row: &mut DisRow, ins: &Ins, word: Word)
    requires word { word_of ins.now.0 ins.now.1 ≡ word }
    requires text { row.old.text ≡ [] }
    ensures { row.new ≡ instruction_row row.old.address ins.now.0 ins.now.1 }
{
    let (value, len) = match word {
        Word::Half(number) => (u32::from(number), 2),
        Word::Full(number) => (number, 4),
    };
    row.value = value;
    row.len = len;
    write_instruction(&mut row.text, ins, row.address);
}

// Writes a number as an operand of a directive into an empty text.
fn write_data(text: &mut RowText, directive: &str, digits: u32, value: u32)
    requires directive { length directive.now ≤ 8 }
    requires digits { digits ≤ 8 }
    requires text { text.old ≡ [] }
    ensures { text.new ≡ directive.now ++ hexadecimal_of digits value }
{
    text.push_str(directive);
    push_hexadecimal_of(text, digits, value);
}

// Makes an empty row that of two bytes with which no instruction begins.
fn set_half(row: &mut DisRow, value: u16)
    requires { row.old.text ≡ [] }
    ensures { row.new ≡ half_row row.old.address value }
{
    row.value = u32::from(value);
    row.len = 2;
    write_data(&mut row.text, ".half ", 4, row.value);
}

// Makes an empty row that of a last byte without a second.
fn set_byte(row: &mut DisRow, value: u8)
    requires { row.old.text ≡ [] }
    ensures { row.new ≡ byte_row row.old.address value }
{
    row.value = u32::from(value);
    row.len = 1;
    write_data(&mut row.text, ".byte ", 2, row.value);
}

// Makes an empty row the one that stands first in two bytes or more.
fn set_first(row: &mut DisRow, bytes: &[u8])
    requires bytes { 2 ≤ length bytes.now }
    requires text { row.old.text ≡ [] }
    ensures { IsFirst row.old.address bytes.now row.new }
{
    match instruction_at(bytes) {
        Some((ins, word)) => set_instruction(row, &ins, word),
        None => set_half(row, u16::from_le_bytes([bytes[0], bytes[1]])),
    }
}

/// The row that stands first in the bytes from an address on, if there are any: the first of those of `disassemble`, whatever comes after
/// it. So the rows of many bytes can be shown one after another, without memory for all of them.
pub fn first_row(bytes: &[u8], address: u32) -> Option<DisRow>
    ensures first { IfSome result (λ row. IsFirst address bytes.now row) }
    ensures none { IfNone result (bytes.now ≡ []) }
{
    let [byte, ..] = bytes else {
        return None;
    };
    let mut row = DisRow::at(address);
    if bytes.len() >= 2 {
        set_first(&mut row, bytes);
        return Some(row);
    }
    set_byte(&mut row, *byte);
    Some(row)
}

/// The rows of the bytes from an address on: an instruction wherever the word of one stands, else `.half` of two bytes,
/// and `.byte` of a last one.
///
/// # Errors
///
/// `Memory` if there is none for the rows.
pub fn disassemble(alloc: Global, bytes: &[u8], address: u32) -> Result<Vec<DisRow>, DisError>
    ensures rows { IfOk result (λ rows. Shows address bytes.now rows.items) }
    ensures bytes { IfOk result (λ rows. GiveBytes rows.items bytes.now) }
{
    let mut rows = Vec::new(alloc);
    let mut at = address;
    let mut rest = bytes;
    while rest.len() >= 2 {
        let row = rows.push_mut(DisRow::at(at))?;
        set_first(row, rest);
        at = at.wrapping_add(u32::from(row.len));
        rest = &rest[usize::from(row.len)..];
    }
    if rest.len() == 1 {
        let row = rows.push_mut(DisRow::at(at))?;
        set_byte(row, rest[0]);
    }
    rows_give_the_bytes();
    Ok(rows)
}

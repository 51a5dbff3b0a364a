//! The texts of instructions, and the rows of stretches of bytes. Each text is assembled again at its address.

use crate::encodings::{decode, word_of_digits, word_of_row};
use crate::lines::bytes_of_line;
use crate::operations::operations;
use crate::row::{bytes_of, copied, found, made, number_before, pairs_of, parts_of};
use rv_code::Word;
use rv_dis::{DisError, DisRow, disassemble, instruction_text};
use rv_fix::assemble_at;
use rv_ops::{Op, TableRow};
use std::alloc::{AllocError, Global};
use std::fmt::Write;
use std::test::Fail;

// The number that the bytes of a text are at an address, in hexadecimal digits.
fn assembled(alloc: Global, text: &str, address: u32) -> Result<String, Fail> {
    let coded = assemble_at(alloc, bytes_of_line(text)?, address)?;
    if coded.fault.is_some() {
        return Err(Fail::new("a text with a fault"));
    }
    let mut bytes = Vec::new(alloc);
    coded.payload.append_to(&mut bytes)?;
    bytes.reverse();
    pairs_of(alloc, bytes.as_slice())
}

// Appends the address, the value and the text of a row.
fn push_row(shown: &mut String, row: &DisRow) -> Result<(), AllocError> {
    let (address, value, text) = (row.address, row.value, row.text.as_str());
    let digits = usize::from(row.len) * 2;
    write!(shown, "; {address:08x} {value:0digits$x} {text}")
}

// Appends a row, with what its text assembles to.
fn push_row_with_code(alloc: Global, shown: &mut String, row: &DisRow) -> Result<(), Fail> {
    push_row(shown, row)?;
    let code = assembled(alloc, row.text.as_str(), row.address)?;
    Ok(write!(shown, " => {}", code.as_str())?)
}

// How many rows there are, and each behind a semicolon.
fn rows_text(alloc: Global, rows: &[DisRow]) -> Result<String, Fail> {
    let mut shown = format!(in alloc; "{}", rows.len())?;
    for row in rows {
        push_row_with_code(alloc, &mut shown, row)?;
    }
    Ok(shown)
}

/// How many rows the bytes at an address have, and of each its address, its value, its text, and what that assembles to.
pub fn rows(alloc: Global, arguments: &str) -> Result<String, Fail> {
    let (address, pairs) = number_before(arguments)?;
    let bytes = bytes_of(alloc, pairs)?;
    let rows = disassemble(alloc, bytes.as_slice(), address)?;
    rows_text(alloc, rows.as_slice())
}

// The text of a word's instruction at an address.
fn text_of(alloc: Global, word: Word, address: u32) -> Result<String, Fail> {
    let ins = found(decode(word), "a word that is no instruction")?;
    Ok(instruction_text(alloc, &ins, address)?)
}

// What the text of the one row that begins so assembles to. Other rows are shown whole.
fn code_behind<'a>(rows: &'a str, row: &str) -> &'a str {
    rows.strip_prefix(row).unwrap_or(rows)
}

// A text, and what the only row of its word at an address assembles to.
fn text_and_code(
    alloc: Global,
    text: &str,
    rows: &str,
    digits: &str,
    address: u32,
) -> Result<String, Fail> {
    let row = format!(in alloc; "1; {address:08x} {digits} {text} => ")?;
    let code = code_behind(rows, row.as_str());
    made(format!(in alloc; "{text} => {code}"))
}

// The rows of a word at an address.
fn rows_of_word(alloc: Global, word: Word, address: u32) -> Result<String, Fail> {
    let rows = disassemble(alloc, word.bytes().as_slice(), address)?;
    rows_text(alloc, rows.as_slice())
}

/// The text of a word's instruction at an address, and what it assembles to. The word's bytes have to be one row of this
/// address, word and text; other rows are shown in the place of the code.
pub fn instruction(alloc: Global, arguments: &str) -> Result<String, Fail> {
    let (address, digits) = number_before(arguments)?;
    let word = word_of_row(digits)?;
    let text = text_of(alloc, word, address)?;
    let rows = rows_of_word(alloc, word, address)?;
    text_and_code(alloc, text.as_str(), rows.as_str(), digits, address)
}

// The operation whose text a row of the script asks for.
fn operation_of(row: &str) -> Option<Op> {
    let (_, word) = parts_of(row.strip_prefix("instruction ")?);
    Some(decode(word_of_digits(word)?)?.op())
}

// Appends the operation whose text a row asks for, if it asks for one.
fn push_operation(shown: &mut Vec<Op>, row: &str) -> Result<(), AllocError> {
    match operation_of(row) {
        Some(op) => Ok(shown.push(op)?),
        None => Ok(()),
    }
}

// The name of the first operation of a table that is not among these.
fn first_other(shown: &[Op], table: &[TableRow]) -> &'static str {
    for entry in table {
        if !shown.contains(&entry.0) {
            return entry.1;
        }
    }
    "none"
}

/// The first operation of the table of whose text a script has no row.
pub fn operation_without_text(alloc: Global, script: &str) -> Result<String, Fail> {
    let mut shown = Vec::new(alloc);
    for row in script.lines() {
        push_operation(&mut shown, row)?;
    }
    copied(alloc, first_other(shown.as_slice(), operations()))
}

/// The error of the disassembler with its number.
pub fn error_numbers(alloc: Global) -> Result<String, Fail> {
    let error = DisError::Memory;
    made(format!(in alloc; "{error:?} {}", error.number()))
}

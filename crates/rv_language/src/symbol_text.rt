//! What is said of a name: its value, and where it is defined.

use crate::meaning::Meaning;
use crate::places::lines_to;
use rv_list::{DefinitionPlace, LineSource, View};
use rv_show::{Notation, Text, push_number_in};
use std::alloc::AllocError;

// Appends which line it is that defines a name, by its number from 1 on.
fn push_line(text: &mut Text, what: &[u8], number: u32) -> Result<(), AllocError> {
    text.push(what)?;
    text.push_number(number)?;
    text.push(b")")
}

// Appends the address of a label on a line.
fn push_label<V: View>(text: &mut Text, view: &V, number: u32) -> Result<(), AllocError> {
    let Some(lines) = lines_to(view, number) else {
        return Ok(());
    };
    text.push(b" = 0x")?;
    text.push_word(lines.line().place.address)?;
    push_line(text, b" (label, line ", number)
}

// Appends a value, in hexadecimal as well if that looks different.
fn push_value(text: &mut Text, value: i64) -> Result<(), AllocError> {
    text.push(b" = ")?;
    text.push_number(value)?;
    if value < 10 {
        return Ok(());
    }
    text.push(b" = ")?;
    push_number_in(text, Notation::Hexadecimal, value)
}

// Appends the value of an `.equ` on a line, or that it has none.
fn push_equ<V: View>(
    text: &mut Text,
    view: &V,
    name: &[u8],
    number: u32,
) -> Result<(), AllocError> {
    match view.value(name) {
        Some(value) => push_value(text, value)?,
        None => text.push(b" has no value")?,
    }
    push_line(text, b" (.equ, line ", number)
}

// Appends a symbol with its value, if it is defined.
fn push_symbol<V: View>(text: &mut Text, view: &V, name: &[u8]) -> Result<(), AllocError> {
    match view.definition(name) {
        DefinitionPlace::Label(line, _) => {
            text.push(name)?;
            push_label(text, view, line)
        }
        DefinitionPlace::Equ(line) => {
            text.push(name)?;
            push_equ(text, view, name, line)
        }
        DefinitionPlace::Nowhere => Ok(()),
    }
}

/// Appends a name with what it stands for, if it is defined.
///
/// # Errors
///
/// `AllocError` if there is no memory for it.
pub fn push_meaning<V: View>(
    text: &mut Text,
    view: &V,
    meaning: &Meaning<'_>,
) -> Result<(), AllocError> {
    match meaning {
        Meaning::Symbol(name) => push_symbol(text, view, name),
        Meaning::Local(label) => {
            text.push_number(label.number)?;
            push_label(text, view, label.line)
        }
    }
}

//! How the statement at a position can be written.

use crate::comments::is_in_sign;
use crate::name_uses::Expected;
use crate::names::text_of;
use crate::typed::{Typed, typed_in};
use rv_diagnostics::{Context, Message, Part};
use rv_doc::before_column;
use rv_list::LineView;
use rv_manual::{Way, ways_to_write};
use rv_show::{Text, first_bytes};
use rv_stmt::OperandCount;
use std::alloc::{AllocError, Global};

// Writes the place of the word for an operand in the label of a signature, unless it is empty.
fn put_operand(m: &mut Message, from: usize, to: usize) -> Result<(), AllocError> {
    if from == to {
        return Ok(());
    }
    m.put_all(&[
        Part::BeginObject,
        Part::Key("label"),
        Part::BeginArray,
        Part::Number(from as u64),
        Part::Number(to as u64),
        Part::EndArray,
        Part::EndObject,
    ])
}

// Writes the places of the words for operands in the label of a signature, after a name of so many bytes.
fn put_operands(m: &mut Message, label: &[u8], name: usize) -> Result<(), AllocError> {
    let mut from = name;
    for (at, byte) in label.iter().enumerate() {
        if at >= name && matches!(byte, b' ' | b',' | b'[' | b']') {
            put_operand(m, from, at)?;
            from = at.saturating_add(1);
        }
    }
    put_operand(m, from, label.len())
}

// Writes the signature of a name in one of the ways to write it.
fn put_signature(m: &mut Message, alloc: Global, name: &[u8], way: &Way) -> Result<(), AllocError> {
    let mut text = Text::new(alloc);
    text.push(name)?;
    if !way.words.is_empty() {
        text.push(b" ")?;
        text.push(way.words.as_str().as_bytes())?;
    }
    let label = String::from_utf8_lossy(alloc, text.bytes())?;
    m.put_all(&[
        Part::BeginObject,
        Part::Key("label"),
        Part::Text(label.as_str()),
        Part::Key("parameters"),
        Part::BeginArray,
    ])?;
    put_operands(m, text.bytes(), name.len())?;
    m.put_all(&[Part::EndArray, Part::EndObject])
}

// The number of the word for an operand, from 0 on. `...` is the word for all operands after those that have to be there.
fn word_number(count: OperandCount, operand: usize) -> usize {
    match count {
        OperandCount::AtLeast(least) => operand.min(least),
        OperandCount::Exactly(_) | OperandCount::Between(_, _) => operand,
    }
}

// Writes the signatures of the statement of which this was typed, and which of them and of its operands are active: the first one that takes as many
// operands as there are so far, or else the first one.
fn put_ways(
    m: &mut Message,
    alloc: Global,
    typed: &Typed<'_>,
    ways: &[Way],
) -> Result<(), AllocError> {
    m.put_all(&[Part::BeginObject, Part::Key("signatures"), Part::BeginArray])?;
    for way in ways {
        put_signature(m, alloc, typed.statement, way)?;
    }
    let operands = typed.operand.saturating_add(1);
    let active = ways
        .iter()
        .position(|way| way.count.takes(operands))
        .unwrap_or(0);
    let word = match ways.get(active) {
        Some(way) => word_number(way.count, typed.operand),
        None => typed.operand,
    };
    m.put_all(&[
        Part::EndArray,
        Part::Key("activeSignature"),
        Part::Number(active as u64),
        Part::Key("activeParameter"),
        Part::Number(word as u64),
        Part::EndObject,
    ])
}

/// Writes how the statement before a column of a line can be written, or null if there is no name of an instruction or a directive before it.
///
/// # Errors
///
/// `AllocError` if there is no memory for it.
pub fn put_signature_help(
    m: &mut Message,
    context: &Context<'_>,
    line: &LineView<'_>,
    column: u32,
) -> Result<(), AllocError> {
    let text = text_of(line);
    let at = before_column(context.encoding, text, column);
    if is_in_sign(text, at) {
        return m.null();
    }
    let Some(typed) = typed_in(context.alloc, first_bytes(text, at))? else {
        return m.null();
    };
    if matches!(typed.expected, Expected::Statement) {
        return m.null();
    }
    let ways = ways_to_write(context.alloc, typed.statement)?;
    if ways.is_empty() {
        return m.null();
    }
    put_ways(m, context.alloc, &typed, ways.as_slice())
}

//! Operands that may be meant in a line with a fault.

use crate::broken_line::{BrokenLine, place};
use crate::fixes::Fixes;
use memchr::memchr;
use rv_list::{DefinitionPlace, View};
use rv_ops::is_name;
use rv_show::{Text, bytes_from, first_bytes};
use rv_text::{FaultNumber, Span};
use std::alloc::AllocError;

// Adds the operand at a fault as an address in a register, as a string, and with the parenthesis that is missing after it.
fn add_around(fixes: &mut Fixes, line: &BrokenLine<'_>) -> Result<(), AllocError> {
    let span = line.fault.span;
    fixes.add(span, &[b"0(", line.wrong(), b")"])?;
    fixes.add(span, &[b"\"", line.wrong(), b"\""])?;
    fixes.add(place(span.to), &[b")"])
}

// The modifier that a statement takes.
fn modifier_of(statement: &[u8]) -> &'static [u8] {
    if is_name("lui", statement) {
        b"%hi"
    } else if is_name("auipc", statement) {
        b"%pcrel_hi"
    } else {
        b"%lo"
    }
}

// Adds the operand at a fault with the modifier that its statement takes: in the place of another, or around a label; and a label with the scratch
// register of a store.
fn add_modifier<V: View>(
    fixes: &mut Fixes,
    line: &BrokenLine<'_>,
    view: &V,
) -> Result<(), AllocError> {
    let span = line.fault.span;
    let wrong = line.wrong();
    let mut text = Text::new(line.alloc);
    text.push(modifier_of(line.name()))?;
    if let [b'%', ..] = wrong {
        let size = memchr(b'(', wrong).unwrap_or(wrong.len());
        text.push(bytes_from(wrong, size))?;
        return fixes.add_text(span, text);
    }
    match view.definition(wrong) {
        DefinitionPlace::Label(_, _) => {
            text.push(b"(")?;
            text.push(wrong)?;
            text.push(b")")?;
            fixes.add_text(span, text)?;
            fixes.add(place(span.to), &[b", t0"])
        }
        _ => Ok(()),
    }
}

// Appends the letters of a set of `fence` that a text has, in their order.
fn push_set(text: &mut Text, letters: &[u8]) -> Result<(), AllocError> {
    let mut left: &[u8] = b"iorw";
    'letters: while let [letter, later @ ..] = left {
        if letters.contains(letter) {
            text.push_byte(*letter)?;
        }
        left = later;
    }
    Ok(())
}

// Adds a set of `fence` whose letters are in their order.
fn add_set(fixes: &mut Fixes, line: &BrokenLine<'_>) -> Result<(), AllocError> {
    let is_set = line
        .wrong()
        .iter()
        .all(|byte| matches!(*byte, b'i' | b'o' | b'r' | b'w'));
    if !is_name("fence", line.name()) || !is_set {
        return Ok(());
    }
    let mut text = Text::new(line.alloc);
    push_set(&mut text, line.wrong())?;
    fixes.add_text(line.fault.span, text)
}

// Adds a line whose operand has no `#` before it.
fn add_without_hash(fixes: &mut Fixes, line: &BrokenLine<'_>) -> Result<(), AllocError> {
    let rest = bytes_from(line.text, line.fault.span.to as usize);
    let Some(at) = memchr(b'#', rest) else {
        return Ok(());
    };
    if !first_bytes(rest, at).trim_ascii().is_empty() {
        return Ok(());
    }
    let from = line
        .fault
        .span
        .to
        .saturating_add(u32::try_from(at).unwrap_or(0));
    let to = from.saturating_add(1);
    fixes.add(Span { from, to }, &[])
}

// Adds an operand by how it is written: without what other assemblers write into it.
fn add_by_form(fixes: &mut Fixes, line: &BrokenLine<'_>) -> Result<(), AllocError> {
    let span = line.fault.span;
    match line.wrong() {
        b"0" => fixes.add(span, &[b"zero"]),
        [b'[', register @ .., b']'] => fixes.add(span, &[b"0(", register, b")"]),
        [first, ..] if first.is_ascii_digit() => match line.name() {
            b".ascii" | b".asciz" | b".string" => fixes.add(line.name_span(), &[b".byte"]),
            _ => Ok(()),
        },
        wrong => match memchr(b'@', wrong) {
            Some(at) => fixes.add(span, &[first_bytes(wrong, at)]),
            None => Ok(()),
        },
    }
}

/// Adds what the operand at a fault may be meant as.
///
/// # Errors
///
/// `AllocError` if there is no memory for it.
pub fn add_operands<V: View>(
    fixes: &mut Fixes,
    line: &BrokenLine<'_>,
    view: &V,
) -> Result<(), AllocError> {
    match line.fault.number {
        FaultNumber::BadRegister | FaultNumber::BadOperand | FaultNumber::Undefined => {
            add_without_hash(fixes, line)?;
            add_by_form(fixes, line)?;
            add_around(fixes, line)?;
            add_set(fixes, line)?;
            add_modifier(fixes, line, view)
        }
        FaultNumber::Range | FaultNumber::Multiple => add_modifier(fixes, line, view),
        _ => Ok(()),
    }
}

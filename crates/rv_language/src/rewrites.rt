//! Statements that are written in another way.

use crate::broken_line::BrokenLine;
use crate::fixes::Fixes;
use rv_ops::is_name;
use rv_show::{Text, part};
use rv_text::{FaultNumber, Span};
use std::alloc::AllocError;

/// The columns: a name, how many operands it has, and what is written in its place: `A` and `B` are the first two operands, and `N` is the
/// last one with the other sign.
type RewriteRow = (&'static str, usize, &'static str);

// The statements of other assemblers, and those whose operands are others here.
const REWRITES: [RewriteRow; 7] = [
    ("sub", 3, "addi A, B, N"),
    ("subi", 3, "addi A, B, N"),
    ("inc", 1, "addi A, A, 1"),
    ("dec", 1, "addi A, A, -1"),
    ("zext.b", 2, "andi A, B, 255"),
    ("c.addi", 2, "addi A, A, B"),
    ("c.andi", 2, "andi A, A, B"),
];

// The operand of this number, from 0 on, and nothing where there is none.
fn operand<'a>(line: &BrokenLine<'a>, spans: &[Span], number: usize) -> &'a [u8] {
    match spans.get(number) {
        Some(span) => part(line.text, *span),
        None => b"",
    }
}

// Whether a text is one number or name.
fn is_word(text: &[u8]) -> bool {
    text.iter()
        .all(|byte| byte.is_ascii_alphanumeric() || *byte == b'_')
}

// Appends an operand with the other sign.
fn push_negative(text: &mut Text, operand: &[u8]) -> Result<(), AllocError> {
    if is_word(operand) {
        text.push(b"-")?;
        return text.push(operand);
    }
    match operand {
        [b'-', word @ ..] if is_word(word) => text.push(word),
        _ => {
            text.push(b"-(")?;
            text.push(operand)?;
            text.push(b")")
        }
    }
}

// Appends what is written in the place of a statement with these operands.
fn push_rewritten(
    text: &mut Text,
    line: &BrokenLine<'_>,
    spans: &[Span],
    mut form: &[u8],
) -> Result<(), AllocError> {
    'bytes: while let [byte, later @ ..] = form {
        match *byte {
            b'A' => text.push(operand(line, spans, 0))?,
            b'B' => text.push(operand(line, spans, 1))?,
            b'N' => push_negative(text, operand(line, spans, spans.len().saturating_sub(1)))?,
            _ => text.push_byte(*byte)?,
        }
        form = later;
    }
    Ok(())
}

// Adds what a row of some rewrites writes in the place of a statement.
fn add_by_rows(
    fixes: &mut Fixes,
    line: &BrokenLine<'_>,
    spans: &[Span],
    mut rows: &'static [RewriteRow],
) -> Result<(), AllocError> {
    'rows: while let [row, later @ ..] = rows {
        if is_name(row.0, line.name()) && row.1 == spans.len() {
            let mut text = Text::new(line.alloc);
            push_rewritten(&mut text, line, spans, row.2.as_bytes())?;
            fixes.add_text(line.statement_span(), text)?;
        }
        rows = later;
    }
    Ok(())
}

/// Adds other ways to write a statement with its operands: two of them the other way round, and `li` for `addi` with the register zero.
///
/// # Errors
///
/// `AllocError` if there is no memory for them.
pub fn add_rewrites(fixes: &mut Fixes, line: &BrokenLine<'_>) -> Result<(), AllocError> {
    let spans = line.operand_spans()?;
    let span = line.statement_span();
    let number = line.fault.number;
    add_by_rows(fixes, line, spans.as_slice(), &REWRITES)?;
    match spans.as_slice() {
        [first, second] if matches!(number, FaultNumber::BadRegister | FaultNumber::BadOperand) => {
            let (first, second) = (part(line.text, *first), part(line.text, *second));
            fixes.add(span, &[line.name(), b" ", second, b", ", first])
        }
        [first, second, third] if is_name("addi", line.name()) => {
            match part(line.text, *second) {
                b"zero" | b"x0" => {
                    let (first, third) = (part(line.text, *first), part(line.text, *third));
                    fixes.add(span, &[b"li ", first, b", ", third])
                }
                _ => Ok(()),
            }
        }
        _ => Ok(()),
    }
}

//! Hints beside lines: their addresses and first bytes.

use crate::comments::end_of;
use crate::hover::hint_text;
use crate::names::text_of;
use rv_diagnostics::{Context, Message, Part, column_at, put_position};
use rv_doc::Encoding;
use rv_list::{LineSource, LineView, View};
use std::alloc::AllocError;

// The column at the end of a line.
fn end_column(encoding: Encoding, line: &LineView<'_>) -> u32 {
    let text = text_of(line);
    column_at(
        encoding,
        text,
        u32::try_from(end_of(text)).unwrap_or(u32::MAX),
    )
}

// Writes the hint of a line, by its number from 0 on.
fn put_hint(
    m: &mut Message,
    context: &Context<'_>,
    number: u32,
    line: &LineView<'_>,
) -> Result<(), AllocError> {
    let text = hint_text(context.alloc, line)?;
    m.put_all(&[Part::BeginObject, Part::Key("position")])?;
    put_position(m, number, end_column(context.encoding, line))?;
    m.put_all(&[
        Part::Key("label"),
        Part::Text(text.as_str()),
        Part::Key("paddingLeft"),
        Part::Boolean(true),
        Part::EndObject,
    ])
}

// Writes the hints of some lines, one after another.
fn put_lines<V: View>(
    m: &mut Message,
    context: &Context<'_>,
    view: &V,
    from: u32,
    to: u32,
) -> Result<(), AllocError> {
    let mut lines = view.lines();
    for k in 0..view.line_count().min(to) {
        lines.advance();
        let line = lines.line();
        if k >= from && line.place.size > 0 {
            put_hint(m, context, k, &line)?;
        }
    }
    Ok(())
}

/// Writes the hints of the lines with bytes from number `from` on and before number `to`, both from 0 on.
///
/// # Errors
///
/// `AllocError` if there is no memory for them.
pub fn put_hints<V: View>(
    m: &mut Message,
    context: &Context<'_>,
    view: &V,
    from: u32,
    to: u32,
) -> Result<(), AllocError> {
    m.begin_array()?;
    put_lines(m, context, view, from, to)?;
    m.end_array()
}

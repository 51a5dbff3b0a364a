//! The symbols of a document.

ghost use Rattle.std.specs.Prelude.{◌≡◌, ◌++◌, ◌≤◌, length, OnOk};
ghost use Rattle.rv_list.specs.Shown.{shown_line};
ghost use Rattle.rv_stmt.specs.LentLabels.{name_lent};
ghost use Rattle.rv_language.specs.DocumentSymbols.{body_symbols, document_symbol, document_symbols, label_symbols, labels_symbols, line_symbols};

use crate::names::text_of;
use crate::places::put_name_range;
use rv_diagnostics::{Context, Message, Part};
use rv_list::{LineSource, LineView, View};
use rv_stmt::{Body, LabelName, LabelSlice};
use rv_text::Span;
use std::alloc::AllocError;

// What a symbol is. (Language Server Protocol 3.17, SymbolKind)
const FUNCTION: u64 = 12;

const CONSTANT: u64 = 14;

// Writes a symbol that a line defines.
#[tactic(auto, unfolding(crate::specs::DocumentSymbols::document_symbol))]
fn put_symbol(
    m: &mut Message,
    context: &Context<'_>,
    number: u32,
    text: &[u8],
    span: Span,
    name: &[u8],
    kind: u64,
) -> Result<(), AllocError>
    requires { length text.now ≤ 1000 }
    ensures { OnOk result (m.new ≡ m.old ++ document_symbol context.now.encoding number text.now span name.now kind) }
{
    let name = String::from_utf8_lossy(context.alloc, name)?;
    m.put_all(&[
        Part::BeginObject,
        Part::Key("name"),
        Part::Text(name.as_str()),
        Part::Key("kind"),
        Part::Number(kind),
        Part::Key("range"),
    ])?;
    put_name_range(m, context.encoding, number, text, span)?;
    m.key("selectionRange")?;
    put_name_range(m, context.encoding, number, text, span)?;
    m.end_object()?;
    Ok(())
}

// Writes the symbol of a label of a line, if it is the definition of one.
fn put_label<V: View>(
    m: &mut Message,
    context: &Context<'_>,
    view: &V,
    number: u32,
    text: &[u8],
    index: u32,
    span: Span,
    name: LabelName<'_>,
) -> Result<(), AllocError>
    requires { length text.now ≤ 1000 }
    ensures { OnOk result (m.new ≡ m.old ++ label_symbols context.now.encoding (V.shown view.now) number text.now index span (name_lent name.entry)) }
{
    let LabelName::Symbol(symbol) = name else {
        return Ok(());
    };
    if !view.definition(symbol).is_label(number, index) {
        return Ok(());
    }
    put_symbol(m, context, number, text, span, symbol, FUNCTION)
}

// Writes the symbols of the labels of a line.
fn put_labels<V: View>(
    m: &mut Message,
    context: &Context<'_>,
    view: &V,
    number: u32,
    text: &[u8],
    mut labels: LabelSlice<'_>,
) -> Result<(), AllocError>
    requires text { length text.now ≤ 1000 }
    requires labels { length labels ≤ 1000 }
    ensures { OnOk result (m.new ≡ m.old ++ labels_symbols context.now.encoding (V.shown view.now) number text.now 0 labels.entry) }
{
    let mut index = 0;
    'labels: while let Some((label, later)) = labels.split_first() {
        put_label(
            m, context, view, number, text, index, label.span, label.name,
        )?;
        index += 1;
        labels = later;
    }
    Ok(())
}

// Writes the symbol of the `.equ` of a line, if it has one that is the definition of its symbol.
fn put_equ<V: View>(
    m: &mut Message,
    context: &Context<'_>,
    view: &V,
    number: u32,
    text: &[u8],
    body: &Body,
) -> Result<(), AllocError>
    requires { length text.now ≤ 1000 }
    ensures { OnOk result (m.new ≡ m.old ++ body_symbols context.now.encoding (V.shown view.now) number text.now body.now) }
{
    let Body::Equ(definition) = body else {
        return Ok(());
    };
    let name = definition.symbol.bytes();
    if !view.definition(name).is_equ(number) {
        return Ok(());
    }
    put_symbol(m, context, number, text, definition.span, name, CONSTANT)
}

// Writes the symbols that a line defines.
#[tactic(auto, unfolding(crate::specs::DocumentSymbols::line_symbols))]
fn put_line<V: View>(
    m: &mut Message,
    context: &Context<'_>,
    view: &V,
    number: u32,
    line: &LineView<'_>,
) -> Result<(), AllocError>
    requires { length line.now.stmt.now.labels ≤ 1000 }
    ensures { OnOk result (m.new ≡ m.old ++ line_symbols context.now.encoding (V.shown view.now) number (shown_line line.now)) }
{
    let text = text_of(line);
    let labels = line.stmt.labels.as_slice();
    put_labels(m, context, view, number, text, labels)?;
    put_equ(m, context, view, number, text, &line.stmt.body)?;
    Ok(())
}

/// Writes the symbols of a text, in the order of their definitions.
///
/// # Errors
///
/// `AllocError` if there is no memory for them.
pub fn put_document_symbols<V: View>(
    m: &mut Message,
    context: &Context<'_>,
    view: &V,
) -> Result<(), AllocError>
    ensures { OnOk result (m.new ≡ m.old ++ document_symbols context.now.encoding (V.shown view.now)) }
{
    let mut lines = view.lines();
    for k in 0..view.line_count() {
        lines.advance();
        put_line(m, context, view, k + 1, &lines.line())?;
    }
    Ok(())
}

//! The symbols of a text.

ghost use Rattle.std.specs.Prelude.{◌≡◌, ◌-◌, ◌^◌, ◌+◌, ◌<◌, ◌≤◌, ◌++◌, ℕ, length};
ghost use Rattle.std.specs.List.{concat};
ghost use Rattle.rv_text.specs.Blocks.{Gathers};
ghost use Rattle.rv_text.specs.Streams.{failures_after, Writes};
ghost use Rattle.rv_list.specs.Shown.{shown_line};
ghost use Rattle.rv_stmt.specs.LentLabels.{name_lent};
ghost use Rattle.rv_list.specs.Symbols.{label_columns, label_row, value_text, equ_columns, equ_row, label_symbols, labels_symbols, body_symbols, line_symbols, symbol_rows, symbol_text};

use crate::error::ListError;
use crate::rows::{end_text, push_count, push_field, push_number, push_row};
use crate::view::{LineSource, LineView, View};
use rv_stmt::{Body, LabelName, LabelSlice};
use rv_text::{Failed, OutputBlock, OutputRow, Sink};

// The columns before the name of a label.
#[tactic(auto, unfolding(crate::specs::Symbols::label_columns))]
fn label_columns(line: u32, address: u32) -> OutputRow
    ensures text { result ≡ label_columns line address }
    ensures short { length result ≤ 64 }
{
    let mut row = OutputRow::new();
    push_field(&mut row, line);
    row.push_text(b"label 0x");
    row.push_hex(8, address);
    row.push_text(b" ");
    row
}

// Adds a value to a row, or a sign that there is none.
fn push_value(row: &mut OutputRow, value: Option<i64>)
    requires { length row.old + 20 ≤ 64 }
    ensures text { row.new ≡ row.old ++ value_text value }
    ensures length { length row.new ≤ length row.old + 20 }
{
    match value {
        Some(value) => push_number(row, value),
        None => row.push_text(b"?"),
    }
}

// The columns before the symbol of an `.equ`.
#[tactic(auto, unfolding(crate::specs::Symbols::equ_columns))]
fn equ_columns(line: u32, value: Option<i64>) -> OutputRow
    ensures text { result ≡ equ_columns line value }
    ensures short { length result ≤ 64 }
{
    let mut row = OutputRow::new();
    push_field(&mut row, line);
    row.push_text(b"equ ");
    push_value(&mut row, value);
    row.push_text(b" ");
    row
}

// Adds the row of a label.
#[tactic(auto, unfolding(crate::specs::Symbols::label_row))]
fn push_label_row<W: Sink>(
    block: &mut OutputBlock,
    sink: &mut W,
    line: u32,
    address: u32,
    name: &[u8],
) -> Result<(), Failed>
    requires { W.failures sink.old < 2 ^ 64 - 1 }
    ensures text { Gathers (W.taken sink.old) block.old (label_row line address name.now) result (W.taken sink.new) block.new }
    ensures count { W.failures sink.new ≡ failures_after (W.failures sink.old) result }
{
    let columns = label_columns(line, address);
    push_row(block, sink, columns.bytes(), name)
}

// Adds the row of an `.equ`.
#[tactic(auto, unfolding(crate::specs::Symbols::equ_row))]
fn push_equ_row<W: Sink>(
    block: &mut OutputBlock,
    sink: &mut W,
    line: u32,
    value: Option<i64>,
    name: &[u8],
) -> Result<(), Failed>
    requires { W.failures sink.old < 2 ^ 64 - 1 }
    ensures text { Gathers (W.taken sink.old) block.old (equ_row line value name.now) result (W.taken sink.new) block.new }
    ensures count { W.failures sink.new ≡ failures_after (W.failures sink.old) result }
{
    let columns = equ_columns(line, value);
    push_row(block, sink, columns.bytes(), name)
}

// How many symbols a label of a line defines: one, or none.
fn count_label<V: View>(view: &V, line: u32, index: u32, name: LabelName<'_>) -> u32
    ensures count { (address : ℕ) → result ≡ length (label_symbols (V.shown view.now) line address index (name_lent name.entry)) }
    ensures few { result ≤ 1 }
{
    match name {
        LabelName::Symbol(symbol) => { u32::from(view.definition(symbol).is_label(line, index)) }
        LabelName::Local(_) => 0,
    }
}

// How many symbols the labels of a line define.
fn count_labels<V: View>(view: &V, line: u32, mut labels: LabelSlice<'_>) -> u32
    requires { length labels ≤ 1000 }
    ensures count { (address : ℕ) → result ≡ length (labels_symbols (V.shown view.now) line address 0 labels.entry) }
    ensures few { result ≤ 1000 }
{
    let mut index = 0;
    let mut count = 0;
    'labels: while let Some((label, later)) = labels.split_first() {
        count += count_label(view, line, index, label.name);
        index += 1;
        labels = later;
    }
    count
}

// How many symbols the `.equ` of a line defines: one, or none.
fn count_body<V: View>(view: &V, line: u32, body: &Body) -> u32
    ensures count { result ≡ length (body_symbols (V.shown view.now) line body.now) }
    ensures few { result ≤ 1 }
{
    match body {
        Body::Equ(definition) => {
            u32::from(view.definition(definition.symbol.bytes()).is_equ(line))
        }
        _ => 0,
    }
}

// How many symbols a line defines.
#[tactic(auto, unfolding(crate::specs::Symbols::line_symbols))]
fn count_line<V: View>(view: &V, number: u32, line: &LineView<'_>) -> u32
    requires { length line.now.stmt.now.labels ≤ 1000 }
    ensures count { result ≡ length (line_symbols (V.shown view.now) number (shown_line line.now)) }
    ensures few { result ≤ 1001 }
{
    let labels = count_labels(view, number, line.stmt.labels.as_slice());
    labels + count_body(view, number, &line.stmt.body)
}

// How many symbols there are.
fn count_symbols<V: View>(view: &V) -> u32
    ensures { result ≡ length (symbol_rows (V.shown view.now)) }
{
    let mut count = 0;
    let mut lines = view.lines();
    for k in 0..view.line_count() {
        lines.advance();
        count += count_line(view, k + 1, &lines.line());
    }
    count
}

// Adds the row of a label of a line, if it is the definition of a symbol.
fn push_label<V: View, W: Sink>(
    block: &mut OutputBlock,
    sink: &mut W,
    view: &V,
    line: u32,
    address: u32,
    index: u32,
    name: LabelName<'_>,
) -> Result<(), Failed>
    requires { W.failures sink.old < 2 ^ 64 - 1 }
    ensures text { Gathers (W.taken sink.old) block.old (concat (label_symbols (V.shown view.now) line address index (name_lent name.entry))) result (W.taken sink.new) block.new }
    ensures count { W.failures sink.new ≡ failures_after (W.failures sink.old) result }
{
    let LabelName::Symbol(symbol) = name else {
        return Ok(());
    };
    if !view.definition(symbol).is_label(line, index) {
        return Ok(());
    }
    push_label_row(block, sink, line, address, symbol)
}

// Adds the rows of the labels of a line.
fn push_labels<V: View, W: Sink>(
    block: &mut OutputBlock,
    sink: &mut W,
    view: &V,
    line: u32,
    address: u32,
    mut labels: LabelSlice<'_>,
) -> Result<(), Failed>
    requires few { length labels ≤ 1000 }
    requires failures { W.failures sink.old < 2 ^ 64 - 1 }
    ensures text { Gathers (W.taken sink.old) block.old (concat (labels_symbols (V.shown view.now) line address 0 labels.entry)) result (W.taken sink.new) block.new }
    ensures count { W.failures sink.new ≡ failures_after (W.failures sink.old) result }
{
    let mut index = 0;
    'labels: while let Some((label, later)) = labels.split_first() {
        push_label(block, sink, view, line, address, index, label.name)?;
        index += 1;
        labels = later;
    }
    Ok(())
}

// Adds the row of the `.equ` of a line, if it has one that is the definition of its symbol.
fn push_body<V: View, W: Sink>(
    block: &mut OutputBlock,
    sink: &mut W,
    view: &V,
    line: u32,
    body: &Body,
) -> Result<(), Failed>
    requires { W.failures sink.old < 2 ^ 64 - 1 }
    ensures text { Gathers (W.taken sink.old) block.old (concat (body_symbols (V.shown view.now) line body.now)) result (W.taken sink.new) block.new }
    ensures count { W.failures sink.new ≡ failures_after (W.failures sink.old) result }
{
    let Body::Equ(definition) = body else {
        return Ok(());
    };
    let name = definition.symbol.bytes();
    if !view.definition(name).is_equ(line) {
        return Ok(());
    }
    push_equ_row(block, sink, line, view.value(name), name)
}

// Adds the rows of the symbols that a line defines.
#[tactic(auto, unfolding(crate::specs::Symbols::line_symbols))]
fn push_line_symbols<V: View, W: Sink>(
    block: &mut OutputBlock,
    sink: &mut W,
    view: &V,
    number: u32,
    line: &LineView<'_>,
) -> Result<(), Failed>
    requires few { length line.now.stmt.now.labels ≤ 1000 }
    requires failures { W.failures sink.old < 2 ^ 64 - 1 }
    ensures text { Gathers (W.taken sink.old) block.old (concat (line_symbols (V.shown view.now) number (shown_line line.now))) result (W.taken sink.new) block.new }
    ensures count { W.failures sink.new ≡ failures_after (W.failures sink.old) result }
{
    let labels = line.stmt.labels.as_slice();
    push_labels(block, sink, view, number, line.place.address, labels)?;
    push_body(block, sink, view, number, &line.stmt.body)
}

// Adds the rows of all lines.
fn push_symbol_rows<V: View, W: Sink>(
    block: &mut OutputBlock,
    sink: &mut W,
    view: &V,
) -> Result<(), Failed>
    requires { W.failures sink.old < 2 ^ 64 - 1 }
    ensures text { Gathers (W.taken sink.old) block.old (concat (symbol_rows (V.shown view.now))) result (W.taken sink.new) block.new }
    ensures count { W.failures sink.new ≡ failures_after (W.failures sink.old) result }
{
    let mut lines = view.lines();
    for k in 0..view.line_count() {
        lines.advance();
        push_line_symbols(block, sink, view, k + 1, &lines.line())?;
    }
    Ok(())
}

// Adds the whole text.
#[tactic(auto, unfolding(crate::specs::Symbols::symbol_text))]
fn push_symbols<V: View, W: Sink>(
    block: &mut OutputBlock,
    sink: &mut W,
    view: &V,
) -> Result<(), Failed>
    requires { W.failures sink.old < 2 ^ 64 - 1 }
    ensures text { Gathers (W.taken sink.old) block.old (symbol_text (V.shown view.now)) result (W.taken sink.new) block.new }
    ensures count { W.failures sink.new ≡ failures_after (W.failures sink.old) result }
{
    push_count(block, sink, b"symbols", count_symbols(view))?;
    push_symbol_rows(block, sink, view)
}

/// Writes the symbols of a text, up to the first failure of the writer: how many there are, and for each, in the order of their
/// definitions, its line and its address, or the value of its `.equ` and `?` where that is faulty, and its name. Takes no memory.
///
/// # Errors
///
/// `Write` if a call of the writer failed.
pub fn write_symbols<V: View, W: Sink>(view: &V, sink: &mut W) -> Result<(), ListError>
    requires { W.failures sink.old < 2 ^ 64 - 1 }
    ensures text { Writes (W.taken sink.old) (symbol_text (V.shown view.now)) result (W.taken sink.new) }
    ensures count { W.failures sink.new ≡ failures_after (W.failures sink.old) result }
{
    let mut block = OutputBlock::new();
    let pushed = push_symbols(&mut block, sink, view);
    end_text(&mut block, sink, pushed)
}

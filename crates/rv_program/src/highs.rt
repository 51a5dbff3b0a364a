//! The high halves on the lines of a text, and what `%pcrel_lo` takes.

ghost use Rattle.std.specs.Prelude.{◌≡◌, ◌≤◌, ◌<◌, ◌+◌, ◌^◌, ◌-◌, ◌==◌, ◌⊎◌, Err, None, true, false, length, IfOk, IfSome, IsTrue, Some, map};
ghost use Rattle.std.specs.Option.{is_some, option_map};
ghost use Rattle.rv_expr.specs.declared.faults.ValueFault.TheVariants.{NoPartner};
ghost use Rattle.rv_program.specs.declared.limits.TheConstants.{MAX_LINES};
ghost use Rattle.rv_program.specs.internal.Before.{IsBefore, IsAfter, base_before, lines_before, edit_on};
ghost use Rattle.rv_program.specs.Changes.{is_invalidated};
ghost use Rattle.rv_program.specs.internal.Differing.{HasDiffering, HasSameHigh};
ghost use Rattle.rv_program.specs.internal.HighSymbols.{high_symbol_among, high_symbol_of};
ghost use Rattle.rv_program.specs.Edits.{line_before_edit};
ghost use Rattle.rv_program.specs.Layout.{size_at};
ghost use Rattle.rv_ops.specs.declared.op.Op.TheVariants.{Auipc};
ghost use Rattle.rv_program.specs.Pairs.{is_high_among, is_high_alone, upper_by, pcrel_high_of, high_by, high_at};
ghost use Rattle.rv_program.specs.Program.{body_at};
ghost use Rattle.rv_program.specs.internal.Rows.{own_high_of, AreOwnHighs, AreHighs};
ghost use Rattle.rv_program.specs.internal.SymbolRows.{AreSymbolRows};
ghost use Rattle.rv_program.specs.internal.TextRows.{AreTextRows, AreEquValuesIn, program_in};
ghost use Rattle.rv_program.specs.internal.Work.{high_operands, operands_through, work};

use crate::before::Before;
use crate::invalidation::{is_invalidated, may_be_invalidated};
use crate::jumps::moved_together;
use crate::line_names::references_at;
use crate::line_search::{SearchPart, SearchedLines};
use crate::mask::Kind;
use crate::name_set::NameSet;
use crate::pairs::{high_in, pair_highs};
use crate::room::row_of;
use crate::symbol_rows::SymbolRows;
use crate::text_lines::{brief_on, place_on, statement_on};
use crate::text_rows::TextRows;
use rv_expr::{Expr, Names, Node, ValueFault, value};
use rv_fix::{Entry, displacement};
use rv_ops::Op;
use rv_stmt::{Body, Operand, OperandValue, Role, high_part};
use rv_text::Count;
use std::alloc::{AllocError, Global};

/// The expression of `auipc rd, %pcrel_hi(expression)`.
pub fn pcrel_high(body: &Body) -> Option<&Expr>
    ensures { option_map (λ e. e.now) result ≡ pcrel_high_of body.now }
{
    let Body::Instr(instruction) = body else {
        return None;
    };
    if instruction.op != Op::Auipc {
        return None;
    }
    let [operand, ..] = instruction.operands.as_slice() else {
        return None;
    };
    match &operand.value {
        OperandValue::PcrelHigh(expression) => Some(expression),
        _ => None,
    }
}

/// Whether `%pcrel_hi` is the only operand of an `auipc`.
pub fn is_high_alone(body: &Body) -> bool
    ensures { result ≡ is_high_alone body.now }
{
    let Body::Instr(instruction) = body else {
        return false;
    };
    instruction.op == Op::Auipc && is_high_among(instruction.operands.as_slice())
}

// The symbol, if there is one operand, which is `%pcrel_hi` of it.
fn high_symbol_among(operands: &[Operand]) -> Option<&[u8]>
    ensures { option_map (λ n. n.now) result ≡ high_symbol_among Auipc operands.now }
{
    let [operand] = operands else {
        return None;
    };
    let Role::Immediate = operand.role else {
        return None;
    };
    let OperandValue::PcrelHigh(expression) = &operand.value else {
        return None;
    };
    match &expression.node {
        Node::Symbol(name) => Some(name.bytes()),
        _ => None,
    }
}

/// The symbol of a line of which `%pcrel_hi` of it is the only operand.
pub fn high_symbol(body: &Body) -> Option<&[u8]>
    ensures { option_map (λ n. n.now) result ≡ high_symbol_of body.now }
{
    match body {
        Body::Instr(instruction) if instruction.op == Op::Auipc => {
            high_symbol_among(instruction.operands.as_slice())
        }
        _ => None,
    }
}

// Whether there is one operand, which is `%pcrel_hi`.
fn is_high_among(operands: &[Operand]) -> bool
    ensures { result ≡ is_high_among Auipc operands.now }
{
    let [operand] = operands else {
        return false;
    };
    let Role::Immediate = operand.role else {
        return false;
    };
    matches!(&operand.value, OperandValue::PcrelHigh(_))
}

/// What `%pcrel_hi` gives, by its high half.
pub fn upper_by(high: Entry) -> Entry
    ensures { result ≡ upper_by high }
{
    let high = high?;
    Ok(i64::from(high_part(high)))
}

// The value of that expression less the address of its line.
fn high_by<N: Names, C: Count>(body: &Body, names: &N, here: u32, counter: &mut C) -> Entry
    requires { C.valued_count counter.old < 2 ^ 64 - 1 }
    ensures value { result ≡ high_by (N.environment names.now here) here (pcrel_high_of body.now) }
    ensures least { C.valued_count counter.old ≤ C.valued_count counter.new }
    ensures most { C.valued_count counter.new ≤ C.valued_count counter.old + 1 }
    ensures parsed { C.parsed_count counter.new ≡ C.parsed_count counter.old }
    ensures encoded { C.encoded_count counter.new ≡ C.encoded_count counter.old }
{
    match pcrel_high(body) {
        Some(expression) => {
            let address = value(expression, names, here, counter)?;
            Ok(i64::from(displacement(here, address)))
        }
        None => Err(ValueFault::NoPartner),
    }
}

/// The high half on a line.
pub fn high_on<'a, C: Count>(
    text: &TextRows<'a>,
    equ_values: &'a [Entry],
    line: u32,
    counter: &mut C,
) -> Entry
    requires rows { AreTextRows text.now }
    requires values { AreEquValuesIn text.now (length text.now.lines.now) equ_values.now }
    requires first { 1 ≤ line }
    requires last { line ≤ length text.now.lines.now }
    requires few { length text.now.lines.now ≤ MAX_LINES }
    requires valued { C.valued_count counter.old < 2 ^ 64 - 1 }
    ensures value { result ≡ high_at text.now.base (program_in text.now) line }
    ensures least { C.valued_count counter.old ≤ C.valued_count counter.new }
    ensures most { C.valued_count counter.new ≤ C.valued_count counter.old + 1 }
    ensures parsed { C.parsed_count counter.new ≡ C.parsed_count counter.old }
    ensures encoded { C.encoded_count counter.new ≡ C.encoded_count counter.old }
{
    let names = references_at(text, equ_values, line);
    let place = place_on(text, line);
    high_by(
        &statement_on(text, line).body,
        &names,
        place.address,
        counter,
    )
}

// Whether a line is an `auipc` with `%pcrel_hi`.
fn has_pcrel_high(text: &TextRows<'_>, line: u32) -> bool
    requires first { 1 ≤ line }
    requires last { line ≤ length text.now.lines.now }
    ensures { result ≡ is_some (pcrel_high_of (body_at (program_in text.now) line)) }
{
    text.lines.line(line).brief().pcrel_high
}

// Whether the edit invalidates a line, which its brief usually tells. `differing` has each symbol that differs on one of the lines.
fn is_line_invalidated(
    before: &Before<'_, '_>,
    after: &SymbolRows<'_>,
    differing: &NameSet,
    line: u32,
) -> bool
    requires before { IsBefore before.now }
    requires rows { AreSymbolRows after.now }
    requires after { IsAfter before.now after.now.text }
    requires differing { HasDiffering (base_before before.now) (lines_before before.now) (edit_on before.now) differing.now }
    requires first { 1 ≤ line }
    requires last { line ≤ length after.now.text.lines.now }
    ensures { result ≡ is_invalidated (base_before before.now) (lines_before before.now) (edit_on before.now) line }
{
    let brief = brief_on(&after.text, line);
    if !may_be_invalidated(before, after, differing, brief, line) {
        return false;
    }
    is_invalidated(before, after, differing, line)
}

// Whether a line that stood has the high half that it had: it moved together with its symbol, or the edit does not invalidate it.
fn has_same_high(
    before: &Before<'_, '_>,
    after: &SymbolRows<'_>,
    differing: &NameSet,
    stood: u32,
    line: u32,
) -> bool
    requires before { IsBefore before.now }
    requires rows { AreSymbolRows after.now }
    requires after { IsAfter before.now after.now.text }
    requires differing { HasDiffering (base_before before.now) (lines_before before.now) (edit_on before.now) differing.now }
    requires stood { line_before_edit (edit_on before.now) line ≡ Some stood }
    requires first { 1 ≤ line }
    requires last { line ≤ length after.now.text.lines.now }
    requires high { is_some (pcrel_high_of (body_at (program_in after.now.text) line)) ≡ true }
    requires bytes { (size_at (program_in after.now.text) line == 0) ≡ false }
    ensures same { IsTrue result → HasSameHigh before.now after.now.text stood line }
    ensures other { result ≡ false → is_invalidated (base_before before.now) (lines_before before.now) (edit_on before.now) line ≡ true }
{
    let brief = brief_on(&after.text, line);
    let former = &before.symbols.text;
    if brief.relative && moved_together(former, &after.text, differing, brief.names, stood, line) {
        return true;
    }
    !is_line_invalidated(before, after, differing, line)
}

// What the high half on a line was, if that is known to be what it is: else the edit invalidates the line.
fn high_left(
    before: &Before<'_, '_>,
    after: &SymbolRows<'_>,
    differing: &NameSet,
    line: u32,
) -> Option<Entry>
    requires before { IsBefore before.now }
    requires rows { AreSymbolRows after.now }
    requires after { IsAfter before.now after.now.text }
    requires differing { HasDiffering (base_before before.now) (lines_before before.now) (edit_on before.now) differing.now }
    requires first { 1 ≤ line }
    requires last { line ≤ length after.now.text.lines.now }
    requires high { is_some (pcrel_high_of (body_at (program_in after.now.text) line)) ≡ true }
    requires bytes { (size_at (program_in after.now.text) line == 0) ≡ false }
    ensures high { IfSome result (λ high. high ≡ high_at after.now.text.base (program_in after.now.text) line) }
    ensures none { result ≡ None → is_invalidated (base_before before.now) (lines_before before.now) (edit_on before.now) line ≡ true }
{
    let stood = before.edit.line_before(line)?;
    if !has_same_high(before, after, differing, stood, line) {
        return None;
    }
    Some(high_in(before.highs, stood as usize))
}

// The high half on a line of the text after an edit, if it has bytes: what it was, unless the edit invalidates the line.
fn high_after<C: Count>(
    before: &Before<'_, '_>,
    after: &SymbolRows<'_>,
    differing: &NameSet,
    line: u32,
    counter: &mut C,
) -> Entry
    requires before { IsBefore before.now }
    requires rows { AreSymbolRows after.now }
    requires after { IsAfter before.now after.now.text }
    requires differing { HasDiffering (base_before before.now) (lines_before before.now) (edit_on before.now) differing.now }
    requires first { 1 ≤ line }
    requires last { line ≤ length after.now.text.lines.now }
    requires valued { C.valued_count counter.old < 2 ^ 64 - 1 }
    ensures value { result ≡ own_high_of after.now.text.base (program_in after.now.text) line }
    ensures least { C.valued_count counter.old ≤ C.valued_count counter.new }
    ensures most { C.valued_count counter.new + work high_operands (base_before before.now) (lines_before before.now) (edit_on before.now) (line - 1) ≤ C.valued_count counter.old + work high_operands (base_before before.now) (lines_before before.now) (edit_on before.now) line }
    ensures one { C.valued_count counter.new ≤ C.valued_count counter.old + 1 }
    ensures parsed { C.parsed_count counter.new ≡ C.parsed_count counter.old }
    ensures encoded { C.encoded_count counter.new ≡ C.encoded_count counter.old }
{
    if !has_pcrel_high(&after.text, line) {
        return Err(ValueFault::NoPartner);
    }
    if place_on(&after.text, line).size == 0 {
        return Err(ValueFault::NoPartner);
    }
    match high_left(before, after, differing, line) {
        Some(high) => high,
        None => high_on(&after.text, after.equ_values, line, counter),
    }
}

// The high half on each line that has bytes. Lines without `%pcrel_hi` are gone past; where there are no others, the row is empty.
fn own_highs<C: Count>(
    alloc: Global,
    before: &Before<'_, '_>,
    after: &SymbolRows<'_>,
    differing: &NameSet,
    searched: &SearchedLines<'_>,
    counter: &mut C,
) -> Result<Vec<Entry>, AllocError>
    requires before { IsBefore before.now }
    requires rows { AreSymbolRows after.now }
    requires after { IsAfter before.now after.now.text }
    requires differing { HasDiffering (base_before before.now) (lines_before before.now) (edit_on before.now) differing.now }
    requires searched { searched.now ≡ after.now.text.lines.now }
    requires valued { C.valued_count counter.old + length after.now.text.lines.now < 2 ^ 64 }
    ensures highs { IfOk result (λ row. AreOwnHighs after.now.text.base (program_in after.now.text) row.items) }
    ensures many { IfOk result (λ row. (length row.items ≡ 0) ⊎ (length row.items ≡ length after.now.text.lines.now)) }
    ensures least { C.valued_count counter.old ≤ C.valued_count counter.new }
    ensures most { C.valued_count counter.new ≤ C.valued_count counter.old + length after.now.text.lines.now }
    ensures work { C.valued_count counter.new ≤ C.valued_count counter.old + work high_operands (base_before before.now) (lines_before before.now) (edit_on before.now) (length after.now.text.lines.now) }
    ensures parsed { C.parsed_count counter.new ≡ C.parsed_count counter.old }
    ensures encoded { C.encoded_count counter.new ≡ C.encoded_count counter.old }
{
    let count = searched.len();
    let mut part = SearchPart::start();
    let mut i = searched.next_of_kind(&mut part, 0, Kind::PcrelHigh);
    if i >= count {
        return Ok(Vec::new(alloc));
    }
    let mut row = row_of(alloc, Err(ValueFault::NoPartner), count)?;
    while i < count {
        row[i] = high_after(before, after, differing, i as u32 + 1, counter);
        i = searched.next_of_kind(&mut part, i + 1, Kind::PcrelHigh);
    }
    Ok(row)
}

/// What `%pcrel_lo` of a label on each line of the text after an edit takes, whose lines `searched` has. Where no line has a high half, the row is
/// empty. `differing` has each symbol that differs on one of the lines.
///
/// The counter's number of expressions computed rises by at most the high halves on the lines that the edit invalidates,
/// whatever the outcome.
///
/// # Errors
///
/// Fails only where there is no memory.
pub fn highs<C: Count>(
    alloc: Global,
    before: &Before<'_, '_>,
    after: &SymbolRows<'_>,
    differing: &NameSet,
    searched: &SearchedLines<'_>,
    counter: &mut C,
) -> Result<Vec<Entry>, AllocError>
    requires before { IsBefore before.now }
    requires rows { AreSymbolRows after.now }
    requires after { IsAfter before.now after.now.text }
    requires differing { HasDiffering (base_before before.now) (lines_before before.now) (edit_on before.now) differing.now }
    requires searched { searched.now ≡ after.now.text.lines.now }
    requires valued { C.valued_count counter.old + length after.now.text.lines.now < 2 ^ 64 }
    ensures highs { IfOk result (λ row. AreHighs after.now.text.base (program_in after.now.text) row.items) }
    ensures least { C.valued_count counter.old ≤ C.valued_count counter.new }
    ensures most { C.valued_count counter.new ≤ C.valued_count counter.old + length after.now.text.lines.now }
    ensures work { C.valued_count counter.new ≤ C.valued_count counter.old + work high_operands (base_before before.now) (lines_before before.now) (edit_on before.now) (length after.now.text.lines.now) }
    ensures parsed { C.parsed_count counter.new ≡ C.parsed_count counter.old }
    ensures encoded { C.encoded_count counter.new ≡ C.encoded_count counter.old }
{
    let mut row = own_highs(alloc, before, after, differing, searched, counter)?;
    if row.is_empty() {
        return Ok(row);
    }
    pair_highs(after.text.places, &mut row);
    Ok(row)
}

// The high half on a line of a text, if it has bytes. It is looked at only if it has one.
fn own_high<C: Count>(rows: &SymbolRows<'_>, line: u32, counter: &mut C) -> Entry
    requires rows { AreSymbolRows rows.now }
    requires first { 1 ≤ line }
    requires last { line ≤ length rows.now.text.lines.now }
    requires few { length rows.now.text.lines.now ≤ MAX_LINES }
    requires valued { C.valued_count counter.old < 2 ^ 64 - 1 }
    ensures value { result ≡ own_high_of rows.now.text.base (program_in rows.now.text) line }
    ensures least { C.valued_count counter.old ≤ C.valued_count counter.new }
    ensures most { C.valued_count counter.new ≤ C.valued_count counter.old + high_operands (body_at (program_in rows.now.text) line) }
    ensures one { C.valued_count counter.new ≤ C.valued_count counter.old + 1 }
    ensures parsed { C.parsed_count counter.new ≡ C.parsed_count counter.old }
    ensures encoded { C.encoded_count counter.new ≡ C.encoded_count counter.old }
{
    if !has_pcrel_high(&rows.text, line) {
        return Err(ValueFault::NoPartner);
    }
    if place_on(&rows.text, line).size == 0 {
        return Err(ValueFault::NoPartner);
    }
    high_on(&rows.text, rows.equ_values, line, counter)
}

// The high half on each line of a text that has bytes. Lines without `%pcrel_hi` are gone past; where there are no others, the row is empty.
fn all_own_highs<C: Count>(
    alloc: Global,
    rows: &SymbolRows<'_>,
    searched: &SearchedLines<'_>,
    counter: &mut C,
) -> Result<Vec<Entry>, AllocError>
    requires rows { AreSymbolRows rows.now }
    requires searched { searched.now ≡ rows.now.text.lines.now }
    requires few { length rows.now.text.lines.now ≤ MAX_LINES }
    requires valued { C.valued_count counter.old + length rows.now.text.lines.now < 2 ^ 64 }
    ensures highs { IfOk result (λ row. AreOwnHighs rows.now.text.base (program_in rows.now.text) row.items) }
    ensures many { IfOk result (λ row. (length row.items ≡ 0) ⊎ (length row.items ≡ length rows.now.text.lines.now)) }
    ensures least { C.valued_count counter.old ≤ C.valued_count counter.new }
    ensures operands { C.valued_count counter.new ≤ C.valued_count counter.old + operands_through high_operands (program_in rows.now.text) (length rows.now.text.lines.now) }
    ensures parsed { C.parsed_count counter.new ≡ C.parsed_count counter.old }
    ensures encoded { C.encoded_count counter.new ≡ C.encoded_count counter.old }
{
    let count = searched.len();
    let mut part = SearchPart::start();
    let mut i = searched.next_of_kind(&mut part, 0, Kind::PcrelHigh);
    if i >= count {
        return Ok(Vec::new(alloc));
    }
    let none = Err(ValueFault::NoPartner);
    let mut row = row_of(alloc, none, count)?;
    while i < count {
        row[i] = own_high(rows, i as u32 + 1, counter);
        i = searched.next_of_kind(&mut part, i + 1, Kind::PcrelHigh);
    }
    Ok(row)
}

/// What `%pcrel_lo` of a label on each line of a text takes, whose lines `searched` has. Where no line has a high half, the row is empty.
///
/// The counter's number of expressions computed rises by at most the high halves, whatever the outcome.
///
/// # Errors
///
/// Fails only where there is no memory.
pub fn all_highs<C: Count>(
    alloc: Global,
    rows: &SymbolRows<'_>,
    searched: &SearchedLines<'_>,
    counter: &mut C,
) -> Result<Vec<Entry>, AllocError>
    requires rows { AreSymbolRows rows.now }
    requires searched { searched.now ≡ rows.now.text.lines.now }
    requires few { length rows.now.text.lines.now ≤ MAX_LINES }
    requires valued { C.valued_count counter.old + length rows.now.text.lines.now < 2 ^ 64 }
    ensures highs { IfOk result (λ row. AreHighs rows.now.text.base (program_in rows.now.text) row.items) }
    ensures least { C.valued_count counter.old ≤ C.valued_count counter.new }
    ensures operands { C.valued_count counter.new ≤ C.valued_count counter.old + operands_through high_operands (program_in rows.now.text) (length rows.now.text.lines.now) }
    ensures parsed { C.parsed_count counter.new ≡ C.parsed_count counter.old }
    ensures encoded { C.encoded_count counter.new ≡ C.encoded_count counter.old }
{
    let mut row = all_own_highs(alloc, rows, searched, counter)?;
    if row.is_empty() {
        return Ok(row);
    }
    pair_highs(rows.text.places, &mut row);
    Ok(row)
}

//! Jumps and the like: lines that use the address of one label, counted from their own, and nothing else.

ghost use Rattle.std.specs.Prelude.{◌≡◌, ◌≤◌, ◌<◌, ◌+◌, ◌-◌, ◌^◌, ◌+ℤ◌, pos, ℕ, List, IsTrue, false, not, length};
ghost use Rattle.std.specs.Option.{option_map};
ghost use Rattle.rv_program.specs.declared.limits.TheConstants.{MAX_LINES};
ghost use Rattle.rv_program.specs.Jumps.{target_among, target_of, distance};
ghost use Rattle.rv_program.specs.Layout.{address_at};
ghost use Rattle.rv_program.specs.Program.{body_at};
ghost use Rattle.rv_program.specs.References.{address_of_line, local_line, reference_of};
ghost use Rattle.rv_program.specs.internal.Differing.{MovedTogether};
ghost use Rattle.rv_program.specs.internal.Rows.{number_of};
ghost use Rattle.rv_program.specs.Sameness.{same_entry};
ghost use Rattle.rv_program.specs.internal.SymbolRows.{AreSymbolRows};
ghost use Rattle.rv_program.specs.internal.TextRows.{AreTextRows, program_in, address_in_text};
ghost use Rattle.rv_program.specs.Uses.{is_equ};

use crate::locals::LocalGuess;
use crate::name_set::NameSet;
use crate::symbol_rows::SymbolRows;
use crate::text_lines::place_on;
use crate::text_rows::{TextRows, address_of_found};
use crate::used_names::UsedNames;
use rv_expr::{Direction, Expr, Node};
use rv_fix::{Entry, displacement, is_same_entry};
use rv_stmt::{Body, Operand, OperandValue, Role};
use rv_text::Count;

/// By how much the address of `line` is greater than that of the line `stood` was. It stays a call, so that a loop over the lines does not
/// read what it asks for few of them.
#[inline(never)]
pub fn rise(before: &TextRows<'_>, after: &TextRows<'_>, stood: u32, line: u32) -> i64
    requires before { AreTextRows before.now }
    requires after { AreTextRows after.now }
    requires first_stood { 1 ≤ stood }
    requires last_stood { stood ≤ length before.now.lines.now }
    requires first { 1 ≤ line }
    requires last { line ≤ length after.now.lines.now }
    ensures { pos (address_in_text after.now line) ≡ pos (address_in_text before.now stood) +ℤ result }
{
    let here = place_on(after, line).address;
    let there = place_on(before, stood).address;
    i64::from(here) - i64::from(there)
}

/// Whether a line moved as far as the lines after the edit, and so did what it uses, where that is one name alone.
#[inline]
pub fn moved_together(
    before: &TextRows<'_>,
    after: &TextRows<'_>,
    differing: &NameSet,
    names: UsedNames,
    stood: u32,
    line: u32,
) -> bool
    requires before { AreTextRows before.now }
    requires after { AreTextRows after.now }
    requires first_stood { 1 ≤ stood }
    requires last_stood { stood ≤ length before.now.lines.now }
    requires first { 1 ≤ line }
    requires last { line ≤ length after.now.lines.now }
    ensures { IsTrue result → MovedTogether before.now after.now differing.now names stood line }
{
    names.has_moved(differing) && rise(before, after, stood, line) == differing.shift()
}

// The symbol or local label that the only operand is, where its role is that of a target.
fn target_among(operands: &[Operand]) -> Option<&Expr>
    ensures { option_map (λ e. e.now) result ≡ target_among operands.now }
{
    let [operand] = operands else {
        return None;
    };
    let (Role::Target | Role::PairTarget) = operand.role else {
        return None;
    };
    let OperandValue::Plain(expression) = &operand.value else {
        return None;
    };
    match &expression.node {
        Node::Symbol(_) | Node::Local(_, _) => Some(expression),
        _ => None,
    }
}

/// The symbol or local label that a line goes to, if that is its only operand.
pub fn target(body: &Body) -> Option<&Expr>
    ensures { option_map (λ e. e.now) result ≡ target_of body.now }
{
    match body {
        Body::Instr(instruction) | Body::Pseudo(instruction) => {
            target_among(instruction.operands.as_slice())
        }
        _ => None,
    }
}

// How far the symbol of this number, or one that has none, is from a line that is no `.equ`.
fn distance(rows: &SymbolRows<'_>, number: Option<usize>, line: u32) -> Entry
    requires rows { AreSymbolRows rows.now }
    requires few { length rows.now.text.lines.now ≤ MAX_LINES }
    requires first { 1 ≤ line }
    requires last { line ≤ length rows.now.text.lines.now }
    requires no_equ { is_equ (body_at (program_in rows.now.text) line) ≡ false }
    ensures { (name : List ℕ) → number_of rows.now.text.names.now name ≡ number
        → result ≡ distance (address_at rows.now.text.base (program_in rows.now.text) line) (reference_of rows.now.text.base (program_in rows.now.text) line name) }
{
    let here = place_on(&rows.text, line).address;
    let address = rows.value_of(number)?;
    Ok(i64::from(displacement(here, address)))
}

/// Whether a symbol is another distance from `line` than it was from the line `stood`, which are no `.equ`s.
pub fn differs_in_distance(
    before: &SymbolRows<'_>,
    after: &SymbolRows<'_>,
    name: &[u8],
    stood: u32,
    line: u32,
) -> bool
    requires before { AreSymbolRows before.now }
    requires after { AreSymbolRows after.now }
    requires names { after.now.text.names.now ≡ before.now.text.names.now }
    requires few { length before.now.text.lines.now ≤ MAX_LINES }
    requires few_after { length after.now.text.lines.now ≤ MAX_LINES }
    requires first_stood { 1 ≤ stood }
    requires last_stood { stood ≤ length before.now.text.lines.now }
    requires first { 1 ≤ line }
    requires last { line ≤ length after.now.text.lines.now }
    requires no_equ_before { is_equ (body_at (program_in before.now.text) stood) ≡ false }
    requires no_equ { is_equ (body_at (program_in after.now.text) line) ≡ false }
    ensures { result ≡ not (same_entry
        (distance (address_at after.now.text.base (program_in after.now.text) line) (reference_of after.now.text.base (program_in after.now.text) line name.now))
        (distance (address_at before.now.text.base (program_in before.now.text) stood) (reference_of before.now.text.base (program_in before.now.text) stood name.now))) }
{
    let number = after.text.names.number(name);
    !is_same_entry(
        distance(after, number, line),
        distance(before, number, stood),
    )
}

// The address of a local label as a line names it. `near` is a guess of where the label is.
fn local_address(
    text: &TextRows<'_>,
    number: u16,
    direction: Direction,
    line: u32,
    near: LocalGuess,
) -> Entry
    requires rows { AreTextRows text.now }
    requires last { line ≤ length text.now.lines.now }
    ensures { result ≡ address_of_line text.now.base (program_in text.now) (local_line (program_in text.now) line number direction) }
{
    address_of_found(
        text.places,
        text.locals.line_near(line, number, direction, near),
    )
}

// How far a local label is from a line. `near` is as for `local_address`.
fn local_distance(
    text: &TextRows<'_>,
    number: u16,
    direction: Direction,
    line: u32,
    near: LocalGuess,
) -> Entry
    requires rows { AreTextRows text.now }
    requires first { 1 ≤ line }
    requires last { line ≤ length text.now.lines.now }
    ensures { result ≡ distance (address_at text.now.base (program_in text.now) line) (address_of_line text.now.base (program_in text.now) (local_line (program_in text.now) line number direction)) }
{
    let here = place_on(text, line).address;
    let address = local_address(text, number, direction, line, near)?;
    Ok(i64::from(displacement(here, address)))
}

/// Whether a local label is another distance from `line` than it was from the line `stood`. The counter's number of expressions computed
/// rises by one.
pub fn differs_in_local_distance<C: Count>(
    before: &TextRows<'_>,
    after: &TextRows<'_>,
    number: u16,
    direction: Direction,
    stood: u32,
    line: u32,
    counter: &mut C,
) -> bool
    requires before { AreTextRows before.now }
    requires after { AreTextRows after.now }
    requires first_stood { 1 ≤ stood }
    requires last_stood { stood ≤ length before.now.lines.now }
    requires first { 1 ≤ line }
    requires last { line ≤ length after.now.lines.now }
    requires count { C.valued_count counter.old < 2 ^ 64 - 1 }
    ensures differs { result ≡ not (same_entry
        (distance (address_at after.now.base (program_in after.now) line) (address_of_line after.now.base (program_in after.now) (local_line (program_in after.now) line number direction)))
        (distance (address_at before.now.base (program_in before.now) stood) (address_of_line before.now.base (program_in before.now) (local_line (program_in before.now) stood number direction)))) }
    ensures valued { C.valued_count counter.new ≡ C.valued_count counter.old + 1 }
    ensures parsed { C.parsed_count counter.new ≡ C.parsed_count counter.old }
    ensures encoded { C.encoded_count counter.new ≡ C.encoded_count counter.old }
{
    counter.valued();
    let near = after.locals.guess(line, number);
    !is_same_entry(
        local_distance(after, number, direction, line, near),
        local_distance(before, number, direction, stood, near),
    )
}

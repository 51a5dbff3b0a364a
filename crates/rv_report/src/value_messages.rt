//! The messages of the faults of values.

ghost use Rattle.std.specs.Prelude.{◌≡◌, ◌≤◌, ◌++◌, length, OnOk};
ghost use Rattle.rv_show.specs.declared.numbers.Notation.TheVariants.{Decimal};
ghost use Rattle.rv_show.specs.Parts.{part};
ghost use Rattle.rv_report.specs.declared.advice.Topic.TheVariants.{RangeExceeded};
ghost use Rattle.rv_report.specs.Advice.{advice};
ghost use Rattle.rv_report.specs.Lines.{line_of};
ghost use Rattle.rv_report.specs.Messages.{operand_of_line, value_of_line, amount, beyond_reach, multiple_in_role, multiple_of, name_of_statement, not_multiple, odd_address, odd_distance, out_of_range, out_of_reach, range_in_role, range_of, side};

use crate::advice::{Topic, advice};
use crate::bounds::{limits_in, notation_in, push_limits};
use crate::faulty_line::{FaultyLine, operand_in, value_in};
use crate::statement_words::name_of_statement;
use rv_ops::Limits;
use rv_show::{Notation, Text, part, push_number_in};
use rv_stmt::{AlignmentUnit, Role};
use rv_text::Span;
use std::alloc::{AllocError, Global};

// Appends a value, or the operand that should have one.
fn push_amount(
    out: &mut Text,
    notation: Notation,
    text: &[u8],
    value: Option<i64>,
) -> Result<(), AllocError>
    ensures { OnOk result (out.new ≡ out.old ++ amount notation text.now value) }
{
    match value {
        Some(value) => push_number_in(out, notation, value),
        None => out.push_quoted(text),
    }
}

// On which side of a line a target is.
fn side(distance: i64) -> &'static [u8]
    ensures { result.now ≡ side distance }
{
    if distance < 0 {
        b" bytes behind"
    } else {
        b" bytes ahead"
    }
}

// Appends how far away a target is.
#[tactic(auto, unfolding(crate::specs::Messages::beyond_reach))]
fn push_beyond_reach(out: &mut Text, distance: i64, limits: &Limits) -> Result<(), AllocError>
    ensures { OnOk result (out.new ≡ out.old ++ beyond_reach distance limits.now) }
{
    out.push(b"the target is ")?;
    out.push_number(distance.unsigned_abs())?;
    out.push(side(distance))?;
    out.push(b"; the reach is ")?;
    push_limits(out, Notation::Decimal, limits)
}

// Appends that a value is out of range.
#[tactic(auto, unfolding(crate::specs::Messages::out_of_range))]
fn push_out_of_range(
    out: &mut Text,
    notation: Notation,
    text: &[u8],
    value: Option<i64>,
    limits: &Limits,
) -> Result<(), AllocError>
    ensures { OnOk result (out.new ≡ out.old ++ out_of_range notation (amount notation text.now value) limits.now) }
{
    push_amount(out, notation, text, value)?;
    out.push(b" is out of range (")?;
    push_limits(out, notation, limits)?;
    out.push(b")")
}

// Appends that a target is out of reach.
fn push_out_of_reach(
    out: &mut Text,
    text: &[u8],
    value: Option<i64>,
    limits: &Limits,
) -> Result<(), AllocError>
    ensures { OnOk result (out.new ≡ out.old ++ out_of_reach text.now value limits.now) }
{
    match value {
        Some(distance) => push_beyond_reach(out, distance, limits),
        None => push_out_of_range(out, Notation::Decimal, text, None, limits),
    }
}

// A value out of the range of its role. That of an alignment is not the number that is written.
fn push_range_in_role(
    out: &mut Text,
    role: Role,
    notation: Notation,
    text: &[u8],
    value: Option<i64>,
    limits: &Limits,
) -> Result<(), AllocError>
    ensures { OnOk result (out.new ≡ out.old ++ range_in_role role notation text.now value limits.now) }
{
    match role {
        Role::Target => push_out_of_reach(out, text, value, limits),
        Role::PairTarget => push_out_of_reach(out, text, value, limits),
        Role::Alignment(AlignmentUnit::Bytes) => {
            out.push_about(b"", text, b" is not a power of two from 1 to 4096")
        }
        Role::Alignment(AlignmentUnit::Exponent) => {
            push_out_of_range(out, notation, text, None, limits)
        }
        _ => push_out_of_range(out, notation, text, value, limits),
    }
}

// A value out of range, of the operand at a span of a line.
fn push_range(out: &mut Text, line: &FaultyLine<'_>, span: Span) -> Result<(), AllocError>
    ensures { OnOk result (out.new ≡ out.old ++ range_of line.now.stmt.now.body (part line.now.text.now span) (value_of_line (line_of line.now) span) (operand_of_line (line_of line.now) span)) }
{
    let text = part(line.text, span);
    let Some(operand) = operand_in(line, span) else {
        return out.push_about(b"", text, b" is out of range");
    };
    let notation = notation_in(&line.stmt.body, operand.role);
    let limits = limits_in(&line.stmt.body, operand.role);
    let value = value_in(line, span);
    push_range_in_role(out, operand.role, notation, text, value, &limits)
}

/// A value out of range, of the operand at a span of a line, and what to write in place of it.
pub fn push_range_and_help(
    out: &mut Text,
    alloc: Global,
    line: &FaultyLine<'_>,
    span: Span,
) -> Result<(), AllocError>
    requires labels { length line.now.stmt.now.labels ≤ 1000 }
    requires text { length line.now.text.now ≤ 1000 }
    ensures { OnOk result (out.new ≡ out.old ++ (range_of line.now.stmt.now.body (part line.now.text.now span) (value_of_line (line_of line.now) span) (operand_of_line (line_of line.now) span) ++ advice RangeExceeded (name_of_statement (line_of line.now)))) }
{
    push_range(out, line, span)?;
    let statement = name_of_statement(alloc, line)?;
    out.push(advice(Topic::RangeExceeded, statement))
}

// Appends that a target is at an odd distance.
#[tactic(auto, unfolding(crate::specs::Messages::odd_distance))]
fn push_odd_distance(out: &mut Text, text: &[u8], value: Option<i64>) -> Result<(), AllocError>
    ensures { OnOk result (out.new ≡ out.old ++ odd_distance (amount Decimal text.now value)) }
{
    out.push(b"the target is at an odd distance, ")?;
    push_amount(out, Notation::Decimal, text, value)
}

// Appends that a value is no multiple.
#[tactic(auto, unfolding(crate::specs::Messages::not_multiple))]
fn push_not_multiple(
    out: &mut Text,
    text: &[u8],
    value: Option<i64>,
    limits: &Limits,
) -> Result<(), AllocError>
    ensures { OnOk result (out.new ≡ out.old ++ not_multiple (amount Decimal text.now value) limits.now) }
{
    push_amount(out, Notation::Decimal, text, value)?;
    out.push(b" is not a multiple of ")?;
    out.push_number(limits.multiple)
}

// A value in range that is no multiple, in a role.
fn push_multiple_in_role(
    out: &mut Text,
    role: Role,
    text: &[u8],
    value: Option<i64>,
    limits: &Limits,
) -> Result<(), AllocError>
    ensures { OnOk result (out.new ≡ out.old ++ multiple_in_role role (amount Decimal text.now value) limits.now) }
{
    match role {
        Role::Target => push_odd_distance(out, text, value),
        Role::PairTarget => push_odd_distance(out, text, value),
        _ => push_not_multiple(out, text, value, limits),
    }
}

/// A value in range that is no multiple, of the operand at a span of a line.
pub fn push_multiple(out: &mut Text, line: &FaultyLine<'_>, span: Span) -> Result<(), AllocError>
    ensures { OnOk result (out.new ≡ out.old ++ multiple_of line.now.stmt.now.body (part line.now.text.now span) (value_of_line (line_of line.now) span) (operand_of_line (line_of line.now) span)) }
{
    let text = part(line.text, span);
    let Some(operand) = operand_in(line, span) else {
        return out.push_about(b"", text, b" is not a multiple");
    };
    let limits = limits_in(&line.stmt.body, operand.role);
    push_multiple_in_role(out, operand.role, text, value_in(line, span), &limits)
}

/// An instruction at an odd address.
#[tactic(auto, unfolding(crate::specs::Messages::odd_address))]
pub fn push_odd_address(out: &mut Text, address: u32) -> Result<(), AllocError>
    ensures { OnOk result (out.new ≡ out.old ++ odd_address address) }
{
    out.push(b"an instruction at the odd address 0x")?;
    out.push_word(address)
}

//! The values that an operand may have.

ghost use Rattle.std.specs.Prelude.{◌≡◌, ◌++◌, OnOk};
ghost use Rattle.rv_ops.specs.Table.{shape_of};
ghost use Rattle.rv_report.specs.Bounds.{between, from_to, gap_text, limits_in, limits_of_body, limits_text, notation_in, notation_of, notation_of_body, word};

use rv_ops::{Limits, Op, Shape, limits, shape};
use rv_show::{Notation, Text, push_number_in};
use rv_stmt::{AlignmentUnit, Body, DataWidth, Role};
use std::alloc::AllocError;

// All values from one to another.
fn between(least: i64, greatest: i64) -> Limits
    ensures { result ≡ between least greatest }
{
    Limits {
        least,
        greatest,
        multiple: 1,
        gap_first: 1,
        gap_last: 0,
    }
}

// Those of 32 bits, with a sign or without.
fn word() -> Limits
    ensures { result ≡ word }
{
    between(-0x8000_0000, 0xffff_ffff)
}

// Those that the operation of a body takes.
fn limits_of_body(body: &Body) -> Limits
    ensures { result ≡ limits_of_body body.now }
{
    match body {
        Body::Instr(instruction) => limits(instruction.op),
        Body::Pseudo(instruction) => limits(instruction.op),
        _ => word(),
    }
}

/// The values that an operand takes in its role.
pub fn limits_in(body: &Body, role: Role) -> Limits
    ensures { result ≡ limits_in body.now role }
{
    match role {
        Role::Immediate | Role::Target => limits_of_body(body),
        Role::SourceImmediate => between(0, 31),
        Role::Data(DataWidth::Byte) | Role::FillByte => between(-0x80, 0xff),
        Role::Data(DataWidth::Half) => between(-0x8000, 0xffff),
        Role::Data(DataWidth::Word) => word(),
        Role::Size => between(0, 65536),
        Role::Alignment(AlignmentUnit::Exponent) => between(0, 12),
        Role::Alignment(AlignmentUnit::Bytes) => between(1, 4096),
        Role::Constant | Role::PairTarget | Role::Definition => word(),
    }
}

// How the values of an operation are written.
fn notation_of(op: Op) -> Notation
    ensures { result ≡ notation_of (shape_of op) }
{
    match shape(op) {
        Shape::Upper | Shape::CUpper => Notation::Hexadecimal,
        _ => Notation::Decimal,
    }
}

// How the values of the operation of a body are written.
fn notation_of_body(body: &Body) -> Notation
    ensures { result ≡ notation_of_body body.now }
{
    match body {
        Body::Instr(instruction) => notation_of(instruction.op),
        Body::Pseudo(instruction) => notation_of(instruction.op),
        _ => Notation::Decimal,
    }
}

/// How the values of an operand are written, by its role.
pub fn notation_in(body: &Body, role: Role) -> Notation
    ensures { result ≡ notation_in body.now role }
{
    match role {
        Role::Immediate => notation_of_body(body),
        _ => Notation::Decimal,
    }
}

// Appends the least and the greatest of some values.
#[tactic(auto, unfolding(crate::specs::Bounds::from_to))]
fn push_from_to(out: &mut Text, notation: Notation, first: i64, last: i64) -> Result<(), AllocError>
    ensures { OnOk result (out.new ≡ out.old ++ from_to notation first last) }
{
    push_number_in(out, notation, first)?;
    out.push(b" to ")?;
    push_number_in(out, notation, last)
}

// Appends the values that are left out, if there are any.
#[tactic(auto, unfolding(crate::specs::Bounds::gap_text))]
fn push_gap(out: &mut Text, notation: Notation, first: i64, last: i64) -> Result<(), AllocError>
    ensures { OnOk result (out.new ≡ out.old ++ gap_text notation first last) }
{
    if first > last {
        return Ok(());
    }
    out.push(b", not ")?;
    if last <= first {
        return push_number_in(out, notation, first);
    }
    push_from_to(out, notation, first, last)
}

/// Appends the values within limits.
#[tactic(auto, unfolding(crate::specs::Bounds::limits_text))]
pub fn push_limits(out: &mut Text, notation: Notation, limits: &Limits) -> Result<(), AllocError>
    ensures { OnOk result (out.new ≡ out.old ++ limits_text notation limits.now) }
{
    push_from_to(out, notation, limits.least, limits.greatest)?;
    push_gap(out, notation, limits.gap_first, limits.gap_last)
}

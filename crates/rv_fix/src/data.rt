//! The bytes of data.

ghost use Rattle.std.specs.Prelude.{◌≡◌, ◌++◌, [], replicate, Ok, IfOk, OnOk};
ghost use Rattle.rv_stmt.specs.Data.{data_width, values_size};
ghost use Rattle.rv_stmt.specs.Readings.{and_then};
ghost use Rattle.rv_fix.specs.Data.{in_width, low_bytes, with_values};
ghost use Rattle.rv_fix.specs.Reports.{made_of};

use crate::line_bytes::LineBytes;
use crate::reports::{at_span, ranged};
use crate::values::Entry;
use rv_layout::value_at;
use rv_stmt::{DataWidth, Operand, Role};
use rv_text::{Fault, FaultNumber};
use std::alloc::{AllocError, Global};

// A value that its width holds, with a sign or without.
fn in_width(role: Role, value: i64) -> Result<i64, FaultNumber>
    ensures { result ≡ in_width role value }
{
    match role {
        Role::Data(DataWidth::Byte) => ranged(-0x80, 0xff, value),
        Role::Data(DataWidth::Half) => ranged(-0x8000, 0xffff, value),
        Role::Data(DataWidth::Word) => ranged(-0x8000_0000, 0xffff_ffff, value),
        _ => Ok(value),
    }
}

// The value of an operand that its width holds, or its fault.
fn checked(operand: &Operand, entry: Entry) -> Result<i64, Fault>
    ensures { result ≡ made_of operand.now entry (in_width operand.now.role) }
{
    let value = value_at(operand.span, entry)?;
    at_span(operand.span, in_width(operand.role, value))
}

// Appends as many of the lowest bytes of a value as its role takes.
fn append_value(bytes: &mut LineBytes, role: Role, value: i64) -> Result<(), AllocError>
    ensures { OnOk result (bytes.new ≡ bytes.old ++ low_bytes (data_width role) value) }
{
    match role {
        Role::Data(width) => bytes.append_value(width, value),
        _ => Ok(()),
    }
}

// Appends the bytes of values from left to right, up to the first fault.
fn append_values(
    bytes: &mut LineBytes,
    mut operands: &[Operand],
    mut entries: &[Entry],
) -> Result<Result<(), Fault>, AllocError>
    ensures { IfOk result (λ r. with_values operands.entry.now entries.entry.now bytes.old ≡ and_then r (λ _. Ok bytes.new)) }
{
    while let [operand, more_operands @ ..] = operands {
        let [entry, more_entries @ ..] = entries else {
            return Ok(Ok(()));
        };
        match checked(operand, *entry) {
            Ok(value) => append_value(bytes, operand.role, value)?,
            Err(fault) => return Ok(Err(fault)),
        }
        operands = more_operands;
        entries = more_entries;
    }
    Ok(Ok(()))
}

/// The bytes of values from left to right, or the first fault.
pub fn bytes_of_values(
    alloc: Global,
    operands: &[Operand],
    entries: &[Entry],
) -> Result<Result<LineBytes, Fault>, AllocError>
    ensures { IfOk result (λ r. r ≡ with_values operands.entry.now entries.entry.now []) }
{
    let mut bytes = LineBytes::new(alloc);
    match append_values(&mut bytes, operands, entries)? {
        Ok(()) => Ok(Ok(bytes)),
        Err(fault) => Ok(Err(fault)),
    }
}

// Appends as many zeros as a value has bytes in its role.
#[tactic(auto, using(crate::proofs::Zeros::low_bytes_of_zero))]
fn append_zeros(bytes: &mut LineBytes, role: Role) -> Result<(), AllocError>
    ensures { OnOk result (bytes.new ≡ bytes.old ++ replicate (data_width role) 0) }
{
    append_value(bytes, role, 0)
}

/// As many zeros as values have bytes.
#[tactic(auto, using(crate::proofs::Zeros::more_zeros))]
pub fn zeros_of_values(alloc: Global, mut operands: &[Operand]) -> Result<LineBytes, AllocError>
    ensures { IfOk result (λ b. b ≡ replicate (values_size operands.entry.now) 0) }
{
    let mut bytes = LineBytes::new(alloc);
    while let [operand, rest @ ..] = operands {
        append_zeros(&mut bytes, operand.role)?;
        operands = rest;
    }
    Ok(bytes)
}

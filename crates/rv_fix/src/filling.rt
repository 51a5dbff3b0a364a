//! Fills the fields of an instruction with the values of its operands.

ghost use Rattle.std.specs.Prelude.{◌≡◌, ◌<◌, pos, Ok, Err, if◌then◌else◌};
ghost use Rattle.rv_text.specs.declared.faults.FaultNumber.TheVariants as fault;
ghost use Rattle.rv_ops.specs.Limits.{limit_fault};
ghost use Rattle.rv_stmt.specs.Readings.{and_then};
ghost use Rattle.rv_layout.specs.Shapes.{is_loadable, with_value};
ghost use Rattle.rv_fix.specs.Filling.{unless_fault, limited, with_source, with_number, filled};
ghost use Rattle.rv_fix.specs.Reports.{ranged, made_of};

use crate::reports::at_span;
use crate::values::Entry;
use rv_code::Fields;
use rv_layout::{is_loadable, value_at, with_value};
use rv_ops::{LimitFault, Limits, Reg};
use rv_stmt::{Operand, Role};
use rv_text::{Fault, FaultNumber};

// A value within the limits of an operation.
fn limited(limits: &Limits, value: i64) -> Result<i64, FaultNumber>
    ensures { result ≡ limited limits.now value }
{
    match limits.fault(value) {
        None => Ok(value),
        Some(LimitFault::Range) => Err(FaultNumber::Range),
        Some(LimitFault::Multiple) => Err(FaultNumber::Multiple),
    }
}

// The fields with a value within the limits.
fn with_limited(limits: &Limits, value: i64, fields: &Fields) -> Result<Fields, FaultNumber>
    ensures { result ≡ and_then (limited limits.now value) (λ v. Ok (with_value v fields.now)) }
{
    let value = limited(limits, value)?;
    Ok(with_value(value, fields))
}

// The fields with a number of five bits in the place of `rs1`.
fn with_source(value: i64, fields: &Fields) -> Result<Fields, FaultNumber>
    ensures { result ≡ and_then (ranged (pos 0) (pos 31) value) (λ v. Ok (with_source v fields.now)) }
{
    if value < 0 || 31 < value {
        return Err(FaultNumber::Range);
    }
    match Reg::new(value as u8) {
        Some(rs1) => Ok(Fields {
            rd: fields.rd,
            rs1,
            rs2: fields.rs2,
            value: fields.value,
        }),
        None => Err(FaultNumber::Range),
    }
}

// The fields with the constant of a constant load.
fn with_constant(value: i64, fields: &Fields) -> Result<Fields, FaultNumber>
    ensures { result ≡ (if is_loadable value then Ok (with_value value fields.now) else Err fault.Range) }
{
    if is_loadable(value) {
        Ok(with_value(value, fields))
    } else {
        Err(FaultNumber::Range)
    }
}

// The fields with the value of an operand in its role.
fn with_number(
    limits: &Limits,
    role: Role,
    value: i64,
    fields: &Fields,
) -> Result<Fields, FaultNumber>
    ensures { result ≡ with_number limits.now role value fields.now }
{
    match role {
        Role::Immediate | Role::Target => with_limited(limits, value, fields),
        Role::SourceImmediate => with_source(value, fields),
        Role::PairTarget => Ok(with_value(value, fields)),
        Role::Constant => with_constant(value, fields),
        Role::Data(_) | Role::Size | Role::FillByte | Role::Alignment(_) | Role::Definition => {
            Ok(*fields)
        }
    }
}

// The fields with an operand, which may have no value.
fn with_operand(
    limits: &Limits,
    operand: &Operand,
    entry: Entry,
    fields: &Fields,
) -> Result<Fields, Fault>
    ensures { result ≡ made_of operand.now entry (λ v. with_number limits.now operand.now.role v fields.now) }
{
    let value = value_at(operand.span, entry)?;
    at_span(
        operand.span,
        with_number(limits, operand.role, value, fields),
    )
}

/// The fields with the values of all operands, or the first fault from the left. The operation takes values within the
/// limits.
pub fn filled(
    limits: &Limits,
    mut operands: &[Operand],
    mut entries: &[Entry],
    start: Fields,
) -> Result<Fields, Fault>
    ensures { result ≡ filled limits.now operands.entry.now entries.entry.now start }
{
    let mut fields = start;
    while let [operand, more_operands @ ..] = operands {
        let [entry, more_entries @ ..] = entries else {
            return Ok(fields);
        };
        fields = with_operand(limits, operand, *entry, &fields)?;
        operands = more_operands;
        entries = more_entries;
    }
    Ok(fields)
}

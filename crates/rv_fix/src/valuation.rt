//! Computes the values of a line's operands.

ghost use Rattle.std.specs.Prelude.{◌≡◌, ◌+◌, ◌-◌, ◌<◌, ◌≤◌, ◌^◌, min, pos, length, map, Ok, IfOk};
ghost use Rattle.rv_stmt.specs.Readings.{and_then};
ghost use Rattle.rv_stmt.specs.Statement.{operands_of};
ghost use Rattle.rv_stmt.specs.ValueParts.{high_part, low_part};
ghost use Rattle.rv_layout.specs.Shapes.{exponent_by_role};
ghost use Rattle.rv_fix.specs.Displacements.{displacement};
ghost use Rattle.rv_fix.specs.Values.{given_to, operand_value, bytes_to_alignment, counted_from, entry_of, operand_values_of};

use crate::constants::ForConstants;
use crate::displacements::displacement;
use crate::error::FixError;
use crate::values::{Entry, Values};
use rv_expr::{Names, value};
use rv_layout::alignment_by_role;
use rv_stmt::{Operand, OperandValue, Role, Stmt, high_part, low_part};
use rv_text::{Count, Sequence};
use std::alloc::{AllocError, Global};

// The upper part of a value, if there is one.
fn high_of(given: Entry) -> Entry
    ensures { result ≡ and_then given (λ v. Ok (high_part v)) }
{
    let given = given?;
    Ok(i64::from(high_part(given)))
}

// The lower part of a value, if there is one.
fn low_of(given: Entry) -> Entry
    ensures { result ≡ and_then given (λ v. Ok (low_part v)) }
{
    let given = given?;
    Ok(i64::from(low_part(given)))
}

// The upper part of how far an address is from that of the line, if there is one.
fn high_of_displacement(here: u32, address: Entry) -> Entry
    ensures { result ≡ and_then address (λ v. Ok (high_part (displacement here v))) }
{
    let address = address?;
    Ok(i64::from(high_part(i64::from(displacement(here, address)))))
}

// The value of an expression, or the part of it that a modifier takes.
fn operand_value<N: Names, C: Count>(
    operand: &OperandValue,
    names: &N,
    here: u32,
    counter: &mut C,
) -> Entry
    requires { C.valued_count counter.old < 2 ^ 64 - 1 }
    ensures value { result ≡ operand_value (N.environment names.now here) here operand.now }
    ensures least { C.valued_count counter.old ≤ C.valued_count counter.new }
    ensures most { C.valued_count counter.new ≤ C.valued_count counter.old + 1 }
    ensures parsed { C.parsed_count counter.new ≡ C.parsed_count counter.old }
    ensures encoded { C.encoded_count counter.new ≡ C.encoded_count counter.old }
{
    match operand {
        OperandValue::Plain(expression) => value(expression, names, here, counter),
        OperandValue::High(expression) => high_of(value(expression, names, here, counter)),
        OperandValue::Low(expression) => low_of(value(expression, names, here, counter)),
        OperandValue::PcrelHigh(expression) => {
            high_of_displacement(here, value(expression, names, here, counter))
        }
        OperandValue::PcrelLow(label) => low_of(names.paired_high(here, label)),
    }
}

// The value of an operand with what names give in its role.
fn value_in_role<N: Names, C: Count>(
    operand: &Operand,
    names: &N,
    here: u32,
    counter: &mut C,
) -> Entry
    requires { C.valued_count counter.old < 2 ^ 64 - 1 }
    ensures value { result ≡ operand_value (given_to operand.now.role (N.environment names.now here)) here operand.now.value }
    ensures least { C.valued_count counter.old ≤ C.valued_count counter.new }
    ensures most { C.valued_count counter.new ≤ C.valued_count counter.old + 1 }
    ensures parsed { C.parsed_count counter.new ≡ C.parsed_count counter.old }
    ensures encoded { C.encoded_count counter.new ≡ C.encoded_count counter.old }
{
    match operand.role {
        Role::Constant | Role::Size | Role::Alignment(_) => {
            operand_value(&operand.value, &ForConstants { names }, here, counter)
        }
        Role::Immediate
        | Role::SourceImmediate
        | Role::Target
        | Role::PairTarget
        | Role::Data(_)
        | Role::FillByte
        | Role::Definition => operand_value(&operand.value, names, here, counter),
    }
}

// How many bytes reach the next address with the alignment that a number says.
fn bytes_to_alignment(here: u32, role: Role, value: i64) -> u32
    ensures { result ≡ bytes_to_alignment here (exponent_by_role role value) }
{
    match alignment_by_role(role, value) {
        Some(alignment) => {
            let bytes = 1 << alignment.exponent();
            (bytes - here % bytes) % bytes
        }
        None => 0,
    }
}

// What a value is counted as in a role.
fn counted_from(here: u32, role: Role, value: i64) -> i64
    ensures { result ≡ counted_from here role value }
{
    match role {
        Role::Target | Role::PairTarget => i64::from(displacement(here, value)),
        Role::Alignment(_) => i64::from(bytes_to_alignment(here, role, value)),
        Role::Immediate
        | Role::SourceImmediate
        | Role::Constant
        | Role::Data(_)
        | Role::Size
        | Role::FillByte
        | Role::Definition => value,
    }
}

// The value of an operand.
fn entry<N: Names, C: Count>(operand: &Operand, names: &N, here: u32, counter: &mut C) -> Entry
    requires { C.valued_count counter.old < 2 ^ 64 - 1 }
    ensures value { result ≡ entry_of (N.environment names.now here) here operand.now }
    ensures least { C.valued_count counter.old ≤ C.valued_count counter.new }
    ensures most { C.valued_count counter.new ≤ C.valued_count counter.old + 1 }
    ensures parsed { C.parsed_count counter.new ≡ C.parsed_count counter.old }
    ensures encoded { C.encoded_count counter.new ≡ C.encoded_count counter.old }
{
    let value = value_in_role(operand, names, here, counter)?;
    Ok(counted_from(here, operand.role, value))
}

// The values of operands.
fn entries<N: Names, C: Count>(
    alloc: Global,
    mut operands: &[Operand],
    names: &N,
    here: u32,
    counter: &mut C,
) -> Result<Sequence<Entry>, AllocError>
    requires { C.valued_count counter.old + length operands.now < 2 ^ 64 }
    ensures values { IfOk result (λ es. es ≡ map (entry_of (N.environment names.now here) here) operands.entry.now) }
    ensures least { C.valued_count counter.old ≤ C.valued_count counter.new }
    ensures most { C.valued_count counter.new ≤ C.valued_count counter.old + length operands.entry.now }
    ensures parsed { C.parsed_count counter.new ≡ C.parsed_count counter.old }
    ensures encoded { C.encoded_count counter.new ≡ C.encoded_count counter.old }
{
    let mut entries = Sequence::with_room(alloc, operands.len())?;
    while let [operand, rest @ ..] = operands {
        entries.push(entry(operand, names, here, counter))?;
        operands = rest;
    }
    Ok(entries)
}

/// The values of a statement's operands, from left to right, on a line at `address`, where names give what `names` says.
///
/// The address of a branch, a jump or an address pair counts from that of the line. A modifier takes its part of the value.
/// A size, the constant of `li` and an alignment have to be constants: neither `.` nor a local label is one there, whatever
/// `names` says. An alignment's value is the number of bytes from `address` to the next address with that alignment, or 0
/// where its number is no alignment.
///
/// The counter's number of expressions computed has to have room for one more for each operand, which it has at 2^63. It
/// rises by at most one for each operand, whatever the outcome.
///
/// # Errors
///
/// `Memory` if there was no memory for the values.
pub fn operand_values<N: Names, C: Count>(
    alloc: Global,
    stmt: &Stmt,
    names: &N,
    address: u32,
    counter: &mut C,
) -> Result<Values, FixError>
    requires { C.valued_count counter.old + min (length (operands_of stmt.now.body)) (2 ^ 63 - 1) < 2 ^ 64 }
    ensures values { IfOk result (λ v. v ≡ operand_values_of (N.environment names.now address) address stmt.now.body) }
    ensures least { C.valued_count counter.old ≤ C.valued_count counter.new }
    ensures most { C.valued_count counter.new ≤ C.valued_count counter.old + length (operands_of stmt.now.body) }
    ensures parsed { C.parsed_count counter.new ≡ C.parsed_count counter.old }
    ensures encoded { C.encoded_count counter.new ≡ C.encoded_count counter.old }
{
    match stmt.body.operands() {
        [operand] => Ok(Values::one(entry(operand, names, address, counter))),
        operands => {
            let entries = entries(alloc, operands, names, address, counter)?;
            Ok(Values::several(entries))
        }
    }
}

//! Encodes lines.

ghost use Rattle.std.specs.Prelude.{◌≡◌, ◌-◌, ◌<◌, ◌+◌, ◌^◌, [], IfOk};
ghost use Rattle.rv_stmt.specs.Data.{values_size};
ghost use Rattle.rv_fix.specs.Code.{code_or_zeros, code_of_instruction, code_of_data, code_of_count, code_of_fill, code_of_alignment, code_of_definition, code_of_body};
ghost use Rattle.rv_fix.specs.Data.{with_values};

use crate::coded::Coded;
use crate::data::{bytes_of_values, zeros_of_values};
use crate::error::FixError;
use crate::filling::filled;
use crate::fills::{fill_byte, fill_count};
use crate::instructions::{bytes_of_instructions, faulty_size};
use crate::line_bytes::LineBytes;
use crate::payload::Payload;
use crate::values::{Entry, Values};
use rv_layout::value_at;
use rv_ops::limits;
use rv_stmt::{Body, DataContent, Instruction, Operand, Stmt, instructions_of, word_bits};
use rv_text::{Count, Fault};
use std::alloc::{AllocError, Global};

// The code of the instructions that a line stands for.
fn code_of_instruction(
    alloc: Global,
    instruction: &Instruction,
    entries: &[Entry],
) -> Result<Coded, AllocError>
    ensures { IfOk result (λ c. c ≡ code_of_instruction instruction.now entries.now) }
{
    let operands = instruction.operands.as_slice();
    match filled(
        &limits(instruction.op),
        operands,
        entries,
        instruction.fields,
    ) {
        Ok(fields) => {
            let bytes = bytes_of_instructions(alloc, &instructions_of(instruction, &fields))?;
            Ok(Coded::of(Payload::bytes(bytes)))
        }
        Err(fault) => Ok(Coded::zeros(faulty_size(instruction), fault)),
    }
}

// The code of data.
fn code_of_data(
    alloc: Global,
    content: &DataContent,
    entries: &[Entry],
) -> Result<Coded, AllocError>
    ensures { IfOk result (λ c. c ≡ code_of_data content.now entries.now) }
{
    match content {
        DataContent::Values(operands) => code_of_values(alloc, operands.as_slice(), entries),
        DataContent::Bytes(bytes) => {
            let bytes = LineBytes::of(alloc, bytes.as_slice())?;
            Ok(Coded::of(Payload::bytes(bytes)))
        }
    }
}

// The code of values among data.
fn code_of_values(
    alloc: Global,
    operands: &[Operand],
    entries: &[Entry],
) -> Result<Coded, AllocError>
    ensures { IfOk result (λ c. c ≡ code_or_zeros (values_size operands.now) (with_values operands.now entries.now [])) }
{
    match bytes_of_values(alloc, operands, entries)? {
        Ok(bytes) => Ok(Coded::of(Payload::bytes(bytes))),
        Err(fault) => {
            let zeros = zeros_of_values(alloc, operands)?;
            Ok(Coded {
                payload: Payload::bytes(zeros),
                fault: Some(fault),
            })
        }
    }
}

// So many bytes, each of them the byte, or the first fault.
fn code_of_count(count: Result<u32, Fault>, byte: Result<u8, Fault>) -> Coded
    ensures { result ≡ code_of_count count byte }
{
    match count {
        Ok(count) => match byte {
            Ok(byte) => Coded::of(Payload::repeated(byte, count)),
            Err(fault) => Coded::zeros(count, fault),
        },
        Err(fault) => Coded::faulty(fault),
    }
}

// The code of equal bytes.
fn code_of_fill(operands: &[Operand], entries: &[Entry]) -> Coded
    ensures { result ≡ code_of_fill operands.now entries.now }
{
    let [operand, more_operands @ ..] = operands else {
        return Coded::empty();
    };
    let [entry, more_entries @ ..] = entries else {
        return Coded::empty();
    };
    code_of_count(
        fill_count(operand, *entry),
        fill_byte(more_operands, more_entries),
    )
}

// The code of an alignment in a section of code.
fn code_of_alignment(operands: &[Operand], entries: &[Entry]) -> Coded
    ensures { result ≡ code_of_alignment operands.now entries.now }
{
    let [operand, ..] = operands else {
        return Coded::empty();
    };
    let [entry, ..] = entries else {
        return Coded::empty();
    };
    match value_at(operand.span, *entry) {
        Ok(count) => Coded::padding(true, word_bits(count)),
        Err(fault) => Coded::faulty(fault),
    }
}

// The code of a definition: the fault of its value, if it has one.
fn code_of_definition(operands: &[Operand], entries: &[Entry]) -> Coded
    ensures { result ≡ code_of_definition operands.now entries.now }
{
    let [operand, ..] = operands else {
        return Coded::empty();
    };
    let [entry, ..] = entries else {
        return Coded::empty();
    };
    match value_at(operand.span, *entry) {
        Ok(_) => Coded::empty(),
        Err(fault) => Coded::faulty(fault),
    }
}

// The code of a line's body.
fn code_of_body(alloc: Global, body: &Body, entries: &[Entry]) -> Result<Coded, AllocError>
    ensures { IfOk result (λ c. c ≡ code_of_body body.now entries.now) }
{
    match body {
        Body::Instr(instruction) | Body::Pseudo(instruction) => {
            code_of_instruction(alloc, instruction, entries)
        }
        Body::Emit(data) => code_of_data(alloc, &data.content, entries),
        Body::Fill(directive) => Ok(code_of_fill(directive.operands.as_slice(), entries)),
        Body::Align(directive) => Ok(code_of_alignment(directive.operands.as_slice(), entries)),
        Body::Equ(definition) => Ok(code_of_definition(definition.operands.as_slice(), entries)),
        Body::Empty | Body::Switch(_) | Body::Ignored => Ok(Coded::empty()),
        Body::Faulty(fault) => Ok(Coded::faulty(*fault)),
    }
}

/// The code of a statement whose operands have these values, which `operand_values` gives.
///
/// The first operand from the left that has no value, or one out of range, is the fault, and the bytes are then as many zeros
/// as the line has without the fault; with a faulty size, or a faulty constant of `li`, the line has no bytes. An alignment
/// is padded as in a section of code. Where its number is no alignment, that is a fault of the line's shape and not of its code.
///
/// The counter's number of lines encoded rises by one, whatever the outcome.
///
/// # Errors
///
/// `Memory` if there was no memory for the bytes. Instructions need none.
pub fn encode_line<C: Count>(
    alloc: Global,
    stmt: &Stmt,
    values: &Values,
    counter: &mut C,
) -> Result<Coded, FixError>
    requires { C.encoded_count counter.old < 2 ^ 64 - 1 }
    ensures code { IfOk result (λ c. c ≡ code_of_body stmt.now.body values.now) }
    ensures encoded { C.encoded_count counter.new ≡ C.encoded_count counter.old + 1 }
    ensures parsed { C.parsed_count counter.new ≡ C.parsed_count counter.old }
    ensures valued { C.valued_count counter.new ≡ C.valued_count counter.old }
{
    counter.encoded();
    Ok(code_of_body(alloc, &stmt.body, values.entries())?)
}

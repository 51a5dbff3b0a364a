//! The shapes of lines.

ghost use Rattle.std.specs.Prelude.{◌≡◌, ◌-◌, ◌<◌, ◌≤◌, ◌+◌, ◌^◌};
ghost use Rattle.rv_stmt.specs.Statement.{data_size_of};
ghost use Rattle.rv_layout.specs.Shapes.{constants, size_operand, bytes_or_range, align_or_range, shape_of_instructions, shape_of_fill, shape_of_alignment, shape_of, count_of_operand, size_operands};

use crate::alignment::Alignment;
use crate::constants::{constant_of_operand, size_operand};
use crate::consts::Consts;
use crate::measured::Measured;
use crate::sizes::{alignment_by_role, fill_size, load_size};
use rv_stmt::{Body, Directive, Instruction, Stmt, instructions_of};
use rv_text::{Count, Fault, FaultNumber, Span};

// So many bytes, or Range.
fn bytes_or_range(span: Span, bytes: Option<u32>) -> Measured
    ensures { result ≡ bytes_or_range span bytes }
{
    let Some(bytes) = bytes else {
        let number = FaultNumber::Range;
        return Measured::Faulty(Fault { number, span });
    };
    Measured::Bytes(bytes)
}

// An alignment, or Range.
fn align_or_range(span: Span, alignment: Option<Alignment>) -> Measured
    ensures { result ≡ align_or_range span alignment }
{
    let Some(alignment) = alignment else {
        let number = FaultNumber::Range;
        return Measured::Faulty(Fault { number, span });
    };
    Measured::Align(alignment)
}

// The shape of the instructions that a line stands for.
fn shape_of_instructions<C: Consts, N: Count>(
    instruction: &Instruction,
    consts: &C,
    count: &mut N,
) -> Measured
    requires { N.valued_count count.old < 2 ^ 64 - 1 }
    ensures shape { result ≡ shape_of_instructions (constants (C.constant_of consts.now)) instruction.now (size_operand instruction.now.operands) }
    ensures least { N.valued_count count.old ≤ N.valued_count count.new }
    ensures valued { N.valued_count count.new ≤ N.valued_count count.old + count_of_operand (size_operand instruction.now.operands) }
    ensures parsed { N.parsed_count count.new ≡ N.parsed_count count.old }
    ensures encoded { N.encoded_count count.new ≡ N.encoded_count count.old }
{
    let Some(operand) = size_operand(instruction.operands.as_slice()) else {
        return Measured::Bytes(instructions_of(instruction, &instruction.fields).size());
    };
    match constant_of_operand(operand, consts, count) {
        Ok(value) => bytes_or_range(operand.span, load_size(instruction, value)),
        Err(fault) => Measured::Faulty(fault),
    }
}

// The shape of equal bytes.
fn shape_of_fill<C: Consts, N: Count>(directive: &Directive, consts: &C, count: &mut N) -> Measured
    requires { N.valued_count count.old < 2 ^ 64 - 1 }
    ensures shape { result ≡ shape_of_fill (constants (C.constant_of consts.now)) (size_operand directive.now.operands) }
    ensures least { N.valued_count count.old ≤ N.valued_count count.new }
    ensures valued { N.valued_count count.new ≤ N.valued_count count.old + count_of_operand (size_operand directive.now.operands) }
    ensures parsed { N.parsed_count count.new ≡ N.parsed_count count.old }
    ensures encoded { N.encoded_count count.new ≡ N.encoded_count count.old }
{
    let Some(operand) = size_operand(directive.operands.as_slice()) else {
        return Measured::Nothing;
    };
    match constant_of_operand(operand, consts, count) {
        Ok(value) => bytes_or_range(operand.span, fill_size(value)),
        Err(fault) => Measured::Faulty(fault),
    }
}

// The shape of an alignment.
fn shape_of_alignment<C: Consts, N: Count>(
    directive: &Directive,
    consts: &C,
    count: &mut N,
) -> Measured
    requires { N.valued_count count.old < 2 ^ 64 - 1 }
    ensures shape { result ≡ shape_of_alignment (constants (C.constant_of consts.now)) (size_operand directive.now.operands) }
    ensures least { N.valued_count count.old ≤ N.valued_count count.new }
    ensures valued { N.valued_count count.new ≤ N.valued_count count.old + count_of_operand (size_operand directive.now.operands) }
    ensures parsed { N.parsed_count count.new ≡ N.parsed_count count.old }
    ensures encoded { N.encoded_count count.new ≡ N.encoded_count count.old }
{
    let Some(operand) = size_operand(directive.operands.as_slice()) else {
        return Measured::Nothing;
    };
    match constant_of_operand(operand, consts, count) {
        Ok(value) => align_or_range(operand.span, alignment_by_role(operand.role, value)),
        Err(fault) => Measured::Faulty(fault),
    }
}

/// The shape of a line, by its statement and the constants that it sees. A line with a faulty body or a faulty size operand
/// has no bytes. The counter's number of expressions computed rises by at most one, for the size operand, and not at all
/// where there is none.
pub fn measure<C: Consts, N: Count>(stmt: &Stmt, consts: &C, count: &mut N) -> Measured
    requires data { data_size_of stmt.now.body ≤ 2 ^ 16 }
    requires counts { N.valued_count count.old < 2 ^ 64 - 1 }
    ensures shape { result ≡ shape_of (C.constant_of consts.now) stmt.now.body }
    ensures least { N.valued_count count.old ≤ N.valued_count count.new }
    ensures valued { N.valued_count count.new ≤ N.valued_count count.old + size_operands stmt.now.body }
    ensures parsed { N.parsed_count count.new ≡ N.parsed_count count.old }
    ensures encoded { N.encoded_count count.new ≡ N.encoded_count count.old }
{
    match &stmt.body {
        Body::Instr(instruction) | Body::Pseudo(instruction) => {
            shape_of_instructions(instruction, consts, count)
        }
        Body::Emit(data) => Measured::Bytes(data.size()),
        Body::Fill(directive) => shape_of_fill(directive, consts, count),
        Body::Align(directive) => shape_of_alignment(directive, consts, count),
        Body::Switch(section) => Measured::Switch(*section),
        Body::Empty | Body::Equ(_) | Body::Ignored => Measured::Nothing,
        Body::Faulty(fault) => Measured::Faulty(*fault),
    }
}

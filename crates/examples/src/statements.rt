//! The statements of lines, and the instructions that they stand for.

use crate::encodings::word_text;
use crate::row::{bytes_of, made, parts_of};
use crate::statement_text::text_of;
use rv_code::{Fields, word_of};
use rv_stmt::{
    Body, Instruction, Instructions, MachineInstruction, Operand, Stmt, expansion_of, high_part,
    instructions_of, low_part, read_line, word_bits,
};
use rv_text::Tally;
use std::alloc::Global;
use std::test::Fail;

// Whether one line read is counted, and nothing else.
fn is_one_line_read(tally: &Tally) -> bool {
    tally.parsed_calls() == 1 && tally.valued_calls() == 0 && tally.encoded_calls() == 0
}

/// The statement of the bytes of a line. One line that was read is counted, and nothing else.
pub fn statement_of_line(alloc: Global, line: &[u8]) -> Result<Stmt, Fail> {
    if line.len() > 1000 {
        return Err(Fail::new("a line that is too long"));
    }
    let mut tally = Tally::new();
    let stmt = read_line(alloc, line, &mut tally)?;
    if !is_one_line_read(&tally) {
        return Err(Fail::new("another count than one line read"));
    }
    Ok(stmt)
}

/// `statement LINE`: the statement as text.
pub fn statement(alloc: Global, line: &str) -> Result<String, Fail> {
    text_of(alloc, &statement_of_line(alloc, line.as_bytes())?)
}

/// `statement_of_bytes BYTES`: the same for a line that is no text.
pub fn statement_of_bytes(alloc: Global, pairs: &str) -> Result<String, Fail> {
    let line = bytes_of(alloc, pairs)?;
    text_of(alloc, &statement_of_line(alloc, line.as_slice())?)
}

fn machine_text(alloc: Global, machine: &MachineInstruction) -> Result<String, Fail> {
    word_text(alloc, word_of(machine.op, &machine.fields))
}

// The words, with a space between two.
fn words_of(alloc: Global, instructions: &Instructions) -> Result<String, Fail> {
    match instructions {
        Instructions::One(only) => machine_text(alloc, only),
        Instructions::Two(first, second) => {
            let first = machine_text(alloc, first)?;
            let second = machine_text(alloc, second)?;
            made(format!(in alloc; "{first} {second}"))
        }
    }
}

// What the instruction stands for, with this value.
fn expanded(instruction: &Instruction, value: i32) -> Instructions {
    let fields = Fields {
        rd: instruction.fields.rd,
        rs1: instruction.fields.rs1,
        rs2: instruction.fields.rs2,
        value,
    };
    instructions_of(instruction, &fields)
}

// The words of a body with a value, and how many bytes they have.
fn words_of_body(alloc: Global, body: &Body, value: i32) -> Result<String, Fail> {
    match body {
        Body::Instr(instruction) | Body::Pseudo(instruction) => {
            let instructions = expanded(instruction, value);
            let words = words_of(alloc, &instructions)?;
            let size = instructions.size();
            made(format!(in alloc; "{words}, {size} bytes"))
        }
        _ => Err(Fail::new("a line without an instruction")),
    }
}

/// `words VALUE LINE`: the words that the line stands for where its operand has the value, and their size.
pub fn words(alloc: Global, arguments: &str) -> Result<String, Fail> {
    let (value, line) = parts_of(arguments);
    let value = value.parse::<i32>()?;
    words_of_body(
        alloc,
        &statement_of_line(alloc, line.as_bytes())?.body,
        value,
    )
}

// What operands expand to, and how many there are.
fn expansion_text(alloc: Global, operands: &[Operand]) -> Result<String, Fail> {
    let expansion = expansion_of(operands);
    let count = operands.len();
    made(format!(in alloc; "{expansion:?} {count}"))
}

/// `expansion LINE`: what the line expands to, and how many operands wait for a value.
pub fn expansion(alloc: Global, line: &str) -> Result<String, Fail> {
    let stmt = statement_of_line(alloc, line.as_bytes())?;
    expansion_text(alloc, stmt.body.operands())
}

/// `value_parts VALUE`: the lowest 32 bits, `%hi` and `%lo` of the value.
pub fn value_parts(alloc: Global, value: &str) -> Result<String, Fail> {
    let value = value.parse::<i64>()?;
    let bits = word_bits(value);
    let high = high_part(value);
    let low = low_part(value);
    made(format!(in alloc; "{bits} {high} {low}"))
}

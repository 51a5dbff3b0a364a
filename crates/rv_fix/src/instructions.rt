//! The bytes of the instructions that a line stands for.

ghost use Rattle.std.specs.Prelude.{◌≡◌, ◌++◌, IfOk, OnOk};
ghost use Rattle.rv_fix.specs.Code.{bytes_of_instruction, bytes_of_instructions, faulty_size};

use crate::line_bytes::LineBytes;
use rv_code::word_of;
use rv_stmt::{
    Expansion, Instruction, Instructions, MachineInstruction, expansion_of, instructions_of,
};
use std::alloc::{AllocError, Global};

// Appends the bytes of an instruction.
fn append(bytes: &mut LineBytes, instruction: &MachineInstruction) -> Result<(), AllocError>
    ensures { OnOk result (bytes.new ≡ bytes.old ++ bytes_of_instruction instruction.now) }
{
    let word = word_of(instruction.op, &instruction.fields);
    bytes.append(word.bytes().as_slice())
}

// Appends the bytes of one instruction or two, as they stand in memory.
fn append_all(bytes: &mut LineBytes, instructions: &Instructions) -> Result<(), AllocError>
    ensures { OnOk result (bytes.new ≡ bytes.old ++ bytes_of_instructions instructions.now) }
{
    match instructions {
        Instructions::One(only) => append(bytes, only),
        Instructions::Two(first, second) => {
            append(bytes, first)?;
            append(bytes, second)
        }
    }
}

/// The bytes of one instruction or two, as they stand in memory.
pub fn bytes_of_instructions(
    alloc: Global,
    instructions: &Instructions,
) -> Result<LineBytes, AllocError>
    ensures { IfOk result (λ b. b ≡ bytes_of_instructions instructions.now) }
{
    let mut bytes = LineBytes::new(alloc);
    append_all(&mut bytes, instructions)?;
    Ok(bytes)
}

/// How many bytes a line with a faulty operand has. A constant load has none: its size is that of its constant.
pub fn faulty_size(instruction: &Instruction) -> u32
    ensures { result ≡ faulty_size instruction.now }
{
    match expansion_of(instruction.operands.as_slice()) {
        Expansion::ConstantLoad => 0,
        Expansion::Itself | Expansion::AddressPair => {
            instructions_of(instruction, &instruction.fields).size()
        }
    }
}

//! The instructions that a line stands for.

ghost use Rattle.std.specs.Prelude.{◌≡◌};
ghost use Rattle.rv_code.specs.Encoding.{is_immediate};
ghost use Rattle.rv_stmt.specs.Draft.{fields};
ghost use Rattle.rv_stmt.specs.Expansion.{expansion_of, machine, address_pair, upper_load, constant_load, instructions_of, size_of_word, size_of_instructions};

use crate::operand::{Operand, Role};
use crate::statement::Instruction;
use crate::value_parts::{high_part, low_part};
use rv_code::Fields;
use rv_ops::{Op, Reg, is_full};

/// What a line with an operation expands to.
#[derive(Clone, Copy, Debug, PartialEq, Eq)]
pub enum Expansion {
    /// The operation alone.
    Itself,
    /// `auipc` and the operation, which reach an address.
    AddressPair,
    /// `addi`, `lui` or both, which load a constant.
    ConstantLoad,
}

/// An operation with its fields.
#[derive(Clone, Copy, Debug, PartialEq, Eq)]
pub struct MachineInstruction {
    pub op: Op,
    pub fields: Fields,
}

/// The one instruction or the two that a line stands for.
#[derive(Clone, Copy, Debug, PartialEq, Eq)]
pub enum Instructions {
    One(MachineInstruction),
    Two(MachineInstruction, MachineInstruction),
}

impl Instructions {
    /// How many bytes their encodings have: 2, 4, 6 or 8.
    pub fn size(&self) -> u32
        ensures { result ≡ size_of_instructions self.now }
    {
        match self {
            Instructions::One(only) => size_of_word(only.op),
            Instructions::Two(first, second) => size_of_word(first.op) + size_of_word(second.op),
        }
    }
}

// How many bytes an operation's encoding has.
fn size_of_word(op: Op) -> u32
    ensures { result ≡ size_of_word op }
{
    if is_full(op) { 4 } else { 2 }
}

/// What a line with these operands expands to: an address pair or a constant load if one of them has that role.
pub fn expansion_of(mut operands: &[Operand]) -> Expansion
    ensures { result ≡ expansion_of operands.entry.now }
{
    while let [operand, rest @ ..] = operands {
        match operand.role {
            Role::PairTarget => return Expansion::AddressPair,
            Role::Constant => return Expansion::ConstantLoad,
            _ => operands = rest,
        }
    }
    Expansion::Itself
}

// `lui rd, value` or `auipc rd, value`.
fn upper(op: Op, rd: Reg, value: i32) -> MachineInstruction
    ensures { result ≡ machine op (fields rd 0 0 value) }
{
    let fields = Fields {
        rd,
        rs1: Reg::ZERO,
        rs2: Reg::ZERO,
        value,
    };
    MachineInstruction { op, fields }
}

// `auipc` and the operation, which reach the address that is so far from that of the line.
fn address_pair(op: Op, fields: &Fields) -> Instructions
    ensures { result ≡ address_pair op fields.now }
{
    let displacement = i64::from(fields.value);
    let low = Fields {
        rd: fields.rd,
        rs1: fields.rs1,
        rs2: fields.rs2,
        value: low_part(displacement),
    };
    Instructions::Two(
        upper(Op::Auipc, fields.rs1, high_part(displacement)),
        MachineInstruction { op, fields: low },
    )
}

// `lui`, and the operation that adds the low part, unless that is 0.
fn upper_load(op: Op, rd: Reg, high: i32, low: i32) -> Instructions
    ensures { result ≡ upper_load op rd high low }
{
    let first = upper(Op::Lui, rd, high);
    if low == 0 {
        return Instructions::One(first);
    }
    let fields = Fields {
        rd,
        rs1: rd,
        rs2: Reg::ZERO,
        value: low,
    };
    Instructions::Two(first, MachineInstruction { op, fields })
}

// Whether twelve bits with a sign hold the value.
fn is_immediate(value: i32) -> bool
    ensures { result ≡ is_immediate value }
{
    -2048 <= value && value <= 2047
}

// The operation alone, or `lui` and what is left.
fn constant_load(op: Op, fields: &Fields) -> Instructions
    ensures { result ≡ constant_load op fields.now }
{
    if is_immediate(fields.value) {
        return Instructions::One(MachineInstruction {
            op,
            fields: *fields,
        });
    }
    let constant = i64::from(fields.value);
    upper_load(op, fields.rd, high_part(constant), low_part(constant))
}

/// The instructions that a line stands for, once its fields are filled: their value is the displacement of the address in
/// an address pair, and the constant, as a number of 32 bits with a sign, in a constant load.
pub fn instructions_of(instruction: &Instruction, fields: &Fields) -> Instructions
    ensures { result ≡ instructions_of instruction.now fields.now }
{
    match expansion_of(instruction.operands.as_slice()) {
        Expansion::Itself => Instructions::One(MachineInstruction {
            op: instruction.op,
            fields: *fields,
        }),
        Expansion::AddressPair => address_pair(instruction.op, fields),
        Expansion::ConstantLoad => constant_load(instruction.op, fields),
    }
}

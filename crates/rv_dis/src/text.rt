//! The texts of instructions.

ghost use Rattle.std.specs.Prelude.{◌≡◌, [], IfOk, string_bytes};
ghost use Rattle.rv_ops.specs.Table.{operation_name};
ghost use Rattle.rv_dis.specs.Text.{instruction_text};

use crate::error::DisError;
use crate::names::push_operation_name;
use crate::operand_lists::{
    push_register, push_register_and_decimal, push_register_and_memory, push_register_and_target,
    push_registers, push_registers_and_decimal, push_registers_and_target, push_target,
    push_three_registers,
};
use crate::operand_texts::{push_operand, stack_pointer};
use crate::row::RowText;
use rv_code::Ins;
use rv_ops::{Shape, shape};
use rv_stmt::operand_slots;
use std::alloc::Global;

// Adds the operands of an instruction at an address, one after another, to its name.
fn push_in_turn(out: &mut RowText, ins: &Ins, address: u32)
    requires { out.old ≡ operation_name ins.now.0 }
    ensures { out.new ≡ instruction_text address ins.now.0 ins.now.1 }
{
    let [first, others @ ..] = operand_slots(shape(ins.op())) else {
        return;
    };
    out.push_str(" ");
    push_operand(out, ins, *first, address);
    for slot in others {
        out.push_str(", ");
        push_operand(out, ins, *slot, address);
    }
}

// Adds the operands of an instruction at an address to its name. The shapes that stand most in code have an arm each, so
// that a processor has one jump to foresee.
fn push_operands(out: &mut RowText, ins: &Ins, address: u32)
    requires { out.old ≡ operation_name ins.now.0 }
    ensures { out.new ≡ instruction_text address ins.now.0 ins.now.1 }
{
    let fields = ins.fields();
    match shape(ins.op()) {
        Shape::Load => push_register_and_memory(out, fields.rd, fields.rs1, fields),
        Shape::CLoad => push_register_and_memory(out, fields.rd, fields.rs1, fields),
        Shape::Store => push_register_and_memory(out, fields.rs2, fields.rs1, fields),
        Shape::CStore => push_register_and_memory(out, fields.rs2, fields.rs1, fields),
        Shape::CLoadStack => push_register_and_memory(out, fields.rd, stack_pointer(), fields),
        Shape::CStoreStack => push_register_and_memory(out, fields.rs2, stack_pointer(), fields),
        Shape::CTwoRegisters => push_registers(out, fields.rd, fields.rs2),
        Shape::CRegisters => push_registers(out, fields.rd, fields.rs2),
        Shape::CImmediate => push_register_and_decimal(out, fields.rd, fields),
        Shape::CLoadImmediate => push_register_and_decimal(out, fields.rd, fields),
        Shape::CShiftLeft => push_register_and_decimal(out, fields.rd, fields),
        Shape::CShiftRight => push_register_and_decimal(out, fields.rd, fields),
        Shape::CAndImmediate => push_register_and_decimal(out, fields.rd, fields),
        Shape::Immediate => push_registers_and_decimal(out, fields.rd, fields.rs1, fields),
        Shape::Shift => push_registers_and_decimal(out, fields.rd, fields.rs1, fields),
        Shape::Branch => push_registers_and_target(out, fields.rs1, fields.rs2, address, fields),
        Shape::Jump => push_register_and_target(out, fields.rd, address, fields),
        Shape::CBranch => push_register_and_target(out, fields.rs1, address, fields),
        Shape::JumpRegister => push_register_and_memory(out, fields.rd, fields.rs1, fields),
        Shape::Register => push_three_registers(out, fields),
        Shape::CJumpRegister => push_register(out, fields.rs1),
        Shape::CJump => push_target(out, address, fields),
        _ => push_in_turn(out, ins, address),
    }
}

// Writes an instruction at an address into an empty text, in which it fits.
pub(crate) fn write_instruction(out: &mut RowText, ins: &Ins, address: u32)
    requires { out.old ≡ [] }
    ensures { out.new ≡ instruction_text address ins.now.0 ins.now.1 }
{
    push_operation_name(out, ins.op());
    push_operands(out, ins, address);
}

/// The text of an instruction at an address: its mnemonic, and its operands in the order in which they are written. It is
/// a line that assembles to the instruction there.
///
/// # Errors
///
/// `Memory` if there is none for the text.
pub fn instruction_text(alloc: Global, ins: &Ins, address: u32) -> Result<String, DisError>
    ensures { IfOk result (λ text. string_bytes text ≡ instruction_text address ins.now.0 ins.now.1) }
{
    let mut text = RowText::new();
    write_instruction(&mut text, ins, address);
    Ok(String::from_str(alloc, text.as_str())?)
}

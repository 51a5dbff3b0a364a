//! The operands of instructions.

ghost use Rattle.std.specs.Prelude.{◌≡◌, ◌+◌, ◌≤◌, ◌++◌, length, option_map};
ghost use Rattle.rv_ops.specs.Csrs.{csr_name};
ghost use Rattle.rv_ops.specs.Table.{shape_of};
ghost use Rattle.rv_stmt.specs.Registers.{set_name};
ghost use Rattle.rv_dis.specs.Text.{base_text, csr_text, immediate_text, memory_text, operand_text, set_text, target_of};

use crate::names::push_register_name;
use crate::numbers::{push_decimal, push_hexadecimal, push_hexadecimal_of, push_word};
use crate::row::RowText;
use rv_code::Ins;
use rv_ops::{Csr, Reg, Shape, csr_name, shape};
use rv_stmt::{Slot, set_name};

/// The register `sp`.
pub fn stack_pointer() -> Reg
    ensures { result ≡ 2 }
{
    Reg::new(2).unwrap()
}

/// The target of a branch or a jump.
pub fn target(address: u32, displacement: i32) -> u32
    ensures { result ≡ target_of address displacement }
{
    address.wrapping_add_signed(displacement)
}

// An immediate.
fn push_immediate(out: &mut RowText, shape: Shape, value: i32)
    requires { length out.old + length (immediate_text shape value) ≤ 40 }
    ensures { out.new ≡ out.old ++ immediate_text shape value }
{
    match shape {
        Shape::Upper | Shape::CUpper => push_hexadecimal(out, value.unsigned_abs()),
        _ => push_decimal(out, value),
    }
}

// `(register)`.
#[inline(always)]
fn push_base(out: &mut RowText, base: Reg)
    requires { length out.old + length (base_text base) ≤ 40 }
    ensures { out.new ≡ out.old ++ base_text base }
{
    out.push_str("(");
    push_register_name(out, base);
    out.push_str(")")
}

/// `offset(register)`.
pub fn push_memory(out: &mut RowText, offset: i32, base: Reg)
    requires { length out.old + length (memory_text offset base) ≤ 40 }
    ensures { out.new ≡ out.old ++ memory_text offset base }
{
    push_decimal(out, offset);
    push_base(out, base)
}

// The name of a control and status register. Most numbers have none.
fn known_csr(number: u32) -> Option<&'static str>
    ensures { option_map (λ name. name.now) result ≡ csr_name number }
{
    if number >= 4096 {
        return None;
    }
    match Csr::new(number as u16) {
        Some(csr) => csr_name(csr),
        None => None,
    }
}

// A control and status register.
fn push_csr(out: &mut RowText, number: u32)
    requires { length out.old + length (csr_text (csr_name number) number) ≤ 40 }
    ensures { out.new ≡ out.old ++ csr_text (csr_name number) number }
{
    match known_csr(number) {
        Some(name) => out.push_str(name),
        None => push_hexadecimal_of(out, 3, number),
    }
}

// A set of a fence.
fn push_set(out: &mut RowText, set: Reg)
    requires { length out.old + length (set_text (set_name set)) ≤ 40 }
    ensures { out.new ≡ out.old ++ set_text (set_name set) }
{
    match set_name(set) {
        Some(name) => out.push_str(name),
        None => {}
    }
}

/// An operand of an instruction at an address.
pub fn push_operand(out: &mut RowText, ins: &Ins, slot: Slot, address: u32)
    requires { length out.old + length (operand_text address (shape_of ins.now.0) ins.now.1 slot) ≤ 40 }
    ensures { out.new ≡ out.old ++ operand_text address (shape_of ins.now.0) ins.now.1 slot }
{
    let fields = ins.fields();
    match slot {
        Slot::Rd => push_register_name(out, fields.rd),
        Slot::Rs1 => push_register_name(out, fields.rs1),
        Slot::Rs2 => push_register_name(out, fields.rs2),
        Slot::StackPointer => push_register_name(out, stack_pointer()),
        Slot::Immediate => push_immediate(out, shape(ins.op()), fields.value),
        Slot::SourceImmediate => push_decimal(out, i32::from(fields.rs1.number())),
        Slot::Target => push_word(out, target(address, fields.value)),
        Slot::Memory | Slot::MemoryOrRegister | Slot::MemoryOrAddress => {
            push_memory(out, fields.value, fields.rs1)
        }
        Slot::StackMemory => push_memory(out, fields.value, stack_pointer()),
        Slot::Base => push_base(out, fields.rs1),
        Slot::Csr => push_csr(out, fields.value.unsigned_abs()),
        Slot::Predecessors => push_set(out, fields.rs1),
        Slot::Successors => push_set(out, fields.rs2),
        Slot::Address | Slot::AddressThroughRd | Slot::Constant => {}
    }
}

//! The operands of the shapes that stand most in code, each list of them in one piece of code without a loop.

ghost use Rattle.std.specs.Prelude.{◌≡◌, ◌+◌, ◌≤◌, ◌∷◌, [], ◌++◌, length};
ghost use Rattle.std.specs.Fmt.{signed_decimal};
ghost use Rattle.rv_ops.specs.Registers.{register_name};
ghost use Rattle.rv_dis.specs.Text.{after_name, hexadecimal_of, memory_text, target_of};

use crate::names::push_register_name;
use crate::numbers::{push_decimal, push_word};
use crate::operand_texts::{push_memory, target};
use crate::row::RowText;
use rv_code::Fields;
use rv_ops::Reg;

/// A register and a place in memory, whose offset is the value of the fields.
#[inline(always)]
pub fn push_register_and_memory(out: &mut RowText, register: Reg, base: Reg, fields: &Fields)
    requires { length out.old + length (after_name (register_name register ∷ memory_text fields.now.value base ∷ [])) ≤ 40 }
    ensures { out.new ≡ out.old ++ after_name (register_name register ∷ memory_text fields.now.value base ∷ []) }
{
    out.push_str(" ");
    push_register_name(out, register);
    out.push_str(", ");
    push_memory(out, fields.value, base);
}

/// Two registers.
#[inline(always)]
pub fn push_registers(out: &mut RowText, first: Reg, second: Reg)
    requires { length out.old + length (after_name (register_name first ∷ register_name second ∷ [])) ≤ 40 }
    ensures { out.new ≡ out.old ++ after_name (register_name first ∷ register_name second ∷ []) }
{
    out.push_str(" ");
    push_register_name(out, first);
    out.push_str(", ");
    push_register_name(out, second);
}

/// A register and the value of the fields in decimal.
#[inline(always)]
pub fn push_register_and_decimal(out: &mut RowText, register: Reg, fields: &Fields)
    requires { length out.old + length (after_name (register_name register ∷ signed_decimal fields.now.value ∷ [])) ≤ 40 }
    ensures { out.new ≡ out.old ++ after_name (register_name register ∷ signed_decimal fields.now.value ∷ []) }
{
    out.push_str(" ");
    push_register_name(out, register);
    out.push_str(", ");
    push_decimal(out, fields.value);
}

/// Two registers and the value of the fields in decimal.
#[inline(always)]
pub fn push_registers_and_decimal(out: &mut RowText, first: Reg, second: Reg, fields: &Fields)
    requires { length out.old + length (after_name (register_name first ∷ register_name second ∷ signed_decimal fields.now.value ∷ [])) ≤ 40 }
    ensures { out.new ≡ out.old ++ after_name (register_name first ∷ register_name second ∷ signed_decimal fields.now.value ∷ []) }
{
    out.push_str(" ");
    push_register_name(out, first);
    out.push_str(", ");
    push_register_name(out, second);
    out.push_str(", ");
    push_decimal(out, fields.value);
}

/// The target of a jump at an address.
#[inline(always)]
pub fn push_target(out: &mut RowText, address: u32, fields: &Fields)
    requires { length out.old + length (after_name (hexadecimal_of 8 (target_of address fields.now.value) ∷ [])) ≤ 40 }
    ensures { out.new ≡ out.old ++ after_name (hexadecimal_of 8 (target_of address fields.now.value) ∷ []) }
{
    out.push_str(" ");
    push_word(out, target(address, fields.value));
}

/// Two registers and the target of a branch at an address.
#[inline(always)]
pub fn push_registers_and_target(
    out: &mut RowText,
    first: Reg,
    second: Reg,
    address: u32,
    fields: &Fields,
)
    requires { length out.old + length (after_name (register_name first ∷ register_name second ∷ hexadecimal_of 8 (target_of address fields.now.value) ∷ [])) ≤ 40 }
    ensures { out.new ≡ out.old ++ after_name (register_name first ∷ register_name second ∷ hexadecimal_of 8 (target_of address fields.now.value) ∷ []) }
{
    out.push_str(" ");
    push_register_name(out, first);
    out.push_str(", ");
    push_register_name(out, second);
    out.push_str(", ");
    push_word(out, target(address, fields.value));
}

/// A register.
#[inline(always)]
pub fn push_register(out: &mut RowText, register: Reg)
    requires { length out.old + length (after_name (register_name register ∷ [])) ≤ 40 }
    ensures { out.new ≡ out.old ++ after_name (register_name register ∷ []) }
{
    out.push_str(" ");
    push_register_name(out, register);
}

/// Three registers.
#[inline(always)]
pub fn push_three_registers(out: &mut RowText, fields: &Fields)
    requires { length out.old + length (after_name (register_name fields.now.rd ∷ register_name fields.now.rs1 ∷ register_name fields.now.rs2 ∷ [])) ≤ 40 }
    ensures { out.new ≡ out.old ++ after_name (register_name fields.now.rd ∷ register_name fields.now.rs1 ∷ register_name fields.now.rs2 ∷ []) }
{
    out.push_str(" ");
    push_register_name(out, fields.rd);
    out.push_str(", ");
    push_register_name(out, fields.rs1);
    out.push_str(", ");
    push_register_name(out, fields.rs2);
}

/// A register and the target of a branch or a jump at an address.
#[inline(always)]
pub fn push_register_and_target(out: &mut RowText, register: Reg, address: u32, fields: &Fields)
    requires { length out.old + length (after_name (register_name register ∷ hexadecimal_of 8 (target_of address fields.now.value) ∷ [])) ≤ 40 }
    ensures { out.new ≡ out.old ++ after_name (register_name register ∷ hexadecimal_of 8 (target_of address fields.now.value) ∷ []) }
{
    out.push_str(" ");
    push_register_name(out, register);
    out.push_str(", ");
    push_word(out, target(address, fields.value));
}

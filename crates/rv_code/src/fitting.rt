//! Whether an operation takes given fields.
ghost use Rattle.std.specs.Prelude.{◌≡◌, ◌↔◌, IsTrue};
ghost use Rattle.rv_code.specs.Encoding.{is_in, Fits};

use crate::instruction::Fields;
use rv_ops::{Op, Reg, RegisterClass, classes, limits};

/// The registers of each class, a bit for each register.
pub const MEMBERS: [u32; 6] = [
    0x0000_0001, // absent: x0
    0xffff_ffff, // any
    0xffff_fffe, // any but x0
    0xffff_fffa, // any but x0 and x2
    0x0000_ff00, // x8 to x15
    0x0000_fffe, // the four bits of a set, not all 0
];

/// Whether a class has the register. x0 stands for a register that a shape lacks, and the number of a register
/// for the bits of a set.
#[inline(always)]
pub fn in_class(class: RegisterClass, register: Reg) -> bool
    ensures { result ≡ is_in class register }
{
    (MEMBERS[class as usize] >> register.number()) % 2 == 1
}

/// Whether the operation takes the fields.
#[inline(always)]
pub fn fits(op: Op, fields: &Fields) -> bool
    ensures { IsTrue result ↔ Fits op fields.now }
{
    let registers = classes(op);
    if !in_class(registers.rd, fields.rd) {
        return false;
    }
    if !in_class(registers.rs1, fields.rs1) {
        return false;
    }
    if !in_class(registers.rs2, fields.rs2) {
        return false;
    }
    limits(op).fault(i64::from(fields.value)).is_none()
}

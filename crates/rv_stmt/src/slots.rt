//! What the operands of each instruction are.

use rv_ops::Shape;

/// What an operand of an instruction is read as, and which of its fields it fills.
#[derive(Clone, Copy, Debug, PartialEq, Eq)]
pub enum Slot {
    /// A register, into `rd`.
    Rd,
    /// A register, into `rs1`.
    Rs1,
    /// A register, into `rs2`.
    Rs2,
    /// The register `sp`, which the encoding has no field for.
    StackPointer,
    /// An expression, or a modifier that the shape takes, into the value.
    Immediate,
    /// An expression for a number of 0 to 31, which stands in the place of `rs1`.
    SourceImmediate,
    /// An address, whose displacement goes into the value.
    Target,
    /// `offset(register)`: the offset into the value, 0 where it is absent, and the register into `rs1`.
    Memory,
    /// `offset(sp)`.
    StackMemory,
    /// `(register)` or `0(register)`, into `rs1`.
    Base,
    /// `offset(register)`, or a register alone, with the offset 0.
    MemoryOrRegister,
    /// `offset(register)`, or an address that is reached through `rd`, by two instructions.
    MemoryOrAddress,
    /// An address that is reached through `rs1`, by two instructions.
    Address,
    /// An address that is reached through `rd`, by two instructions.
    AddressThroughRd,
    /// The name of a control and status register, or an expression for its number.
    Csr,
    /// A fence's set of predecessors.
    Predecessors,
    /// A fence's set of successors.
    Successors,
    /// A constant of 32 bits, by one instruction or two.
    Constant,
}

/// The columns: each shape, and its operands in the order in which they are written. The shapes stand in their own order.
/// RISC-V Unprivileged ISA 20191213, chapters 2, 3, 7, 8, 9, 16 and 25.
pub const OPERANDS: [(Shape, &[Slot]); 33] = [
    (Shape::Upper, &[Slot::Rd, Slot::Immediate]),
    (Shape::Jump, &[Slot::Rd, Slot::Target]),
    (Shape::JumpRegister, &[Slot::Rd, Slot::MemoryOrRegister]),
    (Shape::Branch, &[Slot::Rs1, Slot::Rs2, Slot::Target]),
    (Shape::Load, &[Slot::Rd, Slot::MemoryOrAddress]),
    (Shape::Store, &[Slot::Rs2, Slot::Memory]),
    (Shape::Immediate, &[Slot::Rd, Slot::Rs1, Slot::Immediate]),
    (Shape::Shift, &[Slot::Rd, Slot::Rs1, Slot::Immediate]),
    (Shape::Register, &[Slot::Rd, Slot::Rs1, Slot::Rs2]),
    (Shape::Csr, &[Slot::Rd, Slot::Csr, Slot::Rs1]),
    (
        Shape::CsrImmediate,
        &[Slot::Rd, Slot::Csr, Slot::SourceImmediate],
    ),
    (Shape::Fence, &[Slot::Predecessors, Slot::Successors]),
    (Shape::Whole, &[]),
    (Shape::LoadReserved, &[Slot::Rd, Slot::Base]),
    (Shape::Atomic, &[Slot::Rd, Slot::Rs2, Slot::Base]),
    (
        Shape::CStackAddress,
        &[Slot::Rd, Slot::StackPointer, Slot::Immediate],
    ),
    (Shape::CLoad, &[Slot::Rd, Slot::Memory]),
    (Shape::CStore, &[Slot::Rs2, Slot::Memory]),
    (Shape::CWhole, &[]),
    (Shape::CImmediate, &[Slot::Rd, Slot::Immediate]),
    (Shape::CJump, &[Slot::Target]),
    (Shape::CLoadImmediate, &[Slot::Rd, Slot::Immediate]),
    (Shape::CStackAdjust, &[Slot::StackPointer, Slot::Immediate]),
    (Shape::CUpper, &[Slot::Rd, Slot::Immediate]),
    (Shape::CShiftRight, &[Slot::Rd, Slot::Immediate]),
    (Shape::CAndImmediate, &[Slot::Rd, Slot::Immediate]),
    (Shape::CRegisters, &[Slot::Rd, Slot::Rs2]),
    (Shape::CBranch, &[Slot::Rs1, Slot::Target]),
    (Shape::CShiftLeft, &[Slot::Rd, Slot::Immediate]),
    (Shape::CLoadStack, &[Slot::Rd, Slot::StackMemory]),
    (Shape::CJumpRegister, &[Slot::Rs1]),
    (Shape::CTwoRegisters, &[Slot::Rd, Slot::Rs2]),
    (Shape::CStoreStack, &[Slot::Rs2, Slot::StackMemory]),
];

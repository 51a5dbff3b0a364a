//! The operations, and the shapes of their instructions.

/// An operation, in the order of the table.
#[derive(Clone, Copy, Debug, PartialEq, Eq)]
pub enum Op {
    Lui,
    Auipc,
    Jal,
    Jalr,
    Beq,
    Bne,
    Blt,
    Bge,
    Bltu,
    Bgeu,
    Lb,
    Lh,
    Lw,
    Lbu,
    Lhu,
    Sb,
    Sh,
    Sw,
    Addi,
    Slti,
    Sltiu,
    Xori,
    Ori,
    Andi,
    Slli,
    Srli,
    Srai,
    Add,
    Sub,
    Sll,
    Slt,
    Sltu,
    Xor,
    Srl,
    Sra,
    Or,
    And,
    Mul,
    Mulh,
    Mulhsu,
    Mulhu,
    Div,
    Divu,
    Rem,
    Remu,
    Csrrw,
    Csrrs,
    Csrrc,
    Csrrwi,
    Csrrsi,
    Csrrci,
    Fence,
    FenceTso,
    FenceI,
    Ecall,
    Ebreak,
    Mret,
    Sret,
    Wfi,
    LrW,
    LrWAq,
    LrWRl,
    LrWAqrl,
    ScW,
    ScWAq,
    ScWRl,
    ScWAqrl,
    AmoswapW,
    AmoswapWAq,
    AmoswapWRl,
    AmoswapWAqrl,
    AmoaddW,
    AmoaddWAq,
    AmoaddWRl,
    AmoaddWAqrl,
    AmoxorW,
    AmoxorWAq,
    AmoxorWRl,
    AmoxorWAqrl,
    AmoandW,
    AmoandWAq,
    AmoandWRl,
    AmoandWAqrl,
    AmoorW,
    AmoorWAq,
    AmoorWRl,
    AmoorWAqrl,
    AmominW,
    AmominWAq,
    AmominWRl,
    AmominWAqrl,
    AmomaxW,
    AmomaxWAq,
    AmomaxWRl,
    AmomaxWAqrl,
    AmominuW,
    AmominuWAq,
    AmominuWRl,
    AmominuWAqrl,
    AmomaxuW,
    AmomaxuWAq,
    AmomaxuWRl,
    AmomaxuWAqrl,
    CAddi4spn,
    CLw,
    CSw,
    CNop,
    CAddi,
    CJal,
    CLi,
    CAddi16sp,
    CLui,
    CSrli,
    CSrai,
    CAndi,
    CSub,
    CXor,
    COr,
    CAnd,
    CJ,
    CBeqz,
    CBnez,
    CSlli,
    CLwsp,
    CJr,
    CMv,
    CEbreak,
    CJalr,
    CAdd,
    CSwsp,
}

/// The operands of an instruction, as they are written, and which fields of its encoding hold them. An apostrophe
/// marks a register of x8 to x15.
#[derive(Clone, Copy, Debug, PartialEq, Eq)]
pub enum Shape {
    /// `rd, value`: the upper 20 bits.
    Upper,
    /// `rd, target`.
    Jump,
    /// `rd, value(rs1)`.
    JumpRegister,
    /// `rs1, rs2, target`.
    Branch,
    /// `rd, value(rs1)`.
    Load,
    /// `rs2, value(rs1)`.
    Store,
    /// `rd, rs1, value`.
    Immediate,
    /// `rd, rs1, value`: the shift amount.
    Shift,
    /// `rd, rs1, rs2`.
    Register,
    /// `rd, value, rs1`: the number of a control and status register.
    Csr,
    /// `rd, value, immediate`: the immediate stands in the place of rs1.
    CsrImmediate,
    /// `predecessors, successors`: two sets, which the fields rs1 and rs2 hold; they stand in bits 27:24 and 23:20
    /// of the encoding.
    Fence,
    /// No operand.
    Whole,
    /// `rd, (rs1)`: the register holds an address.
    LoadReserved,
    /// `rd, rs2, (rs1)`: the register in parentheses holds an address.
    Atomic,
    /// `rd', sp, value`.
    CStackAddress,
    /// `rd', value(rs1')`.
    CLoad,
    /// `rs2', value(rs1')`.
    CStore,
    /// No operand, in sixteen bits.
    CWhole,
    /// `rd, value`: not 0.
    CImmediate,
    /// `target`.
    CJump,
    /// `rd, value`: six bits with a sign.
    CLoadImmediate,
    /// `sp, value`.
    CStackAdjust,
    /// `rd, value`: the upper 20 bits, six bits of them with a sign.
    CUpper,
    /// `rd', value`: the shift amount.
    CShiftRight,
    /// `rd', value`.
    CAndImmediate,
    /// `rd', rs2'`.
    CRegisters,
    /// `rs1', target`.
    CBranch,
    /// `rd, value`: the shift amount.
    CShiftLeft,
    /// `rd, value(sp)`.
    CLoadStack,
    /// `rs1`.
    CJumpRegister,
    /// `rd, rs2`.
    CTwoRegisters,
    /// `rs2, value(sp)`.
    CStoreStack,
}

/// What the table says of an operation.
#[derive(Clone, Copy, Debug)]
pub struct Row {
    /// The mnemonic, in lower case.
    pub name: &'static str,
    /// The shape of its instructions.
    pub shape: Shape,
    /// The bits of the encoding that no field fills.
    pub fixed: u32,
    /// Which bits of the encoding are fixed.
    pub mask: u32,
}

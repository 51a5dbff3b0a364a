//! The formats of encodings: the fields of their fixed bits, and the names of all fields.

/// The name of a field of an encoding. An apostrophe, where it is written, marks a register of x8 to x15.
#[derive(Clone, Copy, Debug, PartialEq, Eq, Default)]
pub enum FieldName {
    #[default]
    Opcode,
    Op,
    Funct2,
    Funct3,
    Funct4,
    Funct5,
    Funct6,
    Funct7,
    Funct12,
    Rd,
    Rs1,
    Rs2,
    RdOrRs1,
    RdPrime,
    Rs1Prime,
    Rs2Prime,
    RdOrRs1Prime,
    Imm,
    Nzimm,
    Uimm,
    Nzuimm,
    Shamt,
    Csr,
    Fm,
    Pred,
    Succ,
    Aq,
    Rl,
}

/// What the bits of a field are.
#[derive(Clone, Copy, Debug, PartialEq, Eq)]
pub enum FieldKind {
    /// What several operations share.
    Opcode,
    /// What tells the operation from others.
    Operation,
    /// The number of a register.
    Register,
    /// The number of a register less 8.
    PrimeRegister,
    /// Bits of an immediate.
    Immediate,
    /// The number of a control and status register.
    Csr,
    /// The mode of a fence.
    FenceMode,
    /// A set of a fence.
    Set,
    /// Whether it is an acquire access.
    Acquire,
    /// Whether it is a release access.
    Release,
}

impl FieldName {
    /// The name as the ISA manual writes it.
    pub fn text(self) -> &'static str {
        match self {
            FieldName::Opcode => "opcode",
            FieldName::Op => "op",
            FieldName::Funct2 => "funct2",
            FieldName::Funct3 => "funct3",
            FieldName::Funct4 => "funct4",
            FieldName::Funct5 => "funct5",
            FieldName::Funct6 => "funct6",
            FieldName::Funct7 => "funct7",
            FieldName::Funct12 => "funct12",
            FieldName::Rd => "rd",
            FieldName::Rs1 => "rs1",
            FieldName::Rs2 => "rs2",
            FieldName::RdOrRs1 => "rd/rs1",
            FieldName::RdPrime => "rd'",
            FieldName::Rs1Prime => "rs1'",
            FieldName::Rs2Prime => "rs2'",
            FieldName::RdOrRs1Prime => "rd'/rs1'",
            FieldName::Imm => "imm",
            FieldName::Nzimm => "nzimm",
            FieldName::Uimm => "uimm",
            FieldName::Nzuimm => "nzuimm",
            FieldName::Shamt => "shamt",
            FieldName::Csr => "csr",
            FieldName::Fm => "fm",
            FieldName::Pred => "pred",
            FieldName::Succ => "succ",
            FieldName::Aq => "aq",
            FieldName::Rl => "rl",
        }
    }

    /// What the bits of a field of this name are.
    pub fn kind(self) -> FieldKind {
        match self {
            FieldName::Opcode | FieldName::Op => FieldKind::Opcode,
            FieldName::Rd | FieldName::Rs1 | FieldName::Rs2 | FieldName::RdOrRs1 => {
                FieldKind::Register
            }
            FieldName::RdPrime
            | FieldName::Rs1Prime
            | FieldName::Rs2Prime
            | FieldName::RdOrRs1Prime => FieldKind::PrimeRegister,
            FieldName::Imm
            | FieldName::Nzimm
            | FieldName::Uimm
            | FieldName::Nzuimm
            | FieldName::Shamt => FieldKind::Immediate,
            FieldName::Csr => FieldKind::Csr,
            FieldName::Fm => FieldKind::FenceMode,
            FieldName::Pred | FieldName::Succ => FieldKind::Set,
            FieldName::Aq => FieldKind::Acquire,
            FieldName::Rl => FieldKind::Release,
            _ => FieldKind::Operation,
        }
    }
}

/// A stretch of an encoding: a field, or some bits of one that is not in one piece.
#[derive(Clone, Copy, Debug, PartialEq, Eq, Default)]
pub struct Stretch {
    /// The field.
    pub name: FieldName,
    /// The lowest of the bits in the field.
    pub field_bit: u32,
    /// How many bits.
    pub width: u32,
    /// The lowest of the bits in the encoding.
    pub word_bit: u32,
}

/// What the fields of a layout are called.
#[derive(Clone, Copy, Debug, PartialEq, Eq)]
pub struct FieldNames {
    pub rd: FieldName,
    pub rs1: FieldName,
    pub rs2: FieldName,
    pub value: FieldName,
    /// The bit of the immediate for which bit 0 of the value stands.
    pub value_bit: u32,
}

/// A format as it stands in the table: what the fields of the layout are called, and the stretches of fixed bits.
pub type FormatRow = (FieldNames, &'static [Stretch]);

/// What the fields rd, rs1, rs2 and the value of a layout are called. A layout without one of them has any name there.
macro_rules! names {
    ($rd:ident, $rs1:ident, $rs2:ident, $value:ident) => {
        names!($rd, $rs1, $rs2, $value from 0)
    };
    ($rd:ident, $rs1:ident, $rs2:ident, $value:ident from $bit:literal) => {
        FieldNames {
            rd: FieldName::$rd,
            rs1: FieldName::$rs1,
            rs2: FieldName::$rs2,
            value: FieldName::$value,
            value_bit: $bit,
        }
    };
}

/// Bits of a field, and the bit of the encoding at which the lowest of them stands.
macro_rules! fixed {
    ($name:ident[$highest:literal : $lowest:literal] at $word_bit:literal) => {
        Stretch {
            name: FieldName::$name,
            field_bit: $lowest,
            width: $highest - $lowest + 1,
            word_bit: $word_bit,
        }
    };
}

/// The format of each shape, in the order of the shapes, and then those of operations with a format of their own. RISC-V Unprivileged ISA 20191213,
/// sections 2.2 to 2.8, 8.2 and 9.1, and of the encodings of 16 bits section 16.8, where fixed bits are fields of the formats of table 16.1.
/// The columns are the names of the fields of the layout, and the stretches of fixed bits.
pub const FORMATS: [FormatRow; 37] = [
    // Upper
    (
        names!(Rd, Rs1, Rs2, Imm from 12),
        &[fixed!(Opcode[6:0] at 0)],
    ),
    // Jump
    (names!(Rd, Rs1, Rs2, Imm), &[fixed!(Opcode[6:0] at 0)]),
    // JumpRegister
    (
        names!(Rd, Rs1, Rs2, Imm),
        &[fixed!(Opcode[6:0] at 0), fixed!(Funct3[2:0] at 12)],
    ),
    // Branch
    (
        names!(Rd, Rs1, Rs2, Imm),
        &[fixed!(Opcode[6:0] at 0), fixed!(Funct3[2:0] at 12)],
    ),
    // Load
    (
        names!(Rd, Rs1, Rs2, Imm),
        &[fixed!(Opcode[6:0] at 0), fixed!(Funct3[2:0] at 12)],
    ),
    // Store
    (
        names!(Rd, Rs1, Rs2, Imm),
        &[fixed!(Opcode[6:0] at 0), fixed!(Funct3[2:0] at 12)],
    ),
    // Immediate
    (
        names!(Rd, Rs1, Rs2, Imm),
        &[fixed!(Opcode[6:0] at 0), fixed!(Funct3[2:0] at 12)],
    ),
    // Shift
    (
        names!(Rd, Rs1, Rs2, Shamt),
        &[
            fixed!(Opcode[6:0] at 0),
            fixed!(Funct3[2:0] at 12),
            fixed!(Funct7[6:0] at 25),
        ],
    ),
    // Register
    (
        names!(Rd, Rs1, Rs2, Imm),
        &[
            fixed!(Opcode[6:0] at 0),
            fixed!(Funct3[2:0] at 12),
            fixed!(Funct7[6:0] at 25),
        ],
    ),
    // Csr
    (
        names!(Rd, Rs1, Rs2, Csr),
        &[fixed!(Opcode[6:0] at 0), fixed!(Funct3[2:0] at 12)],
    ),
    // CsrImmediate
    (
        names!(Rd, Uimm, Rs2, Csr),
        &[fixed!(Opcode[6:0] at 0), fixed!(Funct3[2:0] at 12)],
    ),
    // Fence
    (
        names!(Rd, Pred, Succ, Imm),
        &[
            fixed!(Opcode[6:0] at 0),
            fixed!(Rd[4:0] at 7),
            fixed!(Funct3[2:0] at 12),
            fixed!(Rs1[4:0] at 15),
            fixed!(Fm[3:0] at 28),
        ],
    ),
    // Whole
    (
        names!(Rd, Rs1, Rs2, Imm),
        &[
            fixed!(Opcode[6:0] at 0),
            fixed!(Rd[4:0] at 7),
            fixed!(Funct3[2:0] at 12),
            fixed!(Rs1[4:0] at 15),
            fixed!(Funct12[11:0] at 20),
        ],
    ),
    // LoadReserved
    (
        names!(Rd, Rs1, Rs2, Imm),
        &[
            fixed!(Opcode[6:0] at 0),
            fixed!(Funct3[2:0] at 12),
            fixed!(Rs2[4:0] at 20),
            fixed!(Rl[0:0] at 25),
            fixed!(Aq[0:0] at 26),
            fixed!(Funct5[4:0] at 27),
        ],
    ),
    // Atomic
    (
        names!(Rd, Rs1, Rs2, Imm),
        &[
            fixed!(Opcode[6:0] at 0),
            fixed!(Funct3[2:0] at 12),
            fixed!(Rl[0:0] at 25),
            fixed!(Aq[0:0] at 26),
            fixed!(Funct5[4:0] at 27),
        ],
    ),
    // CStackAddress
    (
        names!(RdPrime, Rs1, Rs2, Nzuimm),
        &[fixed!(Op[1:0] at 0), fixed!(Funct3[2:0] at 13)],
    ),
    // CLoad
    (
        names!(RdPrime, Rs1Prime, Rs2, Uimm),
        &[fixed!(Op[1:0] at 0), fixed!(Funct3[2:0] at 13)],
    ),
    // CStore
    (
        names!(Rd, Rs1Prime, Rs2Prime, Uimm),
        &[fixed!(Op[1:0] at 0), fixed!(Funct3[2:0] at 13)],
    ),
    // CWhole
    (
        names!(Rd, Rs1, Rs2, Imm),
        &[
            fixed!(Op[1:0] at 0),
            fixed!(Rs2[4:0] at 2),
            fixed!(RdOrRs1[4:0] at 7),
            fixed!(Funct4[3:0] at 12),
        ],
    ),
    // CImmediate
    (
        names!(RdOrRs1, Rs1, Rs2, Nzimm),
        &[fixed!(Op[1:0] at 0), fixed!(Funct3[2:0] at 13)],
    ),
    // CJump
    (
        names!(Rd, Rs1, Rs2, Imm),
        &[fixed!(Op[1:0] at 0), fixed!(Funct3[2:0] at 13)],
    ),
    // CLoadImmediate
    (
        names!(Rd, Rs1, Rs2, Imm),
        &[fixed!(Op[1:0] at 0), fixed!(Funct3[2:0] at 13)],
    ),
    // CStackAdjust
    (
        names!(Rd, Rs1, Rs2, Nzimm),
        &[
            fixed!(Op[1:0] at 0),
            fixed!(RdOrRs1[4:0] at 7),
            fixed!(Funct3[2:0] at 13),
        ],
    ),
    // CUpper
    (
        names!(Rd, Rs1, Rs2, Nzimm from 12),
        &[fixed!(Op[1:0] at 0), fixed!(Funct3[2:0] at 13)],
    ),
    // CShiftRight
    (
        names!(RdOrRs1Prime, Rs1, Rs2, Nzuimm),
        &[
            fixed!(Op[1:0] at 0),
            fixed!(Funct2[1:0] at 10),
            fixed!(Nzuimm[5:5] at 12),
            fixed!(Funct3[2:0] at 13),
        ],
    ),
    // CAndImmediate
    (
        names!(RdOrRs1Prime, Rs1, Rs2, Imm),
        &[
            fixed!(Op[1:0] at 0),
            fixed!(Funct2[1:0] at 10),
            fixed!(Funct3[2:0] at 13),
        ],
    ),
    // CRegisters
    (
        names!(RdOrRs1Prime, Rs1, Rs2Prime, Imm),
        &[
            fixed!(Op[1:0] at 0),
            fixed!(Funct2[1:0] at 5),
            fixed!(Funct6[5:0] at 10),
        ],
    ),
    // CBranch
    (
        names!(Rd, Rs1Prime, Rs2, Imm),
        &[fixed!(Op[1:0] at 0), fixed!(Funct3[2:0] at 13)],
    ),
    // CShiftLeft
    (
        names!(RdOrRs1, Rs1, Rs2, Nzuimm),
        &[
            fixed!(Op[1:0] at 0),
            fixed!(Nzuimm[5:5] at 12),
            fixed!(Funct3[2:0] at 13),
        ],
    ),
    // CLoadStack
    (
        names!(Rd, Rs1, Rs2, Uimm),
        &[fixed!(Op[1:0] at 0), fixed!(Funct3[2:0] at 13)],
    ),
    // CJumpRegister
    (
        names!(Rd, Rs1, Rs2, Imm),
        &[
            fixed!(Op[1:0] at 0),
            fixed!(Rs2[4:0] at 2),
            fixed!(Funct4[3:0] at 12),
        ],
    ),
    // CTwoRegisters
    (
        names!(RdOrRs1, Rs1, Rs2, Imm),
        &[fixed!(Op[1:0] at 0), fixed!(Funct4[3:0] at 12)],
    ),
    // CStoreStack
    (
        names!(Rd, Rs1, Rs2, Uimm),
        &[fixed!(Op[1:0] at 0), fixed!(Funct3[2:0] at 13)],
    ),
    // fence.tso
    (
        names!(Rd, Rs1, Rs2, Imm),
        &[
            fixed!(Opcode[6:0] at 0),
            fixed!(Rd[4:0] at 7),
            fixed!(Funct3[2:0] at 12),
            fixed!(Rs1[4:0] at 15),
            fixed!(Succ[3:0] at 20),
            fixed!(Pred[3:0] at 24),
            fixed!(Fm[3:0] at 28),
        ],
    ),
    // fence.i
    (
        names!(Rd, Rs1, Rs2, Imm),
        &[
            fixed!(Opcode[6:0] at 0),
            fixed!(Rd[4:0] at 7),
            fixed!(Funct3[2:0] at 12),
            fixed!(Rs1[4:0] at 15),
            fixed!(Imm[11:0] at 20),
        ],
    ),
    // c.nop
    (
        names!(Rd, Rs1, Rs2, Imm),
        &[
            fixed!(Op[1:0] at 0),
            fixed!(Nzimm[4:0] at 2),
            fixed!(RdOrRs1[4:0] at 7),
            fixed!(Nzimm[5:5] at 12),
            fixed!(Funct3[2:0] at 13),
        ],
    ),
    // c.mv
    (
        names!(Rd, Rs1, Rs2, Imm),
        &[fixed!(Op[1:0] at 0), fixed!(Funct4[3:0] at 12)],
    ),
];

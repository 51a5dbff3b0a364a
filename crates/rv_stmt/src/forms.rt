//! Pseudo-instructions, which are mnemonics for instructions with some operands filled in, and further ways to write an
//! instruction.

use crate::slots::Slot;
use rv_ops::Op;

/// The columns: the mnemonic, its operation, that operation's rd, rs1, rs2 and value where no operand fills them, and the
/// operands.
pub type FormRow = (&'static str, Op, (u8, u8, u8, i32), &'static [Slot]);

/// Each mnemonic with a way to write it that is not the operation's own: RISC-V Unprivileged ISA 20191213, chapter 25,
/// tables 25.2 and 25.3, and our own rules in docs/LANGUAGE.md. A mnemonic may have several ways, each with another number
/// of operands.
pub const FORMS: [FormRow; 48] = [
    (
        "jalr",
        Op::Jalr,
        (0, 0, 0, 0),
        &[Slot::Rd, Slot::Rs1, Slot::Immediate],
    ),
    ("jalr", Op::Jalr, (1, 0, 0, 0), &[Slot::Rs1]),
    ("jal", Op::Jal, (1, 0, 0, 0), &[Slot::Target]),
    ("fence", Op::Fence, (0, 15, 15, 0), &[]),
    (
        "sb",
        Op::Sb,
        (0, 0, 0, 0),
        &[Slot::Rs2, Slot::Address, Slot::Rs1],
    ),
    (
        "sh",
        Op::Sh,
        (0, 0, 0, 0),
        &[Slot::Rs2, Slot::Address, Slot::Rs1],
    ),
    (
        "sw",
        Op::Sw,
        (0, 0, 0, 0),
        &[Slot::Rs2, Slot::Address, Slot::Rs1],
    ),
    ("nop", Op::Addi, (0, 0, 0, 0), &[]),
    ("mv", Op::Addi, (0, 0, 0, 0), &[Slot::Rd, Slot::Rs1]),
    ("not", Op::Xori, (0, 0, 0, -1), &[Slot::Rd, Slot::Rs1]),
    ("neg", Op::Sub, (0, 0, 0, 0), &[Slot::Rd, Slot::Rs2]),
    ("seqz", Op::Sltiu, (0, 0, 0, 1), &[Slot::Rd, Slot::Rs1]),
    ("snez", Op::Sltu, (0, 0, 0, 0), &[Slot::Rd, Slot::Rs2]),
    ("sltz", Op::Slt, (0, 0, 0, 0), &[Slot::Rd, Slot::Rs1]),
    ("sgtz", Op::Slt, (0, 0, 0, 0), &[Slot::Rd, Slot::Rs2]),
    (
        "sgt",
        Op::Slt,
        (0, 0, 0, 0),
        &[Slot::Rd, Slot::Rs2, Slot::Rs1],
    ),
    (
        "sgtu",
        Op::Sltu,
        (0, 0, 0, 0),
        &[Slot::Rd, Slot::Rs2, Slot::Rs1],
    ),
    ("beqz", Op::Beq, (0, 0, 0, 0), &[Slot::Rs1, Slot::Target]),
    ("bnez", Op::Bne, (0, 0, 0, 0), &[Slot::Rs1, Slot::Target]),
    ("bgez", Op::Bge, (0, 0, 0, 0), &[Slot::Rs1, Slot::Target]),
    ("bltz", Op::Blt, (0, 0, 0, 0), &[Slot::Rs1, Slot::Target]),
    ("blez", Op::Bge, (0, 0, 0, 0), &[Slot::Rs2, Slot::Target]),
    ("bgtz", Op::Blt, (0, 0, 0, 0), &[Slot::Rs2, Slot::Target]),
    (
        "bgt",
        Op::Blt,
        (0, 0, 0, 0),
        &[Slot::Rs2, Slot::Rs1, Slot::Target],
    ),
    (
        "ble",
        Op::Bge,
        (0, 0, 0, 0),
        &[Slot::Rs2, Slot::Rs1, Slot::Target],
    ),
    (
        "bgtu",
        Op::Bltu,
        (0, 0, 0, 0),
        &[Slot::Rs2, Slot::Rs1, Slot::Target],
    ),
    (
        "bleu",
        Op::Bgeu,
        (0, 0, 0, 0),
        &[Slot::Rs2, Slot::Rs1, Slot::Target],
    ),
    ("j", Op::Jal, (0, 0, 0, 0), &[Slot::Target]),
    ("jr", Op::Jalr, (0, 0, 0, 0), &[Slot::Rs1]),
    ("ret", Op::Jalr, (0, 1, 0, 0), &[]),
    ("csrr", Op::Csrrs, (0, 0, 0, 0), &[Slot::Rd, Slot::Csr]),
    ("csrw", Op::Csrrw, (0, 0, 0, 0), &[Slot::Csr, Slot::Rs1]),
    ("csrs", Op::Csrrs, (0, 0, 0, 0), &[Slot::Csr, Slot::Rs1]),
    ("csrc", Op::Csrrc, (0, 0, 0, 0), &[Slot::Csr, Slot::Rs1]),
    (
        "csrwi",
        Op::Csrrwi,
        (0, 0, 0, 0),
        &[Slot::Csr, Slot::SourceImmediate],
    ),
    (
        "csrsi",
        Op::Csrrsi,
        (0, 0, 0, 0),
        &[Slot::Csr, Slot::SourceImmediate],
    ),
    (
        "csrci",
        Op::Csrrci,
        (0, 0, 0, 0),
        &[Slot::Csr, Slot::SourceImmediate],
    ),
    ("rdcycle", Op::Csrrs, (0, 0, 0, 0xc00), &[Slot::Rd]),
    ("rdtime", Op::Csrrs, (0, 0, 0, 0xc01), &[Slot::Rd]),
    ("rdinstret", Op::Csrrs, (0, 0, 0, 0xc02), &[Slot::Rd]),
    ("rdcycleh", Op::Csrrs, (0, 0, 0, 0xc80), &[Slot::Rd]),
    ("rdtimeh", Op::Csrrs, (0, 0, 0, 0xc81), &[Slot::Rd]),
    ("rdinstreth", Op::Csrrs, (0, 0, 0, 0xc82), &[Slot::Rd]),
    (
        "la",
        Op::Addi,
        (0, 0, 0, 0),
        &[Slot::Rd, Slot::AddressThroughRd],
    ),
    (
        "lla",
        Op::Addi,
        (0, 0, 0, 0),
        &[Slot::Rd, Slot::AddressThroughRd],
    ),
    ("call", Op::Jalr, (1, 1, 0, 0), &[Slot::Address]),
    ("tail", Op::Jalr, (0, 6, 0, 0), &[Slot::Address]),
    ("li", Op::Addi, (0, 0, 0, 0), &[Slot::Rd, Slot::Constant]),
];

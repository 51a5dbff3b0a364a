//! The pseudo-instructions.

use crate::entry::{ManualRow, Source};

/// Each with what it stands for, in the operands with which it is written.
pub const PSEUDO_INSTRUCTIONS: [ManualRow; 41] = [
    (
        &["nop"],
        Source::PseudoInstructions,
        "Does nothing: addi zero, zero, 0.",
    ),
    (
        &["mv"],
        Source::PseudoInstructions,
        "Copies rs1 to rd: addi rd, rs1, 0.",
    ),
    (
        &["not"],
        Source::PseudoInstructions,
        "Puts the bitwise complement of rs1 into rd: xori rd, rs1, -1.",
    ),
    (
        &["neg"],
        Source::PseudoInstructions,
        "Puts 0 minus rs2 into rd: sub rd, zero, rs2.",
    ),
    (
        &["seqz"],
        Source::PseudoInstructions,
        "Puts 1 into rd if rs1 is 0, and otherwise 0: sltiu rd, rs1, 1.",
    ),
    (
        &["snez"],
        Source::PseudoInstructions,
        "Puts 1 into rd if rs2 is not 0, and otherwise 0: sltu rd, zero, rs2.",
    ),
    (
        &["sltz"],
        Source::PseudoInstructions,
        "Puts 1 into rd if rs1, signed, is less than 0, and otherwise 0: slt rd, rs1, zero.",
    ),
    (
        &["sgtz"],
        Source::PseudoInstructions,
        "Puts 1 into rd if rs2, signed, is greater than 0, and otherwise 0: slt rd, zero, rs2.",
    ),
    (
        &["sgt"],
        Source::OwnPseudoInstructions,
        "Puts 1 into rd if rs2 is greater than rs1, both signed, and otherwise 0: slt rd, rs1, rs2.",
    ),
    (
        &["sgtu"],
        Source::OwnPseudoInstructions,
        "Puts 1 into rd if rs2 is greater than rs1, both unsigned, and otherwise 0: sltu rd, rs1, rs2.",
    ),
    (
        &["beqz"],
        Source::PseudoInstructions,
        "Jumps to the target if rs1 is 0: beq rs1, zero, target.",
    ),
    (
        &["bnez"],
        Source::PseudoInstructions,
        "Jumps to the target if rs1 is not 0: bne rs1, zero, target.",
    ),
    (
        &["bgez"],
        Source::PseudoInstructions,
        "Jumps to the target if rs1, signed, is at least 0: bge rs1, zero, target.",
    ),
    (
        &["bltz"],
        Source::PseudoInstructions,
        "Jumps to the target if rs1, signed, is less than 0: blt rs1, zero, target.",
    ),
    (
        &["blez"],
        Source::PseudoInstructions,
        "Jumps to the target if rs2, signed, is at most 0: bge zero, rs2, target.",
    ),
    (
        &["bgtz"],
        Source::PseudoInstructions,
        "Jumps to the target if rs2, signed, is greater than 0: blt zero, rs2, target.",
    ),
    (
        &["bgt"],
        Source::PseudoInstructions,
        "Jumps to the target if rs2 is greater than rs1, both signed: blt rs1, rs2, target.",
    ),
    (
        &["ble"],
        Source::PseudoInstructions,
        "Jumps to the target if rs2 is at most rs1, both signed: bge rs1, rs2, target.",
    ),
    (
        &["bgtu"],
        Source::PseudoInstructions,
        "Jumps to the target if rs2 is greater than rs1, both unsigned: bltu rs1, rs2, target.",
    ),
    (
        &["bleu"],
        Source::PseudoInstructions,
        "Jumps to the target if rs2 is at most rs1, both unsigned: bgeu rs1, rs2, target.",
    ),
    (
        &["j"],
        Source::PseudoInstructions,
        "Jumps to the target, within 1 MiB: jal zero, target.",
    ),
    (
        &["jr"],
        Source::PseudoInstructions,
        "Jumps to rs1, bit 0 cleared: jalr zero, 0(rs1).",
    ),
    (
        &["ret"],
        Source::PseudoInstructions,
        "Returns from a function: jalr zero, 0(ra).",
    ),
    (
        &["la"],
        Source::PseudoInstructions,
        "Puts the address into rd, relative to pc: auipc rd, high and addi rd, rd, low.",
    ),
    (
        &["lla"],
        Source::OwnPseudoInstructions,
        "Puts the address into rd, relative to pc: auipc rd, high and addi rd, rd, low.",
    ),
    (
        &["call"],
        Source::PseudoInstructions,
        "Calls the function at the address, relative to pc: auipc ra, high and jalr ra, low(ra).",
    ),
    (
        &["tail"],
        Source::PseudoInstructions,
        "Jumps to the address, relative to pc: auipc t1, high and jalr zero, low(t1).",
    ),
    (
        &["li"],
        Source::PseudoInstructions,
        "Puts the constant into rd: lui and addi, or one of them.",
    ),
    (
        &["csrr"],
        Source::CsrPseudoInstructions,
        "Puts the CSR into rd: csrrs rd, csr, zero.",
    ),
    (
        &["csrw"],
        Source::CsrPseudoInstructions,
        "Puts rs1 into the CSR: csrrw zero, csr, rs1.",
    ),
    (
        &["csrs"],
        Source::CsrPseudoInstructions,
        "Sets the bits of the CSR that are 1 in rs1: csrrs zero, csr, rs1.",
    ),
    (
        &["csrc"],
        Source::CsrPseudoInstructions,
        "Clears the bits of the CSR that are 1 in rs1: csrrc zero, csr, rs1.",
    ),
    (
        &["csrwi"],
        Source::CsrPseudoInstructions,
        "Puts the immediate, 0 to 31, into the CSR: csrrwi zero, csr, immediate.",
    ),
    (
        &["csrsi"],
        Source::CsrPseudoInstructions,
        "Sets the bits of the CSR that are 1 in the immediate, 0 to 31: csrrsi zero, csr, immediate.",
    ),
    (
        &["csrci"],
        Source::CsrPseudoInstructions,
        "Clears the bits of the CSR that are 1 in the immediate, 0 to 31: csrrci zero, csr, immediate.",
    ),
    (
        &["rdcycle"],
        Source::CsrPseudoInstructions,
        "Puts the lower 32 bits of the number of clock cycles into rd: csrrs rd, cycle, zero.",
    ),
    (
        &["rdtime"],
        Source::CsrPseudoInstructions,
        "Puts the lower 32 bits of the real time into rd: csrrs rd, time, zero.",
    ),
    (
        &["rdinstret"],
        Source::CsrPseudoInstructions,
        "Puts the lower 32 bits of the number of retired instructions into rd: csrrs rd, instret, zero.",
    ),
    (
        &["rdcycleh"],
        Source::CsrPseudoInstructions,
        "Puts the upper 32 bits of the number of clock cycles into rd: csrrs rd, cycleh, zero.",
    ),
    (
        &["rdtimeh"],
        Source::CsrPseudoInstructions,
        "Puts the upper 32 bits of the real time into rd: csrrs rd, timeh, zero.",
    ),
    (
        &["rdinstreth"],
        Source::CsrPseudoInstructions,
        "Puts the upper 32 bits of the number of retired instructions into rd: csrrs rd, instreth, zero.",
    ),
];

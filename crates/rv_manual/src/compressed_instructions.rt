//! The instructions of 16 bits.

use crate::entry::{ManualRow, Source};

/// Each with the instruction of 32 bits that does the same.
pub const COMPRESSED: [ManualRow; 27] = [
    (
        &["c.addi4spn"],
        Source::CompressedIntegerComputation,
        "Puts sp plus the immediate, a multiple of 4 from 4 to 1020, into rd: addi rd, sp, immediate.",
    ),
    (
        &["c.lw"],
        Source::CompressedLoadsAndStores,
        "Loads the four bytes at rs1 plus the zero-extended offset into rd: lw rd, offset(rs1).",
    ),
    (
        &["c.sw"],
        Source::CompressedLoadsAndStores,
        "Stores the four bytes of rs2 at rs1 plus the zero-extended offset: sw rs2, offset(rs1).",
    ),
    (
        &["c.nop"],
        Source::CompressedIntegerComputation,
        "Does nothing: addi zero, zero, 0.",
    ),
    (
        &["c.addi"],
        Source::CompressedIntegerComputation,
        "Adds the sign-extended immediate, which is not 0, to rd: addi rd, rd, immediate.",
    ),
    (
        &["c.jal"],
        Source::CompressedControlTransfer,
        "Jumps to the target, within 2 KiB, and puts pc + 2 into ra: a short jal ra, target.",
    ),
    (
        &["c.li"],
        Source::CompressedIntegerComputation,
        "Puts the sign-extended immediate into rd: addi rd, zero, immediate.",
    ),
    (
        &["c.addi16sp"],
        Source::CompressedIntegerComputation,
        "Adds the immediate, a multiple of 16 and not 0, sign-extended, to sp: addi sp, sp, immediate.",
    ),
    (
        &["c.lui"],
        Source::CompressedIntegerComputation,
        "Puts the sign-extended 6-bit immediate into bits 31 to 12 of rd, zeros below: lui rd, immediate.",
    ),
    (
        &["c.srli"],
        Source::CompressedIntegerComputation,
        "Shifts rd right by the immediate, 1 to 31; zeros come in: srli rd, rd, immediate.",
    ),
    (
        &["c.srai"],
        Source::CompressedIntegerComputation,
        "Shifts rd right by the immediate, 1 to 31; copies of the sign bit come in: srai rd, rd, immediate.",
    ),
    (
        &["c.andi"],
        Source::CompressedIntegerComputation,
        "Puts the bitwise and of rd and the sign-extended immediate into rd: andi rd, rd, immediate.",
    ),
    (
        &["c.sub"],
        Source::CompressedIntegerComputation,
        "Subtracts rs2 from rd: sub rd, rd, rs2.",
    ),
    (
        &["c.xor"],
        Source::CompressedIntegerComputation,
        "Puts the bitwise exclusive or of rd and rs2 into rd: xor rd, rd, rs2.",
    ),
    (
        &["c.or"],
        Source::CompressedIntegerComputation,
        "Puts the bitwise or of rd and rs2 into rd: or rd, rd, rs2.",
    ),
    (
        &["c.and"],
        Source::CompressedIntegerComputation,
        "Puts the bitwise and of rd and rs2 into rd: and rd, rd, rs2.",
    ),
    (
        &["c.j"],
        Source::CompressedControlTransfer,
        "Jumps to the target, within 2 KiB: jal zero, target.",
    ),
    (
        &["c.beqz"],
        Source::CompressedControlTransfer,
        "Jumps to the target, within 256 bytes, if rs1 is 0: beq rs1, zero, target.",
    ),
    (
        &["c.bnez"],
        Source::CompressedControlTransfer,
        "Jumps to the target, within 256 bytes, if rs1 is not 0: bne rs1, zero, target.",
    ),
    (
        &["c.slli"],
        Source::CompressedIntegerComputation,
        "Shifts rd left by the immediate, 1 to 31; zeros come in: slli rd, rd, immediate.",
    ),
    (
        &["c.lwsp"],
        Source::CompressedLoadsAndStores,
        "Loads the four bytes at sp plus the zero-extended offset into rd: lw rd, offset(sp).",
    ),
    (
        &["c.jr"],
        Source::CompressedControlTransfer,
        "Jumps to rs1, bit 0 cleared: jalr zero, 0(rs1).",
    ),
    (
        &["c.mv"],
        Source::CompressedIntegerComputation,
        "Copies rs2 to rd: add rd, zero, rs2.",
    ),
    (
        &["c.ebreak"],
        Source::CompressedIntegerComputation,
        "Returns control to a debugging environment: ebreak.",
    ),
    (
        &["c.jalr"],
        Source::CompressedControlTransfer,
        "Jumps to rs1, bit 0 cleared, and puts pc + 2 into ra: a short jalr ra, 0(rs1).",
    ),
    (
        &["c.add"],
        Source::CompressedIntegerComputation,
        "Adds rs2 to rd: add rd, rd, rs2.",
    ),
    (
        &["c.swsp"],
        Source::CompressedLoadsAndStores,
        "Stores the four bytes of rs2 at sp plus the zero-extended offset: sw rs2, offset(sp).",
    ),
];

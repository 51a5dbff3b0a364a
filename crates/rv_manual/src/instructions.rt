//! The instructions of 32 bits, but for the atomic ones.

use crate::entry::{ManualRow, Source};

/// The instructions for integers.
pub const INTEGERS: [ManualRow; 37] = [
    (
        &["lui"],
        Source::IntegerComputation,
        "Puts the immediate into bits 31 to 12 of rd, and zeros into the lower 12 bits.",
    ),
    (
        &["auipc"],
        Source::IntegerComputation,
        "Puts the sum of pc and the immediate shifted left by 12 bits into rd.",
    ),
    (
        &["jal"],
        Source::ControlTransfer,
        "Jumps to the target, within 1 MiB, and puts pc + 4 into rd, or into ra if no rd is given.",
    ),
    (
        &["jalr"],
        Source::ControlTransfer,
        "Jumps to rs1 plus the sign-extended offset, bit 0 cleared; pc + 4 goes into rd, or ra without rd.",
    ),
    (
        &["beq"],
        Source::ControlTransfer,
        "Jumps to the target, within 4 KiB, if rs1 and rs2 are equal.",
    ),
    (
        &["bne"],
        Source::ControlTransfer,
        "Jumps to the target, within 4 KiB, if rs1 and rs2 differ.",
    ),
    (
        &["blt"],
        Source::ControlTransfer,
        "Jumps to the target, within 4 KiB, if rs1 is less than rs2, both signed.",
    ),
    (
        &["bge"],
        Source::ControlTransfer,
        "Jumps to the target, within 4 KiB, if rs1 is not less than rs2, both signed.",
    ),
    (
        &["bltu"],
        Source::ControlTransfer,
        "Jumps to the target, within 4 KiB, if rs1 is less than rs2, both unsigned.",
    ),
    (
        &["bgeu"],
        Source::ControlTransfer,
        "Jumps to the target, within 4 KiB, if rs1 is not less than rs2, both unsigned.",
    ),
    (
        &["lb"],
        Source::LoadsAndStores,
        "Loads the byte at rs1 plus the sign-extended offset, and puts it into rd sign-extended.",
    ),
    (
        &["lh"],
        Source::LoadsAndStores,
        "Loads the two bytes at rs1 plus the sign-extended offset, and puts them into rd sign-extended.",
    ),
    (
        &["lw"],
        Source::LoadsAndStores,
        "Loads the four bytes at rs1 plus the sign-extended offset into rd.",
    ),
    (
        &["lbu"],
        Source::LoadsAndStores,
        "Loads the byte at rs1 plus the sign-extended offset, and puts it into rd zero-extended.",
    ),
    (
        &["lhu"],
        Source::LoadsAndStores,
        "Loads the two bytes at rs1 plus the sign-extended offset, and puts them into rd zero-extended.",
    ),
    (
        &["sb"],
        Source::LoadsAndStores,
        "Stores the lowest byte of rs2 at rs1 plus the sign-extended offset.",
    ),
    (
        &["sh"],
        Source::LoadsAndStores,
        "Stores the two lower bytes of rs2 at rs1 plus the sign-extended offset.",
    ),
    (
        &["sw"],
        Source::LoadsAndStores,
        "Stores the four bytes of rs2 at rs1 plus the sign-extended offset.",
    ),
    (
        &["addi"],
        Source::IntegerComputation,
        "Puts the sum of rs1 and the sign-extended immediate into rd; overflow is ignored.",
    ),
    (
        &["slti"],
        Source::IntegerComputation,
        "Puts 1 into rd if rs1 is less than the sign-extended immediate, both signed, and otherwise 0.",
    ),
    (
        &["sltiu"],
        Source::IntegerComputation,
        "Puts 1 into rd if rs1 is less than the sign-extended immediate, both unsigned, and otherwise 0.",
    ),
    (
        &["xori"],
        Source::IntegerComputation,
        "Puts the bitwise exclusive or of rs1 and the sign-extended immediate into rd.",
    ),
    (
        &["ori"],
        Source::IntegerComputation,
        "Puts the bitwise or of rs1 and the sign-extended immediate into rd.",
    ),
    (
        &["andi"],
        Source::IntegerComputation,
        "Puts the bitwise and of rs1 and the sign-extended immediate into rd.",
    ),
    (
        &["slli"],
        Source::IntegerComputation,
        "Shifts rs1 left by the immediate, 0 to 31, into rd; zeros come in.",
    ),
    (
        &["srli"],
        Source::IntegerComputation,
        "Shifts rs1 right by the immediate, 0 to 31, into rd; zeros come in.",
    ),
    (
        &["srai"],
        Source::IntegerComputation,
        "Shifts rs1 right by the immediate, 0 to 31, into rd; copies of the sign bit come in.",
    ),
    (
        &["add"],
        Source::IntegerComputation,
        "Puts the sum of rs1 and rs2 into rd; overflow is ignored.",
    ),
    (
        &["sub"],
        Source::IntegerComputation,
        "Puts rs1 minus rs2 into rd; overflow is ignored.",
    ),
    (
        &["sll"],
        Source::IntegerComputation,
        "Shifts rs1 left by the lower 5 bits of rs2 into rd; zeros come in.",
    ),
    (
        &["slt"],
        Source::IntegerComputation,
        "Puts 1 into rd if rs1 is less than rs2, both signed, and otherwise 0.",
    ),
    (
        &["sltu"],
        Source::IntegerComputation,
        "Puts 1 into rd if rs1 is less than rs2, both unsigned, and otherwise 0.",
    ),
    (
        &["xor"],
        Source::IntegerComputation,
        "Puts the bitwise exclusive or of rs1 and rs2 into rd.",
    ),
    (
        &["srl"],
        Source::IntegerComputation,
        "Shifts rs1 right by the lower 5 bits of rs2 into rd; zeros come in.",
    ),
    (
        &["sra"],
        Source::IntegerComputation,
        "Shifts rs1 right by the lower 5 bits of rs2 into rd; copies of the sign bit come in.",
    ),
    (
        &["or"],
        Source::IntegerComputation,
        "Puts the bitwise or of rs1 and rs2 into rd.",
    ),
    (
        &["and"],
        Source::IntegerComputation,
        "Puts the bitwise and of rs1 and rs2 into rd.",
    ),
];

/// Those of the system, of multiplication and division, and of control and status registers (CSR).
pub const SYSTEM: [ManualRow; 22] = [
    (
        &["fence"],
        Source::MemoryOrdering,
        "Orders the accesses before it that are in the first set ahead of those after it in the second.",
    ),
    (
        &["fence.tso"],
        Source::MemoryOrdering,
        "Orders earlier loads before later loads and stores, and earlier stores before later stores.",
    ),
    (
        &["fence.i"],
        Source::InstructionFetchFence,
        "Lets later instruction fetches of this hart see the stores that it has made before.",
    ),
    (
        &["ecall"],
        Source::EnvironmentCalls,
        "Requests a service of the execution environment.",
    ),
    (
        &["ebreak"],
        Source::EnvironmentCalls,
        "Returns control to a debugging environment.",
    ),
    (
        &["mret"],
        Source::MachineInstructions,
        "Returns from a trap to mepc, and restores the mode and the interrupt enable from mstatus.",
    ),
    (
        &["sret"],
        Source::MachineInstructions,
        "Returns from a trap to sepc, and restores the mode and the interrupt enable from sstatus.",
    ),
    (
        &["wfi"],
        Source::MachineInstructions,
        "Waits for an interrupt, or goes on at once: it is only a hint.",
    ),
    (
        &["mul"],
        Source::Multiplication,
        "Puts the lower 32 bits of the product of rs1 and rs2 into rd.",
    ),
    (
        &["mulh"],
        Source::Multiplication,
        "Puts the upper 32 bits of the product of rs1 and rs2, both signed, into rd.",
    ),
    (
        &["mulhsu"],
        Source::Multiplication,
        "Puts the upper 32 bits of the product of rs1, signed, and rs2, unsigned, into rd.",
    ),
    (
        &["mulhu"],
        Source::Multiplication,
        "Puts the upper 32 bits of the product of rs1 and rs2, both unsigned, into rd.",
    ),
    (
        &["div"],
        Source::Division,
        "Divides rs1 by rs2, both signed, into rd, rounding toward zero; dividing by 0 gives -1.",
    ),
    (
        &["divu"],
        Source::Division,
        "Divides rs1 by rs2, both unsigned, into rd, rounding down; dividing by 0 gives 2^32 - 1.",
    ),
    (
        &["rem"],
        Source::Division,
        "Puts the remainder of rs1 by rs2, both signed, into rd, with the sign of rs1; by 0 it is rs1.",
    ),
    (
        &["remu"],
        Source::Division,
        "Puts the remainder of rs1 by rs2, both unsigned, into rd; by 0 it is rs1.",
    ),
    (
        &["csrrw"],
        Source::CsrInstructions,
        "Puts the CSR into rd, and rs1 into the CSR; with x0 as rd the CSR is not read.",
    ),
    (
        &["csrrs"],
        Source::CsrInstructions,
        "Puts the CSR into rd, and sets its bits that are 1 in rs1; with x0 as rs1 it is not written.",
    ),
    (
        &["csrrc"],
        Source::CsrInstructions,
        "Puts the CSR into rd, and clears its bits that are 1 in rs1; with x0 as rs1 it is not written.",
    ),
    (
        &["csrrwi"],
        Source::CsrInstructions,
        "Puts the CSR into rd, and the 5-bit immediate into the CSR; with x0 as rd the CSR is not read.",
    ),
    (
        &["csrrsi"],
        Source::CsrInstructions,
        "Puts the CSR into rd, and sets its bits that are 1 in the 5-bit immediate; 0 writes nothing.",
    ),
    (
        &["csrrci"],
        Source::CsrInstructions,
        "Puts the CSR into rd, and clears its bits that are 1 in the 5-bit immediate; 0 writes nothing.",
    ),
];

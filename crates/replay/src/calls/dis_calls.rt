//! Calls of `rv_dis`.

use crate::calls::call::Answer;
use rv_code::decode32;
use rv_dis::{DisError, DisRow, disassemble, instruction_text};
use std::alloc::Global;

/// Instructions of both sizes, two bytes that are none, and a last byte, so that the rows outgrow their room more than once.
pub const BYTES: &[u8] = &[
    0x01, 0x00, 0x13, 0x05, 0x15, 0x00, 0x73, 0x00, 0x02, 0x90, 0x63, 0x04, 0xb5, 0x00, 0x01, 0x00,
    0x07,
];

/// Their rows at 0x1000: the address and the text of each.
pub const ROWS: [(u32, &str); 7] = [
    (0x1000, "c.nop"),
    (0x1002, "addi a0, a0, 1"),
    (0x1006, ".half 0x0073"),
    (0x1008, "c.ebreak"),
    (0x100a, "beq a0, a1, 0x00001012"),
    (0x100e, "c.nop"),
    (0x1010, ".byte 0x07"),
];

/// Whether these are rows with these addresses and texts.
pub fn are_rows(found: &[DisRow], wanted: &[(u32, &'static str)]) -> bool {
    for (row, (address, text)) in found.iter().zip(wanted) {
        if row.address != *address || row.text.as_str() != *text {
            return false;
        }
    }
    found.len() == wanted.len()
}

/// `disassemble` of a stretch.
pub fn rows(alloc: Global) -> Answer {
    match disassemble(alloc, BYTES, 0x1000) {
        Ok(rows) => Answer::of(are_rows(rows.as_slice(), &ROWS)),
        Err(DisError::Memory) => Answer::Refused,
    }
}

/// `instruction_text` of the instruction of a word, `beq a0, a1, . + 8`.
pub fn text_of_instruction(alloc: Global, word: u32) -> Answer {
    let Some(ins) = decode32(word) else {
        return Answer::Wrong;
    };
    match instruction_text(alloc, &ins, 0xffff_fffc) {
        Ok(text) => Answer::of(text.as_str() == "beq a0, a1, 0x00000004"),
        Err(DisError::Memory) => Answer::Refused,
    }
}

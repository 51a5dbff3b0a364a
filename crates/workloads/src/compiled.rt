//! Texts as a compiler writes them: functions, and then a variable and a string for each of them.

use crate::random::Random;
use crate::template::Block;
use std::alloc::{AllocError, Global};

/// The lines before the first function.
pub const HEAD: [&str; 2] = [".equ step, 4", ".text"];

/// The lines of a function. An empty one is any instruction of `BODY`.
pub const FUNCTION: [&str; 26] = [
    "function@:",
    "addi sp, sp, -16",
    "sw ra, 12(sp)",
    "sw s0, 8(sp)",
    "mv s0, a0",
    "",
    "",
    "li a5, 9",
    "bgt a0, a5, else@",
    "lui a4, %hi(counter&)",
    "lw a5, %lo(counter&)(a4)",
    "addi a5, a5, step",
    "sw a5, %lo(counter&)(a4)",
    "",
    "else@:",
    "beqz s0, end@",
    "",
    "call function&",
    "",
    "end@:",
    "mv a0, s0",
    "lw ra, 12(sp)",
    "lw s0, 8(sp)",
    "addi sp, sp, 16",
    "jr ra",
    "# the end of function @",
];

// Instructions in a function.
const BODY: [&str; 16] = [
    "add ?, ?, ?",
    "addi ?, ?, $",
    "slli ?, ?, 2",
    "lw ?, $(sp)",
    "sw ?, $(s0)",
    "lbu ?, $(?)",
    "xor ?, ?, ?",
    "andi ?, ?, 255",
    "sub ?, ?, ?",
    "mul ?, ?, ?",
    "sltu ?, ?, ?",
    "srai ?, ?, 31",
    "or ?, ?, ?",
    "c.mv ?, ?",
    "c.nop",
    "bltu ?, ?, end@",
];

/// A text of about so many lines.
#[derive(Clone, Copy)]
pub struct Compiled {
    seed: u32,
    functions: u32,
}

impl Compiled {
    /// Of about so many lines.
    pub fn of(seed: u32, count: u32) -> Compiled {
        Compiled {
            seed,
            functions: count / (FUNCTION.len() as u32 + 2),
        }
    }

    /// How many functions it has.
    pub fn functions(self) -> u32 {
        self.functions
    }

    /// The number of a line of a function.
    pub fn number(self, function: u32, row: u32) -> u32 {
        function
            .saturating_mul(FUNCTION.len() as u32)
            .saturating_add(HEAD.len() as u32)
            .saturating_add(row)
            .saturating_add(1)
    }

    /// A line of a function.
    pub fn line(self, alloc: Global, function: u32, row: u32) -> Result<String, AllocError> {
        let mut random = Random::at(self.seed, self.number(function, row));
        let block = Block::of(self.seed, function, self.functions);
        match FUNCTION.get(row as usize).copied() {
            None | Some("") => block.line(alloc, random.word(&BODY), &mut random),
            Some(template) => block.line(alloc, template, &mut random),
        }
    }

    /// The variable of a function.
    pub fn variable(self, alloc: Global, function: u32) -> Result<String, AllocError> {
        let mut random = Random::at(self.seed, function);
        let block = Block::of(self.seed, function, self.functions);
        block.line(alloc, "counter@: .word $", &mut random)
    }

    /// The string of a function.
    pub fn string(self, alloc: Global, function: u32) -> Result<String, AllocError> {
        let mut random = Random::at(self.seed, function);
        let block = Block::of(self.seed, function, self.functions);
        block.line(alloc, "name@: .asciz \"function @ $\"", &mut random)
    }
}

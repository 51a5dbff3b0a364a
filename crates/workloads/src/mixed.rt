//! Texts of mixed lines: labels, constants, instructions whose length depends on a constant, paddings and data.

use crate::random::Random;
use crate::template::Block;
use std::alloc::{AllocError, Global};

/// The lines before the first block.
pub const HEAD: [&str; 2] = ["nop", ".equ step, 4"];

/// The lines of a block.
pub const BLOCK: [&str; 16] = [
    "from@: addi ?, ?, $",
    "li ?, 0x12345678",
    "lw ?, $(sp)",
    "j to@",
    "addi ?, ?, step",
    "to@: sw ?, $(sp)",
    "beq ?, ?, from@",
    ".equ size@, $ * 16",
    "li ?, size@",
    "xor ?, ?, ?",
    "lui a0, %hi(from&)",
    "addi a0, a0, %lo(from&)",
    ".word to&, size&",
    ".align 2",
    "call from&",
    "# the end of block @",
];

/// A text of about so many lines.
#[derive(Clone, Copy)]
pub struct Mixed {
    seed: u32,
    blocks: u32,
}

impl Mixed {
    /// Of about so many lines.
    pub fn of(seed: u32, count: u32) -> Mixed {
        Mixed {
            seed,
            blocks: count / BLOCK.len() as u32,
        }
    }

    /// How many blocks it has.
    pub fn blocks(self) -> u32 {
        self.blocks
    }

    /// The number of a line of a block.
    pub fn number(self, block: u32, row: u32) -> u32 {
        block
            .saturating_mul(BLOCK.len() as u32)
            .saturating_add(HEAD.len() as u32)
            .saturating_add(row)
            .saturating_add(1)
    }

    /// The line of a template in a block.
    pub fn filled(
        self,
        alloc: Global,
        block: u32,
        template: &str,
        random: &mut Random,
    ) -> Result<String, AllocError> {
        Block::of(self.seed, block, self.blocks).line(alloc, template, random)
    }

    /// A line of a block.
    pub fn line(self, alloc: Global, block: u32, row: u32) -> Result<String, AllocError> {
        let mut random = Random::at(self.seed, self.number(block, row));
        let template = BLOCK.get(row as usize).copied().unwrap_or("");
        self.filled(alloc, block, template, &mut random)
    }
}

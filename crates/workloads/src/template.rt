//! Lines that are made of templates.

use crate::random::Random;
use std::alloc::{AllocError, Global};

// The registers of operands.
const REGISTERS: [&str; 16] = [
    "a0", "a1", "a2", "a3", "a4", "a5", "t0", "t1", "t2", "t3", "s0", "s1", "s2", "s3", "s4", "s5",
];

/// The block that a line stands in.
#[derive(Clone, Copy)]
pub struct Block {
    /// Its number.
    pub own: u32,
    /// The number of a block that it uses.
    pub other: u32,
}

impl Block {
    /// One of so many blocks. Which one it uses depends on the seed.
    pub fn of(seed: u32, own: u32, blocks: u32) -> Block {
        Block {
            own,
            other: Random::at(!seed, own).below(blocks),
        }
    }

    /// The line of a template in it. `@` stands for its number, `&` for that of the other block, `?` for a register and `$` for a
    /// multiple of four from 0 to 124.
    pub fn line(
        self,
        alloc: Global,
        template: &str,
        random: &mut Random,
    ) -> Result<String, AllocError> {
        let mut line = String::new(alloc);
        for c in template.chars() {
            match c {
                '@' => line.push_str(format!(in alloc; "{}", self.own)?.as_str())?,
                '&' => line.push_str(format!(in alloc; "{}", self.other)?.as_str())?,
                '$' => line.push_str(format!(in alloc;
                    "{}",
                    random.below(32).wrapping_mul(4)
                )?.as_str())?,
                '?' => line.push_str(random.word(&REGISTERS))?,
                _ => line.push(c)?,
            }
        }
        Ok(line)
    }
}

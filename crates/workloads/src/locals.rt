//! A text by hand, in which every second line defines a local label.

use crate::random::Random;
use crate::script::Script;
use crate::template::Block;
use std::alloc::{AllocError, Global};

// The lines of a block.
const BLOCK: [&str; 8] = [
    "1: addi ?, ?, $",
    "bnez ?, 1b",
    "2: lw ?, $(sp)",
    "beqz ?, 1f",
    "3: sw ?, $(s0)",
    "j 2b",
    "1: add ?, ?, ?",
    "bltu ?, ?, 3b",
];

// How many lines of the text there are for one that is inserted.
const LINES: u32 = 64;

// A line of the text.
fn line(alloc: Global, seed: u32, place: u32) -> Result<String, AllocError> {
    let own = place / BLOCK.len() as u32;
    let row = place as usize % BLOCK.len();
    let mut random = Random::at(seed, place);
    Block { own, other: own }.line(alloc, BLOCK[row], &mut random)
}

// A line of this kind is inserted somewhere, and another one is deleted.
fn change(
    alloc: Global,
    count: u32,
    random: &mut Random,
    script: &mut Script,
) -> Result<(), AllocError> {
    let place = random.below(count);
    let inserted = line(alloc, random.number(), place)?;
    script.insert(place.saturating_add(1), inserted.as_str())?;
    script.ask("faults")?;
    script.delete(random.below(count).saturating_add(1))
}

/// A text of so many lines is entered, and lines are inserted and deleted.
pub fn script(alloc: Global, count: u32, seed: u32) -> Result<Script, AllocError> {
    let mut script = Script::new(alloc);
    let mut random = Random::at(seed, u32::MAX);
    for place in 0..count {
        script.append(line(alloc, seed, place)?.as_str())?;
    }
    for _ in 0..count / LINES {
        change(alloc, count, &mut random, &mut script)?;
    }
    script.ask("image")?;
    Ok(script)
}

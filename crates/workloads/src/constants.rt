//! The constants, paddings and lengths of a text of mixed lines are edited.

use crate::deck::Deck;
use crate::mixed::{BLOCK, HEAD, Mixed};
use crate::random::Random;
use crate::script::Script;
use std::alloc::{AllocError, Global};

// How many lines of the text there are for one edit.
const LINES: u32 = 32;

// The rows of a block that are edited, with what takes their place for a while.
const EDITS: [(u32, &str); 8] = [
    (7, ".equ size@, $"),
    (7, ".equ size@, $ * 4096 + to@ - from@"),
    (7, ".equ other@, 16"),
    (8, "li ?, $"),
    (8, "li ?, size& + 4096"),
    (13, ".align 4"),
    (12, ".word to&, size&, size@"),
    (1, "li ?, step"),
];

// Enters a block at the end.
fn append_block(
    alloc: Global,
    text: Mixed,
    block: u32,
    script: &mut Script,
) -> Result<(), AllocError> {
    for row in 0..BLOCK.len() as u32 {
        script.append(text.line(alloc, block, row)?.as_str())?;
    }
    Ok(())
}

// Enters a text.
fn enter(alloc: Global, text: Mixed, script: &mut Script) -> Result<(), AllocError> {
    for line in HEAD {
        script.append(line)?;
    }
    for block in 0..text.blocks() {
        append_block(alloc, text, block, script)?;
    }
    Ok(())
}

// The constant that each block uses has another value for a while, in each round another one.
fn change_step(alloc: Global, round: u32, script: &mut Script) -> Result<(), AllocError> {
    let line = format!(in alloc; ".equ step, {}", round.saturating_add(8))?;
    script.replace(2, line.as_str())?;
    script.ask("syms")?;
    script.replace(2, ".equ step, 4")
}

// Another line stands in the place of one of a block for a while.
fn change_row(
    alloc: Global,
    text: Mixed,
    block: u32,
    random: &mut Random,
    script: &mut Script,
) -> Result<(), AllocError> {
    let Some((row, template)) = EDITS.get(random.place(EDITS.len())).copied() else {
        return Ok(());
    };
    let other = text.filled(alloc, block, template, random)?;
    let number = text.number(block, row);
    script.replace(number, other.as_str())?;
    script.replace(number, text.line(alloc, block, row)?.as_str())
}

/// A text of about so many lines is entered, and its constants are edited, those of another block each time.
pub fn script(alloc: Global, count: u32, seed: u32) -> Result<Script, AllocError> {
    let mut script = Script::new(alloc);
    let mut random = Random::at(seed, u32::MAX);
    let text = Mixed::of(seed, count);
    enter(alloc, text, &mut script)?;
    let mut blocks = Deck::below(alloc, text.blocks())?;
    for round in 0..count / LINES {
        if random.below(8) == 0 {
            change_step(alloc, round, &mut script)?;
        } else if let Some(block) = blocks.draw(&mut random) {
            change_row(alloc, text, block, &mut random, &mut script)?;
        }
    }
    script.ask("list")?;
    Ok(script)
}

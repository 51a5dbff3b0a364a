//! Lines of a text are typed key by key.

use crate::compiled::{Compiled, FUNCTION};
use crate::deck::Deck;
use crate::open::enter;
use crate::random::Random;
use crate::script::Script;
use crate::template::Block;
use std::alloc::{AllocError, Global};

// How many lines of the text there are for one that is typed.
const LINES: u32 = 80;

// Lines that are typed.
const TYPED: [&str; 8] = [
    "addi ?, ?, $",
    "lw ?, $(sp)",
    "beqz ?, else@",
    "call function&",
    "loop@: sub ?, ?, ?",
    ".word counter&",
    "li ?, 70000",
    "# a remark",
];

// A line is entered above another one key by key, and then deleted.
fn type_line(
    alloc: Global,
    text: Compiled,
    function: u32,
    random: &mut Random,
    script: &mut Script,
) -> Result<(), AllocError> {
    let number = text.number(function, random.below(FUNCTION.len() as u32));
    let block = Block::of(random.number(), function, text.functions());
    let line = block.line(alloc, random.word(&TYPED), random)?;
    script.insert(number, "")?;
    script.retype(number, 0, line.as_str())?;
    script.ask("faults")?;
    script.delete(number)
}

// The end of an instruction is typed anew.
fn retype_end(
    alloc: Global,
    text: Compiled,
    function: u32,
    random: &mut Random,
    script: &mut Script,
) -> Result<(), AllocError> {
    let row = random.below(FUNCTION.len() as u32);
    let line = text.line(alloc, function, row)?;
    let kept = line.as_str().len().saturating_sub(3);
    script.retype(text.number(function, row), kept, line.as_str())
}

// A function is renamed, and gets its name again.
fn rename(
    alloc: Global,
    text: Compiled,
    function: u32,
    script: &mut Script,
) -> Result<(), AllocError> {
    let number = text.number(function, 0);
    let line = text.line(alloc, function, 0)?;
    let renamed = format!(in alloc; "renamed_{}", line.as_str())?;
    script.replace(number, renamed.as_str())?;
    script.ask("faults")?;
    script.replace(number, line.as_str())
}

// A line of a function is typed, or the function is renamed, or the end of a line is typed anew.
fn change(
    alloc: Global,
    text: Compiled,
    function: u32,
    random: &mut Random,
    script: &mut Script,
) -> Result<(), AllocError> {
    match random.below(8) {
        0 => rename(alloc, text, function, script),
        1 | 2 => retype_end(alloc, text, function, random, script),
        _ => type_line(alloc, text, function, random, script),
    }
}

/// A text of about so many lines is entered, and lines of it are typed, those of another function each time.
pub fn script(alloc: Global, count: u32, seed: u32) -> Result<Script, AllocError> {
    let mut script = Script::new(alloc);
    let mut random = Random::at(seed, u32::MAX);
    let text = Compiled::of(seed, count);
    enter(alloc, text, &mut script)?;
    let mut functions = Deck::below(alloc, text.functions())?;
    for _ in 0..count / LINES {
        if let Some(function) = functions.draw(&mut random) {
            change(alloc, text, function, &mut random, &mut script)?;
        }
    }
    script.ask("image")?;
    Ok(script)
}

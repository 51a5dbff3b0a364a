//! Functions are pasted into a text.

use crate::compiled::{Compiled, FUNCTION};
use crate::open::enter;
use crate::random::Random;
use crate::script::Script;
use std::alloc::{AllocError, Global};

// How often something is pasted, and how many functions of the text there are for one that is pasted.
const PASTES: u32 = 3;

const FUNCTIONS: u32 = 18;

// A function is pasted above a line, with labels of its own.
fn paste_function(
    alloc: Global,
    text: Compiled,
    function: u32,
    number: u32,
    script: &mut Script,
) -> Result<(), AllocError> {
    let own = text.functions().saturating_add(function);
    for row in 0..FUNCTION.len() as u32 {
        let line = text.line(alloc, own, row)?;
        script.insert(number.saturating_add(row), line.as_str())?;
    }
    Ok(())
}

// Functions are pasted before a function, one after another, and then deleted, the last line first.
fn paste(
    alloc: Global,
    text: Compiled,
    round: u32,
    random: &mut Random,
    script: &mut Script,
) -> Result<(), AllocError> {
    let count = text.functions() / FUNCTIONS;
    let place = text.number(random.below(text.functions()), 0);
    let lines = count.saturating_mul(FUNCTION.len() as u32);
    for function in 0..count {
        let number = place.saturating_add(function.saturating_mul(FUNCTION.len() as u32));
        let pasted = round.saturating_mul(count).saturating_add(function);
        paste_function(alloc, text, pasted, number, script)?;
    }
    script.ask("faults")?;
    script.ask("image")?;
    for line in 0..lines {
        script.delete(
            place
                .saturating_add(lines)
                .saturating_sub(line)
                .saturating_sub(1),
        )?;
    }
    Ok(())
}

/// A text of about so many lines is entered, and functions are pasted into it and deleted again.
pub fn script(alloc: Global, count: u32, seed: u32) -> Result<Script, AllocError> {
    let mut script = Script::new(alloc);
    let mut random = Random::at(seed, u32::MAX);
    let text = Compiled::of(seed, count);
    enter(alloc, text, &mut script)?;
    for round in 0..PASTES {
        paste(alloc, text, round, &mut random, &mut script)?;
    }
    script.ask("list")?;
    Ok(script)
}

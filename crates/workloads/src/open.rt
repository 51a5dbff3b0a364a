//! A text as a compiler writes it is opened.

use crate::compiled::{Compiled, FUNCTION, HEAD};
use crate::script::Script;
use std::alloc::{AllocError, Global};

/// The texts that are written.
pub const TEXTS: [&str; 6] = ["faults", "syms", "list", "image", "dis", "text"];

// Enters a function at the end.
fn append_function(
    alloc: Global,
    text: Compiled,
    function: u32,
    script: &mut Script,
) -> Result<(), AllocError> {
    for row in 0..FUNCTION.len() as u32 {
        script.append(text.line(alloc, function, row)?.as_str())?;
    }
    Ok(())
}

/// Enters a text.
pub fn enter(alloc: Global, text: Compiled, script: &mut Script) -> Result<(), AllocError> {
    for line in HEAD {
        script.append(line)?;
    }
    for function in 0..text.functions() {
        append_function(alloc, text, function, script)?;
    }
    script.append(".data")?;
    for function in 0..text.functions() {
        script.append(text.variable(alloc, function)?.as_str())?;
    }
    script.append(".rodata")?;
    for function in 0..text.functions() {
        script.append(text.string(alloc, function)?.as_str())?;
    }
    Ok(())
}

/// A text of about so many lines is entered, and its texts are written.
pub fn script(alloc: Global, count: u32, seed: u32) -> Result<Script, AllocError> {
    let mut script = Script::new(alloc);
    enter(alloc, Compiled::of(seed, count), &mut script)?;
    for command in TEXTS {
        script.ask(command)?;
    }
    Ok(script)
}

//! What the manual says of names.

use crate::row::{copied, made, unquoted};
use rv_manual::entry_named;
use rv_ops::{CSRS, Reg, TABLE, reg_name};
use rv_stmt::{DIRECTIVES, FORMS};
use std::alloc::Global;
use std::test::Fail;

/// The name as it is written, what it means, and where that is defined.
pub fn entry(alloc: Global, arguments: &str) -> Result<String, Fail> {
    match entry_named(unquoted(arguments).as_bytes()) {
        Some(entry) => {
            let (name, sentence, source) = (entry.name, entry.sentence, entry.source.text());
            made(format!(in alloc; "{name}: {sentence} ({source})"))
        }
        None => copied(alloc, "none"),
    }
}

// Appends a name that the manual lacks.
fn push_missing(missing: &mut String, name: &str) -> Result<(), Fail> {
    if entry_named(name.as_bytes()).is_none() {
        missing.push_str(" ")?;
        missing.push_str(name)?;
    }
    Ok(())
}

/// The names of instructions and directives that the manual lacks.
pub fn statements_without_entry(alloc: Global, _arguments: &str) -> Result<String, Fail> {
    let mut missing = copied(alloc, "without:")?;
    for row in &TABLE {
        push_missing(&mut missing, row.1)?;
    }
    for row in &FORMS {
        push_missing(&mut missing, row.0)?;
    }
    for row in &DIRECTIVES {
        push_missing(&mut missing, row.0)?;
    }
    Ok(missing)
}

// Appends the names of a register that the manual lacks.
fn push_register(missing: &mut String, alloc: Global, number: u8) -> Result<(), Fail> {
    let other = made(format!(in alloc; "x{number}"))?;
    push_missing(missing, other.as_str())?;
    match Reg::new(number) {
        Some(register) => push_missing(missing, reg_name(register)),
        None => Ok(()),
    }
}

/// The names of registers, and of control and status registers, that the manual lacks.
pub fn registers_without_entry(alloc: Global, _arguments: &str) -> Result<String, Fail> {
    let mut missing = copied(alloc, "without:")?;
    push_missing(&mut missing, "fp")?;
    for number in 0..32 {
        push_register(&mut missing, alloc, number)?;
    }
    for row in &CSRS {
        push_missing(&mut missing, row.1)?;
    }
    Ok(missing)
}

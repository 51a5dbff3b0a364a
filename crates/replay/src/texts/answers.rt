//! What the questions of a script are answered.

use crate::script::{hash_of, number_in};
use code_text::text_of;
use rv_list::write_faults;
use rv_store::{Changed, EditError, Store, SymValue, base_ok};
use rv_text::{MemSink, tokens};
use std::alloc::{AllocError, Global};
use std::test::Fail;

/// Prints what an edit answers. This takes no memory, so that no request between an edit and its answer can be refused.
pub fn print_answer(rt: &HostRuntime, answer: &Result<Changed, EditError>) -> Result<(), Fail> {
    match answer {
        Ok(changed) => print_changed(rt, changed.lines.as_slice())?,
        Err(error) => println!(rt; "refused {}", error.number())?,
    }
    Ok(())
}

// Whether these are so many lines one behind the other that the first and the last say it.
fn is_long_run(lines: &[u32]) -> bool {
    let first = lines.first().copied().unwrap_or(0) as usize;
    let mut is_run = lines.len() > 100;
    for (place, line) in lines.iter().enumerate() {
        is_run = is_run & (*line as usize == first.saturating_add(place));
    }
    is_run
}

// Prints the numbers of the lines that have another code.
fn print_changed(rt: &HostRuntime, lines: &[u32]) -> Result<(), Fail> {
    if is_long_run(lines) {
        let ends = (lines.first().copied(), lines.last().copied());
        println!(rt;
            "changed {} to {}",
            ends.0.unwrap_or(0),
            ends.1.unwrap_or(0)
        )?;
        return Ok(());
    }
    print!(rt; "changed")?;
    for line in lines {
        print!(rt; " {line}")?;
    }
    println!(rt; "")?;
    Ok(())
}

/// The code of a line.
pub fn code_text(alloc: Global, store: &Store, place: u32) -> Result<String, Fail> {
    match store.coded(place) {
        Some(coded) => text_of(alloc, coded),
        None => Ok(format!(in alloc; "none")?),
    }
}

/// The address of a line.
pub fn address_text(alloc: Global, store: &Store, place: u32) -> Result<String, AllocError> {
    match store.address(place) {
        Some(address) => format!(in alloc; "0x{address:08x}"),
        None => format!(in alloc; "none"),
    }
}

/// What a symbol is.
pub fn symbol_text(alloc: Global, store: &Store, name: &str) -> Result<String, AllocError> {
    match store.symbol(name.as_bytes()) {
        None => format!(in alloc; "none"),
        Some(SymValue::Label(address)) => format!(in alloc; "label 0x{address:08x}"),
        Some(SymValue::Equ(None)) => format!(in alloc; "equ ?"),
        Some(SymValue::Equ(Some(value))) => format!(in alloc; "equ {value}"),
    }
}

/// The bytes of a line.
pub fn line_text(alloc: Global, store: &Store, place: u32) -> Result<String, AllocError> {
    match store.line(place) {
        Some(line) => format!(in alloc; "\"{}\"", line.escape_ascii()),
        None => format!(in alloc; "none"),
    }
}

/// How many tokens a line has.
pub fn token_count(alloc: Global, store: &Store, place: u32) -> Result<String, Fail> {
    let Some(line) = store.line(place) else {
        return Err(Fail::new("a row with a line that is not there"));
    };
    Ok(format!(in alloc; "{}", tokens(alloc, line)?.tokens().len())?)
}

/// How many bytes the faults take as text, and their hash.
pub fn fault_hash(alloc: Global, store: &Store) -> Result<String, Fail> {
    let mut sink = MemSink::new(alloc, 1_000_000)?;
    write_faults(&store, &mut sink)?;
    let bytes = sink.bytes();
    Ok(format!(in alloc; "{} bytes, {:016x}", bytes.len(), hash_of(bytes))?)
}

/// Whether sections may lie from a base on.
pub fn base_text(alloc: Global, base: &str) -> Result<String, Fail> {
    Ok(format!(in alloc; "{}", base_ok(number_in(base)?))?)
}

/// The numbers of the refusals.
pub fn refusal_numbers(alloc: Global) -> Result<String, AllocError> {
    format!(in alloc;
        "Base {}, Place {}, Line {}, TooMany {}, Memory {}",
        EditError::Base.number(),
        EditError::Place.number(),
        EditError::Line.number(),
        EditError::TooMany.number(),
        EditError::Memory.number()
    )
}

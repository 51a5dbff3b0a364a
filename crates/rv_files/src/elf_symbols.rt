//! The symbols of ELF files.

ghost use Rattle.std.specs.Prelude.{◌≡◌, ◌++◌, map, IfOk, OnOk};
ghost use Rattle.std.specs.List.{filter};
ghost use Rattle.rv_files.specs.Elf.{has_value, header_number, header_of, symbol_entry, symbol_table, symbol_strings};

use crate::numbers::{push_halves, push_words, push_zeros};
use crate::segment::Segment;
use crate::text_symbols::Symbol;
use rv_stmt::word_bits;
use std::alloc::{AllocError, Global};

// The number of the header of what belongs to no section.
const NO_SECTION: u64 = 0xFFF1;

/// The symbols that have a value.
pub fn valued<'a>(alloc: Global, mut symbols: &'a [Symbol]) -> Result<Vec<&'a Symbol>, AllocError>
    ensures { IfOk result (λ valued. map (λ s. s.now) valued.items ≡ filter has_value symbols.entry.now) }
{
    let mut valued = Vec::new(alloc);
    'symbols: while let [symbol, later @ ..] = symbols {
        if symbol.value().is_some() {
            valued.push(symbol)?;
        }
        symbols = later;
    }
    Ok(valued)
}

// The number of the header of a section, among those of segments.
fn header_number(mut segments: &[Segment], section: usize) -> u64
    ensures { result ≡ header_number 1 section segments.entry.now }
{
    let mut number = 1;
    'segments: while let [segment, later @ ..] = segments {
        if segment.section() == section {
            return number;
        }
        number += 1;
        segments = later;
    }
    NO_SECTION
}

// The number of the header of a symbol's section.
fn header_of(segments: &[Segment], section: Option<usize>) -> u64
    ensures { result ≡ header_of segments.now section }
{
    match section {
        Some(section) => header_number(segments, section),
        None => NO_SECTION,
    }
}

// Appends the entry of a symbol, whose name is at this place among the names.
#[tactic(auto, unfolding(crate::specs::Elf::symbol_entry))]
fn push_symbol(
    out: &mut Vec<u8>,
    segments: &[Segment],
    name: u64,
    symbol: &Symbol,
) -> Result<(), AllocError>
    ensures { OnOk result (out.new.items ≡ out.old.items ++ symbol_entry segments.now name symbol.now) }
{
    let value = u64::from(word_bits(symbol.value().unwrap_or(0)));
    push_words(out, &[name, value, 0])?;
    push_halves(out, &[0, header_of(segments, symbol.section())])
}

/// Appends the symbol table.
#[tactic(auto, unfolding(crate::specs::Elf::symbol_table))]
pub fn push_symbol_table(
    out: &mut Vec<u8>,
    segments: &[Segment],
    mut symbols: &[&Symbol],
) -> Result<(), AllocError>
    ensures { OnOk result (out.new.items ≡ out.old.items ++ symbol_table segments.now (map (λ s. s.now) symbols.entry.now)) }
{
    push_zeros(out, 16)?;
    let mut name = 1u64;
    'symbols: while let [symbol, later @ ..] = symbols {
        push_symbol(out, segments, name, symbol)?;
        name = name.wrapping_add(symbol.name().len() as u64 + 1);
        symbols = later;
    }
    Ok(())
}

/// The names of symbols, each ended by a zero, after an empty one.
#[tactic(auto, unfolding(crate::specs::Elf::symbol_strings))]
pub fn symbol_strings(alloc: Global, mut symbols: &[&Symbol]) -> Result<Vec<u8>, AllocError>
    ensures { IfOk result (λ bytes. bytes.items ≡ symbol_strings (map (λ s. s.now) symbols.entry.now)) }
{
    let mut bytes = Vec::new(alloc);
    bytes.push(0)?;
    'symbols: while let [symbol, later @ ..] = symbols {
        bytes.extend_from_slice(symbol.name())?;
        bytes.push(0)?;
        symbols = later;
    }
    Ok(bytes)
}

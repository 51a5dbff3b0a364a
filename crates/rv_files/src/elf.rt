//! Segments and symbols as ELF files.

ghost use Rattle.std.specs.Prelude.{◌≡◌, ◌-◌, ◌^◌, ◌<◌, map, IfOk};
ghost use Rattle.rv_text.specs.Streams.{failures_after, Writes};
ghost use Rattle.rv_files.specs.Elf.{elf_bytes, elf_file, tail};

use crate::bin::write_bin;
use crate::elf_headers::{
    SECTION_STRINGS, fill_of, head, headers_at, push_section_headers, start_of,
};
use crate::elf_symbols::{push_symbol_table, symbol_strings, valued};
use crate::numbers::push_zeros;
use crate::segment::Segment;
use crate::text_symbols::Symbol;
use rv_text::{Failed, Sink, write_all};
use std::alloc::{AllocError, Global};
use std::marker::Model;

/// An ELF file of 32 bits, the lowest byte first, that can be executed: a program header and a section header for each segment, and
/// the symbols. Contracts see its bytes.
#[derive(Drop)]
pub struct Elf {
    head: Vec<u8>,
    segments: Vec<Segment>,
    tail: Vec<u8>,
}

impl Model for Elf {
    ghost use Rattle.std.specs.Prelude.{ℕ, List, ◌++◌};
    ghost use Rattle.rv_files.specs.Elf.{contents};

    ghost Value = { List ℕ };

    ghost view = { λ e. e.head.items ++ (contents e.segments.items ++ e.tail.items) };
}

// What comes after the contents.
#[tactic(auto, unfolding(crate::specs::Elf::tail))]
fn tail(alloc: Global, segments: &[Segment], symbols: &[&Symbol]) -> Result<Vec<u8>, AllocError>
    ensures { IfOk result (λ bytes. bytes.items ≡ tail segments.now (map (λ s. s.now) symbols.now)) }
{
    let strings = symbol_strings(alloc, symbols)?;
    let mut bytes = Vec::new(alloc);
    push_zeros(&mut bytes, fill_of(segments))?;
    push_symbol_table(&mut bytes, segments, symbols)?;
    push_section_headers(&mut bytes, segments, symbols.len(), strings.len())?;
    bytes.extend_from_slice(strings.as_slice())?;
    bytes.extend_from_slice(SECTION_STRINGS)?;
    Ok(bytes)
}

impl Elf {
    /// The file of segments, in ascending order, and of those symbols that have a value. The program starts at the entry. What is written
    /// of it takes no more memory.
    ///
    /// # Errors
    ///
    /// `AllocError` if there is no memory for it.
    #[tactic(auto, unfolding(crate::specs::Elf::elf_file))]
    pub fn of(
        alloc: Global,
        entry: u32,
        segments: Vec<Segment>,
        symbols: &[Symbol],
    ) -> Result<Elf, AllocError>
        ensures { IfOk result (λ elf. elf ≡ elf_bytes entry segments.items symbols.now) }
    {
        let valued = valued(alloc, symbols)?;
        let symbols = valued.as_slice();
        let sections_at = headers_at(segments.as_slice(), symbols.len());
        let head = head(alloc, entry, segments.as_slice(), sections_at)?;
        let tail = tail(alloc, segments.as_slice(), symbols)?;
        Ok(Elf {
            head,
            segments,
            tail,
        })
    }
}

/// Writes an ELF file, up to the first failure of the writer. Takes no memory.
///
/// # Errors
///
/// `Failed` if a call of the writer failed.
pub fn write_elf<W: Sink>(elf: &Elf, sink: &mut W) -> Result<(), Failed>
    requires { W.failures sink.old < 2 ^ 64 - 1 }
    ensures text { Writes (W.taken sink.old) elf.now result (W.taken sink.new) }
    ensures count { W.failures sink.new ≡ failures_after (W.failures sink.old) result }
{
    let segments = elf.segments.as_slice();
    write_all(sink, elf.head.as_slice())?;
    write_bin(start_of(segments), segments, sink)?;
    write_all(sink, elf.tail.as_slice())
}

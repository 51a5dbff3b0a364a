//! The headers of ELF files.

ghost use Rattle.std.specs.Prelude.{◌≡◌, ◌+◌, ◌*◌, ◌%◌, ◌^◌, ◌<◌, ◌++◌, length, IfOk, OnOk};
ghost use Rattle.std.specs.List.{flat_map};
ghost use Rattle.rv_files.specs.Bin.{bytes_up_to, end_of};
ghost use Rattle.rv_files.specs.Elf.{start_of, contents, file_offset, elf_header, programs_at, access, program_header, section_strings, name_place, kind_of, flags_of, segment_header, fill, symbols_at, headers_at, strings_at, symbols_header, strings_header, names_header, section_headers, head, words};

use crate::numbers::{push_halves, push_words, push_zeros};
use crate::segment::Segment;
use rv_layout::section_number;
use rv_stmt::Sect;
use std::alloc::{AllocError, Global};

// What all files begin with: 32 bits, the lowest byte first, version 1.
const IDENTIFICATION: [u8; 16] = *b"\x7fELF\x01\x01\x01\0\0\0\0\0\0\0\0\0";

// How many bytes come before the contents.
const HEAD: usize = 0x1000;

/// The names of the sections of a file: those of tables, and those of the language.
pub const SECTION_STRINGS: &[u8] =
    b"\0.symtab\0.strtab\0.shstrtab\0.text.init\0.text\0.rodata\0.data\0.sdata\0.bss\0";

/// The address of the first byte of all.
pub fn start_of(segments: &[Segment]) -> u32
    ensures { result ≡ start_of segments.now }
{
    match segments.first() {
        Some(segment) => segment.address(),
        None => 0,
    }
}

// Where the bytes of a segment are in the file.
fn file_offset(start: u32, segment: &Segment) -> u64
    ensures { result ≡ file_offset start segment.now }
{
    if segment.bytes().is_empty() {
        return 0x1000;
    }
    0x1000 + u64::from(segment.address().saturating_sub(start))
}

// How a section may be used: to be executed (1), written (2) and read (4).
fn access(section: usize) -> u64
    ensures { result ≡ access section }
{
    if section <= section_number(Sect::Text) {
        5
    } else if section == section_number(Sect::Rodata) {
        4
    } else {
        6
    }
}

// The flags of a section header: written (1), in memory (2) and executed (4).
fn flags_of(section: usize) -> u64
    ensures { result ≡ flags_of section }
{
    if section <= section_number(Sect::Text) {
        6
    } else if section == section_number(Sect::Rodata) {
        2
    } else {
        3
    }
}

// Where the name of a section is among the names.
fn name_place(section: usize) -> u64
    ensures { result ≡ name_place section }
{
    match section {
        0 => 27,
        1 => 38,
        2 => 44,
        3 => 52,
        4 => 58,
        5 => 65,
        _ => 70,
    }
}

// The type of a section header.
fn kind_of(segment: &Segment) -> u64
    ensures { result ≡ kind_of segment.now }
{
    if segment.bytes().is_empty() { 8 } else { 1 }
}

// How many bytes a segment has in memory.
fn size_in_memory(segment: &Segment) -> u64
    ensures { result ≡ length segment.now.bytes + segment.now.zeros }
{
    segment.bytes().len() as u64 + u64::from(segment.zeros())
}

// Where the program headers are, if there are some.
fn programs_at(programs: u64) -> u64
    ensures { result ≡ programs_at programs }
{
    if programs == 0 { 0 } else { 52 }
}

// Appends the header of the file.
#[tactic(auto, unfolding(crate::specs::Elf::elf_header))]
fn push_elf_header(
    out: &mut Vec<u8>,
    entry: u32,
    programs: u64,
    sections_at: u64,
) -> Result<(), AllocError>
    requires { programs < 2 ^ 63 }
    ensures { OnOk result (out.new.items ≡ out.old.items ++ elf_header entry programs sections_at) }
{
    let programs_at = programs_at(programs);
    out.extend_from_slice(&IDENTIFICATION)?;
    push_halves(out, &[2, 243])?;
    push_words(out, &[1, u64::from(entry), programs_at, sections_at, 1])?;
    push_halves(out, &[52, 32, programs, 40, programs + 4, programs + 3])
}

// Appends the program header of a segment.
#[tactic(auto, unfolding(crate::specs::Elf::program_header))]
fn push_program_header(out: &mut Vec<u8>, start: u32, segment: &Segment) -> Result<(), AllocError>
    ensures { OnOk result (out.new.items ≡ out.old.items ++ program_header start segment.now) }
{
    let address = u64::from(segment.address());
    let numbers = [
        1,
        file_offset(start, segment),
        address,
        address,
        segment.bytes().len() as u64,
        size_in_memory(segment),
        access(segment.section()),
        4096,
    ];
    push_words(out, &numbers)
}

// Appends the program headers of segments.
fn push_program_headers(
    out: &mut Vec<u8>,
    start: u32,
    mut segments: &[Segment],
) -> Result<(), AllocError>
    ensures { OnOk result (out.new.items ≡ out.old.items ++ flat_map (program_header start) segments.entry.now) }
{
    'segments: while let [segment, later @ ..] = segments {
        push_program_header(out, start, segment)?;
        segments = later;
    }
    Ok(())
}

// Appends the section header of a segment.
#[tactic(auto, unfolding(crate::specs::Elf::segment_header))]
fn push_segment_header(out: &mut Vec<u8>, start: u32, segment: &Segment) -> Result<(), AllocError>
    ensures { OnOk result (out.new.items ≡ out.old.items ++ segment_header start segment.now) }
{
    let section = segment.section();
    let numbers = [
        name_place(section),
        kind_of(segment),
        flags_of(section),
        u64::from(segment.address()),
        file_offset(start, segment),
        size_in_memory(segment),
        0,
        0,
        1,
        0,
    ];
    push_words(out, &numbers)
}

// Appends the section headers of segments.
fn push_segment_headers(
    out: &mut Vec<u8>,
    start: u32,
    mut segments: &[Segment],
) -> Result<(), AllocError>
    ensures { OnOk result (out.new.items ≡ out.old.items ++ flat_map (segment_header start) segments.entry.now) }
{
    'segments: while let [segment, later @ ..] = segments {
        push_segment_header(out, start, segment)?;
        segments = later;
    }
    Ok(())
}

// How many bytes come up to the end of a segment, from an address on.
fn size_up_to(at: u64, segment: &Segment) -> u64
    ensures { result ≡ length (bytes_up_to at segment.now) }
{
    let bytes = segment.bytes();
    if bytes.is_empty() {
        return 0;
    }
    u64::from(segment.address()).saturating_sub(at) + bytes.len() as u64
}

// The address behind it.
fn end_of(at: u64, segment: &Segment) -> u64
    ensures { result ≡ end_of at segment.now }
{
    let bytes = segment.bytes();
    if bytes.is_empty() {
        return at;
    }
    u64::from(segment.address()) + bytes.len() as u64
}

// How many bytes the contents are, modulo 2^64.
fn contents_size(mut segments: &[Segment]) -> u64
    ensures { result ≡ length (contents segments.entry.now) % 2 ^ 64 }
{
    let mut at = u64::from(start_of(segments));
    let mut size = 0u64;
    'segments: while let [segment, later @ ..] = segments {
        size = size.wrapping_add(size_up_to(at, segment));
        at = end_of(at, segment);
        segments = later;
    }
    size
}

/// How many zeros come after the contents.
pub fn fill_of(segments: &[Segment]) -> usize
    ensures { result ≡ fill (length (contents segments.now)) }
{
    ((4 - contents_size(segments) % 4) % 4) as usize
}

// Where the symbol table is, modulo 2^64.
#[tactic(auto, unfolding(crate::specs::Elf::symbols_at))]
fn symbols_at(segments: &[Segment]) -> u64
    ensures { result ≡ symbols_at segments.now % 2 ^ 64 }
{
    contents_size(segments).wrapping_add(HEAD as u64 + fill_of(segments) as u64)
}

// How many bytes so many symbols and an empty one have, modulo 2^64.
fn table_size(symbols: usize) -> u64
    ensures { result ≡ 16 * (symbols + 1) % 2 ^ 64 }
{
    (symbols as u64).wrapping_add(1).wrapping_mul(16)
}

/// Where the section headers are, after so many symbols, modulo 2^64.
pub fn headers_at(segments: &[Segment], symbols: usize) -> u64
    ensures { result ≡ headers_at segments.now symbols % 2 ^ 64 }
{
    symbols_at(segments).wrapping_add(table_size(symbols))
}

// Where the names of the symbols are, modulo 2^64.
fn strings_at(segments: &[Segment], symbols: usize) -> u64
    ensures { result ≡ strings_at segments.now symbols % 2 ^ 64 }
{
    let headers = (segments.len() as u64).wrapping_add(4).wrapping_mul(40);
    headers_at(segments, symbols).wrapping_add(headers)
}

// The numbers of the section header of so many symbols.
fn symbols_header(segments: &[Segment], symbols: usize) -> [u64; 10]
    ensures { words result ≡ symbols_header segments.now symbols }
{
    let place = symbols_at(segments);
    let names = (segments.len() as u64).wrapping_add(2);
    let globals = (symbols as u64).wrapping_add(1);
    [
        1,
        2,
        0,
        0,
        place,
        table_size(symbols),
        names,
        globals,
        4,
        16,
    ]
}

// Those of their names, which have so many bytes.
fn strings_header(segments: &[Segment], symbols: usize, strings: usize) -> [u64; 10]
    ensures { words result ≡ strings_header segments.now symbols strings }
{
    let place = strings_at(segments, symbols);
    [9, 3, 0, 0, place, strings as u64, 0, 0, 1, 0]
}

// Those of the names of the sections.
fn names_header(segments: &[Segment], symbols: usize, strings: usize) -> [u64; 10]
    ensures { words result ≡ names_header segments.now symbols strings }
{
    let place = strings_at(segments, symbols).wrapping_add(strings as u64);
    let size = SECTION_STRINGS.len() as u64;
    [17, 3, 0, 0, place, size, 0, 0, 1, 0]
}

/// Appends all section headers, where there are so many symbols, and so many bytes of their names.
#[tactic(auto, unfolding(crate::specs::Elf::section_headers))]
pub fn push_section_headers(
    out: &mut Vec<u8>,
    segments: &[Segment],
    symbols: usize,
    strings: usize,
) -> Result<(), AllocError>
    ensures { OnOk result (out.new.items ≡ out.old.items ++ section_headers segments.now symbols strings) }
{
    push_zeros(out, 40)?;
    push_segment_headers(out, start_of(segments), segments)?;
    push_words(out, &symbols_header(segments, symbols))?;
    push_words(out, &strings_header(segments, symbols, strings))?;
    push_words(out, &names_header(segments, symbols, strings))
}

/// What comes before the contents of a file, whose section headers are at this place.
#[tactic(auto, unfolding(crate::specs::Elf::head))]
pub fn head(
    alloc: Global,
    entry: u32,
    segments: &[Segment],
    sections_at: u64,
) -> Result<Vec<u8>, AllocError>
    ensures { IfOk result (λ bytes. bytes.items ≡ head entry segments.now sections_at) }
{
    let mut bytes = Vec::new(alloc);
    push_elf_header(&mut bytes, entry, segments.len() as u64, sections_at)?;
    push_program_headers(&mut bytes, start_of(segments), segments)?;
    let zeros = HEAD.saturating_sub(bytes.len());
    push_zeros(&mut bytes, zeros)?;
    Ok(bytes)
}

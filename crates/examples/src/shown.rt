//! What is shown of a table, and what is written where a call of the writer fails. An answer has `|` for each line feed.

ghost use Rattle.std.specs.Prelude.{◌<◌, ◌-◌, ◌^◌};

use crate::row::{found, made, number_before, pairs_of, parts_of};
use crate::table::Table;
use crate::table_items::{table_of, table_of_equal};
use rv_layout::SECTIONS;
use rv_list::{
    ListError, push_row, section_bytes, write_faults, write_image, write_listing, write_symbols,
};
use rv_ops::first_named;
use rv_text::{FailsAt, MemSink, OutputBlock, Sink};
use std::alloc::Global;
use std::test::Fail;

#[derive(Clone, Copy)]
enum Kind {
    Image,
    Listing,
    Symbols,
    Faults,
}

// The kinds of texts by their names.
const KINDS: [(Kind, &str); 4] = [
    (Kind::Image, "image"),
    (Kind::Listing, "listing"),
    (Kind::Symbols, "symbols"),
    (Kind::Faults, "faults"),
];

fn kind_of(word: &str) -> Result<Kind, Fail> {
    found(first_named(&KINDS, word.as_bytes()), "no kind of text")
}

// Writes a text of a table.
fn write<W: Sink>(kind: Kind, table: &Table<'_>, sink: &mut W) -> Result<(), ListError>
    requires { W.failures sink.old < 2 ^ 64 - 1 }
{
    match kind {
        Kind::Image => write_image(&table, sink),
        Kind::Listing => write_listing(&table, sink),
        Kind::Symbols => write_symbols(&table, sink),
        Kind::Faults => write_faults(&table, sink),
    }
}

// What is written of a table, where call number `m` of the writer fails.
fn written(
    alloc: Global,
    kind: Kind,
    table: &Table<'_>,
    m: u64,
) -> Result<(Result<(), ListError>, MemSink), Fail> {
    let mut sink = FailsAt::new(MemSink::new(alloc, 32768)?, m);
    let answer = write(kind, table, &mut sink);
    Ok((answer, sink.inner))
}

// A text with `|` for each line feed.
fn on_one_line(alloc: Global, bytes: &[u8]) -> Result<String, Fail> {
    Ok(str::from_utf8(bytes)?.replace(alloc, "\n", "|")?)
}

/// The image, the listing, the symbols or the faults of a table.
pub fn text(alloc: Global, arguments: &str) -> Result<String, Fail> {
    let (kind, items) = parts_of(arguments);
    let table = table_of(alloc, items)?;
    let (answer, sink) = written(alloc, kind_of(kind)?, &table, 0)?;
    answer?;
    on_one_line(alloc, sink.bytes())
}

// The pairs of digits of bytes, in brackets.
fn in_brackets(alloc: Global, bytes: &[u8]) -> Result<String, Fail> {
    let pairs = pairs_of(alloc, bytes)?;
    made(format!(in alloc; "[{}]", pairs.as_str()))
}

/// The bytes of a section of a table, by its number, in brackets.
pub fn bytes_of_section(alloc: Global, arguments: &str) -> Result<String, Fail> {
    let (section, items) = number_before(arguments)?;
    let section = section as usize;
    if section >= SECTIONS {
        return Err(Fail::new("no section"));
    }
    let bytes = section_bytes(alloc, &&table_of(alloc, items)?, section)?;
    in_brackets(alloc, bytes.as_slice())
}

// What is written of a row with the columns `00001000 ` and a text.
fn written_row(alloc: Global, text: &str) -> Result<String, Fail> {
    let mut sink = MemSink::new(alloc, 6000)?;
    let mut block = OutputBlock::new();
    push_row(&mut block, &mut sink, b"00001000 ", text.as_bytes())?;
    block.flush(&mut sink)?;
    on_one_line(alloc, sink.bytes())
}

// What stands before a text in a row, how many bytes it has, and what stands behind it.
fn parts_around(alloc: Global, row: &str, text: &str) -> Result<String, Fail> {
    let (columns, rest) = found(row.split_once(text), "a row without its text")?;
    made(format!(in alloc; "{columns}, {} bytes, {rest}", text.len()))
}

/// A row of columns and a text that is one repeated: what stands before the text, how many bytes it has, and what stands
/// behind it.
pub fn pushed_row(alloc: Global, arguments: &str) -> Result<String, Fail> {
    let (count, part) = number_before(arguments)?;
    let text = part.repeat(alloc, count as usize)?;
    let row = written_row(alloc, text.as_str())?;
    parts_around(alloc, row.as_str(), text.as_str())
}

// What a writer did that took some bytes of the whole, and failed or not.
fn outcome(bytes: &[u8], whole: &[u8], failed: bool) -> &'static str {
    if !whole.starts_with(bytes) {
        return "other";
    }
    match (failed, bytes.len() < whole.len()) {
        (true, true) => "stopped",
        (false, false) => "whole",
        _ => "other",
    }
}

// What a writer does whose call number `m` fails.
fn outcome_at(
    alloc: Global,
    kind: Kind,
    table: &Table<'_>,
    m: u64,
    whole: &[u8],
) -> Result<&'static str, Fail> {
    let (answer, sink) = written(alloc, kind, table, m)?;
    Ok(outcome(sink.bytes(), whole, answer.is_err()))
}

// What writers do that fail at their first call, at their second, up to the ninth.
fn outcomes(alloc: Global, kind: Kind, table: &Table<'_>, whole: &[u8]) -> Result<String, Fail> {
    let mut outcomes = Vec::new(alloc);
    for m in 1..10 {
        outcomes.push(outcome_at(alloc, kind, table, m, whole)?)?;
    }
    made(outcomes.as_slice().join(alloc, " "))
}

// The same, beside a writer that does not fail.
fn outcomes_of(alloc: Global, kind: Kind, table: &Table<'_>) -> Result<String, Fail> {
    let (_, sink) = written(alloc, kind, table, 0)?;
    outcomes(alloc, kind, table, sink.bytes())
}

/// Writes a text of a table of equal lines to writers of which the first call fails, the second, up to the ninth. Each `stopped` at
/// a beginning of the text, or took the `whole` because the text needs fewer calls.
pub fn failing_writer(alloc: Global, arguments: &str) -> Result<String, Fail> {
    let (kind, rest) = parts_of(arguments);
    let (count, item) = number_before(rest)?;
    let kind = kind_of(kind)?;
    let table = table_of_equal(alloc, count, item)?;
    outcomes_of(alloc, kind, &table)
}

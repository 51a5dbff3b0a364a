//! Readers and writers, of which calls fail, counters, and the texts that are put together for output.

use crate::row::{displayed, made, number_of, text_of};
use rv_text::{
    Count, Failed, FailsAt, MemSink, MemSource, OutputBlock, OutputRow, Sequence, Sink, Source,
    StdSink, StdSource, Tally, TextError, write_all,
};
use std::alloc::Global;
use std::fmt::Debug;
use std::io;
use std::io::{ErrorKind, Read, Write};
use std::test::Fail;

// What some calls gave, and the bytes that were read or written.
fn outcome<T: Debug>(
    alloc: Global,
    calls: &[Result<T, Failed>],
    bytes: &[u8],
) -> Result<String, Fail> {
    let text = str::from_utf8(bytes)?;
    made(format!(in alloc; "{calls:?} {text}"))
}

/// What four writes into three bytes of memory give, and what is in it then: two bytes are taken, one of two, none of none, and
/// none of one.
pub fn writes_into_memory(alloc: Global, _arguments: &str) -> Result<String, Fail> {
    let mut sink = MemSink::new(alloc, 3)?;
    let first = sink.write(b"ab");
    let second = sink.write(b"cd");
    let third = sink.write(b"");
    let fourth = sink.write(b"d");
    outcome(alloc, &[first, second, third, fourth], sink.bytes())
}

/// What writes of `ab`, `cd` and `ef` give where the call of this number fails, and what was written.
pub fn writes_with_failure(alloc: Global, arguments: &str) -> Result<String, Fail> {
    let failing = u64::from(number_of(arguments)?);
    let mut sink = FailsAt::new(MemSink::new(alloc, 6)?, failing);
    let first = write_all(&mut sink, b"ab");
    let second = write_all(&mut sink, b"cd");
    let third = write_all(&mut sink, b"ef");
    outcome(alloc, &[first, second, third], sink.inner.bytes())
}

/// What four reads of `abc` into two bytes give where the call of this number fails, and what is in the two bytes then.
pub fn reads_with_failure(alloc: Global, arguments: &str) -> Result<String, Fail> {
    let failing = u64::from(number_of(arguments)?);
    let mut source = FailsAt::new(MemSource::new(b"abc"), failing);
    let mut buffer = [0; 2];
    let first = source.read(&mut buffer);
    let second = source.read(&mut buffer);
    let third = source.read(&mut buffer);
    let fourth = source.read(&mut buffer);
    outcome(alloc, &[first, second, third, fourth], &buffer)
}

/// What three reads of `abc` through a reader of std give into two bytes, and what the first of them put there.
pub fn reads_outside(alloc: Global, _arguments: &str) -> Result<String, Fail> {
    let bytes: &[u8] = b"abc";
    let mut source = StdSource::new(bytes);
    let mut buffer = [0; 2];
    let first = source.read(&mut buffer);
    let read = buffer;
    let second = source.read(&mut buffer);
    let third = source.read(&mut buffer);
    outcome(alloc, &[first, second, third], &read)
}

/// What a write of `abc` through a writer of std gives, and what was written.
pub fn writes_outside(alloc: Global, _arguments: &str) -> Result<String, Fail> {
    let mut taken = Vec::new(alloc);
    let written = write_all(&mut StdSink::new(&mut taken), b"abc");
    outcome(alloc, &[written], taken.as_slice())
}

// A reader and writer that is interrupted at each read, and at each flush of what it took.
#[derive(Drop)]
struct Interrupted;

impl Read for Interrupted {
    fn read(&mut self, _buffer: &mut [u8]) -> io::Result<usize> {
        Err(io::Error::from(ErrorKind::Interrupted))
    }
}

impl Write for Interrupted {
    fn write(&mut self, bytes: &[u8]) -> io::Result<usize> {
        Ok(bytes.len())
    }

    fn flush(&mut self) -> io::Result<()> {
        Err(io::Error::from(ErrorKind::Interrupted))
    }
}

/// What a read gives that is interrupted, and a write whose flush is interrupted.
pub fn interrupted_outside(alloc: Global, _arguments: &str) -> Result<String, Fail> {
    let read = StdSource::new(Interrupted).read(&mut [0; 2]);
    let written = write_all(&mut StdSink::new(Interrupted), b"abc");
    made(format!(in alloc; "{read:?} {written:?}"))
}

/// What a write of `abc` into two bytes gives through a writer of std, and what was written.
pub fn writes_outside_without_room(alloc: Global, _arguments: &str) -> Result<String, Fail> {
    let mut room = [0; 2];
    let written = write_all(&mut StdSink::new(&mut room[..]), b"abc");
    outcome(alloc, &[written], &room)
}

// What pushes and a flush gave, and the bytes written before the last push and in the end.
fn block_outcome(
    alloc: Global,
    calls: &[Result<(), Failed>],
    written: [usize; 2],
) -> Result<String, Fail> {
    made(format!(in alloc; "{calls:?} {written:?}"))
}

/// What five texts of 1,000 bytes and a flush give to a block whose sink fails at the call of this number, and how many bytes are written
/// before the fifth text and in the end.
pub fn block_with_failure(alloc: Global, arguments: &str) -> Result<String, Fail> {
    let failing = u64::from(number_of(arguments)?);
    let mut sink = FailsAt::new(MemSink::new(alloc, 5000)?, failing);
    let mut block = OutputBlock::new();
    let text = [b'x'; 1000];
    let first = block.push(&mut sink, &text);
    let second = block.push(&mut sink, &text);
    let third = block.push(&mut sink, &text);
    let fourth = block.push(&mut sink, &text);
    let before = sink.inner.bytes().len();
    let fifth = block.push(&mut sink, &text);
    let flushed = block.flush(&mut sink);
    let written = [before, sink.inner.bytes().len()];
    block_outcome(
        alloc,
        &[first, second, third, fourth, fifth, flushed],
        written,
    )
}

/// A number as a row of output has it.
pub fn decimal_row(alloc: Global, arguments: &str) -> Result<String, Fail> {
    let mut row = OutputRow::new();
    row.push_decimal(number_of(arguments)?);
    text_of(alloc, row.bytes())
}

/// A row of output: `0x`, eight digits of 0x80001000, `: `, and two digits each of 0x0A and of 0x1FE.
pub fn hexadecimal_row(alloc: Global, _arguments: &str) -> Result<String, Fail> {
    let mut row = OutputRow::new();
    row.push_text(b"0x");
    row.push_hex(8, 0x80001000);
    row.push_text(b": ");
    row.push_hex(2, 0x0A);
    row.push_hex(2, 0x1FE);
    text_of(alloc, row.bytes())
}

// The three numbers of a counter.
fn counts(tally: &Tally) -> (u64, u64, u64) {
    (
        tally.parsed_calls(),
        tally.valued_calls(),
        tally.encoded_calls(),
    )
}

/// What a counter has after one line read, two values and three encodings, and after it was reset.
pub fn counter(alloc: Global, _arguments: &str) -> Result<String, Fail> {
    let mut tally = Tally::new();
    tally.parsed();
    tally.valued();
    tally.valued();
    tally.encoded();
    tally.encoded();
    tally.encoded();
    let counted = counts(&tally);
    tally.reset();
    let reset = counts(&tally);
    made(format!(in alloc; "{counted:?} {reset:?}"))
}

/// Whether a new list is empty, and the list after 7 and 300 were appended.
pub fn appended(alloc: Global, _arguments: &str) -> Result<String, Fail> {
    let mut values: Sequence<u16> = Sequence::new(alloc);
    let is_empty = values.as_slice().is_empty();
    values.push(7)?;
    values.push(300)?;
    made(format!(in alloc; "{is_empty} {:?}", values.as_slice()))
}

/// The number of the refusal where memory runs out.
pub fn memory_refusal(alloc: Global, _arguments: &str) -> Result<String, Fail> {
    displayed(alloc, TextError::Memory.number())
}

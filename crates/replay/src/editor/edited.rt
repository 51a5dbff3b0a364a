//! What is shown after a list of edits, and of bytes.

use crate::editor::running::{ALL, Calls, sink_of};
use rv_commands::{LineEdit, live_assembler_is_exact};
use rv_dis::DisRow;
use rv_store::EditError;
use std::alloc::{AllocError, Global};
use std::test::Fail;

const EDITS: [LineEdit<'static>; 11] = [
    LineEdit::Insert(1, b"x: addi a0, a0, N"),
    LineEdit::Insert(1, b".equ N, 5000"),
    LineEdit::Insert(4, b"nop"),
    LineEdit::Replace(1, b".equ N, 1"),
    LineEdit::Delete(3),
    LineEdit::Insert(3, b"nop"),
    LineEdit::Replace(2, b"y: addi a0, a0, N"),
    LineEdit::Insert(3, b".byte 1"),
    LineEdit::Replace(0, b"nop"),
    LineEdit::Delete(3),
    LineEdit::Insert(1, b"y:"),
];

// Bytes that begin at the last parcel of memory.
const BYTES: [u8; 9] = [0x73, 0x00, 0x30, 0x30, 0x13, 0x05, 0x15, 0x00, 0x07];

type Answers = [Result<(), EditError>; 11];

// Which edits were made, the rows of the bytes, what was written, and whether that is all.
#[derive(Drop)]
struct Shown {
    is_done: bool,
    answers: String,
    rows: String,
    output: Vec<u8>,
}

// Whether an edit was made, as a text.
fn answer_text(alloc: Global, answer: Result<(), EditError>) -> Result<String, AllocError> {
    match answer {
        Ok(()) => format!(in alloc; "made, "),
        Err(error) => format!(in alloc; "refused {}, ", error.number()),
    }
}

// Which edits were made, as a text.
fn answers_text(alloc: Global, answers: &[Result<(), EditError>]) -> Result<String, AllocError> {
    let mut text = String::new(alloc);
    for answer in answers {
        text.push_str(answer_text(alloc, *answer)?.as_str())?;
    }
    Ok(text)
}

// A row of the bytes.
fn row_text(alloc: Global, row: &DisRow) -> Result<String, AllocError> {
    let (address, value, len) = (row.address, row.value, row.len);
    format!(in alloc; "{address:08x} 0x{value:x} {len} {}\n", row.text.as_str())
}

// The rows of the bytes.
fn rows_text(alloc: Global, rows: &[DisRow]) -> Result<String, AllocError> {
    let mut text = String::new(alloc);
    for row in rows {
        text.push_str(row_text(alloc, row)?.as_str())?;
    }
    Ok(text)
}

// What is shown of these answers, rows and bytes.
fn shown_of(
    alloc: Global,
    is_done: bool,
    answers: &[Result<(), EditError>],
    rows: &[DisRow],
    output: &[u8],
) -> Result<Shown, Fail> {
    let answers = answers_text(alloc, answers)?;
    let rows = rows_text(alloc, rows)?;
    let output = Vec::from_slice(alloc, output)?;
    Ok(Shown {
        is_done,
        answers,
        rows,
        output,
    })
}

// Makes the edits and shows them and the bytes.
fn show_edits(alloc: Global, writes: Calls) -> Result<Shown, Fail> {
    let mut answers: Answers = [Ok(()); 11];
    let mut sink = sink_of(alloc, writes)?;
    let (written, rows) = live_assembler_is_exact(
        alloc,
        0,
        &EDITS,
        &mut answers,
        &mut sink,
        &BYTES,
        0xfffffffe,
    );
    let output = sink.inner.inner.bytes();
    shown_of(alloc, written.is_ok(), &answers, rows?.as_slice(), output)
}

/// Which edits are made, and below that what is written and the rows of the bytes.
pub fn shown_edits(alloc: Global) -> Result<String, Fail> {
    let shown = show_edits(alloc, ALL)?;
    let output = str::from_utf8(shown.output.as_slice())?;
    let (answers, rows) = (shown.answers.as_str(), shown.rows.as_str());
    let end = if shown.is_done { "all" } else { "some" };
    Ok(format!(in alloc; "{answers}{end} written\n{output}{rows}")?)
}

// Whether the same edits are made and the same bytes shown, and all is written or, by a call that failed, only some.
fn is_cut(shown: &Shown, whole: &Shown) -> bool {
    shown.answers.as_str() == whole.answers.as_str()
        && shown.rows.as_str() == whole.rows.as_str()
        && whole.output.as_slice().starts_with(shown.output.as_slice())
        && shown.is_done == (shown.output.len() == whole.output.len())
}

// How many calls of the writer cut what is written, before one that is not made.
fn cut_count(alloc: Global, whole: &Shown) -> Result<u64, Fail> {
    for failing in 1..1000u64 {
        let shown = show_edits(alloc, Calls { most: 3, failing })?;
        if !is_cut(&shown, whole) {
            return Err(Fail::new("edits that are not shown as without a failed call"));
        }
        if shown.is_done {
            return Ok(failing.saturating_sub(1));
        }
    }
    Ok(0)
}

/// What is written where call 1, 2 and so on of the writer fails, up to one that is not made.
pub fn failing_edits(alloc: Global) -> Result<String, Fail> {
    let whole = show_edits(alloc, ALL)?;
    let count = cut_count(alloc, &whole)?;
    if count >= 100 {
        return Ok(format!(in alloc; "some in 100 calls or more, then all\n")?);
    }
    Ok(format!(in alloc; "{count} calls\n")?)
}

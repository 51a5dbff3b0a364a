//! A call of `rv_commands`.

ghost use Rattle.std.specs.Prelude.{◌≡◌};

use crate::calls::call::Answer;
use crate::calls::dis_calls::{BYTES, ROWS, are_rows};
use rv_commands::{LineEdit, live_assembler_is_exact};
use rv_dis::DisRow;
use rv_store::EditError;
use rv_text::MemSink;
use std::alloc::Global;

// The edits of a text.
const EDITS: [LineEdit<'static>; 3] = [
    LineEdit::Insert(1, b"x: addi a0, a0, N"),
    LineEdit::Insert(1, b".equ N, 1"),
    LineEdit::Replace(1, b".equ N, 2"),
];

// What is shown after all edits, as an independent program of the definitions in Python has it.
const EDITED: &str = ".text.init 0x00000000 0
.text 0x00000000 4
00000000: 13 05 25 00
.rodata 0x00001000 0
.data 0x00001000 0
.sdata 0x00001000 0
.bss 0x00001000 0
symbols 2
1 equ 2 N
2 label 0x00000000 x
listing 2
    1 00000000                   .equ N, 2
    2 00000000 13052500          x: addi a0, a0, N
faults 0
";

// What is shown of a text that only defines the symbol.
const SYMBOL_ALONE: &str = ".text.init 0x00000000 0
.text 0x00000000 0
.rodata 0x00000000 0
.data 0x00000000 0
.sdata 0x00000000 0
.bss 0x00000000 0
symbols 1
1 equ 2 N
listing 1
    1 00000000                   .equ N, 2
faults 0
";

// What is shown without the first edit, the second or the third.
const EDITED_WITHOUT: [&str; 3] = [
    SYMBOL_ALONE,
    SYMBOL_ALONE,
    ".text.init 0x00000000 0
.text 0x00000000 4
00000000: 13 05 15 00
.rodata 0x00001000 0
.data 0x00001000 0
.sdata 0x00001000 0
.bss 0x00001000 0
symbols 2
1 equ 1 N
2 label 0x00000000 x
listing 2
    1 00000000                   .equ N, 1
    2 00000000 13051500          x: addi a0, a0, N
faults 0
",
];

// What is shown where an edit was made, and else, if it found no memory, what is shown without it.
fn shown_by(
    answer: Result<(), EditError>,
    made: Option<&'static str>,
    refused: Option<&'static str>,
) -> Option<&'static str> {
    match answer {
        Ok(()) => made,
        Err(EditError::Memory) => refused,
        Err(_) => None,
    }
}

// What is shown after the edits that were made, if at most one was refused.
fn shown_after(results: &[Result<(), EditError>; 3]) -> Option<&'static str> {
    let [first, second, third] = *results;
    let [without_first, without_second, without_third] = EDITED_WITHOUT;
    let after_two = shown_by(third, Some(EDITED), Some(without_third));
    let after_one = shown_by(
        second,
        after_two,
        shown_by(third, Some(without_second), None),
    );
    let others = shown_by(third, Some(without_first), None);
    shown_by(first, after_one, shown_by(second, others, None))
}

// Whether all edits were made.
fn are_made(results: &[Result<(), EditError>]) -> bool {
    results.iter().all(|answer| answer.is_ok())
}

// What comes of rows, where all edits were made or one was refused.
fn answer_of_rows(rows: &[DisRow], are_made: bool) -> Answer {
    if !are_rows(rows, &ROWS) {
        return Answer::Wrong;
    }
    if are_made {
        Answer::Right
    } else {
        Answer::Refused
    }
}

// What comes of a disassembly that was refused: an edit must not be refused beside it.
fn answer_without_rows(are_made: bool) -> Answer {
    if are_made {
        Answer::Refused
    } else {
        Answer::Wrong
    }
}

// Makes the edits and disassembles the bytes. At most one of these finds no memory, and the others are made without it.
fn edit_and_disassemble(alloc: Global, sink: &mut MemSink) -> Answer
    requires { sink.old.failures ≡ 0 }
{
    let mut results = [Ok(()); 3];
    let (written, rows) = live_assembler_is_exact(
        alloc,
        0,
        &EDITS,
        &mut results,
        sink,
        BYTES,
        0x1000,
    );
    let Some(shown) = shown_after(&results) else {
        return Answer::Wrong;
    };
    if written.is_err() || sink.bytes() != shown.as_bytes() {
        return Answer::Wrong;
    }
    match rows {
        Ok(rows) => answer_of_rows(rows.as_slice(), are_made(&results)),
        Err(_) => answer_without_rows(are_made(&results)),
    }
}

/// `live_assembler_is_exact`.
pub fn edited(alloc: Global) -> Answer {
    match MemSink::new(alloc, 4096) {
        Ok(mut sink) => edit_and_disassemble(alloc, &mut sink),
        Err(_) => Answer::Refused,
    }
}

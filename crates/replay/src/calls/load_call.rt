//! Calls of `rv_store` that load a text.

use crate::calls::call::Answer;
use rv_list::section_bytes;
use rv_store::{Draft, EditError, Store};
use rv_text::Tally;
use std::alloc::Global;

// The lines of a text, with something for each row that is kept of one.
const LINES: [&[u8]; 8] = [
    b"start: auipc a0, %pcrel_hi(word)",
    b"addi a0, a0, %pcrel_lo(start)",
    b"1: beqz a0, 1b",
    b".equ five, 5",
    b"li a1, five",
    b".data",
    b"word: .word later",
    b".equ later, five + 1",
];

// The bytes of its `.text`, as GNU as and ld make them.
const BYTES: [u8; 16] = [
    0x17, 0x15, 0x00, 0x00, 0x13, 0x05, 0x05, 0x00, 0x63, 0x00, 0x05, 0x00, 0x93, 0x05, 0x50, 0x00,
];

// The number of `.text`, the second section.
const TEXT: usize = 1;

// Adds the lines, each once more where it finds no memory. Whether all are there, and how many were refused.
fn push_all(draft: &mut Draft) -> (bool, u32) {
    let mut refused = 0u32;
    for line in &LINES {
        let before = draft.len();
        if draft.push(line, &mut Tally::new()).is_err() {
            refused = refused.saturating_add(1);
            if draft.len() != before || draft.push(line, &mut Tally::new()).is_err() {
                return (false, refused);
            }
        }
    }
    (draft.len() == LINES.len(), refused)
}

// What comes of a text that was loaded.
fn answer_of(alloc: Global, store: &Store, refused: u32) -> Answer {
    match section_bytes(alloc, &store, TEXT) {
        Ok(bytes) if bytes.as_slice() != BYTES.as_slice() => Answer::Wrong,
        Ok(_) if refused == 0 => Answer::Right,
        Ok(_) | Err(_) => Answer::Refused,
    }
}

/// `Draft::push` and `Store::of_draft`.
pub fn load(alloc: Global) -> Answer {
    let Ok(mut draft) = Draft::new(alloc, 0x1000) else {
        return Answer::Wrong;
    };
    let (are_all, refused) = push_all(&mut draft);
    if !are_all {
        return Answer::Wrong;
    }
    match Store::of_draft(draft, &mut Tally::new()) {
        Ok(store) => answer_of(alloc, &store, refused),
        Err(EditError::Memory) => Answer::Refused,
        Err(_) => Answer::Wrong,
    }
}

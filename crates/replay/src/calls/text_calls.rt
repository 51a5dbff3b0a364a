//! Calls of `rv_text`.

use crate::calls::call::Answer;
use rv_text::{MemSink, Sequence, tokens};
use std::alloc::Global;

/// `tokens` of a line.
pub fn tokens_of_line(alloc: Global) -> Answer {
    match tokens(alloc, b"addi a0, a0, 1") {
        Ok(found) => Answer::of(found.tokens().len() == 6 && found.fault().is_none()),
        Err(_) => Answer::Refused,
    }
}

/// `MemSink::new`.
pub fn sink(alloc: Global) -> Answer {
    match MemSink::new(alloc, 100) {
        Ok(sink) => Answer::of(sink.bytes().is_empty()),
        Err(_) => Answer::Refused,
    }
}

// More than a list has room for at first, and than it has room for once it grew.
const ITEMS: [u32; 9] = [1, 2, 3, 4, 5, 6, 7, 8, 9];

// Appends an item to those before it, once more where it is refused.
fn push(list: &mut Sequence<u32>, item: u32, before: &[u32]) -> Answer {
    if list.push(item).is_ok() {
        return Answer::Right;
    }
    Answer::after_refusal(list.as_slice() == before && list.push(item).is_ok())
}

/// `Sequence::with_room`, and an item in that room.
pub fn room(alloc: Global) -> Answer {
    match Sequence::with_room(alloc, 2) {
        Ok(mut list) => {
            let is_pushed = list.push(7).is_ok();
            Answer::of(is_pushed && list.as_slice() == [7].as_slice())
        }
        Err(_) => Answer::Refused,
    }
}

/// `Sequence::push` of some items.
pub fn items(alloc: Global) -> Answer {
    let mut list = Sequence::new(alloc);
    let mut answer = Answer::Right;
    for (place, item) in ITEMS.iter().enumerate() {
        let (before, _) = ITEMS.split_at(place);
        let pushed = push(&mut list, *item, before);
        if pushed != Answer::Right {
            answer = pushed;
        }
    }
    if list.as_slice() == ITEMS.as_slice() {
        answer
    } else {
        Answer::Wrong
    }
}

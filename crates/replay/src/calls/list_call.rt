//! A call of `rv_list`.

use crate::calls::call::Answer;
use rv_list::section_bytes;
use rv_store::Store;
use rv_text::Tally;
use std::alloc::Global;

// The number of `.text`, the second section.
const TEXT: usize = 1;

/// `section_bytes` of a text.
pub fn bytes_of_section(alloc: Global) -> Answer {
    let Ok(mut store) = Store::new(alloc, 0x1000) else {
        return Answer::Wrong;
    };
    if store
        .insert(1, b"addi a0, a0, 1", &mut Tally::new())
        .is_err()
    {
        return Answer::Refused;
    }
    match section_bytes(alloc, &&store, TEXT) {
        Ok(bytes) => Answer::of(bytes.as_slice() == [0x13, 0x05, 0x15, 0x00].as_slice()),
        Err(_) => Answer::Refused,
    }
}

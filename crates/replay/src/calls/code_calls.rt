//! Calls of `rv_fix`.

ghost use Rattle.std.specs.Prelude.{Ok, Err};
ghost use Rattle.rv_expr.specs.declared.faults.ValueFault.TheVariants.{Undefined};

use crate::calls::call::Answer;
use rv_expr::{Direction, LabelReference, Names, ValueFault};
use rv_fix::{AssembleError, Coded, FixError, Payload, assemble_at, encode_line, operand_values};
use rv_stmt::{StmtError, read_line};
use rv_text::Tally;
use std::alloc::Global;

// No name is defined, and `.` neither.
#[derive(Drop)]
struct Nothing {}

impl Names for Nothing {
    ghost environment = { λ _ _. record { symbol = λ _. Err Undefined; local = λ _ _. Err Undefined; here = Err Undefined; paired_high = λ _. Err Undefined } };

    fn symbol(&self, _here: u32, _name: &[u8]) -> Result<i64, ValueFault> {
        Err(ValueFault::Undefined)
    }

    fn local(&self, _here: u32, _number: u16, _direction: Direction) -> Result<i64, ValueFault> {
        Err(ValueFault::Undefined)
    }

    fn here(&self, _here: u32) -> Result<i64, ValueFault> {
        Err(ValueFault::Undefined)
    }

    fn paired_high(&self, _here: u32, _label: &LabelReference) -> Result<i64, ValueFault> {
        Err(ValueFault::Undefined)
    }
}

/// `operand_values` of `csrrwi a0, 5, x`.
pub fn values(alloc: Global) -> Answer {
    let Ok(stmt) = read_line(alloc, b"csrrwi a0, 5, x", &mut Tally::new()) else {
        return Answer::Refused;
    };
    match operand_values(alloc, &stmt, &Nothing {}, 0, &mut Tally::new()) {
        Ok(values) => {
            Answer::of(matches!(values.entries(), [Ok(5), Err(ValueFault::Undefined)]))
        }
        Err(FixError::Memory) => Answer::Refused,
    }
}

// Nine bytes, which are one more than a line keeps without memory.
const LINE: &[u8] = b".byte 1, 2, 3, 4, 5, 6, 7, 8, 9";

// Whether this is the code of the line of nine bytes.
fn is_code(coded: &Coded) -> bool {
    for place in 0..9u8 {
        if coded.payload.byte(usize::from(place)) != Some(place + 1) {
            return false;
        }
    }
    coded.fault.is_none() && coded.payload.len() == 9
}

/// `encode_line` of a statement and its values.
pub fn code(alloc: Global) -> Answer {
    let Ok(stmt) = read_line(alloc, LINE, &mut Tally::new()) else {
        return Answer::Refused;
    };
    let Ok(values) = operand_values(alloc, &stmt, &Nothing {}, 0, &mut Tally::new()) else {
        return Answer::Refused;
    };
    match encode_line(alloc, &stmt, &values, &mut Tally::new()) {
        Ok(coded) => Answer::of(is_code(&coded)),
        Err(FixError::Memory) => Answer::Refused,
    }
}

/// `assemble_at` of a line.
pub fn line_alone(alloc: Global) -> Answer {
    match assemble_at(alloc, LINE, 0) {
        Ok(coded) => Answer::of(is_code(&coded)),
        Err(AssembleError::Memory) => Answer::Refused,
        Err(AssembleError::Names) => Answer::Wrong,
    }
}

// A line that uses a name.
const CALL: &[u8] = b"call f";

/// `read_line` of a line that uses a name.
pub fn line_read(alloc: Global) -> Answer {
    match read_line(alloc, CALL, &mut Tally::new()) {
        Ok(stmt) => Answer::of(stmt.body.operands().len() == 1),
        Err(StmtError::Memory) => Answer::Refused,
    }
}

/// `assemble_at` of it, which makes no request but those to read it.
pub fn line_with_names(alloc: Global) -> Answer {
    match assemble_at(alloc, CALL, 0) {
        Ok(_) => Answer::Wrong,
        Err(AssembleError::Memory) => Answer::Refused,
        Err(AssembleError::Names) => Answer::Right,
    }
}

// What stands in a list before bytes are appended to it.
const BEGINNING: [u8; 2] = [1, 2];

// Whether in a list twenty fives stand behind its beginning.
fn are_appended(list: &[u8]) -> bool {
    match list.strip_prefix(BEGINNING.as_slice()) {
        Some(appended) => appended == [5; 20].as_slice(),
        None => false,
    }
}

// Appends bytes to a list, and once more where that is refused.
fn append(payload: &Payload, list: &mut Vec<u8>) -> Answer {
    if payload.append_to(list).is_ok() {
        return Answer::of(are_appended(list.as_slice()));
    }
    let is_as_before = list.as_slice() == BEGINNING.as_slice();
    let again = payload.append_to(list);
    Answer::after_refusal(is_as_before && again.is_ok() && are_appended(list.as_slice()))
}

/// `Payload::append_to` of a repeated byte.
pub fn payload_bytes(alloc: Global) -> Answer {
    let Ok(coded) = assemble_at(alloc, b".space 20, 5", 0) else {
        return Answer::Refused;
    };
    let Ok(mut list) = Vec::from_slice(alloc, &BEGINNING) else {
        return Answer::Refused;
    };
    append(&coded.payload, &mut list)
}

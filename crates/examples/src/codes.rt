//! The values of operands, and the bytes and the fault of lines.

ghost use Rattle.examples.specs.GivenNames.{given};

use crate::lines::bytes_of_line;
use crate::row::{debugged, displayed, found, made, number_before, number_of, parts_of};
use crate::statements::statement_of_line;
use code_text::text_of;
use rv_expr::{Direction, LabelReference, Names, ValueFault};
use rv_fix::{
    AssembleError, Coded, Entry, FixError, Values, assemble_at, encode_line, operand_values,
};
use rv_stmt::{Stmt, StmtError};
use rv_text::{Fault, FaultNumber, Span, Tally};
use std::alloc::Global;
use std::test::Fail;

/// `assemble ADDRESS LINE`: the bytes and the fault of the line by itself, or why it has none.
pub fn assemble(alloc: Global, arguments: &str) -> Result<String, Fail> {
    let (address, line) = number_before(arguments)?;
    match assemble_at(alloc, bytes_of_line(line)?, address) {
        Ok(coded) => text_of(alloc, &coded),
        Err(error) => debugged(alloc, error),
    }
}

// What each symbol, each local label and the label of `%pcrel_lo` gives. `.` is the line's address.
#[derive(Drop)]
struct Given {
    symbol: i64,
    local: i64,
    paired_high: i64,
}

impl Names for Given {
    ghost environment = { λ n. given n.symbol n.local n.paired_high };

    fn symbol(&self, _here: u32, _name: &[u8]) -> Result<i64, ValueFault> {
        Ok(self.symbol)
    }

    fn local(&self, _here: u32, _number: u16, _direction: Direction) -> Result<i64, ValueFault> {
        Ok(self.local)
    }

    fn here(&self, here: u32) -> Result<i64, ValueFault> {
        Ok(i64::from(here))
    }

    fn paired_high(&self, _here: u32, _label: &LabelReference) -> Result<i64, ValueFault> {
        Ok(self.paired_high)
    }
}

const GIVEN: Given = Given {
    symbol: 5000,
    local: 0x2000,
    paired_high: 0x12345FFF,
};

// The values of a statement on a line at an address. At most one is counted for each operand.
fn values_of(alloc: Global, stmt: &Stmt, address: u32) -> Result<Values, Fail> {
    let mut tally = Tally::new();
    let values = operand_values(alloc, stmt, &GIVEN, address, &mut tally)?;
    if tally.valued_calls() as usize > stmt.body.operands().len() {
        return Err(Fail::new("more values counted than there are"));
    }
    Ok(values)
}

// Whether one line encoded is counted, and nothing else.
fn is_one_line_encoded(tally: &Tally) -> bool {
    tally.encoded_calls() == 1 && tally.valued_calls() == 0 && tally.parsed_calls() == 0
}

// The code with these values. One line encoded is counted, and nothing else.
fn encoded(alloc: Global, stmt: &Stmt, values: &Values) -> Result<Coded, Fail> {
    let mut tally = Tally::new();
    let coded = encode_line(alloc, stmt, values, &mut tally)?;
    if !is_one_line_encoded(&tally) {
        return Err(Fail::new("another count than one line encoded"));
    }
    Ok(coded)
}

// Values, and the code with them.
fn text_of_values(alloc: Global, entries: &[Entry], coded: &Coded) -> Result<String, Fail> {
    let code = text_of(alloc, coded)?;
    made(format!(in alloc; "{entries:?} {code}"))
}

// The code of a statement with these values, behind the values.
fn text_with_values(alloc: Global, stmt: &Stmt, values: &Values) -> Result<String, Fail> {
    text_of_values(alloc, values.entries(), &encoded(alloc, stmt, values)?)
}

// The values of a statement at an address, and the code with these values.
fn text_at(alloc: Global, stmt: &Stmt, address: u32) -> Result<String, Fail> {
    text_with_values(alloc, stmt, &values_of(alloc, stmt, address)?)
}

/// `values ADDRESS LINE`: the values of the operands, and the code with these values.
pub fn values(alloc: Global, arguments: &str) -> Result<String, Fail> {
    let (address, line) = number_before(arguments)?;
    text_at(alloc, &statement_of_line(alloc, line.as_bytes())?, address)
}

// The values of a line at 0x1002.
fn values_of_line(alloc: Global, line: &str) -> Result<Values, Fail> {
    values_of(alloc, &statement_of_line(alloc, line.as_bytes())?, 0x1002)
}

// Whether a line has these values.
fn text_of_same_values(alloc: Global, values: &Values, line: &str) -> Result<String, Fail> {
    displayed(alloc, values.is_same(&values_of_line(alloc, line)?))
}

/// `same_values LINE; LINE`: whether two lines have the same values.
pub fn same_values(alloc: Global, lines: &str) -> Result<String, Fail> {
    let (left, right) = found(lines.split_once("; "), "a row without two lines")?;
    text_of_same_values(alloc, &values_of_line(alloc, left)?, right)
}

// A fault from a place on.
fn fault_from(from: u32) -> Fault {
    Fault {
        number: FaultNumber::Range,
        span: Span { from, to: 9 },
    }
}

// The code of a count of bytes of padding in `.text` or elsewhere, or of a fault from a place on.
fn code_of_form(form: &str, number: u32) -> Result<Coded, Fail> {
    match form {
        "text_padding" => Ok(Coded::padding(true, number)),
        "zero_padding" => Ok(Coded::padding(false, number)),
        "fault" => Ok(Coded::faulty(fault_from(number))),
        _ => Err(Fail::new("a word that names no code")),
    }
}

// The code of `nop`, or of a form and its number.
fn code_of(alloc: Global, arguments: &str) -> Result<Coded, Fail> {
    if arguments == "nop" {
        return Ok(assemble_at(alloc, b"nop", 0)?);
    }
    let (form, number) = parts_of(arguments);
    code_of_form(form, number_of(number)?)
}

/// `code CODE`: its bytes and its fault.
pub fn code(alloc: Global, arguments: &str) -> Result<String, Fail> {
    let coded = code_of(alloc, arguments)?;
    text_of(alloc, &coded)
}

// Whether the first is the same as the second, and the second as the first.
fn text_of_sameness(alloc: Global, left: &Coded, right: &str) -> Result<String, Fail> {
    let right = code_of(alloc, right)?;
    let same = left.is_same(&right);
    let same_back = right.is_same(left);
    made(format!(in alloc; "{same} {same_back}"))
}

/// `same_codes CODE; CODE`: whether the first is the same as the second, and the second as the first.
pub fn same_codes(alloc: Global, codes: &str) -> Result<String, Fail> {
    let (left, right) = found(codes.split_once("; "), "a row without two codes")?;
    text_of_sameness(alloc, &code_of(alloc, left)?, right)
}

/// `error_number ERROR`: the number of a refusal.
pub fn error_number(alloc: Global, error: &str) -> Result<String, Fail> {
    let number = match error {
        "StmtError::Memory" => StmtError::Memory.number(),
        "FixError::Memory" => FixError::Memory.number(),
        "AssembleError::Names" => AssembleError::Names.number(),
        "AssembleError::Memory" => AssembleError::Memory.number(),
        _ => return Err(Fail::new("a word that names no error")),
    };
    displayed(alloc, number)
}

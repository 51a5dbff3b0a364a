//! A line by itself, at an address.

ghost use Rattle.std.specs.Prelude.{◌≡◌, ◌≤◌, ◌^◌, false, length, IfOk, IfErr};
ghost use Rattle.rv_stmt.specs.Statement.{statement_of, data_size_of, operands_of};
ghost use Rattle.rv_fix.specs.Alone.{nothing_defined, no_constants, uses_names, code_of_body_at, code_at};
ghost use Rattle.rv_fix.specs.Refusals.{Refuses, RefusesBody};

use crate::coded::Coded;
use crate::encoding::encode_line;
use crate::error::{AssembleError, FixError};
use crate::names_in::uses_names;
use crate::valuation::operand_values;
use rv_expr::{Direction, LabelReference, Names, ValueFault};
use rv_layout::{Consts, Measured, measure};
use rv_stmt::{Stmt, data_are_few, operands_are_few, read_line};
use rv_text::Tally;
use std::alloc::Global;

// A line without others: no name is defined.
#[derive(Drop)]
struct NothingDefined {}

impl Names for NothingDefined {
    ghost environment = { λ _ here. nothing_defined here };

    fn symbol(&self, _here: u32, _name: &[u8]) -> Result<i64, ValueFault> {
        Err(ValueFault::Undefined)
    }

    fn local(&self, _here: u32, _number: u16, _direction: Direction) -> Result<i64, ValueFault> {
        Err(ValueFault::Undefined)
    }

    fn here(&self, here: u32) -> Result<i64, ValueFault> {
        Ok(i64::from(here))
    }

    fn paired_high(&self, _here: u32, _label: &LabelReference) -> Result<i64, ValueFault> {
        Err(ValueFault::NoPartner)
    }
}

impl Consts for NothingDefined {
    ghost constant_of = { λ _. no_constants };

    fn constant(&self, _name: &[u8]) -> Option<i64> {
        None
    }
}

// The code of a statement at an address, where no name is defined.
fn code_of_body_at(alloc: Global, stmt: &Stmt, address: u32) -> Result<Coded, FixError>
    requires data { data_size_of stmt.now.body ≤ 2 ^ 16 }
    requires operands { length (operands_of stmt.now.body) ≤ 1000 }
    ensures { IfOk result (λ c. c ≡ code_of_body_at address stmt.now.body) }
{
    let mut tally = Tally::new();
    if let Measured::Faulty(fault) = measure(stmt, &NothingDefined {}, &mut tally) {
        return Ok(Coded::faulty(fault));
    }
    let values = operand_values(alloc, stmt, &NothingDefined {}, address, &mut tally)?;
    encode_line(alloc, stmt, &values, &mut tally)
}

// The code of a statement at an address, if it uses no names. Whether it does is found out before any memory is allocated.
fn code_without_names(alloc: Global, stmt: &Stmt, address: u32) -> Result<Coded, AssembleError>
    requires data { data_size_of stmt.now.body ≤ 2 ^ 16 }
    requires operands { length (operands_of stmt.now.body) ≤ 1000 }
    ensures code { IfOk result (λ c. c ≡ code_of_body_at address stmt.now.body) }
    ensures nameless { IfOk result (λ _. uses_names stmt.now.body ≡ false) }
    ensures refused { IfErr result (λ e. RefusesBody e stmt.now.body) }
{
    if uses_names(&stmt.body) {
        return Err(AssembleError::Names);
    }
    Ok(code_of_body_at(alloc, stmt, address)?)
}

/// The code of a line by itself at an address, which is what `.` is there. Its labels have no effect, and an alignment is
/// padded as in `.text`. The line has at most 1,000 bytes.
///
/// # Errors
///
/// `Names` if the line is without a fault of its statement and uses a symbol, a local label or `%pcrel_lo`. That is found out
/// before any memory is allocated for its code. `Memory` says only that there was no memory.
pub fn assemble_at(alloc: Global, line: &[u8], address: u32) -> Result<Coded, AssembleError>
    requires { length line.now ≤ 1000 }
    ensures code { IfOk result (λ c. c ≡ code_at address line.now) }
    ensures nameless { IfOk result (λ c. uses_names (statement_of line.now).body ≡ false) }
    ensures refused { IfErr result (λ e. Refuses e line.now) }
{
    let mut tally = Tally::new();
    let stmt = read_line(alloc, line, &mut tally)?;
    data_are_few();
    operands_are_few();
    code_without_names(alloc, &stmt, address)
}

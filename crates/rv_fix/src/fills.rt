//! Equal bytes: how many, and which.

ghost use Rattle.std.specs.Prelude.{◌≡◌};
ghost use Rattle.rv_fix.specs.Data.{fill_count, fill_byte};

use crate::reports::{at_span, ranged};
use crate::values::Entry;
use rv_layout::{fill_size, value_at};
use rv_stmt::{Operand, word_bits};
use rv_text::{Fault, FaultNumber};

/// How many bytes are filled, or the fault of the size.
pub fn fill_count(operand: &Operand, entry: Entry) -> Result<u32, Fault>
    ensures { result ≡ fill_count operand.now entry }
{
    let value = value_at(operand.span, entry)?;
    at_span(operand.span, fill_size(value).ok_or(FaultNumber::Range))
}

/// The byte that they are filled with, or the fault of the operand that says it.
pub fn fill_byte(operands: &[Operand], entries: &[Entry]) -> Result<u8, Fault>
    ensures { result ≡ fill_byte operands.now entries.now }
{
    let [operand, ..] = operands else {
        return Ok(0);
    };
    let [entry, ..] = entries else {
        return Ok(0);
    };
    let value = value_at(operand.span, *entry)?;
    let value = at_span(operand.span, ranged(-128, 255, value))?;
    Ok((word_bits(value) % 0x100) as u8)
}

//! The rows that are kept of a text, together.

ghost use Rattle.std.specs.Prelude.{◌≡◌};
ghost use Rattle.rv_program.specs.internal.LineNames.{address_of_found};
ghost use Rattle.rv_program.specs.internal.TextRows.{address_in};

use crate::lines::Lines;
use crate::locals::Locals;
use crate::names::NameTable;
use rv_expr::ValueFault;
use rv_fix::Entry;
use rv_list::{DefinitionPlace, LinePlace};

/// A text with the rows that are kept of it.
#[derive(Clone, Copy)]
pub struct TextRows<'a> {
    /// Where `.text` begins, kept so that contracts can say where addresses are counted from.
    pub base: u32,
    /// The lines, from the first to the last.
    pub lines: &'a Lines<'a>,
    /// The names that have numbers.
    pub names: &'a NameTable,
    /// Where names are defined, by their numbers.
    pub definitions: &'a [DefinitionPlace],
    /// Where the lines lie.
    pub places: &'a [LinePlace],
    /// The lines of the local labels.
    pub locals: &'a Locals,
}

/// The address of a line by the places of the lines.
pub fn address_in(places: &[LinePlace], line: u32) -> u32
    ensures { result ≡ address_in places.now line }
{
    match places.get((line as usize).saturating_sub(1)) {
        Some(place) => place.address,
        None => 0,
    }
}

/// The address of the line that a local label was found on, if it was.
pub fn address_of_found(places: &[LinePlace], found: Option<u32>) -> Entry
    ensures { result ≡ address_of_found places.now found }
{
    match found {
        Some(line) => Ok(i64::from(address_in(places, line))),
        None => Err(ValueFault::Undefined),
    }
}

//! What names give on a line of a text.

ghost use Rattle.std.specs.Prelude.{◌≡◌, ◌-◌, ◌≤◌, length};
ghost use Rattle.rv_program.specs.declared.limits.TheConstants.{MAX_LINES};
ghost use Rattle.rv_program.specs.internal.KeptEqus.{HasValuesThrough};
ghost use Rattle.rv_program.specs.internal.LineNames.{label_line_in, given_by};
ghost use Rattle.rv_program.specs.Pairs.{names_at};
ghost use Rattle.rv_program.specs.Program.{body_at};
ghost use Rattle.rv_program.specs.References.{line_of_place, or_faulty_equ, by_definition, usable_equs, references_at};
ghost use Rattle.rv_program.specs.internal.TextRows.{address_in, program_in, AreTextRows, AreEquValuesIn, AreHighsIn, address_in_text, references_through};

use crate::names::{entry_at, entry_of};
use crate::pairs::high_in;
use crate::text_rows::{TextRows, address_in, address_of_found};
use rv_expr::{Direction, LabelReference, Names, ValueFault};
use rv_fix::Entry;
use rv_list::{DefinitionPlace, LinePlace};
use rv_stmt::Body;

/// What names give on a line, by the rows of its text.
#[derive(Drop)]
pub struct LineNames<'a> {
    text: TextRows<'a>,
    // The values of the `.equ`s, by the numbers of their names.
    equ_values: &'a [Entry],
    // The high halves that `%pcrel_lo` takes, by the lines of the labels.
    highs: &'a [Entry],
    line: u32,
    // The `.equ`s of the lines up to this one may be used.
    usable_equs: u32,
}

impl Names for LineNames<'_> {
    ghost environment = { given_by };

    fn symbol(&self, _here: u32, name: &[u8]) -> Result<i64, ValueFault> {
        let number = self.text.names.number(name);
        let place = entry_at(self.text.definitions, DefinitionPlace::Nowhere, number);
        let value = entry_at(self.equ_values, Err(ValueFault::LaterEqu), number);
        by_definition(self.text.places, self.usable_equs, place, value)
    }

    fn local(&self, _here: u32, number: u16, direction: Direction) -> Result<i64, ValueFault> {
        let text = &self.text;
        address_of_found(text.places, text.locals.line(self.line, number, direction))
    }

    fn here(&self, here: u32) -> Result<i64, ValueFault> {
        Ok(i64::from(here))
    }

    fn paired_high(&self, _here: u32, label: &LabelReference) -> Result<i64, ValueFault> {
        let line = self.label_line(label)?;
        high_in(self.highs, line as usize)
    }
}

impl LineNames<'_> {
    // The line of a label.
    fn label_line(&self, label: &LabelReference) -> Result<u32, ValueFault>
        ensures { result ≡ label_line_in self.now.text self.now.line label.now }
    {
        match label {
            LabelReference::Symbol(name) => line_of_place(entry_of(
                self.text.names,
                self.text.definitions,
                DefinitionPlace::Nowhere,
                name.bytes(),
            )),
            LabelReference::Local(number, direction) => self
                .text
                .locals
                .line(self.line, *number, *direction)
                .ok_or(ValueFault::Undefined),
            LabelReference::Here => Err(ValueFault::Undefined),
        }
    }
}

// The line of the label that a name is.
pub(crate) fn line_of_place(place: DefinitionPlace) -> Result<u32, ValueFault>
    ensures { result ≡ line_of_place place }
{
    match place {
        DefinitionPlace::Nowhere => Err(ValueFault::Undefined),
        DefinitionPlace::Label(line, _) => Ok(line),
        DefinitionPlace::Equ(_) => Err(ValueFault::NoPartner),
    }
}

// What a symbol gives where the `.equ`s of the lines up to `usable_equs` may be used, by its definition and the value of
// its `.equ`.
pub(crate) fn by_definition(
    places: &[LinePlace],
    usable_equs: u32,
    place: DefinitionPlace,
    value: Entry,
) -> Entry
    ensures { result ≡ by_definition (address_in places.now) usable_equs place value }
{
    match place {
        DefinitionPlace::Nowhere => Err(ValueFault::Undefined),
        DefinitionPlace::Label(line, _) => Ok(i64::from(address_in(places, line))),
        DefinitionPlace::Equ(line) if line <= usable_equs => or_faulty_equ(value),
        DefinitionPlace::Equ(_) => Err(ValueFault::LaterEqu),
    }
}

// The value of an `.equ` as its users see it.
fn or_faulty_equ(value: Entry) -> Entry
    ensures { result ≡ or_faulty_equ value }
{
    match value {
        Ok(v) => Ok(v),
        Err(_) => Err(ValueFault::FaultyEqu),
    }
}

// Up to which line the `.equ`s may be used on a line: an `.equ` may use those before it, and any other line all.
fn usable_equs(text: &TextRows<'_>, line: u32) -> u32
    requires first { 1 ≤ line }
    requires last { line ≤ length text.now.lines.now }
    requires few { length text.now.lines.now ≤ MAX_LINES }
    ensures lines { result ≡ usable_equs (program_in text.now) line (body_at (program_in text.now) line) }
    ensures within { result ≤ length text.now.lines.now }
{
    match text.lines.line(line).stmt().body {
        Body::Equ(_) => line - 1,
        _ => text.lines.len() as u32,
    }
}

/// What names give in the expressions of a line where the values of the `.equ`s before it are known, and only these may
/// be used.
pub fn references_before<'a>(
    text: &TextRows<'a>,
    equ_values: &'a [Entry],
    line: u32,
) -> LineNames<'a>
    requires rows { AreTextRows text.now }
    requires values { HasValuesThrough text.now (line - 1) equ_values.now }
    requires first { 1 ≤ line }
    requires last { line ≤ length text.now.lines.now }
    ensures { given_by result (address_in_text text.now line) ≡ references_through text.now (line - 1) line }
{
    LineNames {
        text: *text,
        equ_values,
        highs: &[],
        line,
        usable_equs: line - 1,
    }
}

/// What names give in the expressions of a line, in which `%pcrel_lo` does not stand.
pub fn references_at<'a>(text: &TextRows<'a>, equ_values: &'a [Entry], line: u32) -> LineNames<'a>
    requires rows { AreTextRows text.now }
    requires values { AreEquValuesIn text.now (length text.now.lines.now) equ_values.now }
    requires first { 1 ≤ line }
    requires last { line ≤ length text.now.lines.now }
    requires few { length text.now.lines.now ≤ MAX_LINES }
    ensures { given_by result (address_in_text text.now line) ≡ references_at text.now.base (program_in text.now) line }
{
    LineNames {
        text: *text,
        equ_values,
        highs: &[],
        line,
        usable_equs: usable_equs(text, line),
    }
}

/// What names give on a line, `%pcrel_lo` among it.
pub fn names_at<'a>(
    text: &TextRows<'a>,
    equ_values: &'a [Entry],
    highs: &'a [Entry],
    line: u32,
) -> LineNames<'a>
    requires rows { AreTextRows text.now }
    requires values { AreEquValuesIn text.now (length text.now.lines.now) equ_values.now }
    requires highs { AreHighsIn text.now highs.now }
    requires first { 1 ≤ line }
    requires last { line ≤ length text.now.lines.now }
    requires few { length text.now.lines.now ≤ MAX_LINES }
    ensures { given_by result (address_in_text text.now line) ≡ names_at text.now.base (program_in text.now) line }
{
    LineNames {
        text: *text,
        equ_values,
        highs,
        line,
        usable_equs: usable_equs(text, line),
    }
}

//! The first definition of a name on some lines of a text.

ghost use Rattle.std.specs.Prelude.{◌≡◌, ◌≤◌, ◌<◌, ◌+◌, ◌^◌, drop, length};
ghost use Rattle.rv_stmt.specs.LentLabels.{name_lent};
ghost use Rattle.rv_stmt.specs.Statement.{statement_of};
ghost use Rattle.rv_program.specs.Definitions.{defines_symbol, place_among_labels, place_in_body, place_in_statement, first_place};
ghost use Rattle.rv_program.specs.Program.{program_of};

use crate::definitions::{is_defined, may_define};
use crate::limits::MAX_LINES;
use crate::line::Line;
use crate::line_search::{SearchPart, SearchedLines};
use crate::mask::Mask;
use crate::name_set::bucket_of;
use rv_list::DefinitionPlace;
use rv_stmt::{Body, LabelName, LabelSlice, Stmt};

// Whether a label is this symbol.
fn defines_symbol(label: LabelName<'_>, name: &[u8]) -> bool
    ensures { result ≡ defines_symbol (name_lent label.entry) name.now }
{
    match label {
        LabelName::Symbol(symbol) => symbol == name,
        LabelName::Local(_) => false,
    }
}

// Where a name is defined among the labels of a line.
fn place_among_labels(mut labels: LabelSlice<'_>, line: u32, name: &[u8]) -> DefinitionPlace
    requires few { length labels ≤ 1000 }
    ensures { result ≡ place_among_labels line 0 labels.entry name.now }
{
    let mut index = 0;
    'labels: while let Some((label, later)) = labels.split_first() {
        if defines_symbol(label.name, name) {
            return DefinitionPlace::Label(line, index);
        }
        index += 1;
        labels = later;
    }
    DefinitionPlace::Nowhere
}

// Where a name is defined by the `.equ` of a line.
fn place_in_body(body: &Body, line: u32, name: &[u8]) -> DefinitionPlace
    ensures { result ≡ place_in_body line body.now name.now }
{
    match body {
        Body::Equ(definition) if definition.symbol.bytes() == name => DefinitionPlace::Equ(line),
        _ => DefinitionPlace::Nowhere,
    }
}

// Where a name is defined in the statement of a line.
fn place_in_statement(stmt: &Stmt, line: u32, name: &[u8]) -> DefinitionPlace
    requires few { length stmt.now.labels ≤ 1000 }
    ensures { result ≡ place_in_statement line stmt.now name.now }
{
    match place_among_labels(stmt.labels.as_slice(), line, name) {
        DefinitionPlace::Nowhere => place_in_body(&stmt.body, line, name),
        place => place,
    }
}

/// Where a name is defined on a line. One that defines nothing is gone past without a look at its statement.
#[inline(always)]
pub fn place_on(line: &Line, number: u32, name: &[u8]) -> DefinitionPlace
    ensures { result ≡ place_in_statement number (statement_of line.now) name.now }
{
    if !may_define(line) {
        return DefinitionPlace::Nowhere;
    }
    line.labels_are_few();
    place_in_statement(line.stmt(), number, name)
}

/// Where a name is defined first after the first `from` lines of a text. Lines without the mask of the name are gone past.
pub fn first_place(searched: &SearchedLines<'_>, from: usize, name: &[u8]) -> DefinitionPlace
    requires within { from ≤ length searched.now }
    requires few { length searched.now ≤ MAX_LINES }
    ensures { result ≡ first_place (from + 1) (program_of (drop from searched.now)) name.now }
{
    let wanted = Mask::of_bucket(bucket_of(name));
    let lines = searched.lines();
    let mut part = SearchPart::start();
    let mut i = searched.next(&mut part, from, wanted);
    'lines: while i < lines.len() {
        let place = place_on(&lines[i], i as u32 + 1, name);
        if is_defined(place) {
            return place;
        }
        i = searched.next(&mut part, i + 1, wanted);
    }
    DefinitionPlace::Nowhere
}

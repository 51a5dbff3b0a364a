//! Where the names of a text are defined, in a row by their numbers.

ghost use Rattle.std.specs.Prelude.{◌≡◌, ◌≤◌, ◌<◌, ◌==◌, not, ◌||◌, true, false, Some, None, length, IfSome, OnOk};
ghost use Rattle.rv_stmt.specs.declared.directive.Definition.{Definition};
ghost use Rattle.rv_stmt.specs.declared.statement.Body.TheVariants.{Equ as EquBody};
ghost use Rattle.rv_stmt.specs.LentLabels.{label_lent, name_lent};
ghost use Rattle.rv_stmt.specs.Statement.{statement_of};
ghost use Rattle.rv_list.specs.declared.view.DefinitionPlace.TheVariants.{Nowhere};
ghost use Rattle.rv_program.specs.internal.Defining.{only, of_label, is_up_to, also_on, IsLabelNumbered, AreLabelsNumbered, IsBodyNumbered, IsNumbered};
ghost use Rattle.rv_program.specs.Definitions.{place_among_labels, place_in_body, place_in_statement, is_defined, is_equ_on};
ghost use Rattle.rv_program.specs.internal.Rows.{number_of, has_number, in_row, Grows};
ghost use Rattle.rv_program.specs.Uses.{is_equ};

use crate::line::Line;
use crate::names::NameTable;
use rv_list::DefinitionPlace;
use rv_stmt::{Body, Definition, Label, LabelName, LabelSlice, Stmt};
use std::alloc::{AllocError, Global};

/// Whether there is a definition.
pub fn is_defined(place: DefinitionPlace) -> bool
    ensures { result ≡ is_defined place }
{
    match place {
        DefinitionPlace::Nowhere => false,
        DefinitionPlace::Label(_, _) | DefinitionPlace::Equ(_) => true,
    }
}

// Whether it is the `.equ` of this line.
fn is_equ_on(line: u32, place: DefinitionPlace) -> bool
    ensures { result ≡ is_equ_on line place }
{
    match place {
        DefinitionPlace::Equ(defining) => defining == line,
        DefinitionPlace::Nowhere | DefinitionPlace::Label(_, _) => false,
    }
}

// The `.equ` of a statement, with the number of its symbol, where it is the definition of its symbol.
fn defining_equ<'a>(
    stmt: &'a Stmt,
    line: u32,
    names: &NameTable,
    definitions: &[DefinitionPlace],
) -> Option<(&'a Definition, usize)>
    ensures body { IfSome result (λ r. stmt.entry.now.body ≡ EquBody r.0.now) }
    ensures number { IfSome result (λ r. number_of names.now r.0.now.symbol ≡ Some r.1) }
    ensures within { IfSome result (λ r. r.1 < length definitions.now) }
    ensures defines { IfSome result (λ r. is_equ_on line (in_row names.now definitions.now Nowhere r.0.now.symbol) ≡ true) }
    ensures none { result ≡ None → (d : Definition) → stmt.entry.now.body ≡ EquBody d
        → is_equ_on line (in_row names.now definitions.now Nowhere d.symbol) ≡ false }
{
    let Body::Equ(definition) = &stmt.body else {
        return None;
    };
    let number = names.number(definition.symbol.bytes())?;
    let place = definitions.get(number)?;
    if !is_equ_on(line, *place) {
        return None;
    }
    Some((definition, number))
}

/// The `.equ` of a line, with the number of its symbol, where it is the definition of its symbol. Lines without an `.equ` are
/// gone past without a look at their statements.
pub fn defining_equ_on<'a>(
    line: &'a Line,
    number: u32,
    names: &NameTable,
    definitions: &[DefinitionPlace],
) -> Option<(&'a Definition, usize)>
    ensures body { IfSome result (λ r. (statement_of line.entry.now).body ≡ EquBody r.0.now) }
    ensures number { IfSome result (λ r. number_of names.now r.0.now.symbol ≡ Some r.1) }
    ensures within { IfSome result (λ r. r.1 < length definitions.now) }
    ensures defines { IfSome result (λ r. is_equ_on number (in_row names.now definitions.now Nowhere r.0.now.symbol) ≡ true) }
    ensures none { result ≡ None → (d : Definition) → (statement_of line.entry.now).body ≡ EquBody d
        → is_equ_on number (in_row names.now definitions.now Nowhere d.symbol) ≡ false }
{
    if !line.brief().equ {
        return None;
    }
    defining_equ(line.stmt(), number, names, definitions)
}

// Gives numbers to the symbols among some labels.
fn number_labels(
    alloc: Global,
    mut labels: LabelSlice<'_>,
    names: &mut NameTable,
) -> Result<(), AllocError>
    ensures numbered { OnOk result (AreLabelsNumbered names.new labels.entry) }
    ensures names { Grows names.old names.new }
{
    'labels: while let Some((label, later)) = labels.split_first() {
        match label.name {
            LabelName::Symbol(symbol) => {
                names.intern(alloc, symbol)?;
            }
            LabelName::Local(_) => {}
        }
        labels = later;
    }
    Ok(())
}

// Gives the symbol of an `.equ` a number.
fn number_equ(alloc: Global, body: &Body, names: &mut NameTable) -> Result<(), AllocError>
    ensures numbered { OnOk result (IsBodyNumbered names.new body.now) }
    ensures names { Grows names.old names.new }
{
    if let Body::Equ(definition) = body {
        names.intern(alloc, definition.symbol.bytes())?;
    }
    Ok(())
}

// Whether a definition stands on a line or before it.
fn is_up_to(line: u32, place: DefinitionPlace) -> bool
    ensures { result ≡ is_up_to line place }
{
    match place {
        DefinitionPlace::Nowhere => false,
        DefinitionPlace::Label(defining, _) | DefinitionPlace::Equ(defining) => defining <= line,
    }
}

// Writes where a name is defined on a line, unless the row has a definition of it there or before it.
fn define(
    name: &[u8],
    line: u32,
    place: DefinitionPlace,
    names: &NameTable,
    row: &mut Vec<DefinitionPlace>,
)
    requires numbered { has_number names.now name.now ≡ true }
    requires here { is_up_to line place ≡ true }
    requires as_many { length row.old.items ≡ length names.now }
    ensures row { in_row names.now row.new.items Nowhere ≡ also_on line (in_row names.now row.old.items Nowhere) (only name.now place) }
    ensures as_many { length row.new.items ≡ length names.now }
{
    let Some(number) = names.number(name) else {
        unreachable!()
    };
    if !is_up_to(line, row[number]) {
        row[number] = place;
    }
}

// Writes what a label defines. Local labels define no symbol.
fn define_label(
    label: Label<'_>,
    line: u32,
    index: u32,
    names: &NameTable,
    row: &mut Vec<DefinitionPlace>,
)
    requires numbered { IsLabelNumbered names.now (name_lent label.name) }
    requires as_many { length row.old.items ≡ length names.now }
    ensures row { in_row names.now row.new.items Nowhere ≡ also_on line (in_row names.now row.old.items Nowhere) (of_label line index (label_lent label.entry)) }
    ensures as_many { length row.new.items ≡ length names.now }
{
    let place = DefinitionPlace::Label(line, index);
    match label.name {
        LabelName::Symbol(symbol) => define(symbol, line, place, names, row),
        LabelName::Local(_) => {}
    }
}

// Writes what the labels of a line define.
fn define_labels(
    mut labels: LabelSlice<'_>,
    line: u32,
    names: &NameTable,
    row: &mut Vec<DefinitionPlace>,
)
    requires few { length labels ≤ 1000 }
    requires numbered { AreLabelsNumbered names.now labels }
    requires as_many { length row.old.items ≡ length names.now }
    ensures row { in_row names.now row.new.items Nowhere ≡ also_on line (in_row names.now row.old.items Nowhere) (place_among_labels line 0 labels.entry) }
    ensures as_many { length row.new.items ≡ length names.now }
{
    let mut index = 0;
    while let Some((label, later)) = labels.split_first() {
        define_label(label, line, index, names, row);
        index += 1;
        labels = later;
    }
}

// Writes what the `.equ` of a line defines, if it has one.
fn define_equ(body: &Body, line: u32, names: &NameTable, row: &mut Vec<DefinitionPlace>)
    requires numbered { IsBodyNumbered names.now body.now }
    requires as_many { length row.old.items ≡ length names.now }
    ensures row { in_row names.now row.new.items Nowhere ≡ also_on line (in_row names.now row.old.items Nowhere) (place_in_body line body.now) }
    ensures as_many { length row.new.items ≡ length names.now }
{
    match body {
        Body::Equ(definition) => {
            let place = DefinitionPlace::Equ(line);
            define(definition.symbol.bytes(), line, place, names, row)
        }
        _ => {}
    }
}

/// Whether a line has labels or an `.equ`. Other lines define nothing.
pub fn may_define(line: &Line) -> bool
    ensures { result ≡ (not (length (statement_of line.now).labels == 0) || is_equ (statement_of line.now).body) }
{
    let brief = line.brief();
    brief.labels || brief.equ
}

/// Gives numbers to the names that a line defines, if they have none. Names that have numbers keep them.
///
/// # Errors
///
/// Fails only where there is no memory. Some of the names may then have got theirs.
pub fn number_line(alloc: Global, line: &Line, names: &mut NameTable) -> Result<(), AllocError>
    ensures numbered { OnOk result (IsNumbered names.new (statement_of line.now)) }
    ensures names { Grows names.old names.new }
{
    let stmt = line.stmt();
    number_labels(alloc, stmt.labels.as_slice(), names)?;
    number_equ(alloc, &stmt.body, names)?;
    Ok(())
}

/// Writes what a line defines into a row of what the lines before it and behind it define. Its names have numbers, and each name has its
/// place in the row. A line that defines nothing is gone past without a look at its statement.
pub fn define_line(line: &Line, number: u32, names: &NameTable, row: &mut Vec<DefinitionPlace>)
    requires numbered { IsNumbered names.now (statement_of line.now) }
    requires as_many { length row.old.items ≡ length names.now }
    ensures row { in_row names.now row.new.items Nowhere ≡ also_on number (in_row names.now row.old.items Nowhere) (place_in_statement number (statement_of line.now)) }
    ensures as_many { length row.new.items ≡ length names.now }
{
    if !may_define(line) {
        return;
    }
    line.labels_are_few();
    let stmt = line.stmt();
    define_labels(stmt.labels.as_slice(), number, names, row);
    define_equ(&stmt.body, number, names, row);
}

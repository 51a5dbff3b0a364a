//! The symbols of a text.

ghost use Rattle.std.specs.Prelude.{◌≡◌, ◌<◌, ◌≤◌, ◌++◌, ◌∷◌, [], if◌then◌else◌, length, map, take, IfOk, OnOk};
ghost use Rattle.rv_layout.specs.Sections.{section_number};
ghost use Rattle.rv_list.specs.Shown.{shown_line};
ghost use Rattle.rv_stmt.specs.LentLabels.{name_lent};
ghost use Rattle.rv_files.specs.Symbols.{searched, symbol_of_label, symbols_of_labels, symbol_of_body, symbols_on, symbols_of};

use rv_expr::Name;
use rv_layout::section_number;
use rv_list::{LinePlace, LineSource, LineView, View};
use rv_stmt::{Body, LabelName, LabelSlice};
use std::alloc::{AllocError, Global};
use std::marker::Model;

/// A symbol of a text. Contracts see its name, its value and its section.
#[derive(Drop)]
pub struct Symbol {
    name: Name,
    value: Option<i64>,
    section: Option<usize>,
}

impl Model for Symbol {
    ghost use Rattle.rv_stmt.specs.LentLabels.{name_lent};
    ghost use Rattle.rv_files.specs.Symbols.{Symbol};

    ghost Value = { Symbol };

    ghost view = { λ s. record { name = s.name; value = s.value; section = s.section } };
}

impl Symbol {
    /// Its name.
    pub fn name(&self) -> &[u8]
        ensures { result.now ≡ self.now.name }
    {
        self.name.bytes()
    }

    /// Its value: the address of a label, or the value of an `.equ`, if it has one.
    pub fn value(&self) -> Option<i64>
        ensures { result ≡ self.now.value }
    {
        self.value
    }

    /// The number of the section that it belongs to: that of the line of a label. The symbol of an `.equ` belongs to none.
    pub fn section(&self) -> Option<usize>
        ensures { result ≡ self.now.section }
    {
        self.section
    }
}

// Adds a symbol, if this is its definition.
fn push_if(
    symbols: &mut Vec<Symbol>,
    alloc: Global,
    is_defined: bool,
    name: &[u8],
    value: Option<i64>,
    section: Option<usize>,
) -> Result<(), AllocError>
    ensures { OnOk result (symbols.new.items ≡ symbols.old.items ++ (if is_defined then record { name = name.now; value = value; section = section } ∷ [] else [])) }
{
    if is_defined {
        let name = Name::of(alloc, name)?;
        symbols.push(Symbol {
            name,
            value,
            section,
        })?;
    }
    Ok(())
}

// The number of the section that a label belongs to: that of its line, also where the line has no bytes.
fn section_of_label(place: LinePlace) -> usize
    ensures { result ≡ section_number place.section }
{
    section_number(place.section)
}

// Adds the symbol of a label, if this is its definition.
fn push_label<V: View>(
    symbols: &mut Vec<Symbol>,
    alloc: Global,
    view: &V,
    line: u32,
    place: LinePlace,
    index: u32,
    name: LabelName<'_>,
) -> Result<(), AllocError>
    ensures { OnOk result (symbols.new.items ≡ symbols.old.items ++ symbol_of_label (V.shown view.now) line place index (name_lent name.entry)) }
{
    match name {
        LabelName::Symbol(symbol) => {
            let is_defined = view.definition(symbol).is_label(line, index);
            let value = Some(i64::from(place.address));
            let section = Some(section_of_label(place));
            push_if(symbols, alloc, is_defined, symbol, value, section)
        }
        LabelName::Local(_) => Ok(()),
    }
}

// Adds the symbols of the labels of a line.
fn push_labels<V: View>(
    symbols: &mut Vec<Symbol>,
    alloc: Global,
    view: &V,
    line: u32,
    place: LinePlace,
    mut labels: LabelSlice<'_>,
) -> Result<(), AllocError>
    requires { length labels ≤ 1000 }
    ensures { OnOk result (symbols.new.items ≡ symbols.old.items ++ symbols_of_labels (V.shown view.now) line place 0 labels.entry) }
{
    let mut index = 0;
    'labels: while let Some((label, later)) = labels.split_first() {
        push_label(symbols, alloc, view, line, place, index, label.name)?;
        index += 1;
        labels = later;
    }
    Ok(())
}

// Adds the symbol of an `.equ`, if this is its definition.
fn push_body<V: View>(
    symbols: &mut Vec<Symbol>,
    alloc: Global,
    view: &V,
    line: u32,
    body: &Body,
) -> Result<(), AllocError>
    ensures { OnOk result (symbols.new.items ≡ symbols.old.items ++ symbol_of_body (V.shown view.now) line body.now) }
{
    match body {
        Body::Equ(definition) => {
            let symbol = definition.symbol.bytes();
            let is_defined = view.definition(symbol).is_equ(line);
            push_if(symbols, alloc, is_defined, symbol, view.value(symbol), None)
        }
        _ => Ok(()),
    }
}

// Adds the symbols that a line defines.
fn push_line<V: View>(
    symbols: &mut Vec<Symbol>,
    alloc: Global,
    view: &V,
    number: u32,
    line: &LineView<'_>,
) -> Result<(), AllocError>
    requires { length line.now.stmt.now.labels ≤ 1000 }
    ensures { OnOk result (symbols.new.items ≡ symbols.old.items ++ symbols_on (V.shown view.now) number (shown_line line.now)) }
{
    let labels = line.stmt.labels.as_slice();
    push_labels(symbols, alloc, view, number, line.place, labels)?;
    push_body(symbols, alloc, view, number, &line.stmt.body)
}

// With how many symbols all the names that are not defined are compared together.
const COMPARED: usize = 50_000;

/// Among how many symbols a name is looked for that may be meant, where so many reports are shown.
pub fn searched(shown: usize) -> usize
    ensures { result ≡ searched shown }
{
    COMPARED / shown.max(1)
}

/// The symbols of a text, each once, in the order of their definitions: the first ones, no fewer than `most` unless these are all.
///
/// # Errors
///
/// `AllocError` if there is no memory for them.
#[tactic(auto, unfolding(crate::specs::Symbols::symbols_of))]
pub fn first_symbols<V: View>(
    alloc: Global,
    view: &V,
    most: usize,
) -> Result<Vec<Symbol>, AllocError>
    ensures first { IfOk result (λ symbols. take most symbols.items ≡ take most (symbols_of (V.shown view.now))) }
    ensures all { IfOk result (λ symbols. length symbols.items < most → symbols.items ≡ symbols_of (V.shown view.now)) }
{
    let mut symbols = Vec::new(alloc);
    let mut lines = view.lines();
    for k in 0..view.line_count() {
        if symbols.len() >= most {
            return Ok(symbols);
        }
        lines.advance();
        push_line(&mut symbols, alloc, view, k + 1, &lines.line())?;
    }
    Ok(symbols)
}

/// All symbols of a text, each once, in the order of their definitions.
///
/// # Errors
///
/// `AllocError` if there is no memory for them.
pub fn symbols<V: View>(alloc: Global, view: &V) -> Result<Vec<Symbol>, AllocError>
    ensures { IfOk result (λ symbols. symbols.items ≡ symbols_of (V.shown view.now)) }
{
    let symbols = first_symbols(alloc, view, usize::MAX)?;
    Ok(symbols)
}

// The names of symbols.
fn names<'a>(alloc: Global, mut symbols: &'a [Symbol]) -> Result<Vec<&'a [u8]>, AllocError>
    ensures { IfOk result (λ names. map (λ t. t.now) names.items ≡ map (λ s. s.name) symbols.entry.now) }
{
    let mut names = Vec::new(alloc);
    'symbols: while let [symbol, later @ ..] = symbols {
        names.push(symbol.name())?;
        symbols = later;
    }
    Ok(names)
}

/// The names of the first of some symbols, at most so many.
///
/// # Errors
///
/// `AllocError` if there is no memory for the list.
pub fn first_names<'a>(
    alloc: Global,
    symbols: &'a [Symbol],
    most: usize,
) -> Result<Vec<&'a [u8]>, AllocError>
    ensures { IfOk result (λ names. map (λ t. t.now) names.items ≡ map (λ s. s.name) (take most symbols.now)) }
{
    let (first, _) = symbols.split_at(symbols.len().min(most));
    names(alloc, first)
}

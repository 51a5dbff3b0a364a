//! What the symbols of a text are.

ghost use Rattle.std.specs.Prelude.{◌≡◌, ◌≤◌, ℕ, List, length, None, Ok, IfSome, pos};
ghost use Rattle.rv_program.specs.declared.limits.TheConstants.{MAX_LINES};
ghost use Rattle.rv_program.specs.Constants.{constant_of};
ghost use Rattle.rv_program.specs.Definitions.{definition_of, equ_line};
ghost use Rattle.rv_program.specs.References.{symbol_through};
ghost use Rattle.rv_program.specs.internal.Rows.{number_of};
ghost use Rattle.rv_program.specs.internal.SymbolRows.{AreSymbolRows};
ghost use Rattle.rv_program.specs.internal.TextRows.{AreTextRows, program_in};

use crate::line_names::by_definition;
use crate::names::entry_at;
use crate::text_rows::{TextRows, address_in};
use rv_expr::ValueFault;
use rv_fix::Entry;
use rv_list::DefinitionPlace;

/// A text with what its symbols are.
#[derive(Clone, Copy)]
pub struct SymbolRows<'a> {
    pub text: TextRows<'a>,
    /// The constant that each name is, if it is one, by the names' numbers.
    pub constants: &'a [Option<i64>],
    /// The values of the `.equ`s, by the numbers of their names.
    pub equ_values: &'a [Entry],
}

impl SymbolRows<'_> {
    /// Where the symbol of this number is defined; a name that has no number is nowhere.
    pub fn definition_of(&self, number: Option<usize>) -> DefinitionPlace
        requires { AreTextRows self.now.text }
        ensures { (name : List ℕ) → number_of self.now.text.names.now name ≡ number → result ≡ definition_of (program_in self.now.text) name }
    {
        entry_at(self.text.definitions, DefinitionPlace::Nowhere, number)
    }

    /// The line of the `.equ` that defines the symbol of this number, or of one that has none, if there is such a line.
    pub fn equ_of(&self, number: Option<usize>) -> Option<u32>
        requires { AreTextRows self.now.text }
        ensures { (name : List ℕ) → number_of self.now.text.names.now name ≡ number → result ≡ equ_line (definition_of (program_in self.now.text) name) }
    {
        match self.definition_of(number) {
            DefinitionPlace::Nowhere | DefinitionPlace::Label(_, _) => None,
            DefinitionPlace::Equ(line) => Some(line),
        }
    }

    /// The address of the label that defines the symbol of this number, or of one that has none, if there is such a label.
    pub fn label_of(&self, number: Option<usize>) -> Option<u32>
        requires rows { AreSymbolRows self.now }
        requires few { length self.now.text.lines.now ≤ MAX_LINES }
        ensures value { (name : List ℕ) → number_of self.now.text.names.now name ≡ number
            → IfSome result (λ address. symbol_through self.now.text.base (program_in self.now.text) (length self.now.text.lines.now) name ≡ Ok (pos address)) }
        ensures label { (name : List ℕ) → number_of self.now.text.names.now name ≡ number
            → IfSome result (λ _. equ_line (definition_of (program_in self.now.text) name) ≡ None) }
    {
        match self.definition_of(number) {
            DefinitionPlace::Nowhere | DefinitionPlace::Equ(_) => None,
            DefinitionPlace::Label(line, _) => Some(address_in(self.text.places, line)),
        }
    }

    /// What the symbol of this number, or one that has none, gives on the lines that are no `.equ`.
    pub fn value_of(&self, number: Option<usize>) -> Entry
        requires rows { AreSymbolRows self.now }
        requires few { length self.now.text.lines.now ≤ MAX_LINES }
        ensures { (name : List ℕ) → number_of self.now.text.names.now name ≡ number
            → result ≡ symbol_through self.now.text.base (program_in self.now.text) (length self.now.text.lines.now) name }
    {
        let last = self.text.lines.len() as u32;
        let value = entry_at(self.equ_values, Err(ValueFault::LaterEqu), number);
        by_definition(self.text.places, last, self.definition_of(number), value)
    }

    /// The constant that the symbol of this number, or one that has none, is on a line, if it is one there.
    pub fn constant_of(&self, line: u32, number: Option<usize>) -> Option<i64>
        requires { AreSymbolRows self.now }
        ensures { (name : List ℕ) → number_of self.now.text.names.now name ≡ number → result ≡ constant_of (program_in self.now.text) line name }
    {
        match self.definition_of(number) {
            DefinitionPlace::Nowhere | DefinitionPlace::Label(_, _) => None,
            DefinitionPlace::Equ(definition) if definition < line => {
                entry_at(self.constants, None, number)
            }
            DefinitionPlace::Equ(_) => None,
        }
    }
}

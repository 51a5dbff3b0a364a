//! What names give on a line of a store.

ghost use Rattle.std.specs.Prelude.{◌≡◌};
ghost use Rattle.std.specs.Option.{option_map};
ghost use Rattle.rv_program.specs.Layout.{address_at};
ghost use Rattle.rv_program.specs.internal.LineNames.{given_by};
ghost use Rattle.rv_store.specs.LinesOfTexts.{names_of, names_from};
ghost use Rattle.rv_program.specs.Program.{program_of};
ghost use Rattle.rv_program.specs.Text.{at_line};

use crate::store::Store;
use rv_expr::{Direction, LabelReference, Names, ValueFault};
use rv_program::{LineNames, Lines, names_at};
use std::marker::Model;

/// What names give in the expressions of a line of a store. Contracts see the text and the number of the line.
#[derive(Drop)]
pub struct NamesOnLine<'a> {
    store: &'a Store,
    line: u32,
}

impl<'a> Model for NamesOnLine<'a> {
    ghost use Rattle.std.specs.Prelude.{◌≤◌, length};
    ghost use Rattle.rv_store.specs.LinesOfTexts.{LineOfText};

    ghost Value = { LineOfText };

    ghost view = { λ n. record { text = n.store.now; line = n.line } };

    ghost invariant = { λ n. (1 ≤ n.line) × (n.line ≤ length n.store.now.lines) };
}

impl NamesOnLine<'_> {
    // The same by the rows of the text; `lines` are its lines.
    fn by_rows<'a>(&'a self, lines: &'a Lines<'a>) -> LineNames<'a>
        requires { lines.now ≡ self.now.text.lines }
        ensures { given_by result (address_at self.now.text.base (program_of self.now.text.lines) self.now.line) ≡ names_of self.now }
    {
        let store = self.store;
        let rows = store.survey.rows(lines, store.base, &store.names);
        let text = &rows.symbols.text;
        names_at(text, rows.symbols.equ_values, rows.highs, self.line)
    }
}

impl Names for NamesOnLine<'_> {
    ghost environment = { names_from };

    fn symbol(&self, here: u32, name: &[u8]) -> Result<i64, ValueFault> {
        let lines = self.store.column();
        self.by_rows(&lines).symbol(here, name)
    }

    fn local(&self, here: u32, number: u16, direction: Direction) -> Result<i64, ValueFault> {
        let lines = self.store.column();
        self.by_rows(&lines).local(here, number, direction)
    }

    fn here(&self, here: u32) -> Result<i64, ValueFault> {
        Ok(i64::from(here))
    }

    fn paired_high(&self, here: u32, label: &LabelReference) -> Result<i64, ValueFault> {
        let lines = self.store.column();
        self.by_rows(&lines).paired_high(here, label)
    }
}

impl Store {
    // Its lines.
    fn column(&self) -> Lines<'_>
        ensures { result ≡ self.now.lines }
    {
        Lines::in_column(self.survey.lines.as_slice())
    }

    /// What names give in the expressions of line number `k`, if there is such a line: with it `operand_values` gives the values
    /// of the line's operands.
    pub fn names(&self, k: u32) -> Option<NamesOnLine<'_>>
        ensures { option_map (λ n. n) result ≡ at_line self.now.lines k (record { text = self.now; line = k }) }
    {
        if k == 0 || k > self.items.len() {
            return None;
        }
        Some(NamesOnLine {
            store: self,
            line: k,
        })
    }
}

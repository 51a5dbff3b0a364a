//! Tables as views.

ghost use Rattle.std.specs.Prelude.{◌≡◌, ◌≤◌, ◌<◌, ◌-◌, length};
ghost use Rattle.rv_layout.specs.Sections.{sections};
ghost use Rattle.rv_list.specs.Shown.{shown_line};
ghost use Rattle.examples.specs.ShownTables.{shown_table};

use crate::table::Table;
use rv_list::{DefinitionPlace, LineSource, LineView, SectionPlace, View};
use std::marker::Model;

/// The lines of a table, one after another, from the first one on. Contracts see how many were passed.
#[derive(Drop)]
pub struct TableLines<'t, 'a> {
    table: &'t Table<'a>,
    passed: u32,
}

impl<'t, 'a> Model for TableLines<'t, 'a> {
    ghost use Rattle.std.specs.Prelude.{◌≤◌, length};
    ghost use Rattle.examples.specs.ShownTables.{PassedRows};
    ghost use Rattle.rv_expr.specs.contracts.tree.Expr as expr;
    ghost use Rattle.std.specs.Coded.{codes};

    ghost Value = { PassedRows };

    ghost coded = { Prim.hlevel (codes, expr.the_row.coded) };

    ghost view = { λ l. record { table = l.table.now; count = l.passed } };

    ghost invariant = { λ l. l.passed ≤ length l.table.now.rows.items };
}

impl LineSource for TableLines<'_, '_> {
    ghost shown = { λ l. shown_table l.table };

    ghost passed = { λ l. l.count };

    fn advance(&mut self) {
        self.passed += 1;
    }

    fn line(&self) -> LineView<'_> {
        let row = &self.table.rows[self.passed as usize - 1];
        LineView {
            text: row.text.as_bytes(),
            stmt: &row.stmt,
            place: row.place,
            code: &row.code,
        }
    }
}

impl<'t, 'a> View for &'t Table<'a> {
    ghost shown = { λ t. shown_table t.now };

    type Lines = TableLines<'t, 'a>;

    fn line_count(&self) -> u32 {
        self.rows.len() as u32
    }

    fn lines(&self) -> TableLines<'t, 'a> {
        TableLines {
            table: *self,
            passed: 0,
        }
    }

    fn section(&self, section: usize) -> SectionPlace {
        let table: &'t Table<'a> = *self;
        table.section_place(section)
    }

    fn definition(&self, name: &[u8]) -> DefinitionPlace {
        let table: &'t Table<'a> = *self;
        table.known(name).0
    }

    fn value(&self, name: &[u8]) -> Option<i64> {
        let table: &'t Table<'a> = *self;
        table.known(name).1
    }
}

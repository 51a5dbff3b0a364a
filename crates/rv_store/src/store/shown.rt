//! What a store shows of its text.

ghost use Rattle.std.specs.Prelude.{◌≡◌, ◌≤◌, length};
ghost use Rattle.rv_program.specs.internal.Items.{IsItem};
ghost use Rattle.rv_program.specs.Layout.{place_at};
ghost use Rattle.rv_store.specs.internal.Passed.{is_loud, may_be_misplaced};
ghost use Rattle.rv_program.specs.Program.{program_of};
ghost use Rattle.rv_store.specs.Shown.{shown_of};

use crate::store::Store;
use rv_expr::ValueFault;
use rv_list::{DefinitionPlace, LinePlace, LineSource, LineView, SectionPlace, TestedLines, View};
use rv_program::{Item, entry_of};
use rv_stmt::Sect;
use rv_tree::Items;
use std::marker::Model;

/// The lines of a store, one after another, from the first one on. Contracts see how many were passed.
#[derive(Drop)]
pub struct StoreLines<'a> {
    store: &'a Store,
    left: Items<'a, Item>,
    last: Option<&'a Item>,
    passed: u32,
}

impl<'a> Model for StoreLines<'a> {
    ghost use Rattle.std.specs.Option.{option_map};
    ghost use Rattle.rv_store.specs.internal.Passed.{PassedLines, ArePassed};

    ghost Value = { PassedLines };

    ghost view = { λ s. record { text = s.store.now; count = s.passed } };

    ghost invariant = { λ s. ArePassed s.store.now.base s.store.now.lines s.passed (option_map (λ i. i.now) s.last) s.left };
}

impl StoreLines<'_> {
    // The item of the line that was passed last.
    fn last_item(&self) -> &Item
        requires { 1 ≤ self.now.count }
        ensures item { IsItem self.now.text.base self.now.text.lines self.now.count result.now }
        ensures within { self.now.count ≤ length self.now.text.lines }
    {
        let Some(item) = self.last else {
            unreachable!()
        };
        item
    }
}

impl LineSource for StoreLines<'_> {
    ghost shown = { λ l. shown_of l.text };

    ghost passed = { λ l. l.count };

    fn advance(&mut self) {
        self.last = self.left.next();
        self.passed += 1;
    }

    fn line(&self) -> LineView<'_> {
        let item = self.last_item();
        item.line.labels_are_few();
        LineView {
            text: item.line.text(),
            stmt: item.line.stmt(),
            place: self.store.place(self.passed),
            code: &item.code,
        }
    }
}

// Whether a line may have faults in any place: it defines something, or its body is faulty.
fn is_loud(item: &Item) -> bool
    ensures { result ≡ is_loud item.now }
{
    let brief = item.line.brief();
    brief.labels || brief.equ || item.code.fault.is_some()
}

// Whether something in this place may be misplaced there: an instruction at an odd address, or bytes in `.bss`.
fn may_be_misplaced(place: LinePlace) -> bool
    ensures { result ≡ may_be_misplaced place }
{
    place.address % 2 == 1 || matches!(place.section, Sect::Bss)
}

impl TestedLines for StoreLines<'_> {
    fn may_have_faults(&self) -> bool {
        let item = self.last_item();
        is_loud(item) || may_be_misplaced(self.store.place(self.passed))
    }
}

impl Store {
    // Where line number `k` lies.
    pub(crate) fn place(&self, k: u32) -> LinePlace
        requires first { 1 ≤ k }
        requires last { k ≤ length self.now.lines }
        ensures { result ≡ place_at self.now.base (program_of self.now.lines) k }
    {
        self.survey.places[k as usize - 1]
    }

    // Its lines.
    fn passing(&self) -> StoreLines<'_>
        ensures { result ≡ record { text = self.now; count = 0 } }
    {
        StoreLines {
            store: self,
            left: self.items.iter(),
            last: None,
            passed: 0,
        }
    }
}

impl<'a> View for &'a Store {
    ghost shown = { λ store. shown_of store.now };

    type Lines = StoreLines<'a>;

    fn line_count(&self) -> u32 {
        self.len() as u32
    }

    fn lines(&self) -> StoreLines<'a> {
        let store: &'a Store = *self;
        store.passing()
    }

    fn section(&self, section: usize) -> SectionPlace {
        self.survey.section(self.base, section)
    }

    fn definition(&self, name: &[u8]) -> DefinitionPlace {
        entry_of(
            &self.names,
            &self.survey.definitions,
            DefinitionPlace::Nowhere,
            name,
        )
    }

    fn value(&self, name: &[u8]) -> Option<i64> {
        match self.definition(name) {
            DefinitionPlace::Equ(_) => {
                let value = entry_of(
                    &self.names,
                    &self.survey.equ_values,
                    Err(ValueFault::LaterEqu),
                    name,
                );
                value.ok()
            }
            _ => None,
        }
    }
}

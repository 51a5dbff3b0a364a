//! A text in a store, with what messages about it need.

ghost use Rattle.std.specs.Prelude.{◌≡◌};

use rv_diagnostics::Told;
use rv_list::{DefinitionPlace, SectionPlace, View};
use rv_store::{NamesOnLine, Store};

/// A text in a store, whose lines can tell what names give in them.
#[derive(Clone, Copy)]
pub struct Stored<'a> {
    store: &'a Store,
}

impl<'a> Stored<'a> {
    /// The text of a store.
    pub fn of(store: &'a Store) -> Stored<'a>
        ensures { result.store.now ≡ store.now }
    {
        Stored { store }
    }
}

impl<'a> View for Stored<'a> {
    ghost use Rattle.rv_store.specs.Shown.{shown_of};

    ghost shown = { λ s. shown_of s.store.now };

    type Lines = <&'a Store as View>::Lines;

    fn line_count(&self) -> u32 {
        self.store.line_count()
    }

    fn lines(&self) -> <&'a Store as View>::Lines {
        self.store.lines()
    }

    fn section(&self, section: usize) -> SectionPlace {
        self.store.section(section)
    }

    fn definition(&self, name: &[u8]) -> DefinitionPlace {
        self.store.definition(name)
    }

    fn value(&self, name: &[u8]) -> Option<i64> {
        self.store.value(name)
    }
}

impl<'a> Told for Stored<'a> {
    ghost use Rattle.rv_store.specs.LinesOfTexts.{names_from};

    ghost environments = { λ s number. names_from (record { text = s.store.now; line = number }) };

    type Given = NamesOnLine<'a>;

    fn given(&self, number: u32) -> NamesOnLine<'a> {
        let Some(names) = self.store.names(number) else {
            unreachable!()
        };
        names
    }

    fn text(&self, number: u32) -> &[u8] {
        let Some(text) = self.store.line(number) else {
            unreachable!()
        };
        text
    }
}

//! Texts whose lines, sections and names are given.

ghost use Rattle.std.specs.Prelude.{◌≡◌, ◌≤◌, ◌<◌, length, get_or};
ghost use Rattle.rv_layout.specs.Sections.{sections};
ghost use Rattle.examples.specs.Tables.{no_section, known};

use crate::defined::Defined;
use rv_fix::Coded;
use rv_layout::SECTIONS;
use rv_list::{DefinitionPlace, LinePlace, SectionPlace};
use rv_stmt::Stmt;

/// A line with what is shown of it.
#[derive(Drop)]
pub struct Row<'a> {
    pub text: &'a str,
    pub stmt: Stmt,
    pub place: LinePlace,
    pub code: Coded,
    pub ghost few: { length stmt.labels ≤ 1000 },
}

/// A text whose lines, sections and names are given.
#[derive(Drop)]
pub struct Table<'a> {
    pub rows: Vec<Row<'a>>,
    pub sections: [SectionPlace; SECTIONS],
    pub names: Vec<Defined<'a>>,
    pub ghost few: { length rows.items ≤ 16384 },
}

// Where a name is defined, and its value.
fn known(mut names: &[Defined<'_>], name: &[u8]) -> (DefinitionPlace, Option<i64>)
    ensures { result ≡ known names.entry.now name.now }
{
    'names: while let [first, later @ ..] = names {
        if first.name.as_bytes() == name {
            return (first.place, first.value);
        }
        names = later;
    }
    (DefinitionPlace::Nowhere, None)
}

impl Table<'_> {
    /// Where a section lies, by its number.
    pub fn section_place(&self, section: usize) -> SectionPlace
        requires { section < sections }
        ensures { result ≡ get_or self.now.sections section no_section }
    {
        self.sections[section]
    }

    /// Where a name is defined, and its value.
    pub fn known(&self, name: &[u8]) -> (DefinitionPlace, Option<i64>)
        ensures { result ≡ known self.now.names.items name.now }
    {
        known(self.names.as_slice(), name)
    }
}

//! Tables from rows: their lines, sections and names, with ` | ` between them.
//!
//! - `.text 4 8 li a0, 2048` is a line with its section, its address and its size.
//! - `section .text 0 12` is a section with its base and its size.
//! - `label x 2 0` is a name that is label number 0 of line 2.
//! - `equ N 1 4` is a name that an `.equ` on line 1 gives the value 4, or none where the value is left out.

use crate::defined::Defined;
use crate::lines::bytes_of_line;
use crate::row::{found, number_of, parts_of};
use crate::statements::statement_of_line;
use crate::table::{Row, Table};
use rv_fix::{AssembleError, Coded, assemble_at};
use rv_layout::{SECTIONS, section_number};
use rv_list::{DefinitionPlace, LinePlace, SectionPlace};
use rv_ops::first_named;
use rv_stmt::Sect;
use std::alloc::Global;
use std::test::Fail;

// The sections by their names.
const SECTION_NAMES: [(Sect, &str); SECTIONS] = [
    (Sect::Init, ".text.init"),
    (Sect::Text, ".text"),
    (Sect::Rodata, ".rodata"),
    (Sect::Rwdata, ".data"),
    (Sect::Sdata, ".sdata"),
    (Sect::Bss, ".bss"),
];

fn section_of(name: &str) -> Result<Sect, Fail> {
    found(first_named(&SECTION_NAMES, name.as_bytes()), "no section")
}

// The code of a line. A line that uses names of others has no bytes here.
fn code_of(alloc: Global, text: &str, address: u32) -> Result<Coded, Fail> {
    match assemble_at(alloc, bytes_of_line(text)?, address) {
        Ok(coded) => Ok(coded),
        Err(AssembleError::Names) => Ok(Coded::padding(false, 0)),
        Err(AssembleError::Memory) => Err(Fail::new("out of memory")),
    }
}

// A line at a place.
fn row_at<'a>(alloc: Global, text: &'a str, place: LinePlace) -> Result<Row<'a>, Fail> {
    let stmt = statement_of_line(alloc, text.as_bytes())?;
    if stmt.labels.len() > 1000 {
        return Err(Fail::new("many labels"));
    }
    Ok(Row {
        text,
        stmt,
        place,
        code: code_of(alloc, text, place.address)?,
    })
}

fn line_of<'a>(alloc: Global, item: &'a str) -> Result<Row<'a>, Fail> {
    let (section, rest) = parts_of(item);
    let (address, rest) = parts_of(rest);
    let (size, text) = parts_of(rest);
    let place = LinePlace {
        section: section_of(section)?,
        address: number_of(address)?,
        size: number_of(size)?,
    };
    row_at(alloc, text, place)
}

fn label_of(item: &str) -> Result<Defined<'_>, Fail> {
    let (name, place) = parts_of(item);
    let (line, index) = parts_of(place);
    Ok(Defined {
        name,
        place: DefinitionPlace::Label(number_of(line)?, number_of(index)?),
        value: None,
    })
}

fn equ_of(item: &str) -> Result<Defined<'_>, Fail> {
    let (name, rest) = parts_of(item);
    let (line, value) = parts_of(rest);
    Ok(Defined {
        name,
        place: DefinitionPlace::Equ(number_of(line)?),
        value: value.parse::<i64>().ok(),
    })
}

fn place_of(item: &str) -> Result<SectionPlace, Fail> {
    let (base, size) = parts_of(item);
    Ok(SectionPlace {
        base: number_of(base)?,
        size: number_of(size)?,
    })
}

impl<'a> Table<'a> {
    // No lines, no bytes and no names.
    fn new(alloc: Global) -> Table<'a> {
        Table {
            rows: Vec::new(alloc),
            sections: [SectionPlace { base: 0, size: 0 }; SECTIONS],
            names: Vec::new(alloc),
        }
    }

    fn add_line(&mut self, row: Row<'a>) -> Result<(), Fail> {
        if self.rows.len() >= 16_384 {
            return Err(Fail::new("many lines"));
        }
        Ok(self.rows.push(row)?)
    }

    fn add_name(&mut self, name: Defined<'a>) -> Result<(), Fail> {
        Ok(self.names.push(name)?)
    }

    fn set_section(&mut self, item: &str) -> Result<(), Fail> {
        let (name, place) = parts_of(item);
        self.sections[section_number(section_of(name)?)] = place_of(place)?;
        Ok(())
    }

    fn add(&mut self, alloc: Global, item: &'a str) -> Result<(), Fail> {
        let (kind, rest) = parts_of(item);
        match kind {
            "" => Ok(()),
            "section" => self.set_section(rest),
            "label" => self.add_name(label_of(rest)?),
            "equ" => self.add_name(equ_of(rest)?),
            _ => self.add_line(line_of(alloc, item)?),
        }
    }
}

/// The table of these items.
pub fn table_of<'a>(alloc: Global, items: &'a str) -> Result<Table<'a>, Fail> {
    let mut table = Table::new(alloc);
    for item in items.split(" | ") {
        table.add(alloc, item)?;
    }
    Ok(table)
}

/// The table of an item, so many times.
pub fn table_of_equal<'a>(alloc: Global, count: u32, item: &'a str) -> Result<Table<'a>, Fail> {
    let mut table = Table::new(alloc);
    for _ in 0..count {
        table.add(alloc, item)?;
    }
    Ok(table)
}

//! The addresses and sizes of the sections of a document.

use rv_diagnostics::{Message, Part};
use rv_layout::section_number;
use rv_list::{SectionPlace, View};
use rv_stmt::SECTION_NAMES;
use std::alloc::AllocError;

// Writes the address and the size of a section, unless it is empty.
fn put_section(m: &mut Message, name: &str, place: SectionPlace) -> Result<(), AllocError> {
    if place.size == 0 {
        return Ok(());
    }
    m.put_all(&[
        Part::BeginObject,
        Part::Key("name"),
        Part::Text(name),
        Part::Key("address"),
        Part::Number(u64::from(place.base)),
        Part::Key("size"),
        Part::Number(u64::from(place.size)),
        Part::EndObject,
    ])
}

/// Writes the addresses and sizes of the sections that are not empty, in their order, each under the first of its names.
///
/// # Errors
///
/// `AllocError` if there is no memory for them.
pub fn put_section_places<V: View>(m: &mut Message, view: &V) -> Result<(), AllocError> {
    let mut before = None;
    m.begin_array()?;
    for row in &SECTION_NAMES {
        let section = Some(row.1);
        if section != before {
            put_section(m, row.0, view.section(section_number(row.1)))?;
        }
        before = section;
    }
    m.end_array()
}

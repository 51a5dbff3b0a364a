//! Names with their definitions.

use rv_list::DefinitionPlace;

/// A name with its definition, and the value of its `.equ`.
#[derive(Clone, Copy)]
pub struct Defined<'a> {
    pub name: &'a str,
    pub place: DefinitionPlace,
    pub value: Option<i64>,
}

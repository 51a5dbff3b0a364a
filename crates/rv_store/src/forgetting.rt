//! Names that a text no longer defines lose their numbers.

ghost use Rattle.std.specs.Prelude.{◌≡◌, ◌+◌, ◌<◌, ◌≤◌, length, IfOk, OnOk};
ghost use Rattle.std.specs.List.{filter};
ghost use Rattle.rv_program.specs.Definitions.{is_defined};
ghost use Rattle.rv_store.specs.internal.Forgetting.{has_many_others, AreRemembered};

use crate::survey::Survey;
use rv_expr::ValueFault;
use rv_fix::Entry;
use rv_list::DefinitionPlace;
use rv_program::{NameTable, entry_at, is_defined};
use std::alloc::{AllocError, Global};

// How many names are defined, by the row that says where.
fn defined_count(definitions: &[DefinitionPlace]) -> usize
    ensures count { result ≡ length (filter is_defined definitions.now) }
    ensures most { result ≤ length definitions.now }
{
    let mut count = 0;
    for place in definitions {
        count += is_defined(*place) as usize;
    }
    count
}

/// Whether more than twice as many names have numbers as the text defines, and 16 more. `definitions` says where each name is
/// defined. No contract can say when forgetting is worth while: what the text is does not depend on it.
pub fn has_many_others(names: &NameTable, definitions: &[DefinitionPlace]) -> bool
    ensures { result ≡ has_many_others names.now definitions.now }
{
    names.len() > 2 * defined_count(definitions) + 16
}

/// The names that a text defines, with new numbers, and the rows of a `Survey` by these numbers.
#[derive(Drop)]
pub struct Remembered {
    pub names: NameTable,
    pub definitions: Vec<DefinitionPlace>,
    pub constants: Vec<Option<i64>>,
    pub equ_values: Vec<Entry>,
}

impl Remembered {
    // Goes from the first `number` names to one more: if the text defines the next one, it gets a number and places in the rows.
    fn add(
        &mut self,
        alloc: Global,
        names: &NameTable,
        survey: &Survey,
        number: usize,
    ) -> Result<(), AllocError>
        requires within { number < length names.now }
        requires before { AreRemembered names.now survey.now number self.old }
        ensures after { OnOk result (AreRemembered names.now survey.now (number + 1) self.new) }
    {
        let name = names.name(number);
        let old = Some(number);
        let place = entry_at(&survey.definitions, DefinitionPlace::Nowhere, old);
        if !is_defined(place) {
            return Ok(());
        }
        self.names.intern(alloc, name)?;
        self.definitions.push(place)?;
        self.constants.push(entry_at(&survey.constants, None, old))?;
        let value = entry_at(&survey.equ_values, Err(ValueFault::LaterEqu), old);
        self.equ_values.push(value)?;
        Ok(())
    }

    /// Those of a text, by the numbers and the rows that there are. The names keep their order.
    pub fn of(alloc: Global, names: &NameTable, survey: &Survey) -> Result<Self, AllocError>
        ensures { IfOk result (λ r. AreRemembered names.now survey.now (length names.now) r) }
    {
        let mut remembered = Remembered {
            names: NameTable::new(alloc),
            definitions: Vec::new(alloc),
            constants: Vec::new(alloc),
            equ_values: Vec::new(alloc),
        };
        for number in 0..names.len() {
            remembered.add(alloc, names, survey, number)?;
        }
        Ok(remembered)
    }
}

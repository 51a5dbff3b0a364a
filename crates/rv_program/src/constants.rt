//! The constants of a text, and the values that `.equ`s define.

ghost use Rattle.std.specs.Prelude.{◌≡◌, ◌≤◌, ◌<◌, ◌+◌, ◌-◌, ◌^◌, None, length};
ghost use Rattle.rv_stmt.specs.declared.statement.Body.TheVariants.{Equ as EquBody};
ghost use Rattle.rv_layout.specs.Shapes.{constants};
ghost use Rattle.rv_program.specs.declared.limits.TheConstants.{MAX_LINES};
ghost use Rattle.rv_program.specs.Constants.{defined_value};
ghost use Rattle.rv_program.specs.Program.{program_of, body_at};
ghost use Rattle.rv_program.specs.internal.Rows.{in_row, AreDefinitions, AreConstants};
ghost use Rattle.rv_program.specs.internal.Work.{equ_operands};

use crate::definitions::defining_equ_on;
use crate::line::Line;
use crate::names::{NameTable, entry_of};
use rv_expr::{Direction, LabelReference, Names, ValueFault, value};
use rv_fix::Entry;
use rv_layout::Consts;
use rv_list::DefinitionPlace;
use rv_stmt::{Definition, OperandValue};
use rv_text::Count;

/// What a constant may hold: numbers, and the names that are constants by a row.
#[derive(Drop)]
pub struct LineConstants<'a> {
    pub names: &'a NameTable,
    pub row: &'a [Option<i64>],
}

impl Consts for LineConstants<'_> {
    ghost constant_of = { λ c. in_row c.names.now c.row.now None };

    fn constant(&self, name: &[u8]) -> Option<i64> {
        entry_of(self.names, self.row, None, name)
    }
}

impl Names for LineConstants<'_> {
    ghost environment = { λ c here. constants (in_row c.names.now c.row.now None) };

    fn symbol(&self, _here: u32, name: &[u8]) -> Result<i64, ValueFault> {
        self.constant(name).ok_or(ValueFault::NotConstant)
    }

    fn local(&self, _here: u32, _number: u16, _direction: Direction) -> Result<i64, ValueFault> {
        Err(ValueFault::NotConstant)
    }

    fn here(&self, _here: u32) -> Result<i64, ValueFault> {
        Err(ValueFault::NotConstant)
    }

    fn paired_high(&self, _here: u32, _label: &LabelReference) -> Result<i64, ValueFault> {
        Err(ValueFault::NotConstant)
    }
}

/// The value that an `.equ` defines on a line at the address `here`, where names give what `names` says. The counter's
/// number of expressions computed rises by at most one.
pub fn defined_value<N: Names, C: Count>(
    definition: &Definition,
    names: &N,
    here: u32,
    counter: &mut C,
) -> Entry
    requires { C.valued_count counter.old < 2 ^ 64 - 1 }
    ensures value { result ≡ defined_value (N.environment names.now here) (EquBody definition.now) }
    ensures least { C.valued_count counter.old ≤ C.valued_count counter.new }
    ensures valued { C.valued_count counter.new ≤ C.valued_count counter.old + 1 }
    ensures operands { C.valued_count counter.new ≤ C.valued_count counter.old + length definition.now.operands }
    ensures parsed { C.parsed_count counter.new ≡ C.parsed_count counter.old }
    ensures encoded { C.encoded_count counter.new ≡ C.encoded_count counter.old }
{
    let [operand, ..] = definition.operands.as_slice() else {
        return Err(ValueFault::NotConstant);
    };
    match &operand.value {
        OperandValue::Plain(expression) => value(expression, names, here, counter),
        OperandValue::High(_)
        | OperandValue::Low(_)
        | OperandValue::PcrelHigh(_)
        | OperandValue::PcrelLow(_) => Err(ValueFault::NotConstant),
    }
}

/// Goes from the constants of the first `i` lines to those of one line more: if the next line has the `.equ` that defines
/// its symbol, the row gets its constant. The counter's number of expressions computed rises by at most one.
pub fn settle_constant<C: Count>(
    lines: &[Line],
    i: usize,
    names: &NameTable,
    definitions: &[DefinitionPlace],
    row: &mut Vec<Option<i64>>,
    counter: &mut C,
)
    requires within { i < length lines.now }
    requires few { length lines.now ≤ MAX_LINES }
    requires definitions { AreDefinitions (program_of lines.now) names.now definitions.now }
    requires as_many { length row.old.items ≡ length definitions.now }
    requires before { AreConstants (program_of lines.now) i names.now row.old.items }
    requires valued { C.valued_count counter.old < 2 ^ 64 - 1 }
    ensures after { AreConstants (program_of lines.now) (i + 1) names.now row.new.items }
    ensures as_many { length row.new.items ≡ length definitions.now }
    ensures least { C.valued_count counter.old ≤ C.valued_count counter.new }
    ensures most { C.valued_count counter.new ≤ C.valued_count counter.old + 1 }
    ensures operands { C.valued_count counter.new ≤ C.valued_count counter.old + equ_operands (body_at (program_of lines.now) (i + 1)) }
    ensures parsed { C.parsed_count counter.new ≡ C.parsed_count counter.old }
    ensures encoded { C.encoded_count counter.new ≡ C.encoded_count counter.old }
{
    let line = i as u32 + 1;
    let Some((definition, number)) = defining_equ_on(&lines[i], line, names, definitions) else {
        return;
    };
    let given = LineConstants {
        names,
        row: row.as_slice(),
    };
    let value = defined_value(definition, &given, 0, counter);
    row[number] = value.ok();
}

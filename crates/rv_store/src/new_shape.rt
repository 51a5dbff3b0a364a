//! The shape of a line that an edit puts in.

ghost use Rattle.std.specs.Prelude.{◌≡◌, ◌≤◌, ◌<◌, ◌+◌, ◌-◌, ◌^◌, length};
ghost use Rattle.rv_stmt.specs.Statement.{statement_of};
ghost use Rattle.rv_layout.specs.Places.{IsLimited};
ghost use Rattle.rv_layout.specs.Shapes.{shape_of, size_operands};
ghost use Rattle.rv_program.specs.Constants.{constant_of};
ghost use Rattle.rv_program.specs.internal.LineConstants.{constant_on};
ghost use Rattle.rv_program.specs.Program.{program_of};
ghost use Rattle.rv_program.specs.internal.Rows.{AreDefinitions, AreConstants};

use crate::shapes::shape_of_line;
use crate::survey::Survey;
use rv_layout::{Consts, Measured};
use rv_list::DefinitionPlace;
use rv_program::{Line, NameTable, entry_at};
use rv_text::Count;

// The constants on a line, by the rows of a text.
#[derive(Drop)]
struct ConstantsOnLine<'a> {
    names: &'a NameTable,
    definitions: &'a [DefinitionPlace],
    constants: &'a [Option<i64>],
    line: u32,
}

impl Consts for ConstantsOnLine<'_> {
    ghost constant_of = { λ c. constant_on c.names.now c.definitions.now c.constants.now c.line };

    fn constant(&self, name: &[u8]) -> Option<i64> {
        let number = self.names.number(name);
        match entry_at(self.definitions, DefinitionPlace::Nowhere, number) {
            DefinitionPlace::Nowhere | DefinitionPlace::Label(_, _) => None,
            DefinitionPlace::Equ(definition) if definition < self.line => {
                entry_at(self.constants, None, number)
            }
            DefinitionPlace::Equ(_) => None,
        }
    }
}

/// The shape of a line that an edit makes line `k`, by what is kept of the text before it: the edit leaves the lines from which the
/// constants there follow. The counter's number of expressions computed rises by at most one.
pub fn new_shape<C: Count>(
    survey: &Survey,
    names: &NameTable,
    k: u32,
    line: &Line,
    counter: &mut C,
) -> Measured
    requires definitions { AreDefinitions (program_of survey.now.lines.items) names.now survey.now.definitions.items }
    requires constants { AreConstants (program_of survey.now.lines.items) (length (program_of survey.now.lines.items)) names.now survey.now.constants.items }
    requires valued { C.valued_count counter.old < 2 ^ 64 - 1 }
    ensures shape { result ≡ shape_of (constant_of (program_of survey.now.lines.items) k) (statement_of line.now).body }
    ensures limited { IsLimited result }
    ensures least { C.valued_count counter.old ≤ C.valued_count counter.new }
    ensures most { C.valued_count counter.new ≤ C.valued_count counter.old + size_operands (statement_of line.now).body }
    ensures one { C.valued_count counter.new ≤ C.valued_count counter.old + 1 }
    ensures parsed { C.parsed_count counter.new ≡ C.parsed_count counter.old }
    ensures encoded { C.encoded_count counter.new ≡ C.encoded_count counter.old }
{
    let constants = ConstantsOnLine {
        names,
        definitions: &survey.definitions,
        constants: &survey.constants,
        line: k,
    };
    shape_of_line(line, &constants, counter)
}

//! A line at the end of a text with which other lines have to do by its names and its local labels alone.

ghost use Rattle.std.specs.Prelude.{◌≡◌, ◌+◌, ◌<◌, length, true, IfSome};
ghost use Rattle.rv_layout.specs.Places.{IsLimited, AreLimited, is_base};
ghost use Rattle.rv_stmt.specs.Statement.{statement_of};
ghost use Rattle.rv_program.specs.declared.limits.TheConstants.{MAX_LINES};
ghost use Rattle.rv_store.specs.internal.Appended.{shape_at_end};
ghost use Rattle.rv_store.specs.internal.Ends.{ends_of};
ghost use Rattle.rv_program.specs.Program.{program_of};
ghost use Rattle.rv_program.specs.internal.Lines.{lines_of};
ghost use Rattle.rv_program.specs.internal.Rows.{AreDefinitions, AreLocals, ArePlaces, AreShapes};
ghost use Rattle.rv_store.specs.internal.StillLines.{IsStillLine};

use crate::apart::adds_apart;
use crate::places::{last_place, stay_sections};
use crate::still::Still;
use crate::survey::Survey;
use crate::waiting::waiting_from;
use rv_layout::Measured;
use rv_program::{Item, Line, NameTable, SearchedLines};
use rv_tree::SumTree;
use std::alloc::Global;

/// A line at the end of a text.
#[derive(Drop)]
pub struct Ending {
    /// What it is.
    pub still: Still,
    /// The lines before it that use a name that it alone defines, or may find a local label on it, rising.
    pub users: Vec<u32>,
}

/// What a line of this shape adds at the end of a text, if other lines have to do with it by its names and its local labels alone: no `.equ`
/// and no high half uses what it defines, no section moves by it, and if it is a high half, no line uses a label of a line that waits for it.
/// `items` are those of the text.
pub fn apart_ending(
    alloc: Global,
    base: u32,
    names: &NameTable,
    survey: &Survey,
    items: &SumTree<Item>,
    line: &Line,
    shape: Measured,
) -> Option<Ending>
    requires base { is_base base ≡ true }
    requires definitions { AreDefinitions (program_of survey.now.lines.items) names.now survey.now.definitions.items }
    requires shapes { AreShapes (program_of survey.now.lines.items) survey.now.shapes.items }
    requires limited { AreLimited survey.now.shapes.items }
    requires ends { survey.now.ends ≡ ends_of survey.now.shapes.items }
    requires places { ArePlaces base (program_of survey.now.lines.items) survey.now.places.items }
    requires locals { AreLocals (program_of survey.now.lines.items) (length (program_of survey.now.lines.items)) survey.now.locals }
    requires items { lines_of items.now.items ≡ survey.now.lines.items }
    requires few { length survey.now.lines.items < MAX_LINES }
    requires shape { shape ≡ shape_at_end (program_of survey.now.lines.items) (statement_of line.now) }
    requires limited_shape { IsLimited shape }
    ensures { IfSome result (λ end. IsStillLine base survey.now.lines.items (length survey.now.lines.items + 1) line.now end.still end.users.items) }
{
    let mut ends = survey.ends;
    ends.advance(&shape);
    if !stay_sections(base, &survey.ends, &ends) {
        return None;
    }
    let from = survey.locals.reach(line.stmt().labels.as_slice(), survey.lines.len() as u32 + 1);
    let searched = SearchedLines::in_tree(survey.lines.as_slice(), items);
    let added = adds_apart(
        alloc,
        &searched,
        survey.lines.uses(),
        names,
        &survey.definitions,
        line,
        from,
    )?;
    let place = last_place(base, &survey.ends, &ends, &shape);
    let waiting = if line.brief().pcrel_high {
        Some(waiting_from(survey, &place)?)
    } else {
        None
    };
    let still = Still {
        shape,
        ends,
        place,
        defines: added.any,
        waiting,
    };
    Some(Ending {
        still,
        users: added.users,
    })
}

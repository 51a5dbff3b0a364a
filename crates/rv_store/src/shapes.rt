//! The shapes of the lines of a text, with its constants.

ghost use Rattle.std.specs.Prelude.{◌≡◌, ◌≤◌, ◌<◌, ◌+◌, ◌*◌, ◌-◌, ◌^◌, ◌&&◌, true, false, length, get_or, set, IfOk, IsTrue, map};
ghost use Rattle.std.specs.List.{list_any};
ghost use Rattle.rv_stmt.specs.Statement.{statement_of};
ghost use Rattle.rv_layout.specs.Places.{IsLimited, AreLimited};
ghost use Rattle.rv_layout.specs.Shapes.{shape_of, size_operands};
ghost use Rattle.rv_program.specs.declared.limits.TheConstants.{MAX_LINES};
ghost use Rattle.rv_program.specs.internal.EditedRows.{edited_row};
ghost use Rattle.rv_program.specs.internal.Before.{IsBefore, base_before, lines_before, edit_on};
ghost use Rattle.rv_store.specs.internal.ConstantPairs.{IsConstantPair, differs_in_constant};
ghost use Rattle.rv_store.specs.internal.EditedRows.{former_shape};
ghost use Rattle.rv_store.specs.internal.NoDefinitions.{defines_nothing, changes_no_definition};
ghost use Rattle.rv_program.specs.Layout.{shape_at};
ghost use Rattle.rv_program.specs.internal.NewShapes.{IsNewShape, shape_operands, shape_operands_through};
ghost use Rattle.rv_program.specs.Program.{program_of, body_at};
ghost use Rattle.rv_program.specs.internal.Rows.{AreDefinitions, AreConstants, AreShapes};
ghost use Rattle.rv_program.specs.Text.{lines_after};
ghost use Rattle.rv_program.specs.internal.TextRows.{program_in};
ghost use Rattle.rv_program.specs.Uses.{is_sized, is_equ, names_used, uses_symbols};
ghost use Rattle.rv_program.specs.internal.Work.{constant_operands, equ_operands, work};
ghost use Rattle.rv_store.specs.internal.Unmoved.{MovesNone, AreUnmoved};

use crate::alike::take_same_room;
use crate::edited_row::edited_row;
use rv_layout::{Consts, Measured, measure, shapes_are_limited, size_operands_are_few};
use rv_list::DefinitionPlace;
use rv_program::{
    Before, Kind, Line, LineConstants, LineEdit, NameTest, SearchPart, SearchedLines, SymbolRows,
    any_name, entry_at, settle_constant,
};
use rv_text::Count;
use std::alloc::{AllocError, Global};

/// The shape of each line of a text, and the constant of each name, by its number.
#[derive(Drop)]
pub struct ShapeRows {
    pub shapes: Vec<Measured>,
    pub constants: Vec<Option<i64>>,
    /// It is known that an edit moved none of the lines that stood before it.
    pub still: bool,
}

// The constants on a line of a text after an edit, and the line that it was before it.
#[derive(Drop)]
struct ConstantPair<'a, 'b> {
    before: &'a SymbolRows<'a>,
    stood: u32,
    given: &'b LineConstants<'b>,
}

// The names that are another constant on the line than they were before.
impl NameTest for ConstantPair<'_, '_> {
    ghost can_test = { IsConstantPair };

    ghost test = { differs_in_constant };

    fn passes(&self, name: &[u8]) -> bool {
        let number = self.given.names.number(name);
        entry_at(self.given.row, None, number) != self.before.constant_of(self.stood, number)
    }
}

/// The shape of a line where names have these constants. The counter's number of expressions computed rises by at most one.
pub fn shape_of_line<K: Consts, C: Count>(line: &Line, given: &K, counter: &mut C) -> Measured
    requires { C.valued_count counter.old < 2 ^ 64 - 1 }
    ensures shape { result ≡ shape_of (K.constant_of given.now) (statement_of line.now).body }
    ensures limited { IsLimited result }
    ensures least { C.valued_count counter.old ≤ C.valued_count counter.new }
    ensures most { C.valued_count counter.new ≤ C.valued_count counter.old + size_operands (statement_of line.now).body }
    ensures one { C.valued_count counter.new ≤ C.valued_count counter.old + 1 }
    ensures parsed { C.parsed_count counter.new ≡ C.parsed_count counter.old }
    ensures encoded { C.encoded_count counter.new ≡ C.encoded_count counter.old }
{
    line.data_are_few();
    shapes_are_limited();
    size_operands_are_few();
    measure(line.stmt(), given, counter)
}

// Whether a line may have another shape than it had: it follows from an operand, and a name that the line uses is another
// constant. Other lines are gone past without a look at their statements.
fn may_differ(line: &Line, pair: &ConstantPair<'_, '_>) -> bool
    requires { IsConstantPair pair.now }
    ensures { result ≡ (is_sized (statement_of line.now).body && (uses_symbols (statement_of line.now).body && list_any (differs_in_constant pair.now) (names_used (statement_of line.now).body))) }
{
    let brief = line.brief();
    brief.sized && brief.symbols && any_name(&line.stmt().body, pair)
}

// The shape of line `i + 1` of the text after an edit, where names have the constants that they have there: what it was, or of a
// new line what it is, unless a name that it uses is another constant than it was.
fn shape_after<C: Count>(
    before: &Before<'_, '_>,
    lines: &[Line],
    i: usize,
    former: Measured,
    given: &LineConstants<'_>,
    counter: &mut C,
) -> Measured
    requires before { IsBefore before.now }
    requires after { lines.now ≡ lines_after (lines_before before.now) (edit_on before.now) }
    requires few { length lines.now ≤ MAX_LINES }
    requires within { i < length lines.now }
    requires former { former ≡ former_shape (program_in before.now.symbols.text) (program_of lines.now) (edit_on before.now) (i + 1) }
    requires names { given.now.names.now ≡ before.now.symbols.text.names.now }
    requires constants { AreConstants (program_of lines.now) i given.now.names.now given.now.row.now }
    requires valued { C.valued_count counter.old < 2 ^ 64 - 1 }
    ensures shape { result ≡ shape_at (program_of lines.now) (i + 1) }
    ensures limited { IsLimited result }
    ensures least { C.valued_count counter.old ≤ C.valued_count counter.new }
    ensures one { C.valued_count counter.new ≤ C.valued_count counter.old + 1 }
    ensures work { C.valued_count counter.new + work size_operands (base_before before.now) (lines_before before.now) (edit_on before.now) i + shape_operands_through (edit_on before.now) (i + 1)
        ≤ C.valued_count counter.old + work size_operands (base_before before.now) (lines_before before.now) (edit_on before.now) (i + 1) + shape_operands_through (edit_on before.now) i }
    ensures parsed { C.parsed_count counter.new ≡ C.parsed_count counter.old }
    ensures encoded { C.encoded_count counter.new ≡ C.encoded_count counter.old }
{
    lines[i].data_are_few();
    shapes_are_limited();
    let Some(stood) = before.edit.line_before(i as u32 + 1) else {
        return former;
    };
    let pair = ConstantPair {
        before: &before.symbols,
        stood,
        given: &*given,
    };
    if !may_differ(&lines[i], &pair) {
        return former;
    }
    shape_of_line(&lines[i], given, counter)
}

// Whether all other lines stay where they are where an edit puts in a line of this shape.
fn moves_none(before: &Before<'_, '_>, shape: &Measured) -> bool
    requires { IsBefore before.now }
    ensures { IsTrue result → MovesNone before.now.shapes.now (edit_on before.now) shape.now }
{
    match before.edit {
        LineEdit::Insert(k, _) => {
            k as usize <= before.shapes.len() && take_same_room(shape, &Measured::Nothing)
        }
        LineEdit::Delete(k) => take_same_room(&before.shapes[k as usize - 1], &Measured::Nothing),
        LineEdit::Replace(k, _) => take_same_room(&before.shapes[k as usize - 1], shape),
    }
}

impl ShapeRows {
    // The shapes of before an edit, with that of the line that it puts in, and these constants.
    fn former(
        alloc: Global,
        before: &Before<'_, '_>,
        constants: Vec<Option<i64>>,
        shape: Measured,
    ) -> Result<ShapeRows, AllocError>
        requires before { IsBefore before.now }
        ensures shapes { IfOk result (λ r. r.shapes.items ≡ edited_row before.now.shapes.now (edit_on before.now) shape) }
        ensures constants { IfOk result (λ r. r.constants ≡ constants) }
        ensures still { IfOk result (λ r. r.still ≡ true → AreUnmoved before.now.shapes.now (edit_on before.now) r.shapes.items) }
    {
        let still = moves_none(before, &shape);
        let shapes = edited_row(alloc, before.shapes, &before.edit, shape)?;
        Ok(ShapeRows {
            shapes,
            constants,
            still,
        })
    }

    // Writes the shape of a line.
    fn write(&mut self, i: usize, shape: Measured)
        requires { i < length self.old.shapes.items }
        ensures shapes { self.new.shapes.items ≡ set self.old.shapes.items i shape }
        ensures constants { self.new.constants ≡ self.old.constants }
        ensures still { self.new.still ≡ true → (self.old.still ≡ true) × (self.new.shapes.items ≡ self.old.shapes.items) }
    {
        self.still &= self.shapes[i] == shape;
        self.shapes[i] = shape;
    }
}

// Writes the shape of line `i + 1` of the text after an edit, and its constant if it defines one.
fn settle_line<C: Count>(
    before: &Before<'_, '_>,
    lines: &[Line],
    i: usize,
    definitions: &[DefinitionPlace],
    rows: &mut ShapeRows,
    counter: &mut C,
)
    requires before { IsBefore before.now }
    requires after { lines.now ≡ lines_after (lines_before before.now) (edit_on before.now) }
    requires few { length lines.now ≤ MAX_LINES }
    requires within { i < length lines.now }
    requires definitions { AreDefinitions (program_of lines.now) before.now.symbols.text.names.now definitions.now }
    requires shapes { i < length rows.old.shapes.items }
    requires former { (other : Measured) → get_or rows.old.shapes.items i other ≡ former_shape (program_in before.now.symbols.text) (program_of lines.now) (edit_on before.now) (i + 1) }
    requires as_many { length rows.old.constants.items ≡ length definitions.now }
    requires constants { AreConstants (program_of lines.now) i before.now.symbols.text.names.now rows.old.constants.items }
    requires valued { C.valued_count counter.old < 2 ^ 64 - 2 }
    ensures shapes { rows.new.shapes.items ≡ set rows.old.shapes.items i (shape_at (program_of lines.now) (i + 1)) }
    ensures limited { IsLimited (shape_at (program_of lines.now) (i + 1)) }
    ensures constants { AreConstants (program_of lines.now) (i + 1) before.now.symbols.text.names.now rows.new.constants.items }
    ensures as_many { length rows.new.constants.items ≡ length definitions.now }
    ensures still { rows.new.still ≡ true → (rows.old.still ≡ true) × (rows.new.shapes.items ≡ rows.old.shapes.items) }
    ensures least { C.valued_count counter.old ≤ C.valued_count counter.new }
    ensures two { C.valued_count counter.new ≤ C.valued_count counter.old + 2 }
    ensures work { C.valued_count counter.new + work size_operands (base_before before.now) (lines_before before.now) (edit_on before.now) i + shape_operands_through (edit_on before.now) (i + 1)
        ≤ C.valued_count counter.old + work size_operands (base_before before.now) (lines_before before.now) (edit_on before.now) (i + 1) + shape_operands_through (edit_on before.now) i
        + equ_operands (body_at (program_of lines.now) (i + 1)) }
    ensures parsed { C.parsed_count counter.new ≡ C.parsed_count counter.old }
    ensures encoded { C.encoded_count counter.new ≡ C.encoded_count counter.old }
{
    let names = before.symbols.text.names;
    let given = LineConstants {
        names,
        row: rows.constants.as_slice(),
    };
    let shape = shape_after(before, lines, i, rows.shapes[i], &given, counter);
    rows.write(i, shape);
    settle_constant(lines, i, names, definitions, &mut rows.constants, counter);
}

// The shapes of all lines of the text after an edit, with its constants: the shape of a line follows from the constants of the lines
// before it, so that they are gone over from the first on. `searched` has the lines, too, and `shape` is the shape of the line that the edit puts in.
// All others that have no part in the constants keep their shapes, and are gone past.
fn settled_shapes<C: Count>(
    alloc: Global,
    before: &Before<'_, '_>,
    lines: &[Line],
    searched: &SearchedLines<'_>,
    definitions: &[DefinitionPlace],
    shape: Measured,
    counter: &mut C,
) -> Result<ShapeRows, AllocError>
    requires before { IsBefore before.now }
    requires shape { IsNewShape (lines_before before.now) (edit_on before.now) shape }
    requires limited { IsLimited shape }
    requires after { lines.now ≡ lines_after (lines_before before.now) (edit_on before.now) }
    requires searched { searched.now ≡ lines.now }
    requires few { length lines.now ≤ MAX_LINES }
    requires definitions { AreDefinitions (program_of lines.now) before.now.symbols.text.names.now definitions.now }
    requires valued { C.valued_count counter.old ≤ 2 ^ 63 + 1 }
    ensures shapes { IfOk result (λ r. AreShapes (program_of lines.now) r.shapes.items) }
    ensures limited { IfOk result (λ r. AreLimited r.shapes.items) }
    ensures still { IfOk result (λ r. r.still ≡ true → AreUnmoved before.now.shapes.now (edit_on before.now) r.shapes.items) }
    ensures constants { IfOk result (λ r. AreConstants (program_of lines.now) (length lines.now) before.now.symbols.text.names.now r.constants.items) }
    ensures least { C.valued_count counter.old ≤ C.valued_count counter.new }
    ensures most { C.valued_count counter.new ≤ C.valued_count counter.old + 2 * length lines.now }
    ensures work { C.valued_count counter.new + shape_operands (edit_on before.now) ≤ C.valued_count counter.old + work constant_operands (base_before before.now) (lines_before before.now) (edit_on before.now) (length lines.now) }
    ensures parsed { C.parsed_count counter.new ≡ C.parsed_count counter.old }
    ensures encoded { C.encoded_count counter.new ≡ C.encoded_count counter.old }
{
    let constants = vec![in alloc; None; definitions.len()]?;
    let mut rows = ShapeRows::former(alloc, before, constants, shape)?;
    let mut part = SearchPart::start();
    let mut i = searched.next_of_kind(&mut part, 0, Kind::Shaped);
    while i < lines.len() {
        settle_line(before, lines, i, definitions, &mut rows, counter);
        i = searched.next_of_kind(&mut part, i + 1, Kind::Shaped);
    }
    Ok(rows)
}

// Whether a line defines nothing: it has no label, and is no `.equ`.
fn defines_nothing(line: &Line) -> bool
    ensures { result ≡ defines_nothing (statement_of line.now) }
{
    line.brief().defines_nothing()
}

// Whether neither the line that an edit takes out nor the one that it puts in defines anything. The text after it has these lines.
fn changes_no_definition(before: &Before<'_, '_>, lines: &[Line]) -> bool
    requires before { IsBefore before.now }
    requires after { lines.now ≡ lines_after (lines_before before.now) (edit_on before.now) }
    ensures { result ≡ changes_no_definition (lines_before before.now) (edit_on before.now) }
{
    let old = &before.symbols.text.lines;
    match before.edit {
        LineEdit::Insert(k, _) => defines_nothing(&lines[k as usize - 1]),
        LineEdit::Delete(k) => defines_nothing(old.line(k)),
        LineEdit::Replace(k, _) => {
            defines_nothing(&lines[k as usize - 1]) && defines_nothing(old.line(k))
        }
    }
}

/// The shapes of all lines of the text after an edit, with its constants. `searched` has the lines, and `shape` is the shape of the line that
/// the edit puts in. Where the edit changes no definition, no constant changes, and all others keep their shapes.
///
/// The counter's number of expressions computed rises by at most the size operands and the `.equ`s on the lines that the edit
/// invalidates, the operand from which that shape follows apart.
pub fn shapes<C: Count>(
    alloc: Global,
    before: &Before<'_, '_>,
    searched: &SearchedLines<'_>,
    definitions: &[DefinitionPlace],
    shape: Measured,
    counter: &mut C,
) -> Result<ShapeRows, AllocError>
    requires before { IsBefore before.now }
    requires shape { IsNewShape (lines_before before.now) (edit_on before.now) shape }
    requires limited { IsLimited shape }
    requires after { searched.now ≡ lines_after (lines_before before.now) (edit_on before.now) }
    requires few { length searched.now ≤ MAX_LINES }
    requires definitions { AreDefinitions (program_of searched.now) before.now.symbols.text.names.now definitions.now }
    requires valued { C.valued_count counter.old ≤ 2 ^ 63 + 1 }
    ensures shapes { IfOk result (λ r. AreShapes (program_of searched.now) r.shapes.items) }
    ensures limited { IfOk result (λ r. AreLimited r.shapes.items) }
    ensures still { IfOk result (λ r. r.still ≡ true → AreUnmoved before.now.shapes.now (edit_on before.now) r.shapes.items) }
    ensures constants { IfOk result (λ r. AreConstants (program_of searched.now) (length searched.now) before.now.symbols.text.names.now r.constants.items) }
    ensures least { C.valued_count counter.old ≤ C.valued_count counter.new }
    ensures most { C.valued_count counter.new ≤ C.valued_count counter.old + 2 * length searched.now }
    ensures work { C.valued_count counter.new + shape_operands (edit_on before.now) ≤ C.valued_count counter.old + work constant_operands (base_before before.now) (lines_before before.now) (edit_on before.now) (length searched.now) }
    ensures parsed { C.parsed_count counter.new ≡ C.parsed_count counter.old }
    ensures encoded { C.encoded_count counter.new ≡ C.encoded_count counter.old }
{
    if !changes_no_definition(before, searched.lines()) {
        return settled_shapes(
            alloc,
            before,
            searched.lines(),
            searched,
            definitions,
            shape,
            counter,
        );
    }
    let constants = Vec::from_slice(alloc, before.symbols.constants)?;
    ShapeRows::former(alloc, before, constants, shape)
}

//! What is kept of a whole text, from its first line to its last: its shapes and constants, its survey, and its items. Each line is
//! gone over once for each row.

ghost use Rattle.std.specs.Prelude.{◌≡◌, ◌≤◌, ◌<◌, ◌+◌, ◌-◌, ◌*◌, ◌^◌, true, length, vec_capacity, IfOk, IfErr};
ghost use Rattle.rv_layout.specs.Places.{is_base};
ghost use Rattle.rv_program.specs.declared.limits.TheConstants.{MAX_LINES};
ghost use Rattle.rv_program.specs.Program.{program_of, body_at, for_lines};
ghost use Rattle.rv_program.specs.internal.Items.{IsItem, AreItems};
ghost use Rattle.rv_program.specs.internal.Rows.{AreDefinitions, AreLocals};
ghost use Rattle.rv_program.specs.internal.ValueRows.{AreValueRows, base_of, program_of_rows, body_in};
ghost use Rattle.rv_program.specs.internal.Work.{constant_operands, equ_operands, high_operands, survey_operands, value_operands, operands_through};
ghost use Rattle.rv_store.specs.internal.Drafts.{AreShapedThrough};
ghost use Rattle.rv_store.specs.internal.Ends.{ends_of, place_by_shapes};
ghost use Rattle.rv_store.specs.internal.Surveys.{IsSurvey};

use crate::column::Column;
use crate::ends::Ends;
use crate::places::Placed;
use crate::shapes::{ShapeRows, shape_of_line};
use crate::survey::Survey;
use rv_list::DefinitionPlace;
use rv_program::equ_values::equ_values;
use rv_program::highs::all_highs;
use rv_program::{
    EditError, Item, Line, LineConstants, Lines, Locals, NameTable, SearchedLines, SymbolRows,
    TextRows, ValueRows, definitions_of, locals_of, operands_are_few_on, row_for, settle_constant,
    shape_on,
};
use rv_text::Count;
use rv_tree::SumTree;
use std::alloc::{AllocError, Global};

// Adds the shape of line `i + 1` to those of the lines before it, and writes its constant if it defines one.
fn push_shape<C: Count>(
    lines: &[Line],
    i: usize,
    names: &NameTable,
    definitions: &[DefinitionPlace],
    rows: &mut ShapeRows,
    counter: &mut C,
)
    requires few { length lines.now ≤ MAX_LINES }
    requires within { i < length lines.now }
    requires room { length lines.now ≤ vec_capacity rows.old.shapes }
    requires definitions { AreDefinitions (program_of lines.now) names.now definitions.now }
    requires as_many { length rows.old.constants.items ≡ length definitions.now }
    requires before { AreShapedThrough lines.now names.now i rows.old }
    requires valued { C.valued_count counter.old < 2 ^ 64 - 2 }
    ensures after { AreShapedThrough lines.now names.now (i + 1) rows.new }
    ensures room { vec_capacity rows.new.shapes ≡ vec_capacity rows.old.shapes }
    ensures as_many { length rows.new.constants.items ≡ length definitions.now }
    ensures least { C.valued_count counter.old ≤ C.valued_count counter.new }
    ensures two { C.valued_count counter.new ≤ C.valued_count counter.old + 2 }
    ensures operands { C.valued_count counter.new ≤ C.valued_count counter.old + constant_operands (body_at (program_of lines.now) (i + 1)) }
    ensures parsed { C.parsed_count counter.new ≡ C.parsed_count counter.old }
    ensures encoded { C.encoded_count counter.new ≡ C.encoded_count counter.old }
{
    let given = LineConstants {
        names,
        row: rows.constants.as_slice(),
    };
    let shape = shape_of_line(&lines[i], &given, counter);
    rows.shapes.push_reserved(shape);
    settle_constant(lines, i, names, definitions, &mut rows.constants, counter);
}

// The shapes of all lines of a text, with its constants: the shape of a line follows from the constants of the lines before it.
fn shapes_of<C: Count>(
    alloc: Global,
    lines: &[Line],
    names: &NameTable,
    definitions: &[DefinitionPlace],
    counter: &mut C,
) -> Result<ShapeRows, AllocError>
    requires few { length lines.now ≤ MAX_LINES }
    requires definitions { AreDefinitions (program_of lines.now) names.now definitions.now }
    requires valued { C.valued_count counter.old ≤ 2 ^ 63 }
    ensures shapes { IfOk result (λ r. AreShapedThrough lines.now names.now (length lines.now) r) }
    ensures least { C.valued_count counter.old ≤ C.valued_count counter.new }
    ensures most { C.valued_count counter.new ≤ C.valued_count counter.old + 2 * length lines.now }
    ensures operands { C.valued_count counter.new ≤ C.valued_count counter.old + operands_through constant_operands (program_of lines.now) (length lines.now) }
    ensures parsed { C.parsed_count counter.new ≡ C.parsed_count counter.old }
    ensures encoded { C.encoded_count counter.new ≡ C.encoded_count counter.old }
{
    let mut rows = ShapeRows {
        shapes: row_for(alloc, lines.len())?,
        constants: vec![in alloc; None; definitions.len()]?,
        still: false,
    };
    for i in 0..lines.len() {
        push_shape(lines, i, names, definitions, &mut rows, counter);
    }
    Ok(rows)
}

impl Survey {
    // That of these lines, by the rows that the others are made from.
    fn of_rows<C: Count>(
        alloc: Global,
        base: u32,
        lines: Column,
        names: &NameTable,
        definitions: Vec<DefinitionPlace>,
        sized: ShapeRows,
        placed: Placed,
        locals: Locals,
        counter: &mut C,
    ) -> Result<Survey, AllocError>
        requires few { length lines.items ≤ MAX_LINES }
        requires definitions { AreDefinitions (program_of lines.items) names.now definitions.items }
        requires sized { AreShapedThrough lines.items names.now (length lines.items) sized }
        requires ends { placed.ends ≡ ends_of sized.shapes.items }
        requires places { placed.places.items ≡ for_lines (place_by_shapes base sized.shapes.items) (length sized.shapes.items) }
        requires locals { AreLocals (program_of lines.items) (length lines.items) locals }
        requires valued { C.valued_count counter.old ≤ 2 ^ 63 + 2 ^ 32 }
        ensures survey { IfOk result (λ s. IsSurvey base (program_of lines.items) names.now s) }
        ensures lines { IfOk result (λ s. s.lines.items ≡ lines.items) }
        ensures least { C.valued_count counter.old ≤ C.valued_count counter.new }
        ensures operands { C.valued_count counter.new ≤ C.valued_count counter.old + operands_through equ_operands (program_of lines.items) (length lines.items)
            + operands_through high_operands (program_of lines.items) (length lines.items) }
        ensures parsed { C.parsed_count counter.new ≡ C.parsed_count counter.old }
        ensures encoded { C.encoded_count counter.new ≡ C.encoded_count counter.old }
    {
        let searched = SearchedLines::one_by_one(lines.as_slice());
        let column = Lines::in_column(lines.as_slice());
        let text = TextRows {
            base,
            lines: &column,
            names,
            definitions: &definitions,
            places: &placed.places,
            locals: &locals,
        };
        let equ_values = equ_values(alloc, &text, &searched, counter)?;
        let symbols = SymbolRows {
            text,
            constants: &sized.constants,
            equ_values: &equ_values,
        };
        let highs = all_highs(alloc, &symbols, &searched, counter)?;
        Ok(Survey {
            lines,
            definitions,
            constants: sized.constants,
            shapes: sized.shapes,
            ends: placed.ends,
            places: placed.places,
            locals,
            equ_values,
            highs,
        })
    }

    /// That of these lines, the first of which is at `base`. Names that they define get numbers, also where there is no memory for the rest.
    ///
    /// The counter's number of expressions computed rises by at most the size operands, the high halves, and the `.equ`s twice, whatever the
    /// outcome.
    ///
    /// # Errors
    ///
    /// Fails only where there is no memory.
    pub fn of_lines<C: Count>(
        alloc: Global,
        base: u32,
        lines: Column,
        names: &mut NameTable,
        counter: &mut C,
    ) -> Result<Survey, AllocError>
        requires base { is_base base ≡ true }
        requires few { length lines.items ≤ MAX_LINES }
        requires valued { C.valued_count counter.old ≤ 2 ^ 63 }
        ensures survey { IfOk result (λ s. IsSurvey base (program_of lines.items) names.new s) }
        ensures lines { IfOk result (λ s. s.lines.items ≡ lines.items) }
        ensures least { C.valued_count counter.old ≤ C.valued_count counter.new }
        ensures operands { C.valued_count counter.new ≤ C.valued_count counter.old + operands_through survey_operands (program_of lines.items) (length lines.items) }
        ensures parsed { C.parsed_count counter.new ≡ C.parsed_count counter.old }
        ensures encoded { C.encoded_count counter.new ≡ C.encoded_count counter.old }
    {
        let read = lines.as_slice();
        let definitions = definitions_of(alloc, read, names)?;
        let sized = shapes_of(alloc, read, names, &definitions, counter)?;
        let placed = Placed::of(alloc, base, &Ends::start(), &sized.shapes)?;
        let locals = locals_of(alloc, read)?;
        Survey::of_rows(
            alloc,
            base,
            lines,
            names,
            definitions,
            sized,
            placed,
            locals,
            counter,
        )
    }
}

// What is kept of a line, made by the rows of its text.
fn item_on<C: Count>(
    alloc: Global,
    rows: &ValueRows<'_>,
    line: u32,
    counter: &mut C,
) -> Result<Item, EditError>
    requires rows { AreValueRows rows.now }
    requires few { length rows.now.symbols.text.lines.now ≤ MAX_LINES }
    requires first { 1 ≤ line }
    requires last { line ≤ length rows.now.symbols.text.lines.now }
    requires valued { C.valued_count counter.old + 1000 < 2 ^ 64 }
    requires encoded { C.encoded_count counter.old < 2 ^ 64 - 1 }
    ensures item { IfOk result (λ item. IsItem (base_of rows.now) rows.now.symbols.text.lines.now line item) }
    ensures memory { IfErr result (λ e. e ≡ EditError.Memory) }
    ensures least { C.valued_count counter.old ≤ C.valued_count counter.new }
    ensures operands { C.valued_count counter.new ≤ C.valued_count counter.old + value_operands (body_in rows.now line) }
    ensures few_valued { C.valued_count counter.new ≤ C.valued_count counter.old + 1000 }
    ensures parsed { C.parsed_count counter.new ≡ C.parsed_count counter.old }
    ensures encoded_least { C.encoded_count counter.old ≤ C.encoded_count counter.new }
    ensures encoded_most { C.encoded_count counter.new ≤ C.encoded_count counter.old + 1 }
{
    operands_are_few_on(&rows.symbols.text, line);
    let values = rows.values(alloc, line, counter)?;
    let code = rows.code(alloc, line, &values, counter)?;
    let shape = shape_on(rows, line);
    let line = rows.symbols.text.lines.line(line).share()?;
    Ok(Item {
        line,
        shape,
        values,
        code,
    })
}

/// The items of a text, by the rows of it.
///
/// The counter's number of expressions computed rises by at most the operands that have values, and its number of lines encoded by at most
/// the number of lines, whatever the outcome.
///
/// # Errors
///
/// `Memory` if there was no memory for what is kept.
pub fn items_of<C: Count>(
    alloc: Global,
    rows: &ValueRows<'_>,
    counter: &mut C,
) -> Result<SumTree<Item>, EditError>
    requires rows { AreValueRows rows.now }
    requires few { length rows.now.symbols.text.lines.now ≤ MAX_LINES }
    requires valued { C.valued_count counter.old ≤ 2 ^ 63 + 2 ^ 32 }
    requires encoded { C.encoded_count counter.old ≤ 2 ^ 63 }
    ensures items { IfOk result (λ t. AreItems (base_of rows.now) rows.now.symbols.text.lines.now t.items) }
    ensures memory { IfErr result (λ e. e ≡ EditError.Memory) }
    ensures least { C.valued_count counter.old ≤ C.valued_count counter.new }
    ensures operands { C.valued_count counter.new ≤ C.valued_count counter.old + operands_through value_operands (program_of_rows rows.now) (length rows.now.symbols.text.lines.now) }
    ensures parsed { C.parsed_count counter.new ≡ C.parsed_count counter.old }
    ensures encoded_least { C.encoded_count counter.old ≤ C.encoded_count counter.new }
    ensures encoded_most { C.encoded_count counter.new ≤ C.encoded_count counter.old + length rows.now.symbols.text.lines.now }
{
    let mut items = SumTree::new(alloc);
    let count = rows.symbols.text.lines.len() as u32;
    for k in 0..count {
        let item = item_on(alloc, rows, k + 1, counter)?;
        items = items.inserted(k + 1, item)?;
    }
    Ok(items)
}

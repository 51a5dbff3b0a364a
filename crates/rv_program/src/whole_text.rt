//! The definitions and the local labels of a whole text, line by line.

ghost use Rattle.std.specs.Prelude.{◌≡◌, ◌≤◌, ◌<◌, ◌+◌, length, IfOk, OnOk};
ghost use Rattle.rv_program.specs.Program.{program_of};
ghost use Rattle.rv_program.specs.internal.Rows.{Grows, AreDefinitions, AreLocals};

use crate::limits::MAX_LINES;
use crate::line::Line;
use crate::locals::Locals;
use crate::moved_definitions::define_with_numbers;
use crate::names::NameTable;
use rv_list::DefinitionPlace;
use std::alloc::{AllocError, Global};

/// Where each name of a text is defined, by the names' numbers. Names that the lines define get numbers if they have none, also where
/// there is no memory for the rest.
///
/// # Errors
///
/// Fails only where there is no memory.
pub fn definitions_of(
    alloc: Global,
    lines: &[Line],
    names: &mut NameTable,
) -> Result<Vec<DefinitionPlace>, AllocError>
    requires { length lines.now ≤ MAX_LINES }
    ensures definitions { IfOk result (λ row. AreDefinitions (program_of lines.now) names.new row.items) }
    ensures names { Grows names.old names.new }
{
    let mut row = Vec::new(alloc);
    for i in 0..lines.len() {
        define_with_numbers(alloc, &lines[i], i as u32 + 1, names, &mut row)?;
    }
    Ok(row)
}

// Puts in the local labels of line `i + 1`, where those of the lines before it are in.
fn put_labels(
    alloc: Global,
    lines: &[Line],
    i: usize,
    locals: &mut Locals,
) -> Result<(), AllocError>
    requires few { length lines.now ≤ MAX_LINES }
    requires within { i < length lines.now }
    requires before { AreLocals (program_of lines.now) i locals.old }
    ensures { OnOk result (AreLocals (program_of lines.now) (i + 1) locals.new) }
{
    let line = &lines[i];
    if !line.brief().local_labels {
        return Ok(());
    }
    locals.put_line(alloc, line.stmt().labels.as_slice(), i as u32 + 1)?;
    Ok(())
}

/// The lines of the local labels of a text. Lines without them are gone past without a look at their statements.
///
/// # Errors
///
/// Fails only where there is no memory.
pub fn locals_of(alloc: Global, lines: &[Line]) -> Result<Locals, AllocError>
    requires { length lines.now ≤ MAX_LINES }
    ensures { IfOk result (λ l. AreLocals (program_of lines.now) (length lines.now) l) }
{
    let mut locals = Locals::new(alloc);
    for i in 0..lines.len() {
        put_labels(alloc, lines, i, &mut locals)?;
    }
    Ok(locals)
}

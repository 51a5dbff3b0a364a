//! The changes of a line with a fault that may take it away.

ghost use Rattle.std.specs.Prelude.{◌≤◌, length};

use crate::broken_line::BrokenLine;
use crate::fixes::Fixes;
use crate::other_lexemes::add_lexemes;
use crate::other_names::{add_colon, add_names, add_symbols};
use crate::other_operands::add_operands;
use crate::other_signs::{add_commas, add_comment};
use crate::rewrites::add_rewrites;
use rv_list::View;
use std::alloc::AllocError;

/// The changes of a line that may take its fault away: none of them was tried. `symbols` are names of the text.
///
/// # Errors
///
/// `AllocError` if there is no memory for them.
pub fn possible_fixes<V: View>(
    view: &V,
    line: &BrokenLine<'_>,
    symbols: &[&[u8]],
) -> Result<Fixes, AllocError>
    requires { length line.now.text.now ≤ 1000 }
{
    let mut fixes = Fixes::new(line.alloc);
    add_names(&mut fixes, line)?;
    add_symbols(&mut fixes, line, view, symbols)?;
    add_commas(&mut fixes, line)?;
    add_comment(&mut fixes, line)?;
    add_rewrites(&mut fixes, line)?;
    add_operands(&mut fixes, line, view)?;
    add_lexemes(&mut fixes, line)?;
    Ok(fixes)
}

/// The same of a line whose name may be that of a label: it gets its colon.
///
/// # Errors
///
/// `AllocError` if there is no memory for it.
pub fn colon_fixes(line: &BrokenLine<'_>) -> Result<Fixes, AllocError> {
    let mut fixes = Fixes::new(line.alloc);
    add_colon(&mut fixes, line)?;
    Ok(fixes)
}

//! The words of a line's statement.

ghost use Rattle.std.specs.Prelude.{◌≡◌, ◌≤◌, length, IfOk};
ghost use Rattle.rv_report.specs.Lines.{line_of};
ghost use Rattle.rv_report.specs.Messages.{name_of_statement, word_after_name};

use crate::faulty_line::{FaultyLine, word_at};
use rv_text::tokens;
use std::alloc::{AllocError, Global};

/// The name of a line's statement: it stands after the labels, each of which is two tokens.
pub fn name_of_statement<'a>(alloc: Global, line: &FaultyLine<'a>) -> Result<&'a [u8], AllocError>
    requires labels { length line.now.stmt.now.labels ≤ 1000 }
    requires text { length line.now.text.now ≤ 1000 }
    ensures { IfOk result (λ name. name.now ≡ name_of_statement (line_of line.now)) }
{
    let Ok(tokens) = tokens(alloc, line.text) else {
        return Err(AllocError);
    };
    let labels = line.stmt.labels.len();
    Ok(word_at(2 * labels, line.text, &tokens))
}

/// The word after the name of a line's statement.
pub fn word_after_name<'a>(alloc: Global, line: &FaultyLine<'a>) -> Result<&'a [u8], AllocError>
    requires labels { length line.now.stmt.now.labels ≤ 1000 }
    requires text { length line.now.text.now ≤ 1000 }
    ensures { IfOk result (λ word. word.now ≡ word_after_name (line_of line.now)) }
{
    let Ok(tokens) = tokens(alloc, line.text) else {
        return Err(AllocError);
    };
    let labels = line.stmt.labels.len();
    Ok(word_at(2 * labels + 1, line.text, &tokens))
}

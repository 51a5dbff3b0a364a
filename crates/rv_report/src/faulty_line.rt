//! A line with a fault.

ghost use Rattle.std.specs.Prelude.{◌≡◌, option_map};
ghost use Rattle.rv_report.specs.Lines.{line_of, word_at};
ghost use Rattle.rv_report.specs.Messages.{operand_of_line, value_of_line};

use crate::operands::{operand_at, value_at};
use crate::text_words::TextWords;
use rv_fix::Values;
use rv_show::part;
use rv_stmt::{Operand, Stmt};
use rv_text::{Span, Tokens};

/// A line with a fault, as a text has it, and what a message about it may name.
#[derive(Clone, Copy)]
pub struct FaultyLine<'a> {
    /// Its number, from 1 on.
    pub number: u32,
    /// Its bytes, at most 1,000.
    pub text: &'a [u8],
    pub stmt: &'a Stmt,
    pub address: u32,
    /// The values of its operands.
    pub values: &'a Values,
    /// Words of the text.
    pub words: TextWords<'a>,
}

/// A word of a line, by its number among the tokens.
pub fn word_at<'a>(place: usize, line: &'a [u8], tokens: &Tokens<'_>) -> &'a [u8]
    requires { line.now ≡ tokens.now.line }
    ensures { result.now ≡ word_at place tokens.now }
{
    match tokens.tokens().get(place) {
        Some(token) => part(line, token.span),
        None => &[],
    }
}

/// The operand at a span of a line.
pub fn operand_in<'a>(line: &FaultyLine<'a>, span: Span) -> Option<&'a Operand>
    ensures { option_map (λ o. o.now) result ≡ operand_of_line (line_of line.now) span }
{
    operand_at(span, line.stmt.body.operands())
}

/// The value of the operand at a span of a line.
pub fn value_in(line: &FaultyLine<'_>, span: Span) -> Option<i64>
    ensures { result ≡ value_of_line (line_of line.now) span }
{
    value_at(span, line.stmt.body.operands(), line.values.entries())
}

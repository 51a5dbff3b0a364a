//! The messages of faults of statements.

ghost use Rattle.std.specs.Prelude.{◌≡◌, ◌≤◌, ◌++◌, drop, length, IfOk, OnOk};
ghost use Rattle.rv_text.specs.Lexing.{lexed_line};
ghost use Rattle.rv_show.specs.Parts.{part};
ghost use Rattle.rv_report.specs.Counts.{operands_standing};
ghost use Rattle.rv_report.specs.Lines.{line_of};
ghost use Rattle.rv_report.specs.Messages.{name_of_statement, operand_count, register_range};
ghost use Rattle.rv_report.specs.OperandMessages.{separation_of};

use crate::counts::push_numbers;
use crate::faulty_line::FaultyLine;
use crate::operand_messages::separation_of;
use crate::statement_words::name_of_statement;
use rv_show::{Text, bytes_from, part};
use rv_stmt::operands_from;
use rv_text::{Span, tokens};
use std::alloc::{AllocError, Global};

// How many operands stand after the name of a line's statement.
fn operands_standing(alloc: Global, labels: usize, line: &[u8]) -> Result<usize, AllocError>
    requires labels { labels ≤ 1000 }
    requires line { length line.now ≤ 1000 }
    ensures { IfOk result (λ n. n ≡ operands_standing labels (lexed_line line.now)) }
{
    let Ok(tokens) = tokens(alloc, line) else {
        return Err(AllocError);
    };
    operands_from(alloc, &tokens, 2 * labels + 1)
}

/// A number of operands that the name of a line's statement does not take.
#[tactic(auto, unfolding(crate::specs::Messages::operand_count))]
pub fn push_operand_count(
    out: &mut Text,
    alloc: Global,
    line: &FaultyLine<'_>,
    span: Span,
) -> Result<(), AllocError>
    requires labels { length line.now.stmt.now.labels ≤ 1000 }
    requires text { length line.now.text.now ≤ 1000 }
    ensures { OnOk result (out.new ≡ out.old ++ operand_count (part line.now.text.now span) (operands_standing (length line.now.stmt.now.labels) (lexed_line line.now.text.now)) (separation_of (drop span.to line.now.text.now))) }
{
    let labels = line.stmt.labels.len();
    let standing = operands_standing(alloc, labels, line.text)?;
    let name = part(line.text, span);
    out.push_about(b"", name, b" takes ")?;
    push_numbers(out, alloc, name)?;
    out.push(b", not ")?;
    out.push_number(standing)?;
    let separation = separation_of(alloc, bytes_from(line.text, span.to as usize))?;
    out.push(separation.bytes())
}

/// A register that a line's statement does not take.
#[tactic(auto, unfolding(crate::specs::Messages::register_range))]
pub fn push_register_range(
    out: &mut Text,
    alloc: Global,
    line: &FaultyLine<'_>,
    span: Span,
) -> Result<(), AllocError>
    requires labels { length line.now.stmt.now.labels ≤ 1000 }
    requires text { length line.now.text.now ≤ 1000 }
    ensures { OnOk result (out.new ≡ out.old ++ register_range (name_of_statement (line_of line.now)) (part line.now.text.now span)) }
{
    let name = name_of_statement(alloc, line)?;
    out.push_about(b"", name, b" does not take ")?;
    out.push_about(b"", part(line.text, span), b" here")
}

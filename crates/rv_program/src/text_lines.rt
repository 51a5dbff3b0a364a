//! The lines of a text, by their numbers from 1 on.

ghost use Rattle.std.specs.Prelude.{◌≡◌, ◌≤◌, false, None, length, IfSome};
ghost use Rattle.std.specs.Option.{option_map};
ghost use Rattle.rv_program.specs.internal.Briefs.{brief_of};
ghost use Rattle.rv_program.specs.Jumps.{target_of};
ghost use Rattle.rv_program.specs.Layout.{place_at};
ghost use Rattle.rv_stmt.specs.declared.statement.Body.TheVariants.{Equ as EquBody};
ghost use Rattle.rv_stmt.specs.Statement.{operands_of};
ghost use Rattle.rv_program.specs.Pairs.{low_symbol_of, is_high_alone};
ghost use Rattle.rv_program.specs.Program.{statement_at, body_at};
ghost use Rattle.rv_program.specs.internal.TextRows.{AreTextRows, program_in};
ghost use Rattle.rv_program.specs.Uses.{is_equ};

use crate::brief::Brief;
use crate::highs::is_high_alone;
use crate::jumps::target;
use crate::lows::low_symbol;
use crate::text_rows::TextRows;
use rv_expr::Expr;
use rv_list::LinePlace;
use rv_stmt::{Body, Definition, Stmt, operands_are_few};

/// The statement of a line.
#[tactic(auto, using(crate::specs::lemmas::TextLines::statement_of_line))]
pub fn statement_on<'a>(text: &TextRows<'a>, line: u32) -> &'a Stmt
    requires first { 1 ≤ line }
    requires last { line ≤ length text.now.lines.now }
    ensures { result.now ≡ statement_at (program_in text.now) line }
{
    text.lines.line(line).stmt()
}

/// What a line defines and uses, in brief.
#[tactic(auto, using(crate::specs::lemmas::TextLines::statement_of_line))]
pub fn brief_on(text: &TextRows<'_>, line: u32) -> Brief
    requires first { 1 ≤ line }
    requires last { line ≤ length text.now.lines.now }
    ensures { result ≡ brief_of (statement_at (program_in text.now) line) }
{
    text.lines.line(line).brief()
}

/// The definition on a line that is an `.equ`. Other lines are gone past without a look at their statements.
#[tactic(auto, using(crate::specs::lemmas::TextLines::no_definition))]
pub fn equ_on<'a>(text: &TextRows<'a>, line: u32) -> Option<&'a Definition>
    requires first { 1 ≤ line }
    requires last { line ≤ length text.now.lines.now }
    ensures definition { IfSome result (λ d. body_at (program_in text.now) line ≡ EquBody d.now) }
    ensures none { result ≡ None → is_equ (body_at (program_in text.now) line) ≡ false }
{
    if !brief_on(text, line).equ {
        return None;
    }
    match &statement_on(text, line).body {
        Body::Equ(definition) => Some(definition),
        _ => None,
    }
}

/// The symbol or local label that a line goes to, if that is its only operand. Other lines are gone past without a look at their statements.
#[tactic(auto, using(crate::specs::lemmas::TextLines::no_target))]
pub fn target_on<'a>(text: &TextRows<'a>, line: u32) -> Option<&'a Expr>
    requires first { 1 ≤ line }
    requires last { line ≤ length text.now.lines.now }
    ensures { option_map (λ e. e.now) result ≡ target_of (body_at (program_in text.now) line) }
{
    if !brief_on(text, line).relative {
        return None;
    }
    target(&statement_on(text, line).body)
}

/// The symbol of a line of which `%pcrel_lo` of it is the only operand. Other lines are gone past without a look at their statements.
#[tactic(auto, using(crate::specs::lemmas::TextLines::no_low_symbol))]
pub fn low_symbol_on<'a>(text: &TextRows<'a>, line: u32) -> Option<&'a [u8]>
    requires first { 1 ≤ line }
    requires last { line ≤ length text.now.lines.now }
    ensures { option_map (λ n. n.now) result ≡ low_symbol_of (body_at (program_in text.now) line) }
{
    if !brief_on(text, line).low {
        return None;
    }
    low_symbol(&statement_on(text, line).body)
}

/// Whether `%pcrel_hi` is the only operand of a line. Other lines are gone past without a look at their statements.
#[tactic(auto, using(crate::specs::lemmas::TextLines::not_alone))]
pub fn is_high_alone_on(text: &TextRows<'_>, line: u32) -> bool
    requires first { 1 ≤ line }
    requires last { line ≤ length text.now.lines.now }
    ensures { result ≡ is_high_alone (body_at (program_in text.now) line) }
{
    if !brief_on(text, line).pcrel_high {
        return false;
    }
    is_high_alone(&statement_on(text, line).body)
}

/// A line has at most 1,000 operands.
#[tactic(auto, using(crate::specs::lemmas::TextLines::few_operands_of_line))]
pub fn operands_are_few_on(text: &TextRows<'_>, line: u32)
    requires first { 1 ≤ line }
    requires last { line ≤ length text.now.lines.now }
    ensures { length (operands_of (body_at (program_in text.now) line)) ≤ 1000 }
{
    let _ = text.lines.line(line).text();
    operands_are_few();
}

/// Where a line lies.
#[tactic(auto, using(crate::specs::lemmas::TextLines::place_of_line, crate::specs::lemmas::TextLines::length_of_places))]
pub fn place_on(text: &TextRows<'_>, line: u32) -> LinePlace
    requires rows { AreTextRows text.now }
    requires first { 1 ≤ line }
    requires last { line ≤ length text.now.lines.now }
    ensures { result ≡ place_at text.now.base (program_in text.now) line }
{
    text.places[line as usize - 1]
}

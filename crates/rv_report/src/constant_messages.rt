//! The messages of operands that have to be constants, and are none.

ghost use Rattle.std.specs.Prelude.{◌≡◌, ◌≤◌, ◌++◌, length, option_map, OnOk};
ghost use Rattle.rv_show.specs.Parts.{part};
ghost use Rattle.rv_report.specs.FaultyNames.{faulty_name_of, name_used};
ghost use Rattle.rv_report.specs.Lines.{line_of, words_of};
ghost use Rattle.rv_report.specs.Messages.{constant_help, is_local_label, is_local_name, is_local_value, later_line, name_not_constant, name_of_statement, not_constant, operand_not_constant, operand_of_line, place_help, symbol_not_constant, undefined_constant, why_not_constant};

use crate::advice::{Topic, advice};
use crate::faulty_line::{FaultyLine, operand_in};
use crate::faulty_names::UsedName;
use crate::name_messages::{faulty_name_at, push_undefined_name};
use crate::statement_words::name_of_statement;
use crate::text_words::TextWords;
use crate::wanted::{Wanted, push_register_given};
use rv_expr::{Expr, Names, Node};
use rv_list::{DefinitionPlace, View};
use rv_ops::reg_by_name;
use rv_show::{Text, part};
use rv_stmt::{Operand, OperandValue};
use rv_text::Span;
use std::alloc::{AllocError, Global};

// Appends that an operand is no constant.
#[tactic(auto, unfolding(crate::specs::Messages::not_constant))]
fn push_no_constant(out: &mut Text, text: &[u8]) -> Result<(), AllocError>
    ensures { OnOk result (out.new ≡ out.old ++ not_constant text.now) }
{
    out.push_about(
        b"the size of a line needs a constant; ",
        text,
        b" is not one",
    )
}

// Whether an expression is a reference to a local label.
fn is_local_name(expression: &Expr) -> bool
    ensures { result ≡ is_local_name expression.now }
{
    match &expression.node {
        Node::Local(_, _) => true,
        _ => false,
    }
}

// Whether an operand is a reference to a local label.
fn is_local_label(operand: Option<&Operand>) -> bool
    ensures { result ≡ is_local_label (option_map (λ o. o.now) operand.entry) }
{
    match operand {
        Some(operand) => match &operand.value {
            OperandValue::Plain(expression) => is_local_name(expression),
            _ => false,
        },
        None => false,
    }
}

// Appends that an `.equ` has to stand earlier.
#[tactic(auto, unfolding(crate::specs::Messages::later_line))]
fn push_later_line(out: &mut Text, line: u32) -> Result<(), AllocError>
    ensures { OnOk result (out.new ≡ out.old ++ later_line line) }
{
    out.push(b"; its .equ is on line ")?;
    out.push_number(line)?;
    out.push(b", and has to stand before this line")
}

// Appends what helps on a line where something stands that has its definition at a place.
fn push_place_help(
    out: &mut Text,
    statement: &[u8],
    number: u32,
    place: DefinitionPlace,
) -> Result<(), AllocError>
    ensures { OnOk result (out.new ≡ out.old ++ place_help statement.now number place) }
{
    match place {
        DefinitionPlace::Nowhere => Ok(()),
        DefinitionPlace::Label(_, _) => out.push(advice(Topic::LabelGiven, statement)),
        DefinitionPlace::Equ(line) if number < line => push_later_line(out, line),
        DefinitionPlace::Equ(_) => Ok(()),
    }
}

// Appends that an operand is no constant although its names have values.
fn push_operand<V: View>(
    out: &mut Text,
    view: &V,
    line: &FaultyLine<'_>,
    statement: &[u8],
    span: Span,
) -> Result<(), AllocError>
    ensures { OnOk result (out.new ≡ out.old ++ operand_not_constant statement.now (V.shown view.now) line.now.number (operand_of_line (line_of line.now) span) (part line.now.text.now span)) }
{
    let text = part(line.text, span);
    push_no_constant(out, text)?;
    if is_local_label(operand_in(line, span)) {
        return out.push(advice(Topic::LabelGiven, statement));
    }
    push_place_help(out, statement, line.number, view.definition(text))
}

// Appends that a name has no definition.
#[tactic(auto, unfolding(crate::specs::Messages::undefined_constant))]
fn push_undefined_constant(
    out: &mut Text,
    alloc: Global,
    words: TextWords<'_>,
    name: UsedName<'_>,
) -> Result<(), AllocError>
    ensures { OnOk result (out.new ≡ out.old ++ undefined_constant (words_of words.entry) (name_used name.entry)) }
{
    out.push(b"the size of a line needs a constant; ")?;
    push_undefined_name(out, alloc, words, name)
}

// Appends that a name has no definition, or is no constant.
fn push_name(
    out: &mut Text,
    alloc: Global,
    place: DefinitionPlace,
    words: TextWords<'_>,
    text: &[u8],
    name: &[u8],
) -> Result<(), AllocError>
    ensures { OnOk result (out.new ≡ out.old ++ name_not_constant place (words_of words.entry) text.now name.now) }
{
    match place {
        DefinitionPlace::Nowhere => {
            push_undefined_constant(out, alloc, words, UsedName::Symbol(name))
        }
        _ => push_no_constant(out, text),
    }
}

// Appends that a name has no definition, is no constant, or is a register.
fn push_symbol<V: View>(
    out: &mut Text,
    alloc: Global,
    view: &V,
    statement: &[u8],
    words: TextWords<'_>,
    text: &[u8],
    name: &[u8],
) -> Result<(), AllocError>
    ensures { OnOk result (out.new ≡ out.old ++ symbol_not_constant statement.now (V.shown view.now) (words_of words.entry) text.now name.now) }
{
    if reg_by_name(name).is_some() {
        return push_register_given(out, statement, Wanted::Number, name);
    }
    push_name(out, alloc, view.definition(name), words, text, name)
}

/// An operand that is no constant, at a span of a line.
pub fn push_not_constant<N: Names, V: View>(
    out: &mut Text,
    alloc: Global,
    line: &FaultyLine<'_>,
    names: &N,
    view: &V,
    span: Span,
) -> Result<(), AllocError>
    requires labels { length line.now.stmt.now.labels ≤ 1000 }
    requires text { length line.now.text.now ≤ 1000 }
    ensures { OnOk result (out.new ≡ out.old ++ why_not_constant (name_of_statement (line_of line.now)) (V.shown view.now) (line_of line.now).words line.now.number (operand_of_line (line_of line.now) span) (part line.now.text.now span) (faulty_name_of (N.environment names.now line.now.address) (operand_of_line (line_of line.now) span))) }
{
    let statement = name_of_statement(alloc, line)?;
    match faulty_name_at(line, names, span) {
        Some(UsedName::Symbol(name)) => {
            let text = part(line.text, span);
            push_symbol(out, alloc, view, statement, line.words, text, name)
        }
        Some(UsedName::Local(number, direction)) => {
            let name = UsedName::Local(number, direction);
            push_undefined_constant(out, alloc, line.words, name)
        }
        Some(UsedName::Here) => push_operand(out, view, line, statement, span),
        None => push_operand(out, view, line, statement, span),
    }
}

//! The messages of names without a value.

ghost use Rattle.std.specs.Prelude.{◌≡◌, ◌≤◌, ◌++◌, length, map, option_map, take, IfOk, OnOk};
ghost use Rattle.rv_show.specs.Parts.{part};
ghost use Rattle.rv_report.specs.FaultyNames.{faulty_name_of, low_label_of, name_text, name_used};
ghost use Rattle.rv_report.specs.Lines.{line_of, words_of};
ghost use Rattle.rv_report.specs.Messages.{faulty_equ, faulty_equ_of, later_equ, line_of_equ, line_without_colon, name_of_statement, name_or, no_partner, near_symbols, operand_of_line, undefined, undefined_as, undefined_but_for_colon, undefined_name, undefined_near, undefined_symbol};
ghost use Rattle.rv_report.specs.Wanted.{wanted_of};

use crate::csr_messages::push_unknown_csr;
use crate::faulty_line::{FaultyLine, operand_in};
use crate::faulty_names::{UsedName, faulty_name_of, low_label_of, push_name};
use crate::statement_words::name_of_statement;
use crate::text_words::{TextWords, UnknownWord, line_of_label};
use crate::wanted::{Wanted, push_register_given, wanted_at};
use rv_expr::Names;
use rv_list::{DefinitionPlace, View};
use rv_ops::reg_by_name;
use rv_show::{Text, first_few, part, place_shown, push_question, suggestions};
use rv_text::Span;
use std::alloc::{AllocError, Global};

/// The first name without a value of the operand at a span.
pub fn faulty_name_at<'a, N: Names>(
    line: &FaultyLine<'a>,
    names: &N,
    span: Span,
) -> Option<UsedName<'a>>
    ensures { option_map name_used result ≡ faulty_name_of (N.environment names.now line.now.address) (operand_of_line (line_of line.now) span) }
{
    faulty_name_of(operand_in(line, span), names, line.address)
}

// The bytes of a name.
fn written(alloc: Global, name: UsedName<'_>) -> Result<Text, AllocError>
    ensures { IfOk result (λ text. text ≡ name_text (name_used name.entry)) }
{
    let mut text = Text::new(alloc);
    push_name(&mut text, name)?;
    Ok(text)
}

// The symbols that may be meant by a name, of which the first few are named.
fn near_symbols<'a>(
    alloc: Global,
    symbols: &[&'a [u8]],
    name: UsedName<'_>,
) -> Result<Vec<&'a [u8]>, AllocError>
    ensures { IfOk result (λ v. take 3 (map (λ s. s.now) v.items) ≡ near_symbols (map (λ s. s.now) symbols.now) (name_used name.entry)) }
{
    match name {
        UsedName::Symbol(symbol) => suggestions(alloc, symbol, symbols),
        UsedName::Local(_, _) => Ok(Vec::new(alloc)),
        UsedName::Here => Ok(Vec::new(alloc)),
    }
}

// Appends that a name has no definition, and those that may be meant.
#[tactic(auto, unfolding(crate::specs::Messages::undefined_near))]
fn push_undefined_near(out: &mut Text, name: &[u8], near: &[&[u8]]) -> Result<(), AllocError>
    ensures { OnOk result (out.new ≡ out.old ++ undefined_near name.now (map (λ s. s.now) near.now)) }
{
    let place = place_shown(name, near);
    out.push_quoted_from(place, name)?;
    out.push(b" is not defined")?;
    push_question(out, place, near)
}

// The line of the label that a name may be, if its colon is missing there.
fn line_without_colon(unknown: &[UnknownWord], name: UsedName<'_>) -> Option<u32>
    ensures { result ≡ line_without_colon unknown.now (name_used name.entry) }
{
    match name {
        UsedName::Symbol(symbol) => line_of_label(unknown, symbol),
        UsedName::Local(_, _) => None,
        UsedName::Here => None,
    }
}

// Appends that a name has no definition, and the line of what may be its label.
#[tactic(auto, unfolding(crate::specs::Messages::undefined_but_for_colon))]
fn push_undefined_but_for_colon(out: &mut Text, name: &[u8], line: u32) -> Result<(), AllocError>
    ensures { OnOk result (out.new ≡ out.old ++ undefined_but_for_colon name.now line) }
{
    out.push_about(b"", name, b" is not defined; is a ':' missing in line ")?;
    out.push_number(line)?;
    out.push(b"?")
}

/// Appends that a name has no definition.
pub fn push_undefined_name(
    out: &mut Text,
    alloc: Global,
    words: TextWords<'_>,
    name: UsedName<'_>,
) -> Result<(), AllocError>
    ensures { OnOk result (out.new ≡ out.old ++ undefined_name (words_of words.entry) (name_used name.entry)) }
{
    let text = written(alloc, name)?;
    if let Some(line) = line_without_colon(words.unknown, name) {
        return push_undefined_but_for_colon(out, text.bytes(), line);
    }
    let near = near_symbols(alloc, words.symbols, name)?;
    push_undefined_near(out, text.bytes(), first_few(near.as_slice()))
}

// Appends that a name has no definition, where a control and status register may be wanted.
fn push_undefined_as(
    out: &mut Text,
    alloc: Global,
    wanted: Wanted,
    words: TextWords<'_>,
    text: &[u8],
    name: &[u8],
) -> Result<(), AllocError>
    ensures { OnOk result (out.new ≡ out.old ++ undefined_as wanted (words_of words.entry) text.now name.now) }
{
    if wanted == Wanted::Csr && name == text {
        return push_unknown_csr(out, alloc, name);
    }
    push_undefined_name(out, alloc, words, UsedName::Symbol(name))
}

// Appends that a symbol has no definition, or is a register.
fn push_undefined_symbol(
    out: &mut Text,
    alloc: Global,
    line: &FaultyLine<'_>,
    wanted: Wanted,
    text: &[u8],
    name: &[u8],
) -> Result<(), AllocError>
    requires labels { length line.now.stmt.now.labels ≤ 1000 }
    requires text { length line.now.text.now ≤ 1000 }
    ensures { OnOk result (out.new ≡ out.old ++ undefined_symbol (name_of_statement (line_of line.now)) wanted (line_of line.now).words text.now name.now) }
{
    if reg_by_name(name).is_none() {
        return push_undefined_as(out, alloc, wanted, line.words, text, name);
    }
    let statement = name_of_statement(alloc, line)?;
    push_register_given(out, statement, wanted, name)
}

/// A name without a definition, in the operand at a span of a line.
pub fn push_undefined<N: Names>(
    out: &mut Text,
    alloc: Global,
    line: &FaultyLine<'_>,
    names: &N,
    span: Span,
) -> Result<(), AllocError>
    requires labels { length line.now.stmt.now.labels ≤ 1000 }
    requires text { length line.now.text.now ≤ 1000 }
    ensures { OnOk result (out.new ≡ out.old ++ undefined (name_of_statement (line_of line.now)) (wanted_of line.now.stmt.now.body (operand_of_line (line_of line.now) span)) (line_of line.now).words (part line.now.text.now span) (faulty_name_of (N.environment names.now line.now.address) (operand_of_line (line_of line.now) span))) }
{
    let text = part(line.text, span);
    match faulty_name_at(line, names, span) {
        Some(UsedName::Symbol(name)) => {
            push_undefined_symbol(out, alloc, line, wanted_at(line, span), text, name)
        }
        Some(name) => push_undefined_name(out, alloc, line.words, name),
        None => out.push_about(b"a name that ", text, b" needs is not defined"),
    }
}

// The name, or the operand where no name of its own has the fault.
fn name_or(alloc: Global, text: &[u8], name: Option<UsedName<'_>>) -> Result<Text, AllocError>
    ensures { IfOk result (λ found. found ≡ name_or text.now (option_map name_used name.entry)) }
{
    match name {
        Some(name) => written(alloc, name),
        None => {
            let mut found = Text::new(alloc);
            found.push(text)?;
            Ok(found)
        }
    }
}

// Appends that an `.equ` cannot use a name.
#[tactic(auto, unfolding(crate::specs::Messages::later_equ))]
fn push_later_equ_of(out: &mut Text, name: &[u8]) -> Result<(), AllocError>
    ensures { OnOk result (out.new ≡ out.old ++ later_equ name.now) }
{
    out.push_about(
        b"an .equ cannot use ",
        name,
        b", an .equ of this or a later line",
    )
}

/// An `.equ` of a later line, in the operand at a span of another.
pub fn push_later_equ<N: Names>(
    out: &mut Text,
    alloc: Global,
    line: &FaultyLine<'_>,
    names: &N,
    span: Span,
) -> Result<(), AllocError>
    ensures { OnOk result (out.new ≡ out.old ++ later_equ (name_or (part line.now.text.now span) (faulty_name_of (N.environment names.now line.now.address) (operand_of_line (line_of line.now) span)))) }
{
    let found = faulty_name_at(line, names, span);
    let name = name_or(alloc, part(line.text, span), found)?;
    push_later_equ_of(out, name.bytes())
}

// The line of an `.equ`.
#[tactic(auto, unfolding(crate::specs::Messages::line_of_equ))]
fn push_line_of_equ(out: &mut Text, place: DefinitionPlace) -> Result<(), AllocError>
    ensures { OnOk result (out.new ≡ out.old ++ line_of_equ place) }
{
    match place {
        DefinitionPlace::Equ(line) => {
            out.push(b" (line ")?;
            out.push_number(line)?;
            out.push(b")")
        }
        DefinitionPlace::Label(_, _) => Ok(()),
        DefinitionPlace::Nowhere => Ok(()),
    }
}

// Appends that the `.equ` of a name has a fault.
#[tactic(auto, unfolding(crate::specs::Messages::faulty_equ_of))]
fn push_faulty_equ_of<V: View>(out: &mut Text, view: &V, name: &[u8]) -> Result<(), AllocError>
    ensures { OnOk result (out.new ≡ out.old ++ faulty_equ_of (V.shown view.now) name.now) }
{
    out.push_about(b"the .equ of ", name, b" has a fault")?;
    push_line_of_equ(out, view.definition(name))
}

/// A name whose `.equ` has a fault, in the operand at a span of a line.
pub fn push_faulty_equ<N: Names, V: View>(
    out: &mut Text,
    alloc: Global,
    line: &FaultyLine<'_>,
    names: &N,
    view: &V,
    span: Span,
) -> Result<(), AllocError>
    ensures { OnOk result (out.new ≡ out.old ++ faulty_equ (V.shown view.now) (part line.now.text.now span) (faulty_name_of (N.environment names.now line.now.address) (operand_of_line (line_of line.now) span))) }
{
    let Some(name) = faulty_name_at(line, names, span) else {
        let text = part(line.text, span);
        return out.push_about(b"the .equ of a name that ", text, b" needs has a fault");
    };
    let name = written(alloc, name)?;
    push_faulty_equ_of(out, view, name.bytes())
}

// Appends that no high half stands at a label.
#[tactic(auto, unfolding(crate::specs::Messages::no_partner))]
fn push_no_partner_at(out: &mut Text, label: &[u8]) -> Result<(), AllocError>
    ensures { OnOk result (out.new ≡ out.old ++ no_partner label.now) }
{
    out.push_about(b"no 'auipc .., %pcrel_hi(..)' stands at ", label, b"")
}

/// The label of a low half without a high half, in the operand at a span of a line.
pub fn push_no_partner(
    out: &mut Text,
    alloc: Global,
    line: &FaultyLine<'_>,
    span: Span,
) -> Result<(), AllocError>
    ensures { OnOk result (out.new ≡ out.old ++ no_partner (name_or (part line.now.text.now span) (low_label_of (operand_of_line (line_of line.now) span)))) }
{
    let found = low_label_of(operand_in(line, span));
    let label = name_or(alloc, part(line.text, span), found)?;
    push_no_partner_at(out, label.bytes())
}

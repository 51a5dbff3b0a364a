//! The messages of names that no instruction and no directive has.

ghost use Rattle.std.specs.Prelude.{◌≡◌, ◌≤◌, ◌∷◌, ◌++◌, is_some, length, slice_index, IfOk, OnOk};
ghost use Rattle.rv_stmt.specs.Directives.{directive_named};
ghost use Rattle.rv_show.specs.Parts.{part};
ghost use Rattle.rv_report.specs.Lines.{line_of};
ghost use Rattle.rv_report.specs.Messages.{word_after_name};
ghost use Rattle.rv_report.specs.UnknownNames.{begins_statement, by_names, by_what_follows, definition_of, help_with_name, is_before_statement, is_of_others, missing_colon, missing_point, near_names, other_mnemonic, replacement, unknown_name};

use crate::advice::{Topic, advice};
use crate::counts::is_directive_name;
use crate::faulty_line::FaultyLine;
use crate::language_names::names_like;
use crate::statement_words::word_after_name;
use rv_show::{Text, byte_at, part, push_did_you_mean, push_excerpt};
use rv_stmt::{directive_named, form_of};
use rv_text::{FaultNumber, Span};
use std::alloc::{AllocError, Global};

// Whether a statement may begin with a name.
fn begins_statement(name: &[u8]) -> bool
    ensures { result ≡ begins_statement name.now }
{
    if is_directive_name(name) {
        return directive_named(name).is_some();
    }
    match form_of(name, 0) {
        Ok(_) => true,
        Err(number) => number != FaultNumber::UnknownName,
    }
}

// Whether a statement begins with the word after a name. Behind the name of a directive it may be that of a section.
fn is_before_statement(name: &[u8], next: &[u8]) -> bool
    ensures { result ≡ is_before_statement name.now next.now }
{
    if is_directive_name(name) && is_directive_name(next) {
        return false;
    }
    begins_statement(next)
}

// The question about the names of a name's kind that may have been meant.
#[tactic(auto, unfolding(crate::specs::UnknownNames::near_names))]
fn near_names(alloc: Global, name: &[u8]) -> Result<Text, AllocError>
    ensures { IfOk result (λ text. text ≡ near_names name.now) }
{
    let lower = name.to_ascii_lowercase(alloc)?;
    let names = names_like(alloc, name)?;
    let mut question = Text::new(alloc);
    push_did_you_mean(&mut question, alloc, lower.as_slice(), names.as_slice())?;
    Ok(question)
}

// Appends the question about a label.
#[tactic(auto, unfolding(crate::specs::UnknownNames::missing_colon))]
fn push_missing_colon(out: &mut Text) -> Result<(), AllocError>
    ensures { OnOk result (out.new ≡ out.old ++ missing_colon) }
{
    out.push(b"; is a ':' missing after the label?")
}

// Appends the question about names, or the one about a label where there are none and nothing follows.
fn push_by_names(out: &mut Text, next: &[u8], question: &[u8]) -> Result<(), AllocError>
    ensures { OnOk result (out.new ≡ out.old ++ by_names next.now question.now) }
{
    if question.is_empty() && next.is_empty() {
        return push_missing_colon(out);
    }
    out.push(question)
}

// Appends how a symbol is defined.
#[tactic(auto, unfolding(crate::specs::UnknownNames::definition_of))]
fn push_definition(out: &mut Text, name: &[u8]) -> Result<(), AllocError>
    ensures { OnOk result (out.new ≡ out.old ++ definition_of name.now) }
{
    out.push(b"; write '.equ ")?;
    push_excerpt(out, name)?;
    out.push(b", VALUE'")
}

// Whether a name is that of a directive but for its point.
fn is_directive_without_point(alloc: Global, name: &[u8]) -> Result<bool, AllocError>
    ensures { IfOk result (λ is. is ≡ is_some (directive_named (0x2E ∷ name.now))) }
{
    let mut directive = Text::new(alloc);
    directive.push_byte(b'.')?;
    directive.push(name)?;
    Ok(directive_named(directive.bytes()).is_some())
}

// Appends the question about the name of a directive without its point.
#[tactic(auto, unfolding(crate::specs::UnknownNames::missing_point))]
fn push_missing_point(out: &mut Text, name: &[u8]) -> Result<(), AllocError>
    ensures { OnOk result (out.new ≡ out.old ++ missing_point name.now) }
{
    out.push(b"; did you mean '.")?;
    push_excerpt(out, name)?;
    out.push(b"'?")
}

// Appends what the word after a name tells, and the byte right behind it, or the names near it.
fn push_by_what_follows(
    out: &mut Text,
    alloc: Global,
    name: &[u8],
    next: &[u8],
    behind: u8,
) -> Result<(), AllocError>
    ensures { OnOk result (out.new ≡ out.old ++ by_what_follows name.now next.now behind) }
{
    if next == b"=".as_slice() {
        return push_definition(out, name);
    }
    if behind == b'-' {
        return out.push(b"; a name cannot contain '-'");
    }
    if is_directive_without_point(alloc, name)? {
        return push_missing_point(out, name);
    }
    if is_before_statement(name, next) {
        return push_missing_colon(out);
    }
    let question = near_names(alloc, name)?;
    push_by_names(out, next, question.bytes())
}

// What is written in the place of an instruction that is none here.
fn other_mnemonic(name: &[u8]) -> &'static [u8]
    ensures { result.now ≡ other_mnemonic name.now }
{
    let replacement = advice(Topic::OtherMnemonic, name);
    if replacement.is_empty() {
        return advice(Topic::Rv64Mnemonic, name);
    }
    replacement
}

// What is written in the place of a name that other assemblers have.
#[tactic(auto, unfolding(crate::specs::UnknownNames::replacement))]
fn replacement(name: &[u8]) -> &'static [u8]
    ensures { result.now ≡ replacement name.now }
{
    if is_directive_name(name) {
        return advice(Topic::OtherDirective, name);
    }
    other_mnemonic(name)
}

/// Whether a name is one that other assemblers or processors have.
pub fn is_of_others(name: &[u8]) -> bool
    ensures { result ≡ is_of_others name.now }
{
    !replacement(name).is_empty()
}

// Appends what helps with a name.
fn push_help_with_name(
    out: &mut Text,
    alloc: Global,
    name: &[u8],
    next: &[u8],
    behind: u8,
) -> Result<(), AllocError>
    ensures { OnOk result (out.new ≡ out.old ++ help_with_name name.now next.now behind) }
{
    let replacement = replacement(name);
    if replacement.is_empty() {
        return push_by_what_follows(out, alloc, name, next, behind);
    }
    out.push(replacement)
}

// Appends the message about a name, the word after it, and the byte right behind it.
#[tactic(auto, unfolding(crate::specs::UnknownNames::unknown_name))]
fn push_unknown(
    out: &mut Text,
    alloc: Global,
    name: &[u8],
    next: &[u8],
    behind: u8,
) -> Result<(), AllocError>
    ensures { OnOk result (out.new ≡ out.old ++ unknown_name name.now next.now behind) }
{
    out.push(b"no instruction or directive is called ")?;
    out.push_quoted(name)?;
    push_help_with_name(out, alloc, name, next, behind)
}

/// A name that no instruction and no directive has, at a span of a line.
pub fn push_unknown_name(
    out: &mut Text,
    alloc: Global,
    line: &FaultyLine<'_>,
    span: Span,
) -> Result<(), AllocError>
    requires labels { length line.now.stmt.now.labels ≤ 1000 }
    requires text { length line.now.text.now ≤ 1000 }
    ensures { OnOk result (out.new ≡ out.old ++ unknown_name (part line.now.text.now span) (word_after_name (line_of line.now)) (slice_index line.now.text.now span.to)) }
{
    let next = word_after_name(alloc, line)?;
    push_unknown(
        out,
        alloc,
        part(line.text, span),
        next,
        byte_at(line.text, span.to),
    )
}

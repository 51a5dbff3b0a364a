//! The names of a line: its labels, the symbol of its `.equ`, and the names in its operands.

ghost use Rattle.std.specs.Prelude.{◌≡◌, ◌≤◌, ◌++◌, length, take, IfOk, OnOk};
ghost use Rattle.rv_list.specs.Shown.{shown_line};
ghost use Rattle.rv_text.specs.Lexing.{lexed_line};
ghost use Rattle.rv_language.specs.LineNames.{equ_name, is_covered, is_use, label_names, may_be_symbol, names_defined, names_of, names_used};
ghost use Rattle.rv_language.specs.NameUses.{at_beginning, before_of};

use crate::name_uses::is_name;
use crate::operand_lists::{is_other_name, names_symbols};
use crate::typed::Typed;
use rv_list::LineView;
use rv_show::{first_bytes, part};
use rv_stmt::{Body, LabelSlice};
use rv_text::{MAX_LINE_LENGTH, Span, Token, tokens};
use std::alloc::{AllocError, Global};

/// What a name does in a line.
#[derive(Clone, Copy)]
pub enum Standing {
    /// It is the label of this number, from 0 on.
    Label(u32),
    /// It is the symbol of the `.equ`.
    Equ,
    /// An operand uses it.
    Use,
}

/// A name of a line.
#[derive(Clone, Copy)]
pub struct NameSpan {
    pub span: Span,
    pub standing: Standing,
}

/// The bytes of a line.
pub fn text_of<'a>(line: &LineView<'a>) -> &'a [u8]
    ensures value { result.now ≡ take 1000 line.now.text.now }
    ensures few { length result.now ≤ 1000 }
{
    first_bytes(line.text, MAX_LINE_LENGTH)
}

// Adds the labels of a line.
fn push_labels(names: &mut Vec<NameSpan>, mut labels: LabelSlice<'_>) -> Result<(), AllocError>
    requires { length labels ≤ 1000 }
    ensures { OnOk result (names.new.items ≡ names.old.items ++ label_names 0 labels.entry) }
{
    let mut index = 0;
    'labels: while let Some((label, later)) = labels.split_first() {
        names.push(NameSpan {
            span: label.span,
            standing: Standing::Label(index),
        })?;
        index += 1;
        labels = later;
    }
    Ok(())
}

// Adds the symbol of an `.equ`.
fn push_equ(names: &mut Vec<NameSpan>, body: &Body) -> Result<(), AllocError>
    ensures { OnOk result (names.new.items ≡ names.old.items ++ equ_name body.now) }
{
    let Body::Equ(definition) = body else {
        return Ok(());
    };
    names.push(NameSpan {
        span: definition.span,
        standing: Standing::Equ,
    })?;
    Ok(())
}

/// The names that a line defines, also where others define them before.
///
/// # Errors
///
/// `AllocError` if there is no memory for them.
#[tactic(auto, unfolding(crate::specs::LineNames::names_defined))]
pub fn names_defined(alloc: Global, line: &LineView<'_>) -> Result<Vec<NameSpan>, AllocError>
    requires { length line.now.stmt.now.labels ≤ 1000 }
    ensures { IfOk result (λ names. names.items ≡ names_defined (shown_line line.now)) }
{
    let mut names = Vec::new(alloc);
    push_labels(&mut names, line.stmt.labels.as_slice())?;
    push_equ(&mut names, &line.stmt.body)?;
    Ok(names)
}

// Whether one of the operands of a line covers a place.
fn is_covered(body: &Body, span: Span) -> bool
    ensures { result ≡ is_covered body.now span }
{
    let operands = body.operands();
    operands.iter().any(|operand| operand.span.from <= span.from && span.to <= operand.span.to)
}

// Whether a word in an operand may be the name of a symbol or of a local label. In a line that is wrong it is one unless it is known to be another name.
// A directive without effect is not read, but some of these directives name symbols.
fn may_be_symbol(typed: &Typed<'_>, word: &[u8], body: &Body, span: Span) -> bool
    ensures { result ≡ may_be_symbol body.now (before_of typed.now) word.now span }
{
    match body {
        Body::Faulty(_) => !is_other_name(typed.statement, typed.operand, word),
        Body::Ignored => names_symbols(typed.statement, typed.operand),
        _ => is_covered(body, span),
    }
}

/// Whether a token is a name in an operand, by what stands before it.
pub fn is_use(typed: &Typed<'_>, token: &Token, text: &[u8], body: &Body) -> bool
    ensures { result ≡ is_use body.now (before_of typed.now) token.now text.now }
{
    is_name(typed.expected, token.kind, text) && may_be_symbol(typed, text, body, token.span)
}

// Adds the names that the operands of a line use.
fn push_used(
    names: &mut Vec<NameSpan>,
    alloc: Global,
    text: &[u8],
    body: &Body,
) -> Result<(), AllocError>
    requires { length text.now ≤ 1000 }
    ensures { OnOk result (names.new.items ≡ names.old.items ++ names_used body.now text.now at_beginning (lexed_line text.now).tokens) }
{
    let Ok(found) = tokens(alloc, text) else {
        return Err(AllocError);
    };
    let mut typed = Typed::beginning();
    let mut left = found.tokens();
    'tokens: while let [token, later @ ..] = left {
        let bytes = part(text, token.span);
        if is_use(&typed, token, bytes, body) {
            names.push(NameSpan {
                span: token.span,
                standing: Standing::Use,
            })?;
        }
        typed = typed.behind(token, bytes);
        left = later;
    }
    Ok(())
}

/// The names of a line.
///
/// # Errors
///
/// `AllocError` if there is no memory for them.
#[tactic(auto, unfolding(crate::specs::LineNames::names_of))]
pub fn names_in(alloc: Global, line: &LineView<'_>) -> Result<Vec<NameSpan>, AllocError>
    requires { length line.now.stmt.now.labels ≤ 1000 }
    ensures { IfOk result (λ names. names.items ≡ names_of (shown_line line.now)) }
{
    let mut names = names_defined(alloc, line)?;
    push_used(&mut names, alloc, text_of(line), &line.stmt.body)?;
    Ok(names)
}

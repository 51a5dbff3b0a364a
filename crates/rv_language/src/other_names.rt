//! Names that may be meant in a line with a fault.

use crate::broken_line::{BrokenLine, place};
use crate::fixes::Fixes;
use rv_list::{DefinitionPlace, View};
use rv_ops::reg_by_name;
use rv_report::{Topic, csr_list, is_of_others, names_like, number_of_csr, replacements};
use rv_show::{Text, first_few, part, suggestions, upper_digit};
use rv_text::{FaultNumber, Span, Token, TokenKind};
use std::alloc::AllocError;

// What messages advise about the name of a statement with a fault.
fn topics_of(number: FaultNumber) -> &'static [Topic] {
    match number {
        FaultNumber::UnknownName => &[Topic::OtherDirective, Topic::OtherMnemonic],
        FaultNumber::Undefined => &[Topic::RegisterGiven],
        FaultNumber::NotConstant => &[Topic::RegisterGiven, Topic::LabelGiven],
        FaultNumber::BadRegister => &[Topic::NumberGiven],
        FaultNumber::Range => &[Topic::RangeExceeded],
        _ => &[],
    }
}

// Adds what takes the place of the name of a statement, and of all of it where that is empty.
fn add_words(
    fixes: &mut Fixes,
    line: &BrokenLine<'_>,
    mut words: &'static [&'static str],
) -> Result<(), AllocError> {
    'words: while let [word, later @ ..] = words {
        let span = if word.is_empty() {
            line.statement_span()
        } else {
            line.name_span()
        };
        fixes.add(span, &[word.as_bytes()])?;
        words = later;
    }
    Ok(())
}

// Adds the names that messages write in the place of that of a statement.
fn add_advised(fixes: &mut Fixes, line: &BrokenLine<'_>) -> Result<(), AllocError> {
    let mut topics = topics_of(line.fault.number);
    'topics: while let [topic, later @ ..] = topics {
        add_words(fixes, line, replacements(*topic, line.name()))?;
        topics = later;
    }
    Ok(())
}

// Adds those of some names that are near a word, in the place of the word.
fn add_near(
    fixes: &mut Fixes,
    line: &BrokenLine<'_>,
    span: Span,
    word: &[u8],
    names: &[&[u8]],
) -> Result<(), AllocError> {
    let near = suggestions(line.alloc, word, names)?;
    let mut left = first_few(near.as_slice());
    'names: while let [name, later @ ..] = left {
        let mut text = Text::new(line.alloc);
        text.push(name)?;
        fixes.add_text(span, text)?;
        left = later;
    }
    Ok(())
}

// Adds the name of the instruction of RV32 that does with 32 bits what one of RV64 does.
fn add_narrow(fixes: &mut Fixes, line: &BrokenLine<'_>) -> Result<(), AllocError> {
    let span = line.name_span();
    match line.name() {
        [front @ .., b'.', b'd' | b'D'] => fixes.add(span, &[front, b".w"]),
        [front @ .., b'w' | b'W'] => fixes.add(span, &[front]),
        _ => Ok(()),
    }
}

// Adds the names of instructions or directives near that of a statement, and the same name with a point before it.
fn add_statements(fixes: &mut Fixes, line: &BrokenLine<'_>) -> Result<(), AllocError> {
    if is_of_others(line.name()) {
        return add_narrow(fixes, line);
    }
    let span = line.name_span();
    let lower = line.name().to_ascii_lowercase(line.alloc)?;
    let names = names_like(line.alloc, line.name())?;
    fixes.add(place(span.from), &[b"."])?;
    add_near(fixes, line, span, lower.as_slice(), names.as_slice())
}

// Adds how the definition of a symbol is written that another assembler would take: `n = 4`, or a name with a `-`.
fn add_definitions(fixes: &mut Fixes, line: &BrokenLine<'_>) -> Result<(), AllocError> {
    let [name, sign, next, ..] = line.tokens else {
        return Ok(());
    };
    match part(line.text, sign.span) {
        b"=" => {
            let span = Span {
                from: name.span.from,
                to: next.span.from,
            };
            fixes.add(span, &[b".equ ", line.name(), b", "])
        }
        b"-" => fixes.add(sign.span, &[b"_"]),
        _ => Ok(()),
    }
}

/// Adds the names that the name of a statement may be meant as.
///
/// # Errors
///
/// `AllocError` if there is no memory for them.
pub fn add_names(fixes: &mut Fixes, line: &BrokenLine<'_>) -> Result<(), AllocError> {
    add_advised(fixes, line)?;
    if line.fault.number == FaultNumber::UnknownName {
        add_statements(fixes, line)?;
        add_definitions(fixes, line)?;
    }
    if let [b'c' | b'C', b'.', ..] = line.name() {
        let from = line.name_span().from;
        let to = from.saturating_add(2);
        fixes.add(Span { from, to }, &[])?;
    }
    Ok(())
}

/// Adds the `:` that makes a label of the name of a statement, unless it is a name that other assemblers or processors have.
///
/// # Errors
///
/// `AllocError` if there is no memory for it.
pub fn add_colon(fixes: &mut Fixes, line: &BrokenLine<'_>) -> Result<(), AllocError> {
    if line.fault.number == FaultNumber::UnknownName && !is_of_others(line.name()) {
        fixes.add(place(line.name_span().to), &[b":"])?;
    }
    Ok(())
}

// The first word at a fault that is not defined.
fn first_undefined<'a, V: View>(view: &V, line: &BrokenLine<'a>) -> Option<&'a Token> {
    let mut left = line.tokens;
    'tokens: while let [token, later @ ..] = left {
        let is_in = line.fault.span.from <= token.span.from && token.span.to <= line.fault.span.to;
        if is_in && token.kind == TokenKind::Identifier {
            let place = view.definition(part(line.text, token.span));
            if place == DefinitionPlace::Nowhere {
                return Some(token);
            }
        }
        left = later;
    }
    None
}

// Adds the number of a control and status register, and the names near its name.
fn add_csrs(
    fixes: &mut Fixes,
    line: &BrokenLine<'_>,
    span: Span,
    name: &[u8],
) -> Result<(), AllocError> {
    if let Some(number) = number_of_csr(name) {
        let mut text = Text::new(line.alloc);
        text.push(b"0x")?;
        text.push_byte(upper_digit((number / 256 % 16) as u8))?;
        text.push_upper_hex((number % 256) as u8)?;
        return fixes.add_text(span, text);
    }
    let lower = name.to_ascii_lowercase(line.alloc)?;
    let csrs = csr_list(line.alloc)?;
    add_near(fixes, line, span, lower.as_slice(), csrs.as_slice())
}

/// Adds the names that a name without a definition may be meant as: some of these symbols, or control and status registers.
///
/// # Errors
///
/// `AllocError` if there is no memory for them.
pub fn add_symbols<V: View>(
    fixes: &mut Fixes,
    line: &BrokenLine<'_>,
    view: &V,
    symbols: &[&[u8]],
) -> Result<(), AllocError> {
    let Some(token) = first_undefined(view, line) else {
        return Ok(());
    };
    let name = part(line.text, token.span);
    if reg_by_name(name).is_some() {
        return Ok(());
    }
    add_near(fixes, line, token.span, name, symbols)?;
    if token.span == line.fault.span {
        add_csrs(fixes, line, token.span, name)?;
    }
    Ok(())
}

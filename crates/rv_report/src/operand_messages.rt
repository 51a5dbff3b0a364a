//! The messages of operands that a statement does not take.

ghost use Rattle.std.specs.Prelude.{◌≡◌, ◌≤◌, ◌++◌, bytes_eq, drop, length, IfOk, OnOk};
ghost use Rattle.rv_stmt.specs.Tokens.{is_punctuation_kind};
ghost use Rattle.rv_show.specs.Parts.{part};
ghost use Rattle.rv_report.specs.Lines.{line_of};
ghost use Rattle.rv_report.specs.Messages.{name_of_statement, word_after_name};
ghost use Rattle.rv_report.specs.OperandMessages.{bad_operand, bad_register, begins_number, comment_help, expected, first_word, has_parenthesis, hash_help, is_beside_next, is_foreign, is_hash_number, missing_comma, name_help, no_base, no_operand, no_parentheses, no_register, no_statement, operand_help, operand_message, parentheses_of, register_help, register_message, registers_like, separated_register_message, separation, separation_of};

use crate::advice::{Topic, advice};
use crate::faulty_line::FaultyLine;
use crate::parentheses::parentheses_of;
use crate::statement_words::{name_of_statement, word_after_name};
use rv_ops::reg_by_name;
use rv_show::{Text, byte_at, bytes_from, first_bytes, part};
use rv_text::{Span, Token, TokenKind, tokens};
use std::alloc::{AllocError, Global};

/// The first of some tokens.
pub fn first_word<'a>(line: &'a [u8], tokens: &[Token]) -> &'a [u8]
    ensures { result.now ≡ first_word line.now tokens.now }
{
    match tokens {
        [token, ..] => part(line, token.span),
        [] => b"",
    }
}

// Whether a word ends a statement, or begins a comment, elsewhere.
fn is_foreign(word: &[u8], next: &[u8]) -> bool
    ensures { result ≡ is_foreign word.now next.now }
{
    word == b";".as_slice() || (word == b"/".as_slice() && next == b"*".as_slice())
}

// Whether a token is a sign.
fn is_sign(kind: TokenKind) -> bool
    ensures { result ≡ is_punctuation_kind kind }
{
    kind == TokenKind::Punctuation
}

// Whether no sign stands between a token and the next.
fn is_beside_next(token: Token, rest: &[Token]) -> bool
    ensures { result ≡ is_beside_next token rest.now }
{
    match rest {
        [next, ..] => !is_sign(token.kind) && !is_sign(next.kind),
        [] => false,
    }
}

// Appends how comments begin.
#[tactic(auto, unfolding(crate::specs::OperandMessages::comment_help))]
fn push_comment_help(out: &mut Text) -> Result<(), AllocError>
    ensures { OnOk result (out.new ≡ out.old ++ comment_help) }
{
    out.push(b"; one statement stands on a line, and '#' or '//' begins a comment")
}

// Appends that a comma is missing after a word.
#[tactic(auto, unfolding(crate::specs::OperandMessages::missing_comma))]
fn push_missing_comma(out: &mut Text, word: &[u8]) -> Result<(), AllocError>
    ensures { OnOk result (out.new ≡ out.old ++ missing_comma word.now) }
{
    out.push_about(b"; a comma is missing after ", word, b"")
}

// Appends where another statement or a comment is meant among tokens, or where a comma is missing.
fn push_separation(out: &mut Text, line: &[u8], mut tokens: &[Token]) -> Result<(), AllocError>
    ensures { OnOk result (out.new ≡ out.old ++ separation line.now tokens.entry.now) }
{
    'tokens: while let [token, rest @ ..] = tokens {
        let word = part(line, token.span);
        if is_foreign(word, first_word(line, rest)) {
            return push_comment_help(out);
        }
        if is_beside_next(*token, rest) {
            return push_missing_comma(out, word);
        }
        tokens = rest;
    }
    Ok(())
}

/// Where another statement or a comment is meant in a part of a line, or where a comma is missing.
#[tactic(auto, unfolding(crate::specs::OperandMessages::separation_of))]
pub fn separation_of(alloc: Global, text: &[u8]) -> Result<Text, AllocError>
    requires { length text.now ≤ 1000 }
    ensures { IfOk result (λ found. found ≡ separation_of text.now) }
{
    let Ok(tokens) = tokens(alloc, text) else {
        return Err(AllocError);
    };
    let mut found = Text::new(alloc);
    push_separation(&mut found, text, tokens.tokens())?;
    Ok(found)
}

// Whether a text begins like a number.
fn begins_number(text: &[u8]) -> bool
    ensures { result ≡ begins_number text.now }
{
    match text {
        [byte, ..] => byte.is_ascii_digit() || *byte == b'-',
        [] => false,
    }
}

// Whether a `#` with a number behind it comes next.
fn is_hash_number(mut rest: &[u8]) -> bool
    ensures { result ≡ is_hash_number rest.entry.now }
{
    'bytes: while let [byte, more @ ..] = rest {
        match *byte {
            b'#' => return begins_number(more),
            b' ' | b'\t' => rest = more,
            _ => return false,
        }
    }
    false
}

// What helps where a comment begins in the place of an operand.
fn hash_help(rest: &[u8]) -> &'static [u8]
    ensures { result.now ≡ hash_help rest.now }
{
    if is_hash_number(rest) {
        return b"; '#' begins a comment, and a number has none before it";
    }
    b""
}

// Appends what is missing before the rest of a line.
#[tactic(auto, unfolding(crate::specs::OperandMessages::expected))]
fn push_expected(out: &mut Text, what: &[u8], rest: &[u8]) -> Result<(), AllocError>
    ensures { OnOk result (out.new ≡ out.old ++ expected what.now rest.now) }
{
    out.push(what)?;
    out.push(hash_help(rest))
}

/// The registers whose names begin like a word: with its letter, and then a digit.
pub fn registers_like(word: &[u8]) -> &'static [u8]
    ensures { result.now ≡ registers_like word.now }
{
    if byte_at(word, 1).is_ascii_digit() {
        return advice(Topic::RegisterLetter, first_bytes(word, 1));
    }
    b""
}

// Whether a parenthesis is opened.
fn has_parenthesis(mut text: &[u8]) -> bool
    ensures { result ≡ has_parenthesis text.entry.now }
{
    'bytes: while let [byte, rest @ ..] = text {
        if *byte == b'(' {
            return true;
        }
        text = rest;
    }
    false
}

// What helps where a name is no register.
fn name_help(statement: &[u8], text: &[u8]) -> &'static [u8]
    ensures { result.now ≡ name_help statement.now text.now }
{
    let registers = registers_like(text);
    if registers.is_empty() {
        return advice(Topic::NameGiven, statement);
    }
    registers
}

// What helps where an operand is no register.
fn register_help(statement: &[u8], text: &[u8], first: bool) -> &'static [u8]
    ensures { result.now ≡ register_help statement.now text.now first }
{
    if first {
        return registers_like(text);
    }
    if begins_number(text) {
        return advice(Topic::NumberGiven, statement);
    }
    name_help(statement, text)
}

// Appends that an operand ends with no register in parentheses.
#[tactic(auto, unfolding(crate::specs::OperandMessages::no_base))]
fn push_no_base(out: &mut Text, text: &[u8]) -> Result<(), AllocError>
    ensures { OnOk result (out.new ≡ out.old ++ no_base text.now) }
{
    out.push_about(b"", text, b" does not end with a register in parentheses")
}

// Appends that a register stands where an address in one is wanted.
#[tactic(auto, unfolding(crate::specs::OperandMessages::no_parentheses))]
fn push_no_parentheses(out: &mut Text, text: &[u8]) -> Result<(), AllocError>
    ensures { OnOk result (out.new ≡ out.old ++ no_parentheses text.now) }
{
    out.push_about(b"", text, b" has to stand in parentheses here")
}

/// Appends that an operand is no register.
#[tactic(auto, unfolding(crate::specs::OperandMessages::no_register))]
pub fn push_no_register(out: &mut Text, text: &[u8], help: &[u8]) -> Result<(), AllocError>
    ensures { OnOk result (out.new ≡ out.old ++ no_register text.now help.now) }
{
    out.push_about(b"", text, b" is not a register")?;
    out.push(help)
}

// Appends what is wrong with an operand that is no register, and in which nothing is to be separated.
fn push_register_message(
    out: &mut Text,
    statement: &[u8],
    text: &[u8],
    parentheses: &[u8],
    first: bool,
) -> Result<(), AllocError>
    ensures { OnOk result (out.new ≡ out.old ++ register_message statement.now text.now parentheses.now first) }
{
    if !parentheses.is_empty() {
        return out.push(parentheses);
    }
    if has_parenthesis(text) {
        return push_no_base(out, text);
    }
    push_no_register(out, text, register_help(statement, text, first))
}

// Appends what is wrong with an operand that is no register.
fn push_separated(
    out: &mut Text,
    statement: &[u8],
    text: &[u8],
    separation: &[u8],
    parentheses: &[u8],
    first: bool,
) -> Result<(), AllocError>
    ensures { OnOk result (out.new ≡ out.old ++ separated_register_message statement.now text.now separation.now parentheses.now first) }
{
    if separation.is_empty() {
        return push_register_message(out, statement, text, parentheses, first);
    }
    push_no_register(out, text, separation)
}

/// An operand that is no register, at a span of a line.
pub fn push_bad_register(
    out: &mut Text,
    alloc: Global,
    line: &FaultyLine<'_>,
    span: Span,
) -> Result<(), AllocError>
    requires labels { length line.now.stmt.now.labels ≤ 1000 }
    requires text { length line.now.text.now ≤ 1000 }
    ensures { OnOk result (out.new ≡ out.old ++ bad_register (name_of_statement (line_of line.now)) (part line.now.text.now span) (drop span.to line.now.text.now) (bytes_eq (word_after_name (line_of line.now)) (part line.now.text.now span))) }
{
    let text = part(line.text, span);
    if text.is_empty() {
        let rest = bytes_from(line.text, span.to as usize);
        return push_expected(out, b"a register is expected here", rest);
    }
    if reg_by_name(text).is_some() {
        return push_no_parentheses(out, text);
    }
    let statement = name_of_statement(alloc, line)?;
    let first = word_after_name(alloc, line)? == text;
    let separation = separation_of(alloc, text)?;
    let parentheses = parentheses_of(alloc, text)?;
    push_separated(
        out,
        statement,
        text,
        separation.bytes(),
        parentheses.bytes(),
        first,
    )
}

// What helps where an operand is none that a statement takes.
fn operand_help<'a>(statement: &[u8], separation: &'a [u8]) -> &'a [u8]
    ensures { result.now ≡ operand_help statement.now separation.now }
{
    if separation.is_empty() {
        return advice(Topic::OperandGiven, statement);
    }
    separation
}

// Appends that an operand is none that a statement takes.
#[tactic(auto, unfolding(crate::specs::OperandMessages::no_operand))]
fn push_no_operand(
    out: &mut Text,
    statement: &[u8],
    text: &[u8],
    help: &[u8],
) -> Result<(), AllocError>
    ensures { OnOk result (out.new ≡ out.old ++ no_operand statement.now text.now help.now) }
{
    out.push_about(b"", text, b" is not an operand that ")?;
    out.push_about(b"", statement, b" takes here")?;
    out.push(help)
}

// Appends what is wrong with an operand that a statement does not take.
fn push_operand_message(
    out: &mut Text,
    statement: &[u8],
    text: &[u8],
    separation: &[u8],
    parentheses: &[u8],
) -> Result<(), AllocError>
    ensures { OnOk result (out.new ≡ out.old ++ operand_message statement.now text.now separation.now parentheses.now) }
{
    if separation.is_empty() && !parentheses.is_empty() {
        return out.push(parentheses);
    }
    push_no_operand(out, statement, text, operand_help(statement, separation))
}

/// An operand that a line's statement does not take, at a span.
pub fn push_bad_operand(
    out: &mut Text,
    alloc: Global,
    line: &FaultyLine<'_>,
    span: Span,
) -> Result<(), AllocError>
    requires labels { length line.now.stmt.now.labels ≤ 1000 }
    requires text { length line.now.text.now ≤ 1000 }
    ensures { OnOk result (out.new ≡ out.old ++ bad_operand (name_of_statement (line_of line.now)) (part line.now.text.now span) (drop span.to line.now.text.now)) }
{
    let text = part(line.text, span);
    if text.is_empty() {
        let rest = bytes_from(line.text, span.to as usize);
        return push_expected(out, b"an operand is expected here", rest);
    }
    let statement = name_of_statement(alloc, line)?;
    let separation = separation_of(alloc, text)?;
    let parentheses = parentheses_of(alloc, text)?;
    push_operand_message(
        out,
        statement,
        text,
        separation.bytes(),
        parentheses.bytes(),
    )
}

// Appends that a word begins no statement.
#[tactic(auto, unfolding(crate::specs::OperandMessages::no_statement))]
fn push_no_statement_at(out: &mut Text, word: &[u8], next: &[u8]) -> Result<(), AllocError>
    ensures { OnOk result (out.new ≡ out.old ++ no_statement word.now next.now) }
{
    out.push(b"an instruction or a directive is expected here")?;
    if is_foreign(word, next) {
        return push_comment_help(out);
    }
    Ok(())
}

/// A line whose body begins with no name.
pub fn push_no_statement(
    out: &mut Text,
    alloc: Global,
    line: &FaultyLine<'_>,
) -> Result<(), AllocError>
    requires labels { length line.now.stmt.now.labels ≤ 1000 }
    requires text { length line.now.text.now ≤ 1000 }
    ensures { OnOk result (out.new ≡ out.old ++ no_statement (name_of_statement (line_of line.now)) (word_after_name (line_of line.now))) }
{
    let word = name_of_statement(alloc, line)?;
    let next = word_after_name(alloc, line)?;
    push_no_statement_at(out, word, next)
}

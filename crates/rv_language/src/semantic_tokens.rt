//! What the tokens of a text are, for an editor that colors them.

ghost use Rattle.std.specs.Prelude.{◌≤◌, length};

use crate::comments::comment_in;
use crate::name_uses::Expected;
use crate::names::{is_use, text_of};
use crate::new_names::is_register;
use crate::typed::Typed;
use rv_diagnostics::{Context, Message, Part};
use rv_doc::{Encoding, column_of};
use rv_list::{DefinitionPlace, LineSource, LineView, View};
use rv_show::part;
use rv_stmt::Body;
use rv_text::{Span, Token, TokenKind, tokens};
use std::alloc::AllocError;

/// What a token can be. (Language Server Protocol 3.17, SemanticTokenTypes)
pub const TOKEN_TYPES: [Part<'static>; 9] = [
    Part::Text("keyword"),
    Part::Text("macro"),
    Part::Text("variable"),
    Part::Text("function"),
    Part::Text("enumMember"),
    Part::Text("number"),
    Part::Text("string"),
    Part::Text("operator"),
    Part::Text("comment"),
];

// The places in that list: of the name of an instruction, and of a directive; of a register; of a label, and of the symbol of an `.equ`; of a
// number, of a string or a character, of an operator or a modifier, and of a comment.
const KEYWORD: u64 = 0;

const MACRO: u64 = 1;

const VARIABLE: u64 = 2;

const FUNCTION: u64 = 3;

const CONSTANT: u64 = 4;

const NUMBER: u64 = 5;

const STRING: u64 = 6;

const OPERATOR: u64 = 7;

const COMMENT: u64 = 8;

// Where the token before begins, from which the next one is told.
#[derive(Clone, Copy)]
struct Before {
    line: u32,
    column: u32,
}

// How far the columns of a line are counted: up to so many bytes.
#[derive(Clone, Copy)]
struct Counted {
    bytes: u32,
    columns: u32,
}

impl Counted {
    // Counts on to a place that is not before.
    fn up_to(self, encoding: Encoding, text: &[u8], bytes: u32) -> Counted
        requires { length text.now ≤ 1000 }
    {
        let between = part(
            text,
            Span {
                from: self.bytes,
                to: bytes,
            },
        );
        Counted {
            bytes,
            columns: self.columns.saturating_add(column_of(encoding, between)),
        }
    }
}

// Writes a token of a line, by its number from 0 on: where it begins behind the one before, how long it is, and what it is. Gives the columns up to
// its end.
fn put_token(
    m: &mut Message,
    before: &mut Before,
    counted: Counted,
    encoding: Encoding,
    line: u32,
    text: &[u8],
    span: Span,
    kind: u64,
) -> Result<Counted, AllocError>
    requires { length text.now ≤ 1000 }
{
    let begin = counted.up_to(encoding, text, span.from);
    let end = begin.up_to(encoding, text, span.to);
    let column = begin.columns;
    let down = line.saturating_sub(before.line);
    let across = if down == 0 {
        column.saturating_sub(before.column)
    } else {
        column
    };
    *before = Before { line, column };
    let length = end.columns.saturating_sub(column);
    m.numbers(&[
        u64::from(down),
        u64::from(across),
        u64::from(length),
        kind,
        0,
    ])?;
    Ok(end)
}

// What a name in an operand is.
fn name_type<V: View>(view: &V, name: &[u8]) -> u64 {
    match view.definition(name) {
        DefinitionPlace::Equ(_) => CONSTANT,
        DefinitionPlace::Label(_, _) | DefinitionPlace::Nowhere => FUNCTION,
    }
}

// Whether it is the symbol of an `.equ` that stands there.
fn is_defined(body: &Body, span: Span) -> bool {
    match body {
        Body::Equ(definition) => definition.span.from == span.from,
        _ => false,
    }
}

// What an identifier is that is no name of a symbol.
fn word_type(expected: Expected, word: &[u8]) -> Option<u64> {
    match expected {
        Expected::Statement => Some(if word.starts_with(b".") {
            MACRO
        } else {
            KEYWORD
        }),
        Expected::Modifier => Some(OPERATOR),
        Expected::Operand | Expected::Sign | Expected::Base => {
            if is_register(word) {
                Some(VARIABLE)
            } else {
                None
            }
        }
    }
}

// What a token is that belongs to no label, by what stands before it.
fn token_type<V: View>(
    view: &V,
    body: &Body,
    typed: &Typed<'_>,
    token: &Token,
    text: &[u8],
) -> Option<u64> {
    match token.kind {
        TokenKind::Identifier => {
            if is_use(typed, token, text, body) {
                Some(name_type(view, text))
            } else if is_defined(body, token.span) {
                Some(CONSTANT)
            } else {
                word_type(typed.expected, text)
            }
        }
        TokenKind::Number => Some(NUMBER),
        TokenKind::Local => Some(FUNCTION),
        TokenKind::Str | TokenKind::Char => Some(STRING),
        TokenKind::Punctuation => match text {
            b"," | b":" | b"(" | b")" => None,
            _ => Some(OPERATOR),
        },
    }
}

/// Whether a token that belongs to no label is the name of an instruction or a directive, or a register, by what stands before it.
pub fn is_of_language<V: View>(
    view: &V,
    body: &Body,
    typed: &Typed<'_>,
    token: &Token,
    text: &[u8],
) -> bool {
    matches!(
        token_type(view, body, typed, token, text),
        Some(KEYWORD | MACRO | VARIABLE)
    )
}

// What a token of a label is.
fn label_type(kind: TokenKind) -> Option<u64> {
    if kind == TokenKind::Punctuation {
        None
    } else {
        Some(FUNCTION)
    }
}

// Writes the tokens of a line, by its number from 0 on.
fn put_line<V: View>(
    m: &mut Message,
    before: &mut Before,
    context: &Context<'_>,
    view: &V,
    number: u32,
    line: &LineView<'_>,
) -> Result<(), AllocError> {
    let encoding = context.encoding;
    let text = text_of(line);
    let Ok(found) = tokens(context.alloc, text) else {
        return Err(AllocError);
    };
    let mut labels = line.stmt.labels.len().saturating_mul(2);
    let mut typed = Typed::beginning();
    let mut counted = Counted {
        bytes: 0,
        columns: 0,
    };
    let mut left = found.tokens();
    'tokens: while let [token, later @ ..] = left {
        let bytes = part(text, token.span);
        let kind = if labels > 0 {
            label_type(token.kind)
        } else {
            token_type(view, &line.stmt.body, &typed, token, bytes)
        };
        if let Some(kind) = kind {
            counted = put_token(m, before, counted, encoding, number, text, token.span, kind)?;
        }
        labels = labels.saturating_sub(1);
        typed = typed.behind(token, bytes);
        left = later;
    }
    if let Some(span) = comment_in(text, &found) {
        put_token(m, before, counted, encoding, number, text, span, COMMENT)?;
    }
    Ok(())
}

/// Writes the tokens of the lines from number `from` on and before number `to`, both from 0 on.
///
/// # Errors
///
/// `AllocError` if there is no memory for them.
pub fn put_semantic_tokens<V: View>(
    m: &mut Message,
    context: &Context<'_>,
    view: &V,
    from: u32,
    to: u32,
) -> Result<(), AllocError> {
    let mut before = Before { line: 0, column: 0 };
    m.put_all(&[Part::BeginObject, Part::Key("data"), Part::BeginArray])?;
    let mut lines = view.lines();
    for k in 0..view.line_count().min(to) {
        lines.advance();
        if k >= from {
            put_line(m, &mut before, context, view, k, &lines.line())?;
        }
    }
    m.put_all(&[Part::EndArray, Part::EndObject])
}

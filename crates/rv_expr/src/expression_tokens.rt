//! What a token is in an expression.

ghost use Rattle.std.specs.Prelude.{◌≡◌, ℕ, pos, ◌+◌, ◌<◌, ◌∷◌, length, map, option_map};
ghost use Rattle.rv_text.specs.Strings.{escaped_at};
ghost use Rattle.rv_expr.specs.ReaderState.{primary_tree, expression_token_role};
ghost use Rattle.rv_expr.specs.Reading.{run_of};
ghost use Rattle.rv_expr.specs.TokenRoles.{binary_operator, direction, label_number, local_operand, operand_text, token_role, token_role_of_text, token_role_of_punctuation, unary_operator, identifier_operand};

use crate::tree::{BinaryOp, Direction, UnaryOp};
use rv_text::{TokenKind, Tokens, digits, escaped, number};

/// A token that is an operand by itself.
#[derive(Clone, Copy)]
pub enum Primary<'a> {
    /// A number or a character.
    Number(i64),
    /// The name of a symbol.
    Symbol(&'a [u8]),
    /// A local label, by its number and where it is looked for.
    Local(u16, Direction),
    /// `.`
    Here,
}

/// What a token is in an expression.
#[derive(Clone, Copy)]
pub enum ExpressionToken<'a> {
    /// An operand.
    Operand(Primary<'a>),
    /// The operator that it is before an operand, and the one that it is between two. Neither, where it is no part of
    /// an expression.
    Operator(Option<UnaryOp>, Option<BinaryOp>),
    /// `(`
    Open,
    /// `)`
    Close,
}

// Where a letter says that a local label is looked for.
fn direction(letter: u8) -> Option<Direction>
    ensures { result ≡ direction letter }
{
    match letter {
        b'b' => Some(Direction::Back),
        b'f' => Some(Direction::Forward),
        _ => None,
    }
}

/// The number of a local label, which decimal digits spell; none where it is 2^16 or more, as that of no label is.
pub fn label_number(text: &[u8]) -> Option<u16>
    ensures { result ≡ label_number text.now }
{
    u16::try_from(digits(10, text)?).ok()
}

// A local label.
fn local<'a>(text: &[u8]) -> Option<Primary<'a>>
    ensures { local_operand text.now ≡ option_map primary_tree result }
{
    let [number @ .., letter] = text else {
        return None;
    };
    let direction = direction(*letter)?;
    Some(Primary::Local(label_number(number)?, direction))
}

// A symbol, or `.`.
fn identifier(text: &[u8]) -> Primary<'_>
    ensures { identifier_operand text.now ≡ primary_tree result }
{
    match text {
        [b'.'] => Primary::Here,
        _ => Primary::Symbol(text),
    }
}

// A character, as the number of its byte.
fn character(text: &[u8]) -> Option<i64>
    ensures { result ≡ option_map (λ p. pos p.0) (escaped_at text.now 1) }
{
    let (byte, _) = escaped(text, 1)?;
    Some(i64::from(byte))
}

// The operand that a token is by itself.
fn operand_text(kind: TokenKind, text: &[u8]) -> Option<Primary<'_>>
    ensures { operand_text kind text.now ≡ option_map primary_tree result }
{
    match kind {
        TokenKind::Identifier => Some(identifier(text)),
        TokenKind::Number => Some(Primary::Number(number(text)?)),
        TokenKind::Local => local(text),
        TokenKind::Char => Some(Primary::Number(character(text)?)),
        TokenKind::Str | TokenKind::Punctuation => None,
    }
}

// The operator that a sign is before an operand.
fn unary(text: &[u8]) -> Option<UnaryOp>
    ensures { result ≡ unary_operator text.now }
{
    match text {
        [b'-'] => Some(UnaryOp::Neg),
        [b'~'] => Some(UnaryOp::Not),
        _ => None,
    }
}

// The operator that a sign is between two operands.
fn binary(text: &[u8]) -> Option<BinaryOp>
    ensures { result ≡ binary_operator text.now }
{
    match text {
        [b'*'] => Some(BinaryOp::Mul),
        [b'/'] => Some(BinaryOp::Div),
        [b'%'] => Some(BinaryOp::Rem),
        [b'<', b'<'] => Some(BinaryOp::Shl),
        [b'>', b'>'] => Some(BinaryOp::Shr),
        [b'&'] => Some(BinaryOp::And),
        [b'|'] => Some(BinaryOp::Or),
        [b'^'] => Some(BinaryOp::Xor),
        [b'+'] => Some(BinaryOp::Add),
        [b'-'] => Some(BinaryOp::Sub),
        _ => None,
    }
}

// What a sign is.
fn punctuation<'a>(text: &[u8]) -> ExpressionToken<'a>
    ensures { token_role_of_punctuation text.now ≡ expression_token_role result }
{
    match text {
        [b'('] => ExpressionToken::Open,
        [b')'] => ExpressionToken::Close,
        _ => ExpressionToken::Operator(unary(text), binary(text)),
    }
}

// What a token of this kind and text is.
fn expression_token_of_text(kind: TokenKind, text: &[u8]) -> ExpressionToken<'_>
    ensures { token_role_of_text kind text.now ≡ expression_token_role result }
{
    match kind {
        TokenKind::Punctuation => punctuation(text),
        _ => match operand_text(kind, text) {
            Some(operand) => ExpressionToken::Operand(operand),
            None => ExpressionToken::Operator(None, None),
        },
    }
}

// What the token number `k` is.
pub(crate) fn expression_token_at<'a>(tokens: &Tokens<'a>, k: usize) -> ExpressionToken<'a>
    requires { k < length tokens.now.tokens }
    ensures { (to : ℕ) → k < to
        → map token_role (run_of tokens.now k to) ≡ expression_token_role result ∷ map token_role (run_of tokens.now (k + 1) to) }
{
    expression_token_of_text(tokens.tokens()[k].kind, tokens.text(k))
}

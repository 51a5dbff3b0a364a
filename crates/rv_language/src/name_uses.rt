//! Where names stand among the tokens of a line's operands.

ghost use Rattle.std.specs.Prelude.{◌≡◌};
ghost use Rattle.rv_language.specs.NameUses.{after_identifier, after_sign, expected_after, is_name};

use rv_text::TokenKind;

/// What may come next in a line.
#[derive(Clone, Copy)]
pub enum Expected {
    /// A label, or the name of an instruction or a directive.
    Statement,
    /// An operand, or a part of one.
    Operand,
    /// What stands behind an operand.
    Sign,
    /// The name of a modifier.
    Modifier,
    /// The register of an address.
    Base,
}

// What may come behind a sign.
fn after_sign(expected: Expected, sign: &[u8]) -> Expected
    ensures { result ≡ after_sign expected sign.now }
{
    if sign == b":".as_slice() {
        Expected::Statement
    } else if sign == b")".as_slice() {
        Expected::Sign
    } else if sign == b"(".as_slice() && matches!(expected, Expected::Sign) {
        Expected::Base
    } else if sign == b"%".as_slice() && matches!(expected, Expected::Operand) {
        Expected::Modifier
    } else {
        Expected::Operand
    }
}

// What may come behind an identifier.
fn after_identifier(expected: Expected) -> Expected
    ensures { result ≡ after_identifier expected }
{
    match expected {
        Expected::Statement | Expected::Modifier => Expected::Operand,
        Expected::Operand | Expected::Sign | Expected::Base => Expected::Sign,
    }
}

/// What may come behind a token.
pub fn expected_after(expected: Expected, kind: TokenKind, text: &[u8]) -> Expected
    ensures { result ≡ expected_after expected kind text.now }
{
    match kind {
        TokenKind::Punctuation => after_sign(expected, text),
        TokenKind::Identifier => after_identifier(expected),
        TokenKind::Number | TokenKind::Local | TokenKind::Str | TokenKind::Char => Expected::Sign,
    }
}

/// Whether a token may be the name of a symbol or of a local label.
pub fn is_name(expected: Expected, kind: TokenKind, text: &[u8]) -> bool
    ensures { result ≡ is_name expected kind text.now }
{
    match kind {
        TokenKind::Identifier => matches!(expected, Expected::Operand) && text != b".".as_slice(),
        TokenKind::Local => matches!(expected, Expected::Operand),
        TokenKind::Number | TokenKind::Str | TokenKind::Char | TokenKind::Punctuation => false,
    }
}

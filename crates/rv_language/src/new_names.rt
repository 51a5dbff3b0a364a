//! The names that a symbol can get.

ghost use Rattle.std.specs.Prelude.{◌≡◌, ◌≤◌, IfOk, length};
ghost use Rattle.rv_language.specs.NewNames.{is_identifier, is_register, is_symbol_name, is_whole};

use rv_ops::{csr_by_name, reg_by_name};
use rv_text::{MAX_LINE_LENGTH, Token, TokenKind, tokens};
use std::alloc::{AllocError, Global};

// Whether a token is an identifier that is all of a line of so many bytes.
fn is_whole(token: &Token, length: usize) -> bool
    ensures { result ≡ is_whole length token.now.kind token.now.span }
{
    match token.kind {
        TokenKind::Identifier => token.span.from == 0 && token.span.to as usize == length,
        TokenKind::Number
        | TokenKind::Local
        | TokenKind::Str
        | TokenKind::Char
        | TokenKind::Punctuation => false,
    }
}

// Whether a line is one identifier other than `.`.
fn is_identifier(alloc: Global, line: &[u8]) -> Result<bool, AllocError>
    requires { length line.now ≤ 1000 }
    ensures { IfOk result (λ is. is ≡ is_identifier line.now) }
{
    let Ok(found) = tokens(alloc, line) else {
        return Err(AllocError);
    };
    if line == b".".as_slice() {
        return Ok(false);
    }
    match found.tokens() {
        [token] => Ok(is_whole(token, line.len())),
        _ => Ok(false),
    }
}

/// Whether a name is that of a register, or of a control and status register.
pub fn is_register(name: &[u8]) -> bool
    ensures { result ≡ is_register name.now }
{
    reg_by_name(name).is_some() || csr_by_name(name).is_some()
}

/// Whether a symbol can get a name: it is an identifier other than `.`, and no register.
///
/// # Errors
///
/// `AllocError` if there is no memory for its tokens.
pub fn is_symbol_name(alloc: Global, name: &[u8]) -> Result<bool, AllocError>
    ensures { IfOk result (λ is. is ≡ is_symbol_name name.now) }
{
    if name.len() > MAX_LINE_LENGTH || is_register(name) {
        return Ok(false);
    }
    is_identifier(alloc, name)
}

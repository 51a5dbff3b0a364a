//! What is wrong with the parentheses of an operand.

ghost use Rattle.std.specs.Prelude.{◌≡◌, ◌≤◌, ◌++◌, length, IfOk, OnOk};
ghost use Rattle.rv_report.specs.OperandMessages.{base_in, base_message, has_word, parentheses_of, parenthesis_message};

use crate::operand_messages::{first_word, push_no_register, registers_like};
use rv_ops::reg_by_name;
use rv_show::{Text, part};
use rv_text::{Token, tokens};
use std::alloc::{AllocError, Global};

// Whether a word is one of some tokens.
fn has_word(word: &[u8], line: &[u8], mut tokens: &[Token]) -> bool
    ensures { result ≡ has_word word.now line.now tokens.entry.now }
{
    'tokens: while let [token, rest @ ..] = tokens {
        if part(line, token.span) == word {
            return true;
        }
        tokens = rest;
    }
    false
}

// The word in parentheses that ends some tokens, unless the parentheses are those of a modifier.
fn base_in<'a>(line: &'a [u8], mut tokens: &[Token]) -> &'a [u8]
    ensures { result.now ≡ base_in line.now tokens.entry.now }
{
    'tokens: while let [token, rest @ ..] = tokens {
        let word = part(line, token.span);
        if word == b"(".as_slice() && rest.len() == 2 {
            return first_word(line, rest);
        }
        if word == b"%".as_slice() && rest.len() == 4 {
            return b"";
        }
        tokens = rest;
    }
    b""
}

// Appends that a word is like a register, and is none.
fn push_base_message(out: &mut Text, word: &[u8]) -> Result<(), AllocError>
    ensures { OnOk result (out.new ≡ out.old ++ base_message word.now) }
{
    let registers = registers_like(word);
    if reg_by_name(word).is_some() || registers.is_empty() {
        return Ok(());
    }
    push_no_register(out, word, registers)
}

// Appends what is wrong with the parentheses of some tokens.
fn push_parenthesis_message(out: &mut Text, line: &[u8], tokens: &[Token]) -> Result<(), AllocError>
    ensures { OnOk result (out.new ≡ out.old ++ parenthesis_message line.now tokens.now) }
{
    if has_word(b"(", line, tokens) && !has_word(b")", line, tokens) {
        return out.push(b"a ')' is missing");
    }
    push_base_message(out, base_in(line, tokens))
}

/// What is wrong with the parentheses of an operand, and with the register in them.
#[tactic(auto, unfolding(crate::specs::OperandMessages::parentheses_of))]
pub fn parentheses_of(alloc: Global, text: &[u8]) -> Result<Text, AllocError>
    requires { length text.now ≤ 1000 }
    ensures { IfOk result (λ found. found ≡ parentheses_of text.now) }
{
    let Ok(tokens) = tokens(alloc, text) else {
        return Err(AllocError);
    };
    let mut found = Text::new(alloc);
    push_parenthesis_message(&mut found, text, tokens.tokens())?;
    Ok(found)
}

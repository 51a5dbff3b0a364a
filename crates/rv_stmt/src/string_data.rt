//! Reads the strings of a directive.

ghost use Rattle.std.specs.Prelude.{◌≡◌, [], ◌++◌, option_map, Ok, IfOk, OnOk};
ghost use Rattle.rv_text.specs.Strings.{string_content};
ghost use Rattle.rv_stmt.specs.Readings.{and_then};
ghost use Rattle.rv_stmt.specs.Strings.{one_string, string_in, with_strings};

use crate::reading::Outcome;
use crate::runs::Run;
use crate::token_range::TokenRange;
use rv_text::{Fault, FaultNumber, Sequence, TokenKind, escaped};
use std::alloc::{AllocError, Global};

// The text of the one string that some tokens are, with its quotes.
fn one_string<'a>(run: &TokenRange<'a>) -> Option<&'a [u8]>
    ensures { option_map (λ text. text.now) result ≡ one_string run.now }
{
    if run.len() != 1 {
        return None;
    }
    let token = run.token_at(0)?;
    match token.kind {
        TokenKind::Str => Some(token.text),
        _ => None,
    }
}

// The text of the string that an operand is, with its quotes.
fn string_in<'a>(run: &Run<'a>) -> Result<&'a [u8], Fault>
    ensures { and_then result (λ text. Ok text.now) ≡ string_in run.now }
{
    run.operand(one_string(&run.tokens).ok_or(FaultNumber::BadOperand))
}

// Appends the bytes that a string stands for.
fn push_content(bytes: &mut Sequence<u8>, text: &[u8]) -> Result<(), AllocError>
    ensures { OnOk result (bytes.new ≡ bytes.old ++ string_content text.now) }
{
    let mut place = 1;
    while let Some((byte, next)) = escaped(text, place) {
        bytes.push(byte)?;
        place = next;
    }
    Ok(())
}

// Appends bytes.
fn push_bytes(bytes: &mut Sequence<u8>, mut more: &[u8]) -> Result<(), AllocError>
    ensures { OnOk result (bytes.new ≡ bytes.old ++ more.entry.now) }
{
    while let [byte, rest @ ..] = more {
        bytes.push(*byte)?;
        more = rest;
    }
    Ok(())
}

// Appends the bytes that a string stands for, and an end.
fn push_string(bytes: &mut Sequence<u8>, text: &[u8], end: &[u8]) -> Result<(), AllocError>
    ensures { OnOk result (bytes.new ≡ (bytes.old ++ string_content text.now) ++ end.now) }
{
    push_content(bytes, text)?;
    push_bytes(bytes, end)
}

/// The bytes of the strings that are the operands, with an end after each.
pub fn strings(alloc: Global, end: &[u8], mut runs: &[Run<'_>]) -> Outcome<Sequence<u8>>
    ensures { IfOk result (λ r. r ≡ with_strings end.now runs.entry.now []) }
{
    let mut bytes = Sequence::new(alloc);
    while let [run, rest @ ..] = runs {
        match string_in(run) {
            Ok(text) => push_string(&mut bytes, text, end)?,
            Err(fault) => return Ok(Err(fault)),
        }
        runs = rest;
    }
    Ok(Ok(bytes))
}

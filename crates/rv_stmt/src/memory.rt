//! Operands in memory: `offset(register)`.

ghost use Rattle.std.specs.Prelude.{◌≡◌, ◌+◌, ◌-◌, ◌<◌, ◌≤◌, ◌^◌, IfOk, IfSome, option_map, length, take, drop};
ghost use Rattle.rv_text.specs.Numbers.{number_of};
ghost use Rattle.rv_stmt.specs.Values.{modified_value};
ghost use Rattle.rv_stmt.specs.Memory.{base_at, base_of, offset, closed_within, group_from, group_of, base_after, modified_memory, plain_memory, memory, is_zero_value, is_zero_of_kind, is_no_offset, base_behind, bare_base};

use crate::operand::OperandValue;
use crate::reading::{Attempt, Reading};
use crate::registers::Accepted;
use crate::token_range::{Lexeme, TokenRange};
use crate::values::{modified_value, plain};
use rv_expr::depth_after;
use rv_ops::{Reg, Shape, reg_by_name};
use rv_text::{FaultNumber, TokenKind, number};
use std::alloc::Global;

/// A place in memory: the offset from a register, which may be absent.
#[derive(Drop)]
pub struct Located {
    pub base: Reg,
    pub offset: Option<OperandValue>,
}

// The register between `(` and `)` from a place on.
fn base_at(run: &TokenRange<'_>, place: usize) -> Option<Reg>
    requires { place + 2 < 2 ^ 64 }
    ensures { result ≡ base_at run.now place }
{
    if !(run.punctuation_at(b"(", place) && run.punctuation_at(b")", place + 2)) {
        return None;
    }
    let name = run.identifier_at(place + 1)?;
    reg_by_name(name)
}

/// The register in parentheses at the end of some tokens.
pub fn base_of(run: &TokenRange<'_>) -> Option<Reg>
    ensures { result ≡ base_of run.now }
{
    let length = run.len();
    if length < 3 {
        return None;
    }
    base_at(run, length - 3)
}

// How many tokens there are up to the parenthesis that closes the first.
fn closed_within(run: &TokenRange<'_>) -> Option<usize>
    ensures value { result ≡ closed_within 0 run.now }
    ensures within { IfSome result (λ n. n ≤ length run.now) }
{
    let mut rest = run.skip(0);
    let mut depth = 0;
    let mut length = 0;
    while let Some((token, after)) = rest.split_first() {
        depth = depth_after(depth, token.kind, token.text);
        length += 1;
        if depth == 0 {
            return Some(length);
        }
        rest = after;
    }
    None
}

// How many tokens there are up to the parenthesis that closes the one at a place.
#[tactic(auto, using(crate::proofs::Ranges::length_after))]
fn group_from(run: &TokenRange<'_>, place: usize) -> Option<usize>
    requires { place ≤ 2 }
    ensures value { result ≡ group_from run.now place }
    ensures within { IfSome result (λ n. n ≤ length run.now) }
{
    if !run.punctuation_at(b"(", place) {
        return None;
    }
    Some(place + closed_within(&run.skip(place))?)
}

// How many tokens a modifier has with its parentheses: `%`, a name if there is one, and up to the parenthesis that
// closes the first.
fn group_of(run: &TokenRange<'_>) -> Option<usize>
    ensures value { result ≡ group_of run.now }
    ensures within { IfSome result (λ n. n ≤ length run.now) }
{
    if run.identifier_at(1).is_some() {
        group_from(run, 2)
    } else {
        group_from(run, 1)
    }
}

// The register in parentheses after a modifier, if nothing else follows.
fn base_after(run: &TokenRange<'_>, place: usize) -> Option<Reg>
    ensures { result ≡ base_after run.now place }
{
    let length = run.len();
    if length < 3 || length - 3 != place {
        return None;
    }
    base_at(run, place)
}

// The offset before a base; none where nothing stands there.
fn offset(alloc: Global, run: &TokenRange<'_>) -> Attempt<Option<OperandValue>>
    ensures { IfOk result (λ r. r ≡ offset run.now) }
{
    if run.len() == 0 {
        return Ok(Ok(None));
    }
    Ok(plain(alloc, run)?.map(Some))
}

// The value with a modifier that the first tokens are.
fn first_value(
    alloc: Global,
    shape: Shape,
    run: &TokenRange<'_>,
    count: usize,
) -> Attempt<OperandValue>
    requires { count ≤ length run.now }
    ensures { IfOk result (λ r. r ≡ modified_value shape (take count run.now)) }
{
    modified_value(alloc, shape, &run.part(0, count))
}

// A place in memory whose offset has a modifier.
fn modified_memory(
    alloc: Global,
    shape: Shape,
    accepted: Accepted,
    run: &TokenRange<'_>,
) -> Attempt<Located>
    ensures { IfOk result (λ r. r ≡ modified_memory shape accepted run.now) }
{
    let Some(length) = group_of(run) else {
        return Ok(Err(FaultNumber::BadRegister));
    };
    let base = match accepted.check(base_after(run, length)) {
        Ok(base) => base,
        Err(fault) => return Ok(Err(fault)),
    };
    match first_value(alloc, shape, run, length)? {
        Ok(value) => Ok(Ok(Located {
            base,
            offset: Some(value),
        })),
        Err(fault) => Ok(Err(fault)),
    }
}

// A place in memory whose offset has no modifier.
fn plain_memory(alloc: Global, accepted: Accepted, run: &TokenRange<'_>) -> Attempt<Located>
    ensures { IfOk result (λ r. r ≡ plain_memory accepted run.now) }
{
    let base = match accepted.check(base_of(run)) {
        Ok(base) => base,
        Err(fault) => return Ok(Err(fault)),
    };
    let before = run.part(0, run.len().saturating_sub(3));
    match offset(alloc, &before)? {
        Ok(offset) => Ok(Ok(Located { base, offset })),
        Err(fault) => Ok(Err(fault)),
    }
}

/// The place in memory that some tokens are: `offset(register)`, where the register is one of those accepted and the
/// offset has a modifier that the shape takes, or none.
pub fn memory(
    alloc: Global,
    shape: Shape,
    accepted: Accepted,
    run: &TokenRange<'_>,
) -> Attempt<Located>
    ensures { IfOk result (λ r. r ≡ memory shape accepted run.now) }
{
    if run.punctuation_at(b"%", 0) {
        modified_memory(alloc, shape, accepted, run)
    } else {
        plain_memory(alloc, accepted, run)
    }
}

// Whether a number has the value 0.
fn is_zero_number(text: &[u8]) -> bool
    ensures { result ≡ is_zero_value (number_of text.now) }
{
    match number(text) {
        Some(value) => value == 0,
        None => false,
    }
}

// Whether a token is a number whose value is 0.
fn is_zero(token: &Lexeme<'_>) -> bool
    ensures { result ≡ is_zero_of_kind token.now.kind token.now.text }
{
    match token.kind {
        TokenKind::Number => is_zero_number(token.text),
        _ => false,
    }
}

// Whether nothing stands before a base, or a number alone whose value is 0.
fn is_no_offset(run: &TokenRange<'_>) -> bool
    ensures { result ≡ is_no_offset run.now }
{
    match run.split_first() {
        None => true,
        Some((token, rest)) => rest.len() == 0 && is_zero(&token),
    }
}

// Whether nothing stands before the base at the end, or a number alone whose value is 0.
fn has_no_offset(run: &TokenRange<'_>) -> bool
    ensures { result ≡ is_no_offset (take (length run.now - 3) run.now) }
{
    is_no_offset(&run.part(0, run.len().saturating_sub(3)))
}

// The base after an offset with a modifier, or a plain one.
fn base_behind(run: &TokenRange<'_>) -> Option<Reg>
    ensures { result ≡ base_behind run.now }
{
    if run.punctuation_at(b"%", 0) {
        base_after(run, group_of(run)?)
    } else {
        base_of(run)
    }
}

/// The register that holds an address, `(register)` or `0(register)`, if it is one of those accepted.
pub fn bare_base(accepted: Accepted, run: &TokenRange<'_>) -> Reading<Reg>
    ensures { result ≡ bare_base accepted run.now }
{
    let base = accepted.check(base_behind(run))?;
    if has_no_offset(run) {
        Ok(base)
    } else {
        Err(FaultNumber::BadOperand)
    }
}

//! Cuts the tokens after a name into runs at commas.

ghost use Rattle.std.specs.Prelude.{◌≡◌, ◌+◌, ◌-◌, ◌&&◌, ◌==◌, codes, ◌<◌, ◌≤◌, ◌^◌, [], ◌∷◌, drop, length, map, IfOk};
ghost use Rattle.rv_text.specs.declared.lexeme.Span.{Span};
ghost use Rattle.rv_text.specs.Lexing.{spelled_tokens};
ghost use Rattle.rv_stmt.specs.FirstRun.{run_length, run_end, runs_after};
ghost use Rattle.rv_stmt.specs.Operands.{reported_at, operand_of_run};
ghost use Rattle.rv_stmt.specs.Runs.{runs_from, runs_of};
ghost use Rattle.rv_stmt.specs.Tokens.{is_punctuation};

use crate::reading::Reading;
use crate::token_range::{Lexeme, TokenRange};
use rv_expr::depth_after;
use rv_text::{Fault, FaultNumber, Span, Tokens};
use std::alloc::{AllocError, Global};

/// The tokens between two commas, with the span from the first to the last. The span of no tokens is empty, at the
/// end of the token before them.
#[derive(Drop)]
pub struct Run<'a> {
    pub tokens: TokenRange<'a>,
    pub span: Span,
}

// What some tokens are read as, with a fault reported at their span.
fn reported_at<T>(span: Span, reading: Reading<T>) -> Result<T, Fault>
    ensures { result ≡ reported_at span reading }
{
    reading.map_err(|number| Fault { number, span })
}

impl Run<'_> {
    /// What the run is read as. More than 64 open parentheses at one place are a fault whatever else the run is.
    pub fn operand<T: Drop>(&self, reading: Reading<T>) -> Result<T, Fault>
        ensures { result ≡ operand_of_run self.now reading }
    {
        if self.tokens.is_deep() {
            return reported_at(self.span, Err(FaultNumber::TooDeep));
        }
        reported_at(self.span, reading)
    }
}

// Whether a token is a comma outside parentheses.
fn ends_run(depth: usize, token: &Lexeme<'_>) -> bool
    ensures { result ≡ (is_punctuation (codes ",") token.now && depth == 0) }
{
    token.is_punctuation(b",") && depth == 0
}

// How many tokens stand before the next comma outside parentheses, and where they end; `before` is the end of the
// token before them.
fn run_extent(tokens: &TokenRange<'_>, before: u32) -> (usize, u32)
    ensures length { result.0 ≡ run_length 0 tokens.now }
    ensures end { result.1 ≡ run_end before 0 tokens.now }
{
    let mut rest = tokens.skip(0);
    let mut end = before;
    let mut depth = 0;
    let mut length = 0;
    while let Some((token, after)) = rest.split_first() {
        if ends_run(depth, &token) {
            return (length, end);
        }
        depth = depth_after(depth, token.kind, token.text);
        end = token.span.to;
        length += 1;
        rest = after;
    }
    (length, end)
}

// The run at the start of some tokens, and what follows it, from its comma on.
#[tactic(auto, using(crate::proofs::RunLemmas::first_run, crate::proofs::RunLemmas::run_length_within))]
fn next_run<'a>(tokens: &TokenRange<'a>, end: u32) -> (Run<'a>, TokenRange<'a>)
    ensures runs { runs_from end 0 tokens.now ≡ result.0 ∷ runs_after result.1 }
    ensures shorter { length result.1 ≤ length tokens.now }
{
    let (length, to) = run_extent(tokens, end);
    let from = match tokens.token_at(0) {
        Some(first) if length > 0 => first.span.from,
        _ => end,
    };
    let run = Run {
        tokens: tokens.part(0, length),
        span: Span { from, to },
    };
    (run, tokens.skip(length))
}

/// The runs of some tokens, cut at the commas outside parentheses; `before` is the end of the token before them.
/// No tokens are no run.
pub fn runs<'a>(
    alloc: Global,
    tokens: &TokenRange<'a>,
    before: u32,
) -> Result<Vec<Run<'a>>, AllocError>
    ensures { IfOk result (λ runs. runs.items ≡ runs_of before tokens.now) }
{
    let mut runs = Vec::new(alloc);
    if tokens.len() == 0 {
        return Ok(runs);
    }
    let mut rest = tokens.skip(0);
    let mut end = before;
    loop {
        let (run, after) = next_run(&rest, end);
        runs.push(run)?;
        let Some((comma, after)) = after.split_first() else {
            return Ok(runs);
        };
        end = comma.span.to;
        rest = after;
    }
}

/// How many operands the tokens from a place on are, where the tokens after the name of a statement begin there.
///
/// # Errors
///
/// `AllocError` if there is no memory for the operands.
#[tactic(auto, using(crate::proofs::StatementLemmas::all_spelled_tokens, rv_text::specs::TokenLaws::count_of_spelled_tokens))]
pub fn operands_from(alloc: Global, tokens: &Tokens<'_>, place: usize) -> Result<usize, AllocError>
    requires { length tokens.now.tokens < 2 ^ 31 }
    ensures { IfOk result (λ n. n ≡ length (runs_of 0 (drop place (spelled_tokens tokens.now)))) }
{
    let line = TokenRange::new(tokens, 0, tokens.tokens().len());
    let runs = runs(alloc, &line.skip(place), 0)?;
    Ok(runs.len())
}

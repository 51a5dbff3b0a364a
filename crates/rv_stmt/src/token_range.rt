//! Tokens of a line that stand side by side.

ghost use Rattle.std.specs.Prelude.{◌≡◌, ◌≤◌, ◌<◌, ◌^◌, [], ◌∷◌, length, drop, option_map, slice_range, Some, IfSome, IfNone, IfOk, IfErr};
ghost use Rattle.std.specs.List.{slice_get};
ghost use Rattle.rv_expr.specs.Depth.{depth_of};
ghost use Rattle.rv_expr.specs.Reading.{run_of, expression_of};
ghost use Rattle.rv_expr.specs.Refusals.{Refuses};
ghost use Rattle.rv_stmt.specs.Tokens.{is_punctuation, punctuation_at, identifier_at, one_identifier};
ghost use Rattle.rv_stmt.specs.Values.{is_deep};

use rv_expr::{Expr, MAX_DEPTH, ReadFault, parenthesis_depth, read};
use rv_text::{Span, TokenKind, Tokens};
use std::alloc::Global;
use std::marker::Model;

/// A token with its text.
#[derive(Drop)]
pub struct Lexeme<'a> {
    pub kind: TokenKind,
    pub text: &'a [u8],
    pub span: Span,
}

impl<'a> Model for Lexeme<'a> {
    ghost use Rattle.rv_text.specs.Lexing.{SpelledToken};

    ghost Value = { SpelledToken };

    ghost view = { λ l. record { kind = l.kind; text = l.text.now; span = l.span } };
}

impl Lexeme<'_> {
    /// Whether it is the sign.
    pub fn is_punctuation(&self, punctuation: &[u8]) -> bool
        ensures { result ≡ is_punctuation punctuation.now self.now }
    {
        self.kind == TokenKind::Punctuation && self.text == punctuation
    }
}

/// Tokens of a line from a place up to, and without, another. Contracts see them with their texts and spans.
#[derive(Drop)]
pub struct TokenRange<'a> {
    tokens: &'a Tokens<'a>,
    from: usize,
    to: usize,
}

impl<'a> Model for TokenRange<'a> {
    ghost use Rattle.std.specs.Prelude.{◌≤◌, ◌<◌, ◌^◌, List, length};
    ghost use Rattle.rv_text.specs.Lexing.{SpelledToken};
    ghost use Rattle.rv_expr.specs.Reading.{run_of};

    ghost Value = { List SpelledToken };

    ghost view = { λ r. run_of r.tokens.now r.from r.to };

    ghost invariant = { λ r. (r.from ≤ r.to) × (r.to ≤ length r.tokens.now.tokens) × (r.to < 2 ^ 64) };
}

impl<'a> TokenRange<'a> {
    /// The tokens of these places, counted from 0.
    pub fn new(tokens: &'a Tokens<'a>, from: usize, to: usize) -> Self
        requires ordered { from ≤ to }
        requires within { to ≤ length tokens.now.tokens }
        ensures { result ≡ run_of tokens.now from to }
    {
        TokenRange { tokens, from, to }
    }

    /// How many tokens there are.
    pub fn len(&self) -> usize
        ensures { result ≡ length self.now }
    {
        self.to - self.from
    }

    /// The token at a place, if there is one.
    pub fn token_at(&self, place: usize) -> Option<Lexeme<'a>>
        ensures { result ≡ slice_get self.now place }
    {
        if place >= self.len() {
            return None;
        }
        let token = self.tokens.tokens()[self.from + place];
        Some(Lexeme {
            kind: token.kind,
            text: self.tokens.text(self.from + place),
            span: token.span,
        })
    }

    /// Whether the token at a place is the sign.
    pub fn punctuation_at(&self, punctuation: &[u8], place: usize) -> bool
        ensures { result ≡ punctuation_at punctuation.now self.now place }
    {
        match self.token_at(place) {
            Some(token) => token.is_punctuation(punctuation),
            None => false,
        }
    }

    /// The identifier at a place, if one stands there.
    pub fn identifier_at(&self, place: usize) -> Option<&'a [u8]>
        ensures { option_map (λ w. w.now) result ≡ identifier_at self.now place }
    {
        let token = self.token_at(place)?;
        match token.kind {
            TokenKind::Identifier => Some(token.text),
            _ => None,
        }
    }

    /// The one identifier that the tokens are, if they are one.
    pub fn one_identifier(&self) -> Option<&'a [u8]>
        ensures { option_map (λ w. w.now) result ≡ one_identifier self.now }
    {
        if self.len() != 1 {
            return None;
        }
        self.identifier_at(0)
    }

    /// The tokens from a place up to, and without, another.
    #[tactic(auto, using(crate::proofs::Ranges::length_run, crate::proofs::Ranges::part_of_part))]
    pub fn part(&self, from: usize, to: usize) -> Self
        requires ordered { from ≤ to }
        requires within { to ≤ length self.now }
        ensures { result ≡ slice_range self.now from to }
    {
        TokenRange::new(self.tokens, self.from + from, self.from + to)
    }

    /// The tokens from a place on.
    #[tactic(auto, using(crate::proofs::Ranges::length_run, crate::proofs::Ranges::range_after, crate::proofs::Ranges::past_range))]
    pub fn skip(&self, place: usize) -> Self
        ensures tokens { result ≡ drop place self.now }
        ensures fits { length self.now < 2 ^ 64 }
    {
        if place >= self.len() {
            return TokenRange::new(self.tokens, self.to, self.to);
        }
        TokenRange::new(self.tokens, self.from + place, self.to)
    }

    /// The first token, and those after it, if there is one.
    #[tactic(auto, using(crate::proofs::Ranges::first_and_rest, crate::proofs::Ranges::none_first))]
    pub fn split_first(&self) -> Option<(Lexeme<'a>, Self)>
        ensures some { IfSome result (λ r. self.now ≡ r.0 ∷ r.1) }
        ensures none { IfNone result (self.now ≡ []) }
    {
        let token = self.token_at(0)?;
        Some((token, self.skip(1)))
    }

    /// The expression that the tokens are.
    pub fn read(&self, alloc: Global) -> Result<Expr, ReadFault>
        ensures depth { IfOk result (λ e. depth_of self.now ≤ 64) }
        ensures expression { IfOk result (λ e. expression_of self.now ≡ Some e) }
        ensures refused { IfErr result (λ f. Refuses f self.now) }
    {
        read(alloc, self.tokens, self.from, self.to)
    }

    /// Whether more than 64 parentheses are open at one place.
    pub fn is_deep(&self) -> bool
        ensures { result ≡ is_deep self.now }
    {
        parenthesis_depth(self.tokens, self.from, self.to) > MAX_DEPTH
    }
}

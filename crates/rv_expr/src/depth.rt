//! How many parentheses are open.

ghost use Rattle.std.specs.Prelude.{◌≡◌, ℕ, ◌<◌, ◌≤◌, ◌^◌, ◌+◌, ◌-◌, length, map, max};
ghost use Rattle.rv_expr.specs.Depth.{depth_after, depth_from, depth_of};
ghost use Rattle.rv_expr.specs.Reading.{run_of};
ghost use Rattle.rv_expr.specs.TokenRoles.{token_role, token_role_of_text};

use rv_text::{TokenKind, Tokens};

/// How many parentheses may be open at one place.
pub const MAX_DEPTH: usize = 64;

/// How many parentheses are open after a token of this kind and text, where `depth` are open before it. A `)` that
/// closes none counts for nothing.
pub fn depth_after(depth: usize, kind: TokenKind, text: &[u8]) -> usize
    requires { depth < 2 ^ 64 - 1 }
    ensures depth { result ≡ depth_after depth (token_role_of_text kind text.now) }
    ensures bound { result ≤ depth + 1 }
{
    match (kind, text) {
        (TokenKind::Punctuation, [b'(']) => depth + 1,
        (TokenKind::Punctuation, [b')']) => depth.saturating_sub(1),
        _ => depth,
    }
}

// How many are open after token number `k`.
fn depth_after_token(depth: usize, tokens: &Tokens<'_>, k: usize) -> usize
    requires depth { depth < 2 ^ 64 - 1 }
    requires within { k < length tokens.now.tokens }
    ensures step { (to : ℕ) → k < to → depth_from depth (map token_role (run_of tokens.now k to))
        ≡ max depth (depth_from result (map token_role (run_of tokens.now (k + 1) to))) }
    ensures bound { result ≤ depth + 1 }
{
    depth_after(depth, tokens.tokens()[k].kind, tokens.text(k))
}

/// The most parentheses that are open at one place of the tokens `from..to` of a line.
#[tactic(auto, using(crate::proofs::Depths::depth_step))]
pub fn parenthesis_depth(tokens: &Tokens<'_>, from: usize, to: usize) -> usize
    requires ordered { from ≤ to }
    requires within { to ≤ length tokens.now.tokens }
    ensures { result ≡ depth_of (run_of tokens.now from to) }
{
    let mut deepest = 0;
    let mut depth = 0;
    for k in from..to {
        depth = depth_after_token(depth, tokens, k);
        deepest = deepest.max(depth);
    }
    deepest
}

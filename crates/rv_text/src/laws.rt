//! What holds of the tokens of every line, and of reads and writes in a row.

ghost use Rattle.std.specs.Prelude.{◌≡◌, ◌≤◌, ◌++◌, [], ℕ, List, Option, length};
ghost use Rattle.rv_text.specs.declared.faults.Fault.{Fault};
ghost use Rattle.rv_text.specs.declared.lexeme.Token.{Token};
ghost use Rattle.rv_text.specs.Lexing.{LexedLine, SpansFit, bytes_of_tokens, lexed_line, spelled_tokens, tokens_of};
ghost use Rattle.rv_text.specs.Lexical.{Reads, Rise};
ghost use Rattle.rv_text.specs.Streams.{before, after, WritesPrefix};

/// The tokens of every line are lexical, whatever way they are found. Read from its first byte on, the line has
/// whitespace, and tokens each of which is a text of its kind and the longest that begins at its place, up to the line's end, a
/// comment, or a byte, a run of digits and letters or a quote that begins no token and is the fault. The spans rise,
/// none is empty, and all lie in the line. No other tokens, and no other fault, are such.
#[tactic(auto, using(crate::proofs::LexicalLaw::reads, crate::proofs::LexicalLaw::rises, crate::proofs::LexicalOnly::only))]
pub fn tokens_are_lexical()
    ensures reads { (line : List ℕ) → Reads 0 line (tokens_of line).tokens (tokens_of line).fault }
    ensures only { (line : List ℕ) (tokens : List Token) (fault : Option Fault) → Reads 0 line tokens fault → tokens_of line ≡ record { tokens = tokens; fault = fault } }
    ensures rise { (line : List ℕ) → Rise 0 (length line) (tokens_of line).tokens }
{}

/// The tokens of a line fit it: they are no more than its bytes, their spans are ranges of it, and their texts together have
/// no more bytes than it.
#[tactic(auto, using(crate::proofs::LexicalLaw::fit, crate::proofs::LexicalLaw::few_bytes, crate::specs::TokenLaws::few_tokens, crate::specs::TokenLaws::count_of_spelled_tokens))]
pub fn tokens_fit()
    ensures few { (line : List ℕ) → length (tokens_of line).tokens ≤ length line }
    ensures fit { (line : List ℕ) → SpansFit line (tokens_of line).tokens }
    ensures bytes { (line : List ℕ) → bytes_of_tokens (spelled_tokens (lexed_line line)) ≤ length line }
    ensures spelled_tokens { (l : LexedLine) → length (spelled_tokens l) ≡ length l.tokens }
{}

/// Writes in a row join: two that are taken are one of both texts, and a write of nothing changes nothing. Where one
/// fails, what was taken is a prefix of the whole text: of a first part with more to come, of a last part after what was
/// taken before it, and of a part with both.
#[tactic(auto, using(crate::specs::StreamLaws::after_after, crate::specs::StreamLaws::after_none, crate::specs::StreamLaws::prefix_first, crate::specs::StreamLaws::prefix_within, crate::specs::StreamLaws::prefix_last))]
pub fn writes_join()
    ensures both { (old : Option (List ℕ)) (first second : List ℕ) → after (after old first) second ≡ after old (first ++ second) }
    ensures nothing { (old : Option (List ℕ)) → after old [] ≡ old }
    ensures first { (old new : Option (List ℕ)) (part more text : List ℕ) → text ≡ part ++ more → WritesPrefix old part new → WritesPrefix old text new }
    ensures within { (old between new : Option (List ℕ)) (done part more text : List ℕ) → text ≡ (done ++ part) ++ more → between ≡ after old done → WritesPrefix between part new → WritesPrefix old text new }
    ensures last { (old between new : Option (List ℕ)) (done part text : List ℕ) → text ≡ done ++ part → between ≡ after old done → WritesPrefix between part new → WritesPrefix old text new }
{}

/// Reads in a row join: two are one of both texts, and a read of nothing changes nothing.
#[tactic(auto, using(crate::specs::StreamLaws::before_before, crate::specs::StreamLaws::before_none))]
pub fn reads_join()
    ensures both { (old : Option (List ℕ)) (first second : List ℕ) → before first (before second old) ≡ before (first ++ second) old }
    ensures nothing { (old : Option (List ℕ)) → before [] old ≡ old }
{}

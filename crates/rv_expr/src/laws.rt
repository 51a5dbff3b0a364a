//! What holds of the definitions.

ghost use Rattle.std.specs.Prelude.{◌≡◌, ◌≤◌, ℕ, List, Some};
ghost use Rattle.rv_text.specs.Lexing.{SpelledToken};
ghost use Rattle.rv_expr.specs.Depth.{depth_of};
ghost use Rattle.rv_expr.specs.Grammar.{Spells};
ghost use Rattle.rv_expr.specs.OpenAtOnce.{AreOpenAtOnce};
ghost use Rattle.rv_expr.specs.Reading.{expression_of};
ghost use Rattle.rv_expr.specs.Tree.{Tree};

/// What the grammar spells is read, and as that tree, and nothing else is read. So no run of tokens spells two trees.
pub fn reads_the_grammar()
    ensures spelled { (run : List SpelledToken) (e : Tree) → Spells 3 run e → expression_of run ≡ Some e }
    ensures only { (run : List SpelledToken) (e : Tree) → expression_of run ≡ Some e → Spells 3 run e }
{}

/// So many parentheses are open at one place of some tokens as a stretch of them has more `(` than `)`, and no more.
pub fn depth_is_open_at_once()
    ensures deep { (count : ℕ) (run : List SpelledToken) → AreOpenAtOnce count run → count ≤ depth_of run }
    ensures only { (count : ℕ) (run : List SpelledToken) → count ≤ depth_of run → AreOpenAtOnce count run }
{}

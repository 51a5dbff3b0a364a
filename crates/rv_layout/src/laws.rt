//! What holds of the definitions.

ghost use Rattle.std.specs.Prelude.{◌≡◌, ◌≤◌, ◌<◌, ◌+◌, ◌^◌, ◌∷◌, [], ◌++◌, ℕ, ℤ, List, Option, length};
ghost use Rattle.rv_stmt.specs.declared.statement.Body.{Body};
ghost use Rattle.rv_stmt.specs.Statement.{operands_of, data_size_of};
ghost use Rattle.rv_layout.specs.declared.effect.Effect.{Effect};
ghost use Rattle.rv_layout.specs.declared.measured.Measured.{Measured};
ghost use Rattle.rv_layout.specs.Effects.{join, no_lines, effect_of, layout_of, section_reached, offset_reached, base_by_layout, IsEffect};
ghost use Rattle.rv_layout.specs.Places.{before, section_of, offset_of, section_end_of, section_base_of, address_of, sum_below, IsLimited, AreLimited};
ghost use Rattle.rv_layout.specs.Sections.{sections, section_number};
ghost use Rattle.rv_layout.specs.Shapes.{shape_of, size_operands};

/// Layouts join: that of no lines is a unit on both sides, the join is associative, and what is joined is a layout.
pub fn layouts_join()
    ensures left { (l : Effect) → IsEffect l → join no_lines l ≡ l }
    ensures right { (l : Effect) → IsEffect l → join l no_lines ≡ l }
    ensures associative { (k l m : Effect) → IsEffect k → IsEffect l → IsEffect m → join (join k l) m ≡ join k (join l m) }
    ensures kept { (k l : Effect) → IsEffect k → IsEffect l → IsEffect (join k l) }
{}

/// The layout of the lines of a text tells where they lie, and nothing wraps in a text of at most 16,384 lines whose shapes
/// are within the limits. One line more is one more join. The lines before a line reach its section and its offset. All
/// lines reach the ends of the sections, which are at most 2^30 together. The lines before a line reach no offset above the
/// end. So the conditions of `bases` and `place` are met, and what these answer is the base of each section and the address
/// of the line.
pub fn layouts_tell_places()
    ensures more { (ms : List Measured) (m : Measured) → AreLimited ms → IsLimited m → layout_of (ms ++ m ∷ []) ≡ join (layout_of ms) (effect_of m) }
    ensures section { (ms : List Measured) (i : ℕ) → section_reached (layout_of (before i ms)) ≡ section_of ms i }
    ensures offset { (ms : List Measured) (i : ℕ) → AreLimited ms → length ms ≤ 16384
        → offset_reached (layout_of (before i ms)) (section_number (section_of ms i)) ≡ offset_of ms i }
    ensures ends { (ms : List Measured) (t : ℕ) → t < sections → AreLimited ms → length ms ≤ 16384
        → offset_reached (layout_of ms) t ≡ section_end_of ms t }
    ensures together { (ms : List Measured) → AreLimited ms → length ms ≤ 16384
        → sum_below (offset_reached (layout_of ms)) sections ≤ 2 ^ 30 }
    ensures within { (ms : List Measured) (i t : ℕ) → t < sections → AreLimited ms → length ms ≤ 16384
        → offset_reached (layout_of (before i ms)) t ≤ offset_reached (layout_of ms) t }
    ensures bases { (base : ℕ) (ms : List Measured) (t : ℕ) → t < sections → AreLimited ms → length ms ≤ 16384
        → base_by_layout base (layout_of ms) t ≡ section_base_of base ms t }
    ensures address { (base : ℕ) (ms : List Measured) (i : ℕ) → AreLimited ms → length ms ≤ 16384
        → base_by_layout base (layout_of ms) (section_number (section_reached (layout_of (before i ms))))
        + offset_reached (layout_of (before i ms)) (section_number (section_reached (layout_of (before i ms))))
        ≡ address_of base ms i }
{}

/// The shapes of lines are within the limits: at most 65,536 bytes, or a multiple of at most 4096.
pub fn shapes_are_limited()
    ensures { (constant_of : List ℕ → Option ℤ) (b : Body) → data_size_of b ≤ 2 ^ 16 → IsLimited (shape_of constant_of b) }
{}

/// A line has at most one size operand, which is one of its operands.
pub fn size_operands_are_few()
    ensures one { (b : Body) → size_operands b ≤ 1 }
    ensures operand { (b : Body) → size_operands b ≤ length (operands_of b) }
{}

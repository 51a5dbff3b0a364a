//! What holds of the tables and of the limits, for the crates above.
ghost use Rattle.std.specs.Prelude.{◌≡◌, ℤ, ◌<◌, ◌⊎◌, true, None, length, bit_and};
ghost use Rattle.rv_ops.specs.Limits.{InLimits, limit_fault};
ghost use Rattle.rv_ops.specs.Table.{fixed_of, layout_of, mask_of, number_of, row_of};
ghost use Rattle.rv_ops.specs.TableLaws.{is_overlapping_pair};
ghost use Rattle.rv_ops.specs.declared.op.Op.{Op};
ghost use Rattle.rv_ops.specs.declared.op.Shape.{Shape};
ghost use Rattle.rv_ops.specs.declared.table.TheConstants.{TABLE};
ghost use Rattle.rv_ops.specs.declared.value_limits.Limits.{Limits};

/// Each operation has a row, and each row and each layout stands at its own place: the first column says so.
pub fn rows_are_in_order()
    ensures below { (o : Op) → number_of o < length TABLE }
    ensures row { (o : Op) → (row_of o).0 ≡ o }
    ensures layout { (s : Shape) → (layout_of s).0 ≡ s }
{}

/// The fixed bits of a row lie in its mask.
pub fn fixed_bits_are_in_the_mask()
    ensures { (o : Op) → bit_and (fixed_of o) (mask_of o) ≡ fixed_of o }
{}

/// Two operations whose fixed bits agree in each bit that both masks hold are one, or one of the few pairs that
/// the classes of their registers and the limits of their values tell apart.
pub fn fixed_bits_tell_operations_apart()
    ensures { (o p : Op) → bit_and (fixed_of o) (mask_of p) ≡ bit_and (fixed_of p) (mask_of o) → (o ≡ p) ⊎ ((is_overlapping_pair o p ≡ true) ⊎ (is_overlapping_pair p o ≡ true)) }
{}

/// A value has no fault exactly where it is within the limits.
pub fn limits_are_bounds()
    ensures within { (l : Limits) (v : ℤ) → limit_fault l v ≡ None → InLimits l v }
    ensures no_fault { (l : Limits) (v : ℤ) → InLimits l v → limit_fault l v ≡ None }
{}

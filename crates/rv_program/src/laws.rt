//! What holds of the definitions.

ghost use Rattle.std.specs.Prelude.{◌≡◌, ◌≤◌, ℕ, ℤ, List, Some, None, Ok, true, false, length};
ghost use Rattle.rv_stmt.specs.declared.operand.Operand.{Operand};
ghost use Rattle.rv_layout.specs.Shapes.{constants, constant_of_operand, is_size};
ghost use Rattle.rv_fix.specs.Values.{given_to, operand_value};
ghost use Rattle.rv_program.specs.Changes.{is_invalidated, is_reencoded, is_changed};
ghost use Rattle.rv_program.specs.Constants.{constant_of};
ghost use Rattle.rv_program.specs.Kept.{IsKept};
ghost use Rattle.rv_program.specs.Layout.{address_at};
ghost use Rattle.rv_program.specs.Pairs.{names_at};
ghost use Rattle.rv_program.specs.Program.{Program};
ghost use Rattle.rv_program.specs.References.{reference_of};
ghost use Rattle.rv_program.specs.Text.{Edit, refusal_of, lines_after};

/// A line that an edit neither enters nor invalidates has the shape, the values and the code that it had, wherever it stands
/// now. So only invalidated lines are reencoded, and only reencoded lines are changed.
pub fn only_invalidated_lines_change()
    ensures kept { (base : ℕ) (lines : List (List ℕ)) (edit : Edit) (k : ℕ)
        → refusal_of lines edit ≡ None → 1 ≤ k → k ≤ length (lines_after lines edit)
        → is_invalidated base lines edit k ≡ false → IsKept base lines edit k }
    ensures reencoded { (base : ℕ) (lines : List (List ℕ)) (edit : Edit) (k : ℕ)
        → refusal_of lines edit ≡ None → 1 ≤ k → k ≤ length (lines_after lines edit)
        → is_invalidated base lines edit k ≡ false → is_reencoded base lines edit k ≡ false }
    ensures changed { (base : ℕ) (lines : List (List ℕ)) (edit : Edit) (k : ℕ)
        → refusal_of lines edit ≡ None → 1 ≤ k → k ≤ length (lines_after lines edit)
        → is_reencoded base lines edit k ≡ false → is_changed base lines edit k ≡ false }
{}

/// A name that is a constant on a line has the constant's value there. So an operand that the size of a line follows from has
/// the value of the constant that it is.
pub fn constants_are_values()
    ensures names { (base : ℕ) (program : Program) (i : ℕ) (name : List ℕ) (value : ℤ)
        → i ≤ length program → constant_of program i name ≡ Some value
        → reference_of base program i name ≡ Ok value }
    ensures operands { (base : ℕ) (program : Program) (i : ℕ) (o : Operand) (value : ℤ)
        → i ≤ length program → is_size o.role ≡ true
        → constant_of_operand (constants (constant_of program i)) o ≡ Ok value
        → operand_value (given_to o.role (names_at base program i)) (address_at base program i) o.value ≡ Ok value }
{}

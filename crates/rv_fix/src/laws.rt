//! What holds of the definitions.

ghost use Rattle.std.specs.Prelude.{◌≡◌, ◌≤◌, ◌^◌, ℕ, Bool, List, ◌∷◌, false, length, Ok};
ghost use Rattle.rv_ops.specs.Table.{shape_of, limits_of};
ghost use Rattle.rv_code.specs.declared.instruction.Fields.{Fields};
ghost use Rattle.rv_stmt.specs.declared.directive.DataContent.{DataContent};
ghost use Rattle.rv_stmt.specs.declared.operand.Operand.{Operand};
ghost use Rattle.rv_stmt.specs.declared.statement.Instruction.{Instruction};
ghost use Rattle.rv_stmt.specs.Data.{data_size};
ghost use Rattle.rv_stmt.specs.Expansion.{expansion_of, instructions_of, is_constant_load, size_of_instructions};
ghost use Rattle.rv_stmt.specs.declared.statement.Body.{Body};
ghost use Rattle.rv_stmt.specs.Statement.{operands_of_content, data_size_of};
ghost use Rattle.rv_layout.specs.declared.measured.Measured.{Measured};
ghost use Rattle.rv_fix.specs.Code.{code_of_instruction, code_of_data, code_of_fill, code_of};
ghost use Rattle.rv_fix.specs.Data.{fill_count};
ghost use Rattle.rv_fix.specs.Filling.{filled};
ghost use Rattle.rv_fix.specs.Limits.{is_alignment};
ghost use Rattle.rv_fix.specs.Padding.{padding};
ghost use Rattle.rv_fix.specs.Values.{Entry};

use rv_stmt::values_keep_sizes;

/// Lines keep their sizes, whatever values their operands have and with a fault of a value or without: an instruction that
/// loads no constant, data with a value for each operand, and equal bytes whose number has no fault. A line that loads a
/// constant has as many bytes as its instructions, if its operands fill their fields.
#[tactic(auto, using(crate::proofs::Sizes::length_of_filled, crate::proofs::Sizes::length_of_data, crate::proofs::Sizes::length_of_fill))]
pub fn faults_keep_sizes()
    ensures instructions { (i : Instruction) (es : List Entry) → is_constant_load (expansion_of i.operands) ≡ false
        → length (code_of_instruction i es).payload ≡ size_of_instructions (instructions_of i i.fields) }
    ensures filled { (i : Instruction) (es : List Entry) (f : Fields) → filled (limits_of (shape_of i.op)) i.operands es i.fields ≡ Ok f
        → length (code_of_instruction i es).payload ≡ size_of_instructions (instructions_of i f) }
    ensures data { (c : DataContent) (es : List Entry) → length es ≡ length (operands_of_content c)
        → length (code_of_data c es).payload ≡ data_size c }
    ensures fills { (o : Operand) (os : List Operand) (e : Entry) (es : List Entry) (n : ℕ) → fill_count o e ≡ Ok n
        → length (code_of_fill (o ∷ os) (e ∷ es)).payload ≡ n }
{
    values_keep_sizes();
}

/// The code of a line that is no alignment has at most 65,536 bytes, whatever values its operands have, if its data have at
/// most so many. Padding has as many bytes as it is made with.
pub fn codes_are_limited()
    ensures code { (shape : Measured) (b : Body) (es : List Entry) → data_size_of b ≤ 2 ^ 16 → is_alignment b ≡ false
        → length (code_of shape b es).payload ≤ 2 ^ 16 }
    ensures padding { (in_code : Bool) (n : ℕ) → length (padding in_code n) ≡ n }
{}

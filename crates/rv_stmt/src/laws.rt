//! What holds of the definitions.

ghost use Rattle.std.specs.Prelude.{◌≡◌, ◌≤◌, ◌*◌, ℕ, ℤ, List, ◌+ℤ◌, ◌*ℤ◌, ◌≤ℤ◌, pos, negsuc, false, length};
ghost use Rattle.rv_code.specs.declared.instruction.Fields.{Fields};
ghost use Rattle.rv_stmt.specs.declared.statement.Instruction.{Instruction};
ghost use Rattle.rv_stmt.specs.Expansion.{expansion_of, instructions_of, size_of_instructions, is_constant_load};
ghost use Rattle.rv_stmt.specs.Statement.{statement_of, operands_of, data_size_of};
ghost use Rattle.rv_stmt.specs.ValueParts.{word_bits, high_part, low_part};

use rv_text::tokens_fit;

/// The two parts of a value are the value modulo 2^32, and the lower one is an immediate: `lui` and `addi` load the value,
/// and `auipc` and an instruction reach an address that is so far away.
#[tactic(auto, using(crate::proofs::Wholes::parts_are_value, crate::proofs::Wholes::low_least, crate::proofs::Wholes::low_greatest))]
pub fn parts_are_the_value()
    ensures whole { (v : ℤ) → word_bits (high_part v *ℤ pos 0x1000 +ℤ low_part v) ≡ word_bits v }
    ensures least { (v : ℤ) → negsuc 2047 ≤ℤ low_part v }
    ensures greatest { (v : ℤ) → low_part v ≤ℤ pos 2047 }
{}

/// How many bytes a line has depends on the value of its operand only where it loads a constant.
#[tactic(auto, using(crate::proofs::Sizes::same_size))]
pub fn values_keep_sizes()
    ensures { (i : Instruction) (f g : Fields) → is_constant_load (expansion_of i.operands) ≡ false
        → size_of_instructions (instructions_of i f) ≡ size_of_instructions (instructions_of i g) }
{}

/// A line has no more operands than bytes.
#[tactic(auto, using(crate::proofs::OperandCounts::few_operands))]
pub fn operands_are_few()
    ensures { (line : List ℕ) → length (operands_of (statement_of line).body) ≤ length line }
{}

/// The data of a line are at most four bytes for each of its own bytes: 4,000 in a line of 1,000.
pub fn data_are_few()
    ensures { (line : List ℕ) → data_size_of (statement_of line).body ≤ 4 * length line }
{
    tokens_fit();
}

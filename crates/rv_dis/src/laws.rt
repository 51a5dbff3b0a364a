//! What holds of the texts of instructions and of the rows of stretches.

ghost use Rattle.std.specs.Prelude.{◌≡◌, ℕ, ◌<◌, ◌^◌, List, false};
ghost use Rattle.rv_ops.specs.declared.op.Op.{Op};
ghost use Rattle.rv_code.specs.declared.instruction.Fields.{Fields};
ghost use Rattle.rv_code.specs.Encoding.{Fits, bytes_of_word, word_of};
ghost use Rattle.rv_stmt.specs.Statement.{statement_of};
ghost use Rattle.rv_fix.specs.Alone.{code_at, uses_names};
ghost use Rattle.rv_fix.specs.Code.{code};
ghost use Rattle.rv_dis.specs.Assembling.{IsInstruction, AreBytes, GiveBytes};
ghost use Rattle.rv_dis.specs.Rows.{Shows};
ghost use Rattle.rv_dis.specs.Text.{instruction_text};
ghost use Rattle.rv_dis.specs.declared.row.DisRow.{DisRow};

use rv_code::words_tell_instructions_apart;

/// The text of every instruction at every address is a line without labels and names, whose code there is the word of the
/// instruction without a fault, whatever names mean.
pub fn texts_are_instructions()
    ensures { (a : ℕ) (o : Op) (f : Fields) → a < 2 ^ 32 → Fits o f → IsInstruction a o f (instruction_text a o f) }
{}

/// The text of every instruction at every address assembles there, by itself, to the bytes of the instruction.
pub fn texts_assemble()
    ensures nameless { (a : ℕ) (o : Op) (f : Fields) → a < 2 ^ 32 → Fits o f → uses_names (statement_of (instruction_text a o f)).body ≡ false }
    ensures code { (a : ℕ) (o : Op) (f : Fields) → a < 2 ^ 32 → Fits o f → code_at a (instruction_text a o f) ≡ code (bytes_of_word (word_of o f)) }
{}

/// The rows of every stretch of bytes at every address have these bytes, one after another, and each row assembles at its
/// address to its own.
pub fn rows_give_the_bytes()
    ensures { (a : ℕ) (bytes : List ℕ) (rows : List DisRow) → a < 2 ^ 32 → AreBytes bytes → Shows a bytes rows → GiveBytes rows bytes }
{}

/// Every stretch of bytes at an address has one list of rows at most.
pub fn rows_are_unique()
    ensures { (a : ℕ) (bytes : List ℕ) (rows others : List DisRow) → Shows a bytes rows → Shows a bytes others → rows ≡ others }
{
    words_tell_instructions_apart();
}

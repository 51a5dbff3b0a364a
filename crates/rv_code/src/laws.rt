//! What holds of words, for the crates above.
ghost use Rattle.std.specs.Prelude.{◌≡◌, ℕ, ◌%◌};
ghost use Rattle.rv_ops.specs.declared.op.Op.{Op};
ghost use Rattle.rv_code.specs.declared.instruction.Fields.{Fields};
ghost use Rattle.rv_code.specs.declared.word.Word.TheVariants.{Half, Full};
ghost use Rattle.rv_code.specs.Encoding.{Fits, word_of};

/// No two instructions have a word in common, and the low two bits of a word tell its length: they are 11 in a word of
/// thirty-two bits, and in no other. RISC-V Unprivileged ISA 20191213, section 1.5.
pub fn words_tell_instructions_apart()
    ensures one { (o p : Op) (f g : Fields) → Fits o f → Fits p g → word_of o f ≡ word_of p g → ◌≡◌ {A = Op × Fields} (o, f) (p, g) }
    ensures full { (o : Op) (f : Fields) (n : ℕ) → Fits o f → word_of o f ≡ Full n → n % 4 ≡ 3 }
    ensures half { (o : Op) (f : Fields) (n : ℕ) → Fits o f → word_of o f ≡ Half n → n % 4 ≡ 3 → ⊥ }
{}

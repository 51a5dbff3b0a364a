//! The parts of values that instructions hold.

ghost use Rattle.std.specs.Prelude.{◌≡◌, ◌+ℤ◌, pos};
ghost use Rattle.rv_stmt.specs.ValueParts.{word_bits, signed_word, high_part, low_part};

/// The lowest 32 bits of a value.
pub fn word_bits(value: i64) -> u32
    ensures { result ≡ word_bits value }
{
    (value.cast_unsigned() % 0x1_0000_0000) as u32
}

/// A value modulo 2^32, with a sign.
pub fn signed_word(value: i64) -> i32
    ensures { result ≡ signed_word value }
{
    word_bits(value).cast_signed()
}

// The lowest 32 bits, rounded to the upper part: half of what twelve bits hold is added.
fn rounded(value: i64) -> u32
    ensures { result ≡ word_bits (value +ℤ pos 0x800) }
{
    word_bits(value).wrapping_add(0x800)
}

/// The upper 20 bits of a value, 0 to 0xFFFFF, as `%hi` gives them: with the signed lower part they give the value modulo
/// 2^32, so they are one more where bit 11 is 1. RISC-V Unprivileged ISA 20191213, section 2.4.
pub fn high_part(value: i64) -> i32
    ensures { result ≡ high_part value }
{
    (rounded(value) >> 12) as i32
}

/// The lower 12 bits of a value with a sign, -2048 to 2047, as `%lo` gives them.
pub fn low_part(value: i64) -> i32
    ensures { result ≡ low_part value }
{
    (rounded(value) % 0x1000) as i32 - 0x800
}

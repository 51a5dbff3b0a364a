//! How far addresses lie from the line that names them.

ghost use Rattle.std.specs.Prelude.{◌≡◌};
ghost use Rattle.rv_fix.specs.Displacements.{displacement};

use rv_stmt::word_bits;

/// How far an address is from that of the line, modulo 2^32, with a sign.
pub fn displacement(here: u32, address: i64) -> i32
    ensures { result ≡ displacement here address }
{
    word_bits(address).wrapping_sub(here).cast_signed()
}

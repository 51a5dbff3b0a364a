//! Texts of pairs of characters, from which two digits are taken at a time.

ghost use Rattle.std.specs.Prelude.{◌≡◌, ◌+◌, ◌*◌, ◌≤◌, length, drop, take};
ghost use Rattle.std.specs.Str.{IsAscii};

/// The pair at a place among the pairs of an ASCII text.
#[inline(always)]
pub fn pair_at(pairs: &'static str, place: usize) -> &'static str
    requires within { 2 * place + 2 ≤ length pairs.now }
    requires ascii { IsAscii pairs.now }
    ensures { result.now ≡ take 2 (drop (2 * place) pairs.now) }
{
    let start = 2 * place;
    &pairs[start..start + 2]
}

//! Advances of an offset.

ghost use Rattle.std.specs.Prelude.{◌≡◌, ◌<◌, ◌≤◌, ◌^◌};
ghost use Rattle.rv_layout.specs.Advances.{wrap, up, advanced, then_advance, no_advance, IsAdvance};

/// How some lines of a section advance its offset: the offset x becomes `round_up(x + before, 2^exponent) + after`, modulo
/// 2^32.
#[derive(Clone, Copy)]
pub struct Advance {
    pub before: u32,
    pub exponent: u8,
    pub after: u32,
}

/// The least multiple of 2^exponent that is not below x, modulo 2^32.
pub(crate) fn round_up(x: u32, exponent: u8) -> u32
    requires { exponent ≤ 12 }
    ensures { result ≡ wrap (up x exponent) }
{
    let unit = 1u32 << exponent;
    x.wrapping_add((unit - x % unit) % unit)
}

impl Advance {
    /// No advance.
    pub fn none() -> Advance
        ensures { result ≡ no_advance }
    {
        Advance {
            before: 0,
            exponent: 0,
            after: 0,
        }
    }

    /// The offset after the advance.
    pub fn apply(self, offset: u32) -> u32
        requires { IsAdvance self }
        ensures { result ≡ advanced self offset }
    {
        round_up(offset.wrapping_add(self.before), self.exponent).wrapping_add(self.after)
    }

    /// This advance, then the next. The coarser of the two roundings is left.
    pub fn then(self, next: Advance) -> Advance
        requires first { IsAdvance self }
        requires second { IsAdvance next }
        ensures { result ≡ then_advance self next }
    {
        let between = self.after.wrapping_add(next.before);
        if next.exponent <= self.exponent {
            Advance {
                before: self.before,
                exponent: self.exponent,
                after: round_up(between, next.exponent).wrapping_add(next.after),
            }
        } else {
            Advance {
                before: self.before.wrapping_add(round_up(between, self.exponent)),
                exponent: next.exponent,
                after: next.after,
            }
        }
    }
}

//! The names of a line that uses many, in a few bits.

ghost use Rattle.std.specs.Prelude.{◌≡◌, ◌%◌, ◌<◌, IsTrue};
ghost use Rattle.rv_program.specs.internal.Groups.{bits_of, groups_of, no_groups, with_bit, has_bit, with_group, has_group};

/// The groups of some buckets, of which there are 59, a bit for each: the remainders of their numbers. They are in two halves, since a line has
/// them, and has no room for the alignment of a whole.
#[derive(Clone, Copy)]
pub struct Groups {
    low: u32,
    high: u32,
}

// The number of the bit of a bucket.
fn bit_of(bucket: u16) -> u32
    ensures { result ≡ bucket % 59 }
{
    u32::from(bucket % 59)
}

// The two halves of the bits.
fn groups_of(bits: u64) -> Groups
    ensures { result ≡ groups_of bits }
{
    Groups {
        low: (bits % 0x1_0000_0000) as u32,
        high: (bits / 0x1_0000_0000 % 0x1_0000_0000) as u32,
    }
}

impl Groups {
    /// No groups.
    pub fn none() -> Groups
        ensures { result ≡ no_groups }
    {
        Groups { low: 0, high: 0 }
    }

    /// Whether both are the same.
    pub fn are_same(self, other: Groups) -> bool
        ensures { IsTrue result → self ≡ other }
    {
        self.low == other.low && self.high == other.high
    }

    /// The bits of both halves.
    #[inline]
    pub fn bits(self) -> u64
        ensures { result ≡ bits_of self }
    {
        u64::from(self.high) << 32 | u64::from(self.low)
    }

    // These and one more.
    fn with_bit(self, bit: u32) -> Groups
        requires { bit < 64 }
        ensures { result ≡ with_bit self bit }
    {
        groups_of(self.bits() | 1 << bit)
    }

    /// These and the group of a bucket.
    pub fn with(self, bucket: u16) -> Groups
        ensures { result ≡ with_group self bucket }
    {
        self.with_bit(bit_of(bucket))
    }

    // Whether it has a bit.
    fn has_bit(self, bit: u32) -> bool
        requires { bit < 64 }
        ensures { result ≡ has_bit self bit }
    {
        (self.bits() >> bit) % 2 == 1
    }

    /// Whether it has the group of a bucket.
    #[inline]
    pub fn has(self, bucket: u16) -> bool
        ensures { result ≡ has_group self bucket }
    {
        self.has_bit(bit_of(bucket))
    }
}

//! What lines have to do with other lines, in a few bits: a search goes past parts of a text by these alone.

ghost use Rattle.std.specs.Prelude.{◌≡◌, ◌<◌, ◌==◌, not, IsTrue};
ghost use Rattle.rv_program.specs.internal.Masks.{no_mask, all_names, both_masks, mask_in, mask_of_bucket, mask_of_remainders, mask_of_kind, kind_bit, with_kind, shared, IsMask};

/// What a search over the lines looks for.
#[derive(Clone, Copy)]
pub enum Kind {
    /// An `.equ`.
    Equ,
    /// An `auipc` with `%pcrel_hi`.
    PcrelHigh,
    /// An `.equ`, or a line whose shape follows from symbols: it has a part in the constants.
    Shaped,
    /// A line that uses its own address.
    Addressed,
    /// A line that uses a local label or `%pcrel_lo`, or is an `.equ`: each edit invalidates it. But one of which `%pcrel_lo` of a symbol is
    /// the only operand is found by that symbol.
    Uncompared,
}

/// The names that some lines use and define, by their buckets, and the kinds that they are of, and maybe others. A bucket is in one of four
/// parts, and has one of the first 59 bits of that part; the five kinds have the last bits of the first part.
#[derive(Clone, Copy)]
pub struct Mask {
    first: u64,
    second: u64,
    third: u64,
    fourth: u64,
}

// Bits in one part, from 0 to 3.
fn mask_in(part: u16, bits: u64) -> Mask
    ensures { result ≡ mask_in part bits }
{
    let mut mask = Mask::none();
    if part == 0 {
        mask.first = bits;
    } else if part == 1 {
        mask.second = bits;
    } else if part == 2 {
        mask.third = bits;
    } else {
        mask.fourth = bits;
    }
    mask
}

// The number of the bit of a kind.
fn kind_bit(kind: Kind) -> u32
    ensures number { result ≡ kind_bit kind }
    ensures below { result < 64 }
{
    match kind {
        Kind::Equ => 59,
        Kind::PcrelHigh => 60,
        Kind::Shaped => 61,
        Kind::Addressed => 62,
        Kind::Uncompared => 63,
    }
}

impl Mask {
    /// No names and no kinds.
    #[inline]
    pub fn none() -> Mask
        ensures { result ≡ no_mask }
    {
        Mask {
            first: 0,
            second: 0,
            third: 0,
            fourth: 0,
        }
    }

    /// That of a bucket.
    #[inline]
    pub fn of_bucket(bucket: u16) -> Mask
        ensures { result ≡ mask_of_bucket bucket }
    {
        mask_in(bucket / 59 % 4, 1 << (bucket % 59))
    }

    /// That of some buckets, of which only the remainders by 59 are known: these are the bits.
    pub fn of_remainders(remainders: u64) -> Mask
        ensures { result ≡ mask_of_remainders remainders }
    {
        Mask {
            first: remainders,
            second: remainders,
            third: remainders,
            fourth: remainders,
        }
    }

    /// That of all names.
    pub fn of_all_names() -> Mask
        ensures { result ≡ all_names }
    {
        Mask::of_remainders((1 << 59) - 1)
    }

    /// That of a kind.
    #[inline]
    pub fn of_kind(kind: Kind) -> Mask
        ensures { result ≡ mask_of_kind kind }
    {
        Mask {
            first: 1 << kind_bit(kind),
            second: 0,
            third: 0,
            fourth: 0,
        }
    }

    /// What the one or the other has.
    #[inline]
    pub fn with(self, other: Mask) -> Mask
        ensures { result ≡ both_masks self other }
    {
        Mask {
            first: self.first | other.first,
            second: self.second | other.second,
            third: self.third | other.third,
            fourth: self.fourth | other.fourth,
        }
    }

    /// This and that of a kind, for a line that is of it.
    #[inline]
    pub fn with_kind(self, kind: Kind, is_of_kind: bool) -> Mask
        ensures { result ≡ with_kind self kind is_of_kind }
    {
        if is_of_kind {
            self.with(Mask::of_kind(kind))
        } else {
            self
        }
    }

    /// Whether it has none of what another one has.
    #[inline]
    pub fn lacks(self, wanted: Mask) -> bool
        ensures { result ≡ (shared wanted self == 0) }
    {
        (wanted.first & self.first | wanted.second & self.second)
            | (wanted.third & self.third | wanted.fourth & self.fourth)
            == 0
    }

    /// Whether it is that of nothing.
    pub fn is_none(self) -> bool
        ensures { IsTrue result → self ≡ no_mask }
    {
        self.is_same(Mask::none())
    }

    /// Whether both have the same bits.
    #[inline]
    pub fn is_same(self, other: Mask) -> bool
        ensures { IsTrue result → self ≡ other }
    {
        self.first == other.first
            && self.second == other.second
            && self.third == other.third
            && self.fourth == other.fourth
    }

    /// Tells a caller's proof that each part has 64 bits.
    pub fn known(&self)
        ensures { IsMask self.now }
    {
        let _first = self.first;
        let _second = self.second;
        let _third = self.third;
        let _fourth = self.fourth;
    }
}

//! The limits of the values.
ghost use Rattle.std.specs.Prelude.{◌≡◌, ◌%◌, nat_eq, unsigned_abs};
ghost use Rattle.rv_ops.specs.Limits.{is_beyond, is_in_gap, limit_fault};

/// The values that an operation takes: from the least to the greatest, each a multiple of a number, without
/// those of a gap.
#[derive(Clone, Copy, Debug, PartialEq, Eq)]
pub struct Limits {
    /// The least value.
    pub least: i64,
    /// The greatest value.
    pub greatest: i64,
    /// The number of which each value is a multiple.
    pub multiple: u64,
    /// The first value of the gap, and where there is no gap a number above the last.
    pub gap_first: i64,
    /// The last value of the gap.
    pub gap_last: i64,
}

/// What is wrong with a value.
#[derive(Clone, Copy, Debug, PartialEq, Eq)]
pub enum LimitFault {
    /// It is below the least value, above the greatest, or in the gap.
    Range,
    /// It is no multiple of the number.
    Multiple,
}

impl Limits {
    /// Whether a value is in the gap.
    fn is_in_gap(&self, value: i64) -> bool
        ensures { result ≡ is_in_gap self.now value }
    {
        self.gap_first <= value && value <= self.gap_last
    }

    /// Whether a value is below the least, above the greatest, or in the gap.
    fn is_beyond(&self, value: i64) -> bool
        ensures { result ≡ is_beyond self.now value }
    {
        if value < self.least || self.greatest < value {
            return true;
        }
        self.is_in_gap(value)
    }

    /// Whether a value is a multiple. Where the compiler knows of what, it need not divide, which is slow.
    fn is_multiple(&self, value: i64) -> bool
        ensures { result ≡ nat_eq (unsigned_abs value % self.now.multiple) 0 }
    {
        let magnitude = value.unsigned_abs();
        match self.multiple {
            1 => true,
            2 => magnitude.is_multiple_of(2),
            4 => magnitude.is_multiple_of(4),
            multiple => magnitude.is_multiple_of(multiple),
        }
    }

    /// What is wrong with a value, if anything. A value that is out of range is not tried for a multiple.
    #[tactic(auto, unfolding(crate::specs::Limits::limit_fault))]
    pub fn fault(&self, value: i64) -> Option<LimitFault>
        ensures { result ≡ limit_fault self.now value }
    {
        if self.is_beyond(value) {
            Some(LimitFault::Range)
        } else if self.is_multiple(value) {
            None
        } else {
            Some(LimitFault::Multiple)
        }
    }
}

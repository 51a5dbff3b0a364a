//! The numbers below 100 in decimal, which most numbers in texts are.

ghost use Rattle.std.specs.Prelude.{◌≡◌, ◌+◌, ◌<◌, ◌≤◌, ◌++◌, length, decimal, nat_lt, if◌then◌else◌};

use crate::pairs::pair_at;
use crate::row::RowText;

// The numbers below 100 in decimal, those of one digit with a space after it.
const DECIMALS: &str = "\
    0 1 2 3 4 5 6 7 8 9 \
    10111213141516171819\
    20212223242526272829\
    30313233343536373839\
    40414243444546474849\
    50515253545556575859\
    60616263646566676869\
    70717273747576777879\
    80818283848586878889\
    90919293949596979899";

// How many digits a number below 100 has.
#[inline(always)]
fn width(n: u32) -> usize
    ensures { result ≡ (if nat_lt n 10 then 1 else 2) }
{
    if n < 10 { 1 } else { 2 }
}

/// Appends a number below 100 in decimal. There must be room.
#[inline(always)]
pub fn push_below_hundred(out: &mut RowText, n: u32)
    requires small { n < 100 }
    requires room { length out.old + length (decimal n) ≤ 40 }
    ensures { out.new ≡ out.old ++ decimal n }
{
    out.push_padded::<2>(pair_at(DECIMALS, n as usize), width(n));
}

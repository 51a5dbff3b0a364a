//! Where sections begin, and where a line lies.

ghost use Rattle.std.specs.Prelude.{◌≡◌, ℕ, ◌+◌, ◌-◌, ◌<◌, ◌≤◌, ◌^◌, slice_index, true};
ghost use Rattle.rv_layout.specs.Effects.{section_reached, offset_reached, base_by_layout};
ghost use Rattle.rv_layout.specs.Places.{base_from, sum_below, is_base};
ghost use Rattle.rv_layout.specs.Rounding.{round_up as rounded_up};
ghost use Rattle.rv_layout.specs.Sections.{sections, section_number};

use crate::advance::round_up;
use crate::layout::Layout;
use crate::sections::{SECTIONS, section_number};

// The base of the next section: the least multiple of 4096 that is not below the end of this one.
fn next_base(base: u32, end: u32) -> u32
    requires { base + end ≤ 2 ^ 32 - 4096 }
    ensures { result ≡ rounded_up (base + end) 4096 }
{
    round_up(base + end, 12)
}

/// The address at which each section begins, where the first begins at `base` and they end at these offsets.
pub fn bases_by_ends(ends: &[u32; SECTIONS], base: u32) -> [u32; SECTIONS]
    requires base { is_base base ≡ true }
    requires ends { sum_below (slice_index ends.now) sections ≤ 2 ^ 30 }
    ensures { (t : ℕ) → t < sections → slice_index result t ≡ base_from base (slice_index ends.now) t }
{
    let mut bases = [base; SECTIONS];
    let mut next = base;
    for section in 0..SECTIONS {
        bases[section] = next;
        next = next_base(next, ends[section]);
    }
    bases
}

// The offset at which each section ends after these lines.
fn ends_of(total: &Layout) -> [u32; SECTIONS]
    ensures { (t : ℕ) → t < sections → slice_index result t ≡ offset_reached total.now t }
{
    let mut ends = [0; SECTIONS];
    for section in 0..SECTIONS {
        ends[section] = total.offset(section);
    }
    ends
}

/// The address at which each section begins, where the first begins at `base`. `total` is the layout of all lines.
pub fn bases(total: &Layout, base: u32) -> [u32; SECTIONS]
    requires base { is_base base ≡ true }
    requires ends { sum_below (offset_reached total.now) sections ≤ 2 ^ 30 }
    ensures { (t : ℕ) → t < sections → slice_index result t ≡ base_by_layout base total.now t }
{
    bases_by_ends(&ends_of(total), base)
}

/// The address of a line: `before` is the layout of the lines before it, and `total` that of all lines.
pub fn place(before: &Layout, base: u32, total: &Layout) -> u32
    requires base { is_base base ≡ true }
    requires ends { sum_below (offset_reached total.now) sections ≤ 2 ^ 30 }
    requires within { (t : ℕ) → t < sections → offset_reached before.now t ≤ offset_reached total.now t }
    ensures { let t = section_number (section_reached before.now) in
        result ≡ base_by_layout base total.now t + offset_reached before.now t }
{
    let section = section_number(before.section());
    bases(total, base)[section] + before.offset(section)
}

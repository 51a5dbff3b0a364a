//! Where the sections end after some lines of a text.

ghost use Rattle.std.specs.Prelude.{◌≡◌, ◌≤◌, ◌^◌, []};
ghost use Rattle.rv_layout.specs.Places.{size_at, IsLimited};
ghost use Rattle.rv_store.specs.internal.Ends.{ends_of, next_offset, ends_after, ends_before};

use rv_layout::{Measured, SECTIONS, section_number};
use rv_list::LinePlace;
use rv_stmt::Sect;

/// After some lines of a text: the section of the next one, and the offset at which each section ends.
#[derive(Clone, Copy)]
pub struct Ends {
    pub section: Sect,
    pub offsets: [u32; SECTIONS],
}

/// How many bytes a line has at this offset.
pub fn size_at(offset: u32, shape: &Measured) -> u32
    ensures { result ≡ size_at offset shape.now }
{
    match shape {
        Measured::Bytes(count) => *count,
        Measured::Align(alignment) => {
            let unit = 1u32 << alignment.exponent();
            (unit - offset % unit) % unit
        }
        Measured::Switch(_) | Measured::Nothing | Measured::Faulty(_) => 0,
    }
}

impl Ends {
    /// Those of no lines.
    pub fn start() -> Ends
        ensures { result ≡ ends_of [] }
    {
        Ends {
            section: Sect::Text,
            offsets: [0; SECTIONS],
        }
    }

    /// The offset of the next line.
    pub fn next_offset(&self) -> u32
        ensures { result ≡ next_offset self.now }
    {
        self.offsets[section_number(self.section)]
    }

    /// How many bytes the next line has, which is of this shape.
    pub fn next_size(&self, shape: &Measured) -> u32
        ensures { result ≡ size_at (next_offset self.now) shape.now }
    {
        size_at(self.next_offset(), shape)
    }

    /// Those before a line that lies there, where these are behind it.
    pub fn before(&self, place: &LinePlace) -> Ends
        ensures { result ≡ ends_before self.now place.now }
    {
        let mut offsets = self.offsets;
        let number = section_number(place.section);
        offsets[number] = offsets[number].saturating_sub(place.size);
        Ends {
            section: place.section,
            offsets,
        }
    }

    /// Goes on by a line.
    pub fn advance(&mut self, shape: &Measured)
        requires short { next_offset self.old ≤ 2 ^ 30 }
        requires limited { IsLimited shape.now }
        ensures { self.new ≡ ends_after self.old shape.now }
    {
        let size = self.next_size(shape);
        self.offsets[section_number(self.section)] += size;
        if let Measured::Switch(next) = shape {
            self.section = *next;
        }
    }
}

//! Where the lines of a text begin and end.

ghost use Rattle.std.specs.Prelude.{◌≡◌, ◌+◌, ◌<◌, ◌≤◌, ◌^◌, length, count_by, nat_lt, ◌==◌, false};
ghost use Rattle.std.specs.List.{list_any};
ghost use Rattle.rv_doc.specs.Positions.{lines_of};
ghost use Rattle.rv_doc.specs.Borders.{IsLineStart, IsLineEnd};

use memchr::{memchr, memrchr};

/// How many bytes are looked at for line breaks at once.
pub(crate) const BLOCK: usize = 128;

// How many line breaks a block has.
pub(crate) fn breaks_in(block: &[u8]) -> u8
    requires { length block.now ≤ BLOCK }
    ensures value { result ≡ count_by (λ b. b == 10) block.now }
    ensures within { result ≤ length block.now }
{
    let mut breaks = 0;
    let mut rest = block;
    'bytes: while let [byte, others @ ..] = rest {
        breaks += u8::from(*byte == b'\n');
        rest = others;
    }
    breaks
}

// How many line breaks there are.
pub(crate) fn line_breaks(text: &[u8]) -> usize
    ensures value { result ≡ count_by (λ b. b == 10) text.now }
    ensures within { result ≤ length text.now }
{
    let mut breaks = 0;
    let mut rest = text;
    'pieces: while rest.len() > BLOCK {
        let (block, later) = rest.split_at(BLOCK);
        breaks += usize::from(breaks_in(block));
        rest = later;
    }
    breaks + usize::from(breaks_in(rest))
}

/// How many lines a text has: one more than line breaks.
pub fn line_count(text: &[u8]) -> usize
    ensures value { result ≡ length (lines_of text.now) }
    ensures within { result ≤ length text.now + 1 }
{
    line_breaks(text) + 1
}

// Where the line begins that holds a place.
pub(crate) fn line_start_before(text: &[u8], at: usize) -> usize
    requires { at ≤ length text.now }
    ensures before { result ≤ at }
    ensures border { IsLineStart text.now result }
{
    let (front, _) = text.split_at(at);
    match memrchr(b'\n', front) {
        None => 0,
        Some(k) => k + 1,
    }
}

// Where the line ends that holds a place.
pub(crate) fn line_end_behind(text: &[u8], at: usize) -> usize
    requires { at ≤ length text.now }
    ensures behind { at ≤ result }
    ensures within { result ≤ length text.now }
    ensures border { IsLineEnd text.now result }
{
    let (_, rest) = text.split_at(at);
    match memchr(b'\n', rest) {
        None => text.len(),
        Some(k) => at + k,
    }
}

/// Whether a text may have a line of more bytes than so many. It has none where each line is found to begin not far behind the one before.
pub fn may_have_longer_line(text: &[u8], most: usize) -> bool
    requires { most < 2 ^ 63 }
    ensures { result ≡ false → list_any (λ line. nat_lt most (length line)) (lines_of text.now) ≡ false }
{
    let mut rest = text;
    'starts: while rest.len() > most {
        let start = line_start_before(rest, most + 1);
        if start == 0 {
            return true;
        }
        let (_, later) = rest.split_at(start);
        rest = later;
    }
    false
}

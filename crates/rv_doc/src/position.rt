//! Positions in a text.

ghost use Rattle.std.specs.Prelude.{◌≡◌, ◌+◌, ◌≤◌, length, drop};
ghost use Rattle.rv_doc.specs.Positions.{lines_of, line_at, line_start, size_of_lines, without_return, offset};

use crate::encoding::{Encoding, before_column};
use crate::lines::{BLOCK, breaks_in};
use memchr::memchr;

/// A line and a column, both from 0 on.
#[derive(Clone, Copy, Debug, PartialEq, Eq)]
pub struct Position {
    pub line: u32,
    pub character: u32,
}

/// What stands between two positions.
#[derive(Clone, Copy, Debug, PartialEq, Eq)]
pub struct Range {
    pub start: Position,
    pub end: Position,
}

// How many bytes the blocks have that end before a line begins, and how many line breaks are behind them before that line.
fn blocks_before(text: &[u8], line: u32) -> (usize, u32)
    ensures within { result.0 ≤ length text.now }
    ensures size { size_of_lines (lines_of text.now) line ≡ result.0 + size_of_lines (lines_of (drop result.0 text.now)) result.1 }
    ensures line { line_at (lines_of text.now) line ≡ line_at (lines_of (drop result.0 text.now)) result.1 }
{
    let mut rest = text;
    let mut left = line;
    let mut at = 0;
    'pieces: while rest.len() > BLOCK {
        let (block, later) = rest.split_at(BLOCK);
        let breaks = u32::from(breaks_in(block));
        if left <= breaks {
            return (at, left);
        }
        rest = later;
        at += BLOCK;
        left -= breaks;
    }
    (at, left)
}

// Where a line begins, or the end of the text where there are fewer lines.
fn line_start(text: &[u8], line: u32) -> usize
    ensures value { result ≡ line_start text.now line }
    ensures within { result ≤ length text.now }
    ensures line { line_at (lines_of (drop result text.now)) 0 ≡ line_at (lines_of text.now) line }
{
    let (mut at, mut left) = blocks_before(text, line);
    let (_, mut rest) = text.split_at(at);
    'lines: while left > 0 {
        let Some(k) = memchr(b'\n', rest) else {
            return text.len();
        };
        let (_, behind) = rest.split_at(k + 1);
        rest = behind;
        at += k + 1;
        left -= 1;
    }
    at
}

/// A line without the 0x0D that belongs to its end.
pub fn without_return(line: &[u8]) -> &[u8]
    ensures value { result.now ≡ without_return line.entry.now }
    ensures within { length result.now ≤ length line.entry.now }
{
    match line.split_last() {
        Some((b'\r', before)) => before,
        _ => line,
    }
}

// The first line of a text.
#[tactic(auto, using(crate::proofs::Starts::lines_first, crate::proofs::Starts::lines_only))]
fn first_line(text: &[u8]) -> &[u8]
    ensures value { result.now ≡ line_at (lines_of text.entry.now) 0 }
    ensures within { length result.now ≤ length text.entry.now }
{
    match memchr(b'\n', text) {
        None => text,
        Some(k) => text.split_at(k).0,
    }
}

/// How many bytes of a text stand before a position. A column behind the end of its line is the end, before `\n` or `\r\n`; a line
/// behind the last is the end of the text.
pub fn offset_of(encoding: Encoding, text: &[u8], position: Position) -> usize
    ensures value { result ≡ offset encoding text.now position }
    ensures within { result ≤ length text.now }
{
    let start = line_start(text, position.line);
    let (_, rest) = text.split_at(start);
    let line = without_return(first_line(rest));
    start + before_column(encoding, line, position.character)
}

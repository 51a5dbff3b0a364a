//! Where the lines of a text come from.

ghost use Rattle.std.specs.Prelude.{◌≡◌, ◌<◌};
ghost use Rattle.rv_show.specs.Origins.{mark_of, origin_by, origin_of, origin_seen, source_of};

use crate::page::Page;

/// A mark on a line, as a preprocessor leaves it: the line below it comes from another file.
#[derive(Clone, Copy)]
pub struct LineMark<'a> {
    /// The number of the line that the mark is on, from 1 on.
    pub on: u32,
    /// The number that the line below it has in its own file.
    pub line: u32,
    /// The name of that file.
    pub file: &'a [u8],
}

/// A line of a file.
#[derive(Clone, Copy)]
pub struct Origin<'a> {
    pub file: &'a [u8],
    pub line: u64,
}

// Where a line comes from by a mark above it.
fn origin_by<'a>(mark: &LineMark<'a>, line: u32) -> Origin<'a>
    requires { mark.now.on < line }
    ensures { origin_seen result ≡ origin_by (mark_of mark.now) line }
{
    Origin {
        file: mark.file,
        line: u64::from(mark.line) + u64::from(line - mark.on - 1),
    }
}

/// Where a line of a text comes from, by the last of the marks above it.
pub fn origin_of<'a>(page: &Page<'a>, line: u32) -> Origin<'a>
    ensures { origin_seen result ≡ origin_of (source_of page.now) line }
{
    let mut origin = Origin {
        file: page.file,
        line: u64::from(line),
    };
    let mut marks = page.marks;
    'marks: while let [mark, later @ ..] = marks {
        if mark.on >= line {
            return origin;
        }
        origin = origin_by(mark, line);
        marks = later;
    }
    origin
}

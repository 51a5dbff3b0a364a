//! The shapes of lines, and where the lines of texts lie. The lines of a text stand with `; ` between two.

ghost use Rattle.std.specs.Prelude.{◌≡◌, ◌≤◌, ◌^◌, true};
ghost use Rattle.rv_layout.specs.Effects.{offset_reached};
ghost use Rattle.rv_layout.specs.Places.{sum_below};
ghost use Rattle.rv_layout.specs.Sections.{sections};

use crate::row::{debugged, found, made, number_before, number_of, parts_of};
use rv_layout::{Consts, Layout, Measured, SECTIONS, base_ok, bases as bases_of, measure, place};
use rv_stmt::{data_are_few, read_line};
use rv_text::Tally;
use rv_tree::Joined;
use std::alloc::Global;
use std::test::Fail;

// The values of two names, if they have one.
#[derive(Clone, Copy)]
struct Constants {
    m: Option<i64>,
    n: Option<i64>,
}

impl Consts for Constants {
    ghost use Rattle.std.specs.Prelude.{bytes_eq, codes, None, if◌then◌else◌};

    ghost constant_of = { λ c name. if bytes_eq name (codes "M") then c.m else if bytes_eq name (codes "N") then c.n else None };

    fn constant(&self, name: &[u8]) -> Option<i64> {
        if name == b"M".as_slice() {
            self.m
        } else if name == b"N".as_slice() {
            self.n
        } else {
            None
        }
    }
}

const NONE: Constants = Constants { m: None, n: None };

const M_AND_N: Constants = Constants {
    m: Some(3),
    n: Some(5000),
};

// The constants that lines see: `none`, or `M=3,N=5000`.
fn constants_of(word: &str) -> Result<Constants, Fail> {
    match word {
        "none" => Ok(NONE),
        "M=3,N=5000" => Ok(M_AND_N),
        _ => Err(Fail::new("a word that is no constants")),
    }
}

// The shape of a line, and how many expressions were computed for it.
fn measured(alloc: Global, constants: &Constants, line: &str) -> Result<(Measured, u64), Fail> {
    if line.len() > 1000 {
        return Err(Fail::new("a line that is too long"));
    }
    data_are_few();
    let mut tally = Tally::new();
    let stmt = read_line(alloc, line.as_bytes(), &mut tally)?;
    let shape = measure(&stmt, constants, &mut tally);
    Ok((shape, tally.valued_calls()))
}

/// `shape CONSTANTS LINE`: the shape of the line, and how many expressions were computed for it.
pub fn shape(alloc: Global, arguments: &str) -> Result<String, Fail> {
    let (constants, line) = parts_of(arguments);
    let (shape, valued) = measured(alloc, &constants_of(constants)?, line)?;
    made(format!(in alloc; "{shape:?}, {valued} computed"))
}

// The layout of the lines of a text.
fn layout_of(alloc: Global, constants: &Constants, text: &str) -> Result<Layout, Fail> {
    let mut layout = Layout::start();
    if text.is_empty() {
        return Ok(layout);
    }
    for line in text.split("; ") {
        let (shape, _) = measured(alloc, constants, line)?;
        layout = layout.then(&shape);
    }
    Ok(layout)
}

// The ends of the sections are together at most 2^30.
fn ends_fit(layout: &Layout) -> bool
    ensures { result ≡ true → sum_below (offset_reached layout.now) sections ≤ 2 ^ 30 }
{
    let mut together = 0u64;
    for section in 0..SECTIONS {
        together += u64::from(layout.offset(section));
    }
    together <= 1 << 30
}

// The section and the address of what comes after some lines.
fn text_of_end(alloc: Global, layout: &Layout, base: &str) -> Result<String, Fail> {
    let base = number_of(base)?;
    if !ends_fit(layout) || !base_ok(base) {
        return Err(Fail::new("a text that is too long, or a base that is none"));
    }
    let section = layout.section();
    let address = place(layout, base, layout);
    made(format!(in alloc; "{section:?} {address:#x}"))
}

/// `end BASE CONSTANTS LINES`: the section and the address after the lines of a text that begins at the base.
pub fn end(alloc: Global, arguments: &str) -> Result<String, Fail> {
    let (base, rest) = parts_of(arguments);
    let (constants, text) = parts_of(rest);
    let layout = layout_of(alloc, &constants_of(constants)?, text)?;
    text_of_end(alloc, &layout, base)
}

// The layout, and so many lines of 65,536 bytes.
fn filled(layout: Layout, lines: u32) -> Layout {
    let mut out = layout;
    for _ in 0..lines {
        out = out.then(&Measured::Bytes(65536));
    }
    out
}

/// `filled_end BASE COUNT LINES`: the same after the lines and so many of 65,536 bytes.
pub fn filled_end(alloc: Global, arguments: &str) -> Result<String, Fail> {
    let (base, rest) = parts_of(arguments);
    let (count, text) = number_before(rest)?;
    let layout = filled(layout_of(alloc, &NONE, text)?, count);
    text_of_end(alloc, &layout, base)
}

/// `bases BASE LINES`: where each section of the text begins.
pub fn bases(alloc: Global, arguments: &str) -> Result<String, Fail> {
    let (base, text) = number_before(arguments)?;
    let layout = layout_of(alloc, &NONE, text)?;
    if !ends_fit(&layout) || !base_ok(base) {
        return Err(Fail::new("a text that is too long, or a base that is none"));
    }
    debugged(alloc, bases_of(&layout, base))
}

// The section and the offset in each section.
fn text_of_offsets(alloc: Global, layout: &Layout) -> Result<String, Fail> {
    let section = layout.section();
    let mut offsets = [0; SECTIONS];
    for section in 0..SECTIONS {
        offsets[section] = layout.offset(section);
    }
    made(format!(in alloc; "{section:?} {offsets:?}"))
}

/// `joined LINES || LINES`: the section and the offset in each section after both texts, by their joined layouts.
pub fn joined(alloc: Global, texts: &str) -> Result<String, Fail> {
    let (first, next) = found(texts.split_once(" || "), "a row without two texts")?;
    let first = layout_of(alloc, &NONE, first)?;
    let next = layout_of(alloc, &NONE, next)?;
    text_of_offsets(alloc, &first.join(&next))
}

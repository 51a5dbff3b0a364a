//! The rows of a report.

ghost use Rattle.std.specs.Prelude.{◌≡◌, ◌+◌, ◌^◌, ◌<◌, ◌≤◌, ◌++◌, codes, decimal, length, OnOk};
ghost use Rattle.rv_show.specs.Characters.{shown_name};
ghost use Rattle.rv_show.specs.Origins.{origin_seen};
ghost use Rattle.rv_show.specs.Rows.{gravity_text, line_row, margin, mark, mark_row, message_row, painted, rendition, shown_line, text_end};

use crate::characters::{column_of, push_name, push_shown};
use crate::origins::Origin;
use crate::page::{Gravity, Style};
use crate::text::Text;
use itoa::Buffer;
use rv_text::Span;
use std::alloc::{AllocError, Global};

// How many columns the numbers of lines take.
const NUMBER_COLUMNS: usize = 5;

// Appends a control sequence that selects how characters are shown.
#[tactic(auto, unfolding(crate::specs::Rows::rendition))]
fn push_rendition(out: &mut Text, parameter: &[u8]) -> Result<(), AllocError>
    ensures { OnOk result (out.new ≡ out.old ++ rendition parameter.now) }
{
    out.push_byte(0x1b)?;
    out.push(b"[")?;
    out.push(parameter)?;
    out.push(b"m")
}

// Appends a text in a color, where colors are shown.
#[tactic(auto, unfolding(crate::specs::Rows::painted))]
fn push_painted(out: &mut Text, style: Style, color: &[u8], text: &[u8]) -> Result<(), AllocError>
    ensures { OnOk result (out.new ≡ out.old ++ painted style color.now text.now) }
{
    match style {
        Style::Plain => out.push(text),
        Style::Colored => {
            push_rendition(out, color)?;
            out.push(text)?;
            push_rendition(out, b"0")
        }
    }
}

/// Appends a place: the file and the line.
pub fn push_place(out: &mut Text, origin: &Origin<'_>) -> Result<(), AllocError>
    ensures { OnOk result (out.new ≡ out.old ++ (shown_name 0 origin.now.file.now ++ (codes ":" ++ decimal origin.now.line))) }
{
    push_name(out, origin.file)?;
    out.push(b":")?;
    out.push_number(origin.line)
}

// Appends a column, counted from 1.
fn push_column(out: &mut Text, from: u32) -> Result<(), AllocError>
    ensures { OnOk result (out.new ≡ out.old ++ decimal (from + 1)) }
{
    out.push_number(u64::from(from) + 1)
}

// Appends how grave it is what a row says.
fn push_gravity(out: &mut Text, style: Style, gravity: Gravity) -> Result<(), AllocError>
    ensures { OnOk result (out.new ≡ out.old ++ gravity_text style gravity) }
{
    match gravity {
        Gravity::Error => push_painted(out, style, b"31", b"error:"),
        Gravity::Warning => push_painted(out, style, b"35", b"warning:"),
    }
}

/// Appends the row of a message about the bytes of a line from a place on.
#[tactic(auto, unfolding(crate::specs::Rows::message_row))]
pub fn push_message_row(
    out: &mut Text,
    style: Style,
    origin: &Origin<'_>,
    from: u32,
    gravity: Gravity,
    message: &[u8],
    name: &[u8],
) -> Result<(), AllocError>
    ensures { OnOk result (out.new ≡ out.old ++ message_row style (origin_seen origin.now) from gravity message.now name.now) }
{
    push_place(out, origin)?;
    out.push(b":")?;
    push_column(out, from)?;
    out.push(b": ")?;
    push_gravity(out, style, gravity)?;
    out.push(b" ")?;
    out.push(message)?;
    out.push(b" [")?;
    out.push(name)?;
    out.push(b"]\n")
}

// The place behind the last byte that is no white space.
fn text_end(line: &[u8]) -> usize
    ensures value { result ≡ text_end 0 0 line.now }
    ensures within { result ≤ length line.now }
{
    let mut at = 0;
    let mut end = 0;
    let mut bytes = line;
    'bytes: while let [byte, rest @ ..] = bytes {
        at += 1;
        if !byte.is_ascii_whitespace() {
            end = at;
        }
        bytes = rest;
    }
    end
}

// Appends a line as it is shown.
#[tactic(auto, unfolding(crate::specs::Rows::shown_line))]
fn push_shown_line(out: &mut Text, line: &[u8]) -> Result<(), AllocError>
    requires { length line.now ≤ 1000 }
    ensures { OnOk result (out.new ≡ out.old ++ shown_line line.now) }
{
    let (shown, _) = line.split_at(text_end(line));
    push_shown(out, shown)
}

// Appends the number of a line at the right end of its columns.
#[tactic(auto, unfolding(crate::specs::Rows::margin))]
fn push_margin(out: &mut Text, line: u64) -> Result<(), AllocError>
    ensures { OnOk result (out.new ≡ out.old ++ margin line) }
{
    let mut buffer = Buffer::new();
    let digits = buffer.format(line).as_bytes();
    out.push_repeated(b' ', NUMBER_COLUMNS.saturating_sub(digits.len()))?;
    out.push(digits)
}

/// Appends the row that shows a line.
#[tactic(auto, unfolding(crate::specs::Rows::line_row))]
pub fn push_line_row(out: &mut Text, line: u64, text: &[u8]) -> Result<(), AllocError>
    requires { length text.now ≤ 1000 }
    ensures { OnOk result (out.new ≡ out.old ++ line_row line text.now) }
{
    push_margin(out, line)?;
    out.push(b" | ")?;
    push_shown_line(out, text)?;
    out.push(b"\n")
}

// How many columns the number of a line takes.
#[tactic(auto, unfolding(crate::specs::Rows::margin))]
fn margin_width(line: u64) -> usize
    ensures { result ≡ length (margin line) }
{
    let mut buffer = Buffer::new();
    buffer.format(line).as_bytes().len().max(NUMBER_COLUMNS)
}

// A mark under so many columns.
#[tactic(auto, unfolding(crate::specs::Rows::mark))]
fn push_mark(out: &mut Text, columns: usize) -> Result<(), AllocError>
    ensures { OnOk result (out.new ≡ out.old ++ mark columns) }
{
    out.push(b"^")?;
    out.push_repeated(b'~', columns.saturating_sub(1))
}

/// Appends the row that marks the bytes at fault.
#[tactic(auto, unfolding(crate::specs::Rows::mark_row))]
pub fn push_mark_row(
    out: &mut Text,
    alloc: Global,
    style: Style,
    line: u64,
    text: &[u8],
    span: Span,
) -> Result<(), AllocError>
    requires { length text.now ≤ 1000 }
    ensures { OnOk result (out.new ≡ out.old ++ mark_row style line text.now span) }
{
    let from = column_of(text, span.from as usize);
    let to = column_of(text, span.to as usize);
    let mut mark = Text::new(alloc);
    push_mark(&mut mark, to.saturating_sub(from))?;
    out.push_repeated(b' ', margin_width(line))?;
    out.push(b" | ")?;
    out.push_repeated(b' ', from)?;
    push_painted(out, style, b"32", mark.bytes())?;
    out.push(b"\n")
}

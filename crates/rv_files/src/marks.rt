//! The marks that a preprocessor leaves in a text.

ghost use Rattle.std.specs.Prelude.{◌≡◌, ◌≤◌, ◌++◌, length, map, option_map, IfOk, OnOk};
ghost use Rattle.std.specs.List.{take_while};
ghost use Rattle.rv_show.specs.Origins.{mark_of};
ghost use Rattle.rv_files.specs.LineMarks.{behind, is_in, line_number, mark_in, mark_on, marks_from, quoted_name};

use rv_show::LineMark;
use rv_store::Store;
use rv_text::digits;
use std::alloc::{AllocError, Global};

// A part of a mark.
#[derive(Clone, Copy)]
enum Part {
    // Spaces and tabs.
    Blanks,
    // Decimal digits.
    Digits,
    // All up to a quotation mark.
    Name,
}

impl Part {
    // Whether a byte belongs to it.
    fn is_in(self, byte: u8) -> bool
        ensures { result ≡ is_in self byte }
    {
        match self {
            Part::Blanks => byte == b' ' || byte == b'\t',
            Part::Digits => byte.is_ascii_digit(),
            Part::Name => byte != b'"',
        }
    }
}

// What stands behind the part at the begin of some bytes.
fn behind(part: Part, mut bytes: &[u8]) -> &[u8]
    ensures value { result.now ≡ behind part bytes.entry.now }
    ensures within { length result.now ≤ length bytes.entry.now }
{
    'bytes: while let [byte, rest @ ..] = bytes {
        if !part.is_in(*byte) {
            return bytes;
        }
        bytes = rest;
    }
    bytes
}

// The part at the begin of some bytes.
fn front(part: Part, bytes: &[u8]) -> &[u8]
    ensures { result.now ≡ take_while (is_in part) bytes.now }
{
    let (front, _) = bytes.split_at(bytes.len() - behind(part, bytes).len());
    front
}

// The name between the quotation mark that begins some bytes and the next one.
fn quoted_name(bytes: &[u8]) -> Option<&[u8]>
    ensures { option_map (λ n. n.now) result ≡ quoted_name bytes.now }
{
    let [b'"', rest @ ..] = bytes else {
        return None;
    };
    if behind(Part::Name, rest).is_empty() {
        return None;
    }
    Some(front(Part::Name, rest))
}

// The number that some digits are.
fn line_number(text: &[u8]) -> Option<u32>
    ensures { result ≡ line_number text.now }
{
    u32::try_from(digits(10, text)?).ok()
}

// Appends the mark that a number and a name are, if they are one.
fn push_mark<'a>(marks: &mut Vec<LineMark<'a>>, on: u32, text: &'a [u8]) -> Result<(), AllocError>
    ensures { OnOk result (map mark_of marks.new.items ≡ map mark_of marks.old.items ++ mark_in on text.now) }
{
    let name = quoted_name(behind(Part::Blanks, behind(Part::Digits, text)));
    let Some(line) = line_number(front(Part::Digits, text)) else {
        return Ok(());
    };
    let Some(file) = name else {
        return Ok(());
    };
    marks.push(LineMark { on, line, file })?;
    Ok(())
}

// Appends the mark on a line, if it is one.
fn push_mark_on<'a>(
    marks: &mut Vec<LineMark<'a>>,
    on: u32,
    line: &'a [u8],
) -> Result<(), AllocError>
    ensures { OnOk result (map mark_of marks.new.items ≡ map mark_of marks.old.items ++ mark_on on line.now) }
{
    match line {
        [b'#', rest @ ..] => push_mark(marks, on, behind(Part::Blanks, rest)),
        _ => Ok(()),
    }
}

/// The marks in a text that a preprocessor made of other files, such as `# 17 "orig.c"`, in the order of the lines. Takes no memory
/// if there is none.
///
/// # Errors
///
/// `AllocError` if there is no memory for them.
pub fn line_marks<'a>(alloc: Global, store: &'a Store) -> Result<Vec<LineMark<'a>>, AllocError>
    ensures { IfOk result (λ marks. map mark_of marks.items ≡ marks_from 1 store.now.lines) }
{
    let mut marks = Vec::new(alloc);
    for k in 0..store.len() as u32 {
        let Some(line) = store.line(k + 1) else {
            unreachable!()
        };
        push_mark_on(&mut marks, k + 1, line)?;
    }
    Ok(marks)
}

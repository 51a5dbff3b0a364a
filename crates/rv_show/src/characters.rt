//! How the bytes of a line are shown.

ghost use Rattle.std.specs.Prelude.{◌≡◌, ◌+◌, ◌-◌, ◌==◌, ◌&&◌, ◌≤◌, ◌++◌, length, OnOk, if◌then◌else◌};
ghost use Rattle.rv_show.specs.Characters.{byte_in_message, byte_in_name, byte_or_dot, cell, column_after, column_of, excerpt, excerpt_from, is_no_control, is_visible, left_after, next, shown_from, shown_name, size_of_first, start, turns_text, width};

use crate::parts::bytes_from;
use crate::text::Text;
use bstr::decode_utf8;
use std::alloc::AllocError;

/// A place in a line: its column, from 0 on, and how many bytes are left of the character that stands there. Where none is
/// left, a character begins.
#[derive(Clone, Copy, Debug, PartialEq, Eq)]
pub struct Place {
    pub column: usize,
    pub left: usize,
}

// Tabs go to the multiples of this column.
const TAB: usize = 8;

/// The most characters of a line in a message.
pub const EXCERPT: usize = 40;

// Whether a character is no control character.
fn is_no_control(code: u32) -> bool
    ensures { result ≡ is_no_control code }
{
    0x20 <= code && (code < 0x7f || 0xa0 <= code)
}

// Whether a character changes the direction of those after it.
fn turns_text(code: u32) -> bool
    ensures { result ≡ turns_text code }
{
    code == 0x61c
        || (0x200e <= code && code <= 0x200f)
        || (0x202a <= code && code <= 0x202e)
        || (0x2066 <= code && code <= 0x2069)
}

/// Whether a character is shown as it is: it is no control character, and does not change the direction of text.
pub fn is_visible(character: char) -> bool
    ensures { result ≡ is_visible character }
{
    let code = u32::from(character);
    is_no_control(code) && !turns_text(code)
}

/// How many bytes the character has that begins some bytes, if it is one that is shown; otherwise 0.
pub fn size_of_first(bytes: &[u8]) -> usize
    ensures { result ≡ size_of_first bytes.now }
{
    let (character, size) = decode_utf8(bytes);
    match character {
        Some(character) if is_visible(character) => size,
        _ => 0,
    }
}

// How many columns the character takes that begins with a byte.
fn width(column: usize, byte: u8) -> usize
    ensures value { result ≡ width column byte }
    ensures most { result ≤ 8 }
{
    if byte == b'\t' { TAB - column % TAB } else { 1 }
}

// The first of some bytes that begin with a character, or a dot.
fn byte_or_dot(bytes: &[u8]) -> u8
    ensures { result ≡ byte_or_dot bytes.now }
{
    let [byte, ..] = bytes else {
        return b'.';
    };
    if size_of_first(bytes) == 0 {
        b'.'
    } else {
        *byte
    }
}

// How many bytes of a character are left behind the first of some bytes.
fn left_after(left: usize, bytes: &[u8]) -> usize
    ensures { result ≡ left_after left bytes.now }
{
    if bytes.is_empty() {
        return left;
    }
    if left == 0 {
        size_of_first(bytes).saturating_sub(1)
    } else {
        left - 1
    }
}

impl Place {
    // The begin of a line.
    fn start() -> Self
        ensures { result ≡ start }
    {
        Place { column: 0, left: 0 }
    }

    // The column behind the first of some bytes.
    fn column_after(self, bytes: &[u8]) -> usize
        requires { self.column ≤ 8000 }
        ensures value { result ≡ column_after self bytes.now }
        ensures most { result ≤ self.column + 8 }
    {
        match bytes {
            [byte, ..] if self.left == 0 => self.column + width(self.column, *byte),
            _ => self.column,
        }
    }

    // The place behind the first of some bytes.
    fn next(self, bytes: &[u8]) -> Self
        requires { self.column ≤ 8000 }
        ensures value { result ≡ next self bytes.now }
        ensures most { result.column ≤ self.column + 8 }
    {
        Place {
            column: self.column_after(bytes),
            left: left_after(self.left, bytes),
        }
    }
}

// Appends what is shown for the first of some bytes.
fn push_cell(out: &mut Text, place: Place, bytes: &[u8]) -> Result<(), AllocError>
    ensures { OnOk result (out.new ≡ out.old ++ cell place bytes.now) }
{
    let [byte, ..] = bytes else {
        return Ok(());
    };
    if place.left != 0 {
        return out.push_byte(*byte);
    }
    if *byte == b'\t' {
        return out.push_repeated(b' ', TAB - place.column % TAB);
    }
    out.push_byte(byte_or_dot(bytes))
}

/// Appends what is shown for the bytes of a line, from its begin on.
pub fn push_shown(out: &mut Text, line: &[u8]) -> Result<(), AllocError>
    requires { length line.now ≤ 1000 }
    ensures { OnOk result (out.new ≡ out.old ++ shown_from start line.now) }
{
    let mut place = Place::start();
    let mut bytes = line;
    'bytes: while let [_, rest @ ..] = bytes {
        push_cell(out, place, bytes)?;
        place = place.next(bytes);
        bytes = rest;
    }
    Ok(())
}

// The first of some bytes in the name of a file.
fn byte_in_name(left: usize, bytes: &[u8]) -> u8
    ensures { result ≡ byte_in_name left bytes.now }
{
    match bytes {
        [byte, ..] if left != 0 => *byte,
        _ => byte_or_dot(bytes),
    }
}

/// Appends the name of a file as it is shown.
pub fn push_name(out: &mut Text, name: &[u8]) -> Result<(), AllocError>
    ensures { OnOk result (out.new ≡ out.old ++ shown_name 0 name.now) }
{
    let mut left = 0;
    let mut bytes = name;
    'bytes: while let [_, rest @ ..] = bytes {
        out.push_byte(byte_in_name(left, bytes))?;
        left = left_after(left, bytes);
        bytes = rest;
    }
    Ok(())
}

/// The column of a byte of a line, from 0 on.
pub fn column_of(line: &[u8], byte: usize) -> usize
    requires { length line.now ≤ 1000 }
    ensures value { result ≡ column_of line.now byte }
    ensures most { result ≤ 8000 }
{
    let mut place = Place::start();
    let mut bytes = line;
    let mut left = byte;
    'bytes: while let [_, rest @ ..] = bytes {
        if left == 0 {
            return place.column;
        }
        place = place.next(bytes);
        bytes = rest;
        left -= 1;
    }
    place.column
}

// The first of some bytes in a message, where a tab is one space.
fn byte_in_message(left: usize, bytes: &[u8]) -> u8
    ensures { result ≡ byte_in_message left bytes.now }
{
    let [byte, ..] = bytes else {
        return b'.';
    };
    if left != 0 {
        return *byte;
    }
    if *byte == b'\t' {
        return b' ';
    }
    byte_or_dot(bytes)
}

// Whether a character begins for which there is no room.
fn is_cut(room: usize, left: usize) -> bool
    ensures { result ≡ (left == 0 && room == 0) }
{
    left == 0 && room == 0
}

// The room behind a byte of a character.
fn room_after(room: usize, left: usize) -> usize
    ensures { result ≡ (if left == 0 then room - 1 else room) }
{
    if left == 0 {
        room.saturating_sub(1)
    } else {
        room
    }
}

/// Appends a part of a line as it stands in messages, from a place on.
pub fn push_excerpt_from(out: &mut Text, place: usize, part: &[u8]) -> Result<(), AllocError>
    ensures { OnOk result (out.new ≡ out.old ++ excerpt_from place part.now) }
{
    if place == 0 {
        return push_excerpt(out, part);
    }
    out.push(b"...")?;
    push_excerpt(out, bytes_from(part, place))
}

/// Appends a part of a line as it stands in messages: at most 40 characters.
pub fn push_excerpt(out: &mut Text, part: &[u8]) -> Result<(), AllocError>
    ensures { OnOk result (out.new ≡ out.old ++ excerpt part.now) }
{
    let mut room = EXCERPT;
    let mut left = 0;
    let mut bytes = part;
    'bytes: while let [_, rest @ ..] = bytes {
        if is_cut(room, left) {
            return out.push(b"...");
        }
        out.push_byte(byte_in_message(left, bytes))?;
        room = room_after(room, left);
        left = left_after(left, bytes);
        bytes = rest;
    }
    Ok(())
}

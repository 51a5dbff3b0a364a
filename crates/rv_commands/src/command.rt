//! The commands of the editor.

ghost use Rattle.std.specs.Prelude.{◌≡◌};
ghost use Rattle.std.specs.Option.{option_map};
ghost use Rattle.rv_commands.specs.Commands.{first_word, after_word, place_of, page_of, request_named, change_of, request, request_of};

use crate::pages::Page;
use memchr::memchr;
use rv_store::LineEdit;
use rv_text::digits;

/// What a command asks for.
#[derive(Clone, Copy, Debug)]
pub enum Command<'a> {
    /// Put a line after the last one.
    Append(&'a [u8]),
    /// Make an edit.
    Change(LineEdit<'a>),
    /// Show a page.
    Show(Page),
    /// Disassemble the sections of code.
    Disassemble,
}

// The first word of some bytes, and what stands behind the space after it.
fn split_word(bytes: &[u8]) -> (&[u8], &[u8])
    ensures word { result.0.now ≡ first_word bytes.now }
    ensures rest { result.1.now ≡ after_word bytes.now }
{
    let Some(at) = memchr(b' ', bytes) else {
        return (bytes, &[]);
    };
    let (word, after) = bytes.split_at(at);
    let (_, rest) = after.split_at(1);
    (word, rest)
}

// The number of a line: one to nine decimal digits.
fn read_place(slice: &[u8]) -> Option<u32>
    ensures { result ≡ place_of slice.now }
{
    if slice.len() > 9 {
        return None;
    }
    let place = digits(10, slice)?;
    u32::try_from(place).ok()
}

// The page of this name.
fn read_page(name: &[u8]) -> Option<Page>
    ensures { result ≡ page_of name.now }
{
    if name == b"image".as_slice() {
        return Some(Page::Image);
    }
    if name == b"list".as_slice() {
        return Some(Page::Listing);
    }
    if name == b"syms".as_slice() {
        return Some(Page::Symbols);
    }
    if name == b"faults".as_slice() {
        return Some(Page::Faults);
    }
    if name == b"text".as_slice() {
        return Some(Page::Lines);
    }
    None
}

// What this name alone asks for.
fn read_name(name: &[u8]) -> Option<Command<'_>>
    ensures { option_map request result ≡ request_named name.now }
{
    if name == b"dis".as_slice() {
        return Some(Command::Disassemble);
    }
    let page = read_page(name)?;
    Some(Command::Show(page))
}

// The edit that a word asks for with what stands behind it.
fn read_change<'a>(word: &[u8], rest: &'a [u8]) -> Option<Command<'a>>
    ensures { option_map request result ≡ change_of word.now rest.entry.now }
{
    if word == b"a".as_slice() {
        return Some(Command::Append(rest));
    }
    let (number, line) = split_word(rest);
    if word == b"i".as_slice() {
        let place = read_place(number)?;
        return Some(Command::Change(LineEdit::Insert(place, line)));
    }
    if word == b"d".as_slice() {
        let place = read_place(rest)?;
        return Some(Command::Change(LineEdit::Delete(place)));
    }
    if word == b"r".as_slice() {
        let place = read_place(number)?;
        return Some(Command::Change(LineEdit::Replace(place, line)));
    }
    None
}

/// What the bytes of a command, without its line break, ask for, if anything.
pub fn read_command(command: &[u8]) -> Option<Command<'_>>
    ensures { option_map request result ≡ request_of command.now }
{
    if let Some(named) = read_name(command) {
        return Some(named);
    }
    let (word, rest) = split_word(command);
    read_change(word, rest)
}

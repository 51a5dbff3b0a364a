//! The bytes of a section, one after another.

ghost use Rattle.std.specs.Prelude.{◌≡◌, ◌∷◌, [], ◌+◌, ◌-◌, ◌^◌, ◌<◌, ◌≤◌, ◌++◌, take, drop, slice_get, unwrap_or, IfOk, IfSome, IfNone, OnOk};
ghost use Rattle.std.specs.Option.{option_map};
ghost use Rattle.rv_layout.specs.Sections.{sections};
ghost use Rattle.rv_list.specs.Image.{bytes_in, section_bytes};
ghost use Rattle.rv_list.specs.Later.{bytes_of_last};
ghost use Rattle.rv_list.specs.Shown.{shown_line};

use crate::view::{LineSource, LineView, View, shows_bytes};
use arrayvec::ArrayVec;
use rv_fix::Payload;
use rv_layout::section_number;
use std::alloc::{AllocError, Global};
use std::marker::Model;

/// The bytes of a section that are left to take from some lines. Contracts see the list of them.
#[derive(Drop)]
pub struct SectionBytes<V: View> {
    lines: V::Lines,
    section: usize,
    count: u32,
    // How many lines were passed, and how many bytes of the last of them are taken.
    passed: u32,
    taken: usize,
}

impl<V: View> Model for SectionBytes<V> {
    ghost use Rattle.std.specs.Prelude.{ℕ, List, ◌≡◌, ◌≤◌};
    ghost use Rattle.rv_list.specs.Later.{bytes_left};

    ghost Value = { List ℕ };

    ghost view = { λ b. bytes_left (V.Lines.shown b.lines) b.section b.passed b.taken };

    ghost invariant = { λ b. (b.passed ≡ V.Lines.passed b.lines) × (b.count ≡ (V.Lines.shown b.lines).count) × (b.passed ≤ b.count) };
}

// The byte at a place of a payload, if there is one.
fn byte_at(payload: Option<&Payload>, place: usize) -> Option<u8>
    ensures value { result ≡ slice_get (unwrap_or (option_map (λ p. p.now) payload.entry) []) place }
    ensures within { IfSome result (λ _. place < 2 ^ 64 - 1) }
{
    let payload = payload?;
    if place >= payload.len() {
        return None;
    }
    payload.byte(place)
}

// The bytes of a line, if it lies in the section.
fn payload_in<'a>(line: &LineView<'a>, section: usize) -> Option<&'a Payload>
    ensures { unwrap_or (option_map (λ p. p.now) result) [] ≡ bytes_in section (shown_line line.now) }
{
    if section_number(line.place.section) == section {
        Some(&line.code.payload)
    } else {
        None
    }
}

// The byte at a place among those that the last of so many lines has in a section, if there is one.
fn byte_of_last<L: LineSource>(lines: &L, section: usize, passed: u32, place: usize) -> Option<u8>
    requires { passed ≡ L.passed lines.now }
    ensures value { result ≡ slice_get (bytes_of_last (L.shown lines.now) section passed) place }
    ensures within { IfSome result (λ _. place < 2 ^ 64 - 1) }
{
    if passed == 0 {
        return None;
    }
    byte_at(payload_in(&lines.line(), section), place)
}

impl<V: View> SectionBytes<V> {
    /// All bytes of the section.
    pub fn new(view: &V, section: usize) -> Self
        ensures { result ≡ section_bytes (V.shown view.now) section }
    {
        SectionBytes {
            lines: view.lines(),
            section,
            count: view.line_count(),
            passed: 0,
            taken: 0,
        }
    }

    // Takes the first byte, if one is left.
    fn next(&mut self) -> Option<u8>
        ensures byte { IfSome result (λ byte. self.old ≡ byte ∷ self.new) }
        ensures end { IfNone result ((self.old ≡ []) × (self.new ≡ [])) }
    {
        'finding: loop {
            if let Some(byte) = byte_of_last(&self.lines, self.section, self.passed, self.taken) {
                self.taken += 1;
                return Some(byte);
            }
            if self.passed == self.count {
                return None;
            }
            self.lines.advance();
            self.passed += 1;
            self.taken = 0;
        }
    }

    /// Takes the bytes of the next row: sixteen, or what is left.
    pub fn next_row(&mut self) -> ArrayVec<u8, 16>
        ensures row { result.items ≡ take 16 self.old }
        ensures rest { self.new ≡ drop 16 self.old }
    {
        let mut row = ArrayVec::new();
        'filling: while !row.is_full() {
            let Some(byte) = self.next() else {
                return row;
            };
            row.push(byte);
        }
        row
    }
}

// How many bytes of a section are shown, as its size has it.
fn shown_size<V: View>(view: &V, section: usize) -> usize
    requires { section < sections }
{
    if shows_bytes(section) {
        view.section(section).size as usize
    } else {
        0
    }
}

// Appends the bytes that a line has in a section.
fn append_line(bytes: &mut Vec<u8>, line: &LineView<'_>, section: usize) -> Result<(), AllocError>
    ensures { OnOk result (bytes.new.items ≡ bytes.old.items ++ bytes_in section (shown_line line.now)) }
{
    match payload_in(line, section) {
        Some(payload) => payload.append_to(bytes),
        None => Ok(()),
    }
}

/// The bytes that the lines of a text have in a section, by the number of the section.
///
/// # Errors
///
/// `AllocError` if there is no memory for them.
pub fn section_bytes<V: View>(
    alloc: Global,
    view: &V,
    section: usize,
) -> Result<Vec<u8>, AllocError>
    requires { section < sections }
    ensures { IfOk result (λ bytes. bytes.items ≡ section_bytes (V.shown view.now) section) }
{
    let mut bytes = Vec::with_capacity(alloc, shown_size(view, section))?;
    let mut lines = view.lines();
    for k in 0..view.line_count() {
        lines.advance();
        append_line(&mut bytes, &lines.line(), section)?;
    }
    Ok(bytes)
}

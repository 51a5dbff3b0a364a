//! Bytes in pieces, of which equal ones take no memory.

ghost use Rattle.std.specs.Prelude.{◌≡◌, ◌<◌, ◌-◌, ◌^◌, ◌++◌, All, length, replicate, slice_get, IfOk, IfSome, OnOk};
ghost use Rattle.rv_layout.specs.Sections.{sections};
ghost use Rattle.rv_list.specs.Image.{bytes_in, section_bytes};
ghost use Rattle.rv_list.specs.Shown.{shown_line};
ghost use Rattle.rv_files.specs.Pieces.{HoldsBytes, bytes_of_piece, bytes_of_pieces};
ghost use Rattle.rv_files.specs.Segments.{AreBytes};

use rv_fix::Payload;
use rv_layout::section_number;
use rv_list::{LineSource, LineView, View};
use std::alloc::{AllocError, Global};

// More equal bytes than these are a piece of their own.
const FEW: usize = 64;

/// Some bytes.
#[derive(Drop)]
pub enum Piece {
    /// One by one.
    Bytes(Vec<u8>),
    /// One byte, so many times.
    Repeated(u8, usize),
}

impl Piece {
    // The bytes of a list.
    fn listed(bytes: Vec<u8>) -> Piece
        ensures value { bytes_of_piece result ≡ bytes.items }
        ensures bytes { AreBytes (bytes_of_piece result) }
    {
        Piece::Bytes(bytes)
    }

    /// How many bytes there are.
    pub fn len(&self) -> usize
        ensures { result ≡ length (bytes_of_piece self.now) }
    {
        match self {
            Piece::Bytes(bytes) => bytes.len(),
            Piece::Repeated(_, count) => *count,
        }
    }

    /// The byte at a place, counted from 0, if there is one.
    pub fn byte(&self, place: usize) -> Option<u8>
        ensures value { result ≡ slice_get (bytes_of_piece self.now) place }
        ensures within { IfSome result (λ _. place < 2 ^ 64 - 1) }
    {
        match self {
            Piece::Bytes(bytes) => bytes.as_slice().get(place).copied(),
            Piece::Repeated(byte, count) => { if place < *count { Some(*byte) } else { None } }
        }
    }
}

// The byte of which a payload has many and no other.
fn repeated_byte(payload: &Payload) -> Option<u8>
    ensures { IfSome result (λ byte. payload.now ≡ replicate (length payload.now) byte) }
{
    if payload.len() <= FEW {
        return None;
    }
    let first = payload.byte(0)?;
    for place in 0..payload.len() {
        if payload.byte(place)? != first {
            return None;
        }
    }
    Some(first)
}

// Takes the bytes off the end that are kept one by one.
fn take_last(alloc: Global, pieces: &mut Vec<Piece>) -> Result<Vec<u8>, AllocError>
    ensures whole { IfOk result (λ bytes. bytes_of_pieces pieces.new.items ++ bytes.items ≡ bytes_of_pieces pieces.old.items) }
    ensures bytes { IfOk result (λ _. HoldsBytes pieces.old.items → HoldsBytes pieces.new.items) }
{
    match pieces.pop() {
        Some(Piece::Bytes(bytes)) => Ok(bytes),
        Some(Piece::Repeated(byte, count)) => {
            pieces.push(Piece::Repeated(byte, count))?;
            Ok(Vec::new(alloc))
        }
        None => Ok(Vec::new(alloc)),
    }
}

// Adds the bytes of a payload, one by one.
fn push_each(alloc: Global, pieces: &mut Vec<Piece>, payload: &Payload) -> Result<(), AllocError>
    ensures whole { OnOk result (bytes_of_pieces pieces.new.items ≡ bytes_of_pieces pieces.old.items ++ payload.now) }
    ensures bytes { OnOk result (HoldsBytes pieces.old.items → HoldsBytes pieces.new.items) }
{
    let mut bytes = take_last(alloc, pieces)?;
    payload.append_to(&mut bytes)?;
    let last = Piece::listed(bytes);
    pieces.push(last)?;
    Ok(())
}

// Adds the bytes of a payload.
fn push_payload(alloc: Global, pieces: &mut Vec<Piece>, payload: &Payload) -> Result<(), AllocError>
    ensures whole { OnOk result (bytes_of_pieces pieces.new.items ≡ bytes_of_pieces pieces.old.items ++ payload.now) }
    ensures bytes { OnOk result (HoldsBytes pieces.old.items → HoldsBytes pieces.new.items) }
{
    let Some(byte) = repeated_byte(payload) else {
        return push_each(alloc, pieces, payload);
    };
    pieces.push(Piece::Repeated(byte, payload.len()))?;
    Ok(())
}

// Adds the bytes that a line has in a section.
fn push_line(
    alloc: Global,
    pieces: &mut Vec<Piece>,
    line: &LineView<'_>,
    section: usize,
) -> Result<(), AllocError>
    ensures whole { OnOk result (bytes_of_pieces pieces.new.items ≡ bytes_of_pieces pieces.old.items ++ bytes_in section (shown_line line.now)) }
    ensures bytes { OnOk result (HoldsBytes pieces.old.items → HoldsBytes pieces.new.items) }
{
    if section_number(line.place.section) != section {
        return Ok(());
    }
    push_payload(alloc, pieces, &line.code.payload)
}

/// The bytes that the lines of a text have in a section, by the number of the section.
///
/// # Errors
///
/// `AllocError` if there is no memory for them.
pub fn section_pieces<V: View>(
    alloc: Global,
    view: &V,
    section: usize,
) -> Result<Vec<Piece>, AllocError>
    ensures whole { IfOk result (λ pieces. bytes_of_pieces pieces.items ≡ section_bytes (V.shown view.now) section) }
    ensures bytes { IfOk result (λ pieces. HoldsBytes pieces.items) }
{
    let mut pieces = Vec::new(alloc);
    let mut lines = view.lines();
    for k in 0..view.line_count() {
        lines.advance();
        push_line(alloc, &mut pieces, &lines.line(), section)?;
    }
    Ok(pieces)
}

/// How many bytes there are in all. There are no more than a list can hold.
///
/// # Errors
///
/// `AllocError` if there are more.
pub fn count_bytes(mut pieces: &[Piece]) -> Result<usize, AllocError>
    ensures count { IfOk result (λ n. n ≡ length (bytes_of_pieces pieces.entry.now)) }
    ensures few { IfOk result (λ n. n < 2 ^ 63) }
{
    let mut left = isize::MAX as usize;
    'pieces: while let [piece, later @ ..] = pieces {
        let len = piece.len();
        if len > left {
            return Err(AllocError);
        }
        left -= len;
        pieces = later;
    }
    Ok(isize::MAX as usize - left)
}

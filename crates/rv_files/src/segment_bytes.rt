//! The bytes of segments.

ghost use Rattle.std.specs.Prelude.{◌≡◌, ◌==◌, ◌∷◌, [], ◌-◌, ◌^◌, ◌<◌, ◌++◌, drop, length, replicate, take, IfOk, IfNone, IfSome};
ghost use Rattle.rv_text.specs.Streams.{failures_after, Writes};
ghost use Rattle.rv_list.specs.Image.{section_bytes};
ghost use Rattle.rv_files.specs.Pieces.{bytes_of_piece, bytes_of_pieces};
ghost use Rattle.rv_files.specs.Segments.{AreBytes};

use crate::pieces::{Piece, count_bytes, section_pieces};
use crate::repeated::write_repeated;
use arrayvec::ArrayVec;
use rv_list::View;
use rv_text::{Failed, Sink, write_all};
use std::alloc::{AllocError, Global};
use std::marker::Model;

/// The bytes of a segment. Many equal bytes take no memory. Contracts see the list of them.
#[derive(Drop)]
pub struct SegmentBytes {
    pieces: Vec<Piece>,
    count: usize,
}

impl Model for SegmentBytes {
    ghost use Rattle.std.specs.Prelude.{ℕ, List, ◌≡◌, ◌<◌, ◌^◌, length};
    ghost use Rattle.rv_files.specs.Pieces.{bytes_of_pieces};
    ghost use Rattle.rv_files.specs.Segments.{AreBytes};

    ghost Value = { List ℕ };

    ghost view = { λ b. bytes_of_pieces b.pieces.items };

    ghost invariant = { λ b. (b.count ≡ length (bytes_of_pieces b.pieces.items)) × (b.count < 2 ^ 63) × AreBytes (bytes_of_pieces b.pieces.items) };
}

/// The bytes that are left of some. Contracts see the list of them.
#[derive(Drop)]
pub struct BytesLeft<'a> {
    pieces: &'a [Piece],
    taken: usize,
}

impl<'a> Model for BytesLeft<'a> {
    ghost use Rattle.std.specs.Prelude.{ℕ, List, drop};
    ghost use Rattle.rv_files.specs.Pieces.{bytes_of_pieces};

    ghost Value = { List ℕ };

    ghost view = { λ b. drop b.taken (bytes_of_pieces b.pieces.now) };
}

// Writes the bytes of a piece.
fn write_piece<W: Sink>(sink: &mut W, piece: &Piece) -> Result<(), Failed>
    requires { W.failures sink.old < 2 ^ 64 - 1 }
    ensures text { Writes (W.taken sink.old) (bytes_of_piece piece.now) result (W.taken sink.new) }
    ensures count { W.failures sink.new ≡ failures_after (W.failures sink.old) result }
{
    match piece {
        Piece::Bytes(bytes) => write_all(sink, bytes.as_slice()),
        Piece::Repeated(byte, count) => write_repeated(sink, *byte, *count as u64),
    }
}

// Writes the bytes of pieces.
fn write_pieces<W: Sink>(mut pieces: &[Piece], sink: &mut W) -> Result<(), Failed>
    requires { W.failures sink.old < 2 ^ 64 - 1 }
    ensures text { Writes (W.taken sink.old) (bytes_of_pieces pieces.entry.now) result (W.taken sink.new) }
    ensures count { W.failures sink.new ≡ failures_after (W.failures sink.old) result }
{
    'pieces: while let [piece, later @ ..] = pieces {
        write_piece(sink, piece)?;
        pieces = later;
    }
    Ok(())
}

impl SegmentBytes {
    /// No bytes.
    pub fn new(alloc: Global) -> SegmentBytes
        ensures { result ≡ [] }
    {
        SegmentBytes {
            pieces: Vec::new(alloc),
            count: 0,
        }
    }

    /// The bytes that the lines of a text have in a section, by the number of the section.
    ///
    /// # Errors
    ///
    /// `AllocError` if there is no memory for them.
    pub fn of_section<V: View>(
        alloc: Global,
        view: &V,
        section: usize,
    ) -> Result<SegmentBytes, AllocError>
        ensures { IfOk result (λ bytes. bytes ≡ section_bytes (V.shown view.now) section) }
    {
        let pieces = section_pieces(alloc, view, section)?;
        let count = count_bytes(pieces.as_slice())?;
        Ok(SegmentBytes { pieces, count })
    }

    /// How many there are.
    pub fn len(&self) -> usize
        ensures count { result ≡ length self.now }
        ensures few { result < 2 ^ 63 }
    {
        self.count
    }

    /// Whether there are none.
    pub fn is_empty(&self) -> bool
        ensures { result ≡ (length self.now == 0) }
    {
        self.count == 0
    }

    /// All of them are left.
    pub fn left(&self) -> BytesLeft<'_>
        ensures { result ≡ self.now }
    {
        BytesLeft {
            pieces: self.pieces.as_slice(),
            taken: 0,
        }
    }

    /// Writes them, up to the first failure of the writer.
    pub fn write<W: Sink>(&self, sink: &mut W) -> Result<(), Failed>
        requires { W.failures sink.old < 2 ^ 64 - 1 }
        ensures text { Writes (W.taken sink.old) self.now result (W.taken sink.new) }
        ensures count { W.failures sink.new ≡ failures_after (W.failures sink.old) result }
    {
        write_pieces(self.pieces.as_slice(), sink)
    }
}

impl<'a> BytesLeft<'a> {
    // Takes the first byte, if one is left.
    fn next(&mut self) -> Option<u8>
        ensures byte { IfSome result (λ byte. self.old ≡ byte ∷ self.new) }
        ensures end { IfNone result ((self.old ≡ []) × (self.new ≡ [])) }
    {
        'pieces: while let [piece, later @ ..] = self.pieces {
            if let Some(byte) = piece.byte(self.taken) {
                self.taken += 1;
                return Some(byte);
            }
            self.taken -= piece.len();
            self.pieces = later;
        }
        None
    }

    /// Takes the bytes of the next row: sixteen, or what is left.
    pub fn next_row(&mut self) -> ArrayVec<u8, 16>
        ensures row { result.items ≡ take 16 self.old }
        ensures rest { self.new ≡ drop 16 self.old }
    {
        let mut row = ArrayVec::new();
        'filling: while !row.is_full() {
            let Some(byte) = self.next() else {
                return row;
            };
            row.push(byte);
        }
        row
    }
}

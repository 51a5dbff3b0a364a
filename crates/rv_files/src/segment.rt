//! What is loaded of a text.

ghost use Rattle.std.specs.Prelude.{◌≡◌, ◌+◌, ◌==◌, length};
ghost use Rattle.rv_files.specs.Segments.{AreBytes};

use crate::segment_bytes::SegmentBytes;
use std::marker::Model;

/// What is loaded of a section: its number, its address, its bytes, and how many zeros come after them. Contracts see all of it.
#[derive(Drop)]
pub struct Segment {
    section: usize,
    address: u32,
    bytes: SegmentBytes,
    zeros: u32,
}

impl Model for Segment {
    ghost use Rattle.rv_files.specs.Segments.{Segment};

    ghost Value = { Segment };

    ghost view = { λ s. record { section = s.section; address = s.address; bytes = s.bytes; zeros = s.zeros } };
}

impl Segment {
    /// These bytes of a section, from this address on, and after them so many zeros.
    pub fn new(section: usize, address: u32, bytes: SegmentBytes, zeros: u32) -> Segment
        ensures value { result ≡ record { section = section; address = address; bytes = bytes; zeros = zeros } }
        ensures bytes { AreBytes result.bytes }
    {
        Segment {
            section,
            address,
            bytes,
            zeros,
        }
    }

    /// The number of its section.
    pub fn section(&self) -> usize
        ensures { result ≡ self.now.section }
    {
        self.section
    }

    /// The address of the first byte.
    pub fn address(&self) -> u32
        ensures { result ≡ self.now.address }
    {
        self.address
    }

    /// The bytes.
    pub fn bytes(&self) -> &SegmentBytes
        ensures { result.now ≡ self.now.bytes }
    {
        &self.bytes
    }

    /// How many zeros come after the bytes.
    pub fn zeros(&self) -> u32
        ensures { result ≡ self.now.zeros }
    {
        self.zeros
    }

    /// Whether nothing is loaded.
    pub fn is_empty(&self) -> bool
        ensures { result ≡ (length self.now.bytes + self.now.zeros == 0) }
    {
        self.bytes.is_empty() && self.zeros == 0
    }
}

//! The bytes of a line.

ghost use Rattle.std.specs.Prelude.{◌≡◌, ◌<◌, ◌++◌, length, replicate, take, true, Some, IsTrue, OnOk, OnErr, ◌↔◌};
ghost use Rattle.std.specs.List.{slice_get};
ghost use Rattle.rv_fix.specs.Padding.{padding};

use crate::line_bytes::LineBytes;
use std::alloc::AllocError;
use std::marker::Model;

// How the bytes are kept.
#[derive(Drop)]
enum Form {
    // One by one.
    Bytes(LineBytes),
    // One byte, so many times.
    Repeated(u8, u32),
    // So many bytes of padding in a section of code.
    Padding(u32),
}

/// The bytes of a line. Equal bytes and padding take no memory, and neither do eight bytes or fewer. Contracts see the list.
#[derive(Drop)]
pub struct Payload {
    form: Form,
}

impl Model for Payload {
    ghost use Rattle.std.specs.Prelude.{ℕ, List};
    ghost use Rattle.rv_fix.specs.Payloads.{bytes_of_form};

    ghost Value = { List ℕ };

    ghost view = { λ p. bytes_of_form p.form };
}

// The byte at a place of so many bytes of padding in a section of code.
fn padding_byte(count: u32, place: u32) -> u8
    requires { place < count }
    ensures { slice_get (padding true count) place ≡ Some result }
{
    let odd = count % 2;
    if place < odd {
        return 0;
    }
    let after = place - odd;
    let half = count / 2 % 2 * 2;
    if after < half {
        return if after == 0 { 0x01 } else { 0x00 };
    }
    if (after - half) % 4 == 0 { 0x13 } else { 0x00 }
}

// Whether these are the same byte, or none.
fn is_same_byte(left: Option<u8>, right: Option<u8>) -> bool
    ensures { IsTrue result ↔ (left ≡ right) }
{
    match left {
        Some(x) => match right {
            Some(y) => x == y,
            None => false,
        },
        None => right.is_none(),
    }
}

impl Payload {
    // These bytes.
    pub(crate) fn bytes(bytes: LineBytes) -> Self
        ensures { result ≡ bytes }
    {
        Payload {
            form: Form::Bytes(bytes),
        }
    }

    // One byte, so many times.
    pub(crate) fn repeated(byte: u8, count: u32) -> Self
        ensures { result ≡ replicate count byte }
    {
        Payload {
            form: Form::Repeated(byte, count),
        }
    }

    // So many bytes of padding.
    pub(crate) fn padding(in_code: bool, count: u32) -> Self
        ensures { result ≡ padding in_code count }
    {
        let form = if in_code {
            Form::Padding(count)
        } else {
            Form::Repeated(0, count)
        };
        Payload { form }
    }

    /// How many bytes there are.
    #[tactic(auto, using(crate::proofs::Paddings::length_padding))]
    pub fn len(&self) -> usize
        ensures { result ≡ length self.now }
    {
        match &self.form {
            Form::Bytes(bytes) => bytes.as_slice().len(),
            Form::Repeated(_, count) => *count as usize,
            Form::Padding(count) => *count as usize,
        }
    }

    /// The byte at a place, counted from 0, if there is one.
    #[tactic(auto, using(crate::proofs::Paddings::past_padding))]
    pub fn byte(&self, place: usize) -> Option<u8>
        ensures { result ≡ slice_get self.now place }
    {
        match &self.form {
            Form::Bytes(bytes) => bytes.as_slice().get(place).copied(),
            Form::Repeated(byte, count) => {
                if place < *count as usize {
                    Some(*byte)
                } else {
                    None
                }
            }
            Form::Padding(count) => {
                if place < *count as usize {
                    Some(padding_byte(*count, place as u32))
                } else {
                    None
                }
            }
        }
    }

    // Appends the bytes to a list, one after another. Where the memory for one is refused, those before it stay.
    fn append_each(&self, list: &mut Vec<u8>) -> Result<(), AllocError>
        ensures appended { OnOk result (list.new.items ≡ list.old.items ++ self.now) }
        ensures begins { OnErr result (take (length list.old.items) list.new.items ≡ list.old.items) }
    {
        for place in 0..self.len() {
            let Some(byte) = self.byte(place) else {
                unreachable!()
            };
            list.push(byte)?;
        }
        Ok(())
    }

    // Appends the bytes to a list, all or none of them.
    fn append_all(&self, list: &mut Vec<u8>) -> Result<(), AllocError>
        ensures appended { OnOk result (list.new.items ≡ list.old.items ++ self.now) }
        ensures refused { OnErr result (list.new.items ≡ list.old.items) }
    {
        let count = list.len();
        let appended = self.append_each(list);
        if appended.is_err() {
            list.truncate(count);
        }
        appended
    }

    /// Appends the bytes to a list.
    ///
    /// # Errors
    ///
    /// `AllocError` if there is no memory for them. The list then has the bytes that it had before.
    pub fn append_to(&self, list: &mut Vec<u8>) -> Result<(), AllocError>
        ensures appended { OnOk result (list.new.items ≡ list.old.items ++ self.now) }
        ensures refused { OnErr result (list.new.items ≡ list.old.items) }
    {
        match &self.form {
            Form::Bytes(bytes) => list.extend_from_slice(bytes.as_slice()),
            _ => self.append_all(list),
        }
    }

    // Whether these are the same bytes, one after another.
    fn is_same_by_bytes(&self, other: &Payload) -> bool
        ensures { IsTrue result ↔ (self.now ≡ other.now) }
    {
        let count = self.len();
        if count != other.len() {
            return false;
        }
        for place in 0..count {
            if !is_same_byte(self.byte(place), other.byte(place)) {
                return false;
            }
        }
        true
    }

    /// Whether these are the same bytes, however they are kept.
    pub fn is_same(&self, other: &Payload) -> bool
        ensures { IsTrue result ↔ (self.now ≡ other.now) }
    {
        match &self.form {
            Form::Bytes(bytes) => match &other.form {
                Form::Bytes(others) => bytes.as_slice() == others.as_slice(),
                _ => self.is_same_by_bytes(other),
            },
            _ => self.is_same_by_bytes(other),
        }
    }
}

//! The encodings of instructions.
ghost use Rattle.std.specs.Prelude.{◌≡◌, ◌+◌, ◌/◌, ◌%◌, ◌^◌, ◌<◌, ◌≤◌, IsTrue};
ghost use Rattle.std.specs.List.{list_all};
ghost use Rattle.rv_ops.specs.Room.{is_slice, most, room};
ghost use Rattle.rv_ops.specs.Table.{fixed_of, shape_of, slices_of};
ghost use Rattle.rv_code.specs.Encoding.{bits_of_field, bits_of_slice, bits_of_slices, encoding_of, word_of};

use crate::instruction::{Fields, Ins};
use crate::word::Word;
use rv_ops::{Field, FieldSlice, Op, fixed, is_full, slices};

/// `count` bits of a number, from the bit `lowest` on.
pub fn cut(number: u32, lowest: u32, count: u32) -> u32
    requires lowest { lowest < 32 }
    requires count { count < 32 }
    ensures { result ≡ number / 2 ^ lowest % 2 ^ count }
{
    (number >> lowest) & ((1 << count) - 1)
}

/// A field as a number of 32 bits.
fn field_number(fields: &Fields, field: Field) -> u32
    ensures { result ≡ bits_of_field field fields.now }
{
    match field {
        Field::Rd => u32::from(fields.rd.number()),
        Field::Rs1 => u32::from(fields.rs1.number()),
        Field::Rs2 => u32::from(fields.rs2.number()),
        Field::Value => fields.value.cast_unsigned(),
    }
}

/// The bits of a slice at their places in the word.
fn put(slice: &FieldSlice, fields: &Fields) -> u32
    requires { IsTrue (is_slice slice.now) }
    ensures value { result ≡ bits_of_slice fields.now slice.now }
    ensures most { result ≤ most slice.now }
{
    let number = field_number(fields, slice.field);
    cut(number, slice.field_bit, slice.width) << slice.word_bit
}

/// The fixed bits, and each slice of a field at its place.
fn assembled(fixed: u32, mut slices: &[FieldSlice], fields: &Fields) -> u32
    requires slices { IsTrue (list_all is_slice slices.now) }
    requires room { fixed + room slices.now < 2 ^ 32 }
    ensures value { result ≡ fixed + bits_of_slices fields.now slices.entry.now }
    ensures most { result ≤ fixed + room slices.entry.now }
{
    let mut word = fixed;
    while let [slice, rest @ ..] = slices {
        word += put(slice, fields);
        slices = rest;
    }
    word
}

/// The encoding of an operation with these fields, as a number.
pub fn bits(op: Op, fields: &Fields) -> u32
    ensures value { result ≡ encoding_of op fields.now }
    ensures most { result ≤ fixed_of op + room (slices_of (shape_of op)) }
{
    let its_slices = slices(op);
    let its_fixed = fixed(op);
    assembled(its_fixed, its_slices, fields)
}

/// The encoding of an operation with any fields. Where the operation takes the fields, it is that of an instruction.
pub fn word_of(op: Op, fields: &Fields) -> Word
    ensures { result ≡ word_of op fields.now }
{
    let number = bits(op, fields);
    if is_full(op) {
        Word::Full(number)
    } else {
        Word::Half(number as u16)
    }
}

/// The encoding of an instruction.
pub fn encode(ins: &Ins) -> Word
    ensures { result ≡ word_of ins.now.0 ins.now.1 }
{
    word_of(ins.op(), ins.fields())
}

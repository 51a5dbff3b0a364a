//! The fields of encoded instructions.

ghost use Rattle.std.specs.Prelude.{◌≡◌, ◌+◌, ◌*◌, ◌<◌, ◌≤◌, ◌^◌, ◌++◌, [], IfSome, Some, IsTrue, length, map, slice_index_or};
ghost use Rattle.std.specs.List.{list_all};
ghost use Rattle.arrayvec.specs.ArrayVec.{array_vec_len};
ghost use Rattle.rv_ops.specs.Room.{is_slice};
ghost use Rattle.rv_ops.specs.Table.{mask_of};
ghost use Rattle.rv_ops.specs.declared.op.Op.{Op};
ghost use Rattle.rv_code.specs.declared.instruction.Fields.{Fields};
ghost use Rattle.rv_code.specs.Encoding.{Fits, encoding_of, word_of};
ghost use Rattle.rv_manual.specs.Fields.{IsWord, before, bits_of_stretches, bits_together, covers, field_of, fields_of, fixed_below, format_number, format_of, is_stretch, no_format, size_of, slice_below, stretch_below, stretch_of_slice};

use crate::formats::{FORMATS, FieldNames, FormatRow, Stretch};
use arrayvec::ArrayVec;
use rv_code::{Ins, Word, decode16, decode32, encode};
use rv_ops::{Field, FieldSlice, Op, is_full, shape, slices};

/// A field of an encoded instruction, or a stretch of one that is not in one piece.
#[derive(Clone, Copy, Debug, PartialEq, Eq, Default)]
pub struct EncodedField {
    pub stretch: Stretch,
    /// Its bits, the lowest of which is bit 0.
    pub bits: u32,
}

/// What a format says of an operation.
#[derive(Clone, Copy)]
struct Format {
    names: FieldNames,
    fixed: &'static [Stretch],
}

// The place of the format of an operation in the table.
fn format_number(op: Op) -> usize
    ensures value { result ≡ format_number op }
{
    match op {
        Op::FenceTso => 33,
        Op::FenceI => 34,
        Op::CNop => 35,
        Op::CMv => 36,
        _ => shape(op) as usize,
    }
}

// The format at a place.
fn format_at(rows: &[FormatRow], index: usize) -> Format
    requires { index < length rows.now }
    ensures names { result.names ≡ slice_index_or (map (λ row. row.0) rows.now) index no_format.0 }
    ensures fixed { result.fixed.now ≡ slice_index_or (map (λ row. row.1.now) rows.now) index [] }
{
    let row = &rows[index];
    Format {
        names: row.0,
        fixed: row.1,
    }
}

// The format of an operation.
fn format_of(op: Op) -> Format
    ensures names { result.names ≡ (format_of op).0 }
    ensures fixed { result.fixed.now ≡ (format_of op).1.now }
    ensures placed { IsTrue (list_all is_stretch result.fixed.now) }
{
    format_at(&FORMATS, format_number(op))
}

// The stretch of a slice of a layout.
fn stretch_of_slice(names: FieldNames, slice: FieldSlice) -> Stretch
    requires placed { IsTrue (is_slice slice) }
    requires value { names.value_bit < 32 }
    ensures value { result ≡ stretch_of_slice names slice }
    ensures placed { IsTrue (is_stretch result) }
{
    let (name, first) = match slice.field {
        Field::Rd => (names.rd, 0),
        Field::Rs1 => (names.rs1, 0),
        Field::Rs2 => (names.rs2, 0),
        Field::Value => (names.value, names.value_bit),
    };
    Stretch {
        name,
        field_bit: first + slice.field_bit,
        width: slice.width,
        word_bit: slice.word_bit,
    }
}

// The slice that ends below a bit.
fn slice_below(mut slices: &[FieldSlice], end: u32) -> Option<FieldSlice>
    requires { IsTrue (list_all is_slice slices.now) }
    ensures value { result ≡ slice_below end slices.entry.now }
    ensures placed { IfSome result (λ s. IsTrue (is_slice s)) }
{
    'slices: while let [slice, rest @ ..] = slices {
        if slice.word_bit + slice.width == end {
            return Some(*slice);
        }
        slices = rest;
    }
    None
}

// The stretch of fixed bits that ends below a bit.
fn fixed_below(mut stretches: &[Stretch], end: u32) -> Option<Stretch>
    requires { IsTrue (list_all is_stretch stretches.now) }
    ensures value { result ≡ fixed_below end stretches.entry.now }
    ensures placed { IfSome result (λ s. IsTrue (is_stretch s)) }
{
    'stretches: while let [stretch, rest @ ..] = stretches {
        if stretch.word_bit + stretch.width == end {
            return Some(*stretch);
        }
        stretches = rest;
    }
    None
}

// The stretch of an operation's encodings that ends below a bit.
fn stretch_below(op: Op, end: u32) -> Option<Stretch>
    ensures value { result ≡ stretch_below op end }
    ensures placed { IfSome result (λ s. IsTrue (is_stretch s)) }
{
    let format = format_of(op);
    match slice_below(slices(op), end) {
        Some(slice) => Some(stretch_of_slice(format.names, slice)),
        None => fixed_below(format.fixed, end),
    }
}

// The field that a stretch of a word is.
fn field_of(word: u32, stretch: Stretch) -> EncodedField
    requires { IsTrue (is_stretch stretch) }
    ensures { result ≡ field_of word stretch }
{
    EncodedField {
        stretch,
        bits: (word >> stretch.word_bit) & ((1 << stretch.width) - 1),
    }
}

// Adds the field that ends below a bit, if one does.
fn push_field(fields: &mut ArrayVec<EncodedField, 32>, op: Op, word: u32, end: u32)
    requires { array_vec_len fields.old < 32 }
    ensures value { fields.new.items ≡ fields.old.items ++ map (field_of word) (before (stretch_below op end) []) }
    ensures len { length fields.new.items ≤ length fields.old.items + 1 }
{
    match stretch_below(op, end) {
        Some(stretch) => fields.push(field_of(word, stretch)),
        None => {}
    }
}

// The encoding of an instruction as a number.
fn word_number(ins: &Ins) -> u32
    ensures value { result ≡ encoding_of ins.now.0 ins.now.1 }
    ensures size { result < 2 ^ size_of ins.now.0 }
{
    match encode(ins) {
        Word::Half(number) => u32::from(number),
        Word::Full(number) => number,
    }
}

/// The fields of an encoded instruction, from the highest bit on. They cover each of its bits once, and put together they are the encoding.
pub fn encoded_fields(ins: &Ins) -> ArrayVec<EncodedField, 32>
    ensures value { result.items ≡ fields_of ins.now.0 ins.now.1 }
    ensures covers { IsTrue (covers (size_of ins.now.0) result.items) }
    ensures together { bits_together result.items ≡ encoding_of ins.now.0 ins.now.1 }
{
    let op = ins.op();
    let word = word_number(ins);
    let mut fields = ArrayVec::new();
    let mut end = if is_full(op) { 32 } else { 16 };
    'bits: while end > 0 {
        push_field(&mut fields, op, word, end);
        end -= 1;
    }
    fields
}

/// The stretches of fixed bits in the format of an operation are together the fixed bits of its row in the table.
pub fn formats_have_the_fixed_bits()
    ensures { (o : Op) → bits_of_stretches (format_of o).1.now ≡ mask_of o }
{}

/// The instruction that a number of so many bytes encodes, the lowest byte first in memory, if it does.
pub fn instruction_of(number: u32, size: u8) -> Option<Ins>
    // What is found is an instruction, and the number is its encoding.
    ensures found { IfSome result (λ i. Fits i.0 i.1 × IsWord number size (word_of i.0 i.1)) }
    // Whatever instruction has the number as its encoding is the one that is found.
    ensures only { number < 2 ^ (8 * size) → (o : Op) (f : Fields) → Fits o f → IsWord number size (word_of o f) → result ≡ Some (o, f) }
{
    match size {
        4 => decode32(number),
        2 => match u16::try_from(number) {
            Ok(number) => decode16(number),
            Err(_) => None,
        },
        _ => None,
    }
}

//! The instructions that words encode.
ghost use Rattle.std.specs.Prelude.{◌≡◌, ◌+◌, ◌<◌, ◌≤◌, ◌^◌, ◌≤ℤ◌, IsTrue, false, Some, IfSome, IfNone, map, pos, negsuc, bit_and};
ghost use Rattle.std.specs.List.{list_all};
ghost use Rattle.rv_ops.specs.declared.layouts.Field.{Field};
ghost use Rattle.rv_ops.specs.declared.layouts.Field.TheVariants.{Rd, Rs1, Rs2, Value};
ghost use Rattle.rv_ops.specs.declared.op.Op.{Op};
ghost use Rattle.rv_ops.specs.Room.{is_slice};
ghost use Rattle.rv_ops.specs.Table.{fixed_of, is_full, mask_of, shape_of};
ghost use Rattle.rv_code.specs.declared.instruction.Fields.{Fields};
ghost use Rattle.rv_code.specs.declared.word.Word.TheVariants.{Half, Full};
ghost use Rattle.rv_code.specs.Encoding.{Fits, encoding_of, word_of};
ghost use Rattle.rv_code.specs.Decoding.{IsWordOf, IsWordOfNone, bits_from_slice, fields_at, first_of, gathered, is_code_for, most_from_slice, number_at, reach, value_of};

use crate::encoding::cut;
use crate::groups::{full_rows, half_rows};
use crate::instruction::{Fields, Ins};
use rv_ops::{FieldSlice, Op, Reg, RegisterClass, SignExtension, TableRow, classes, sign, slices};

/// What the slices of a word give each field.
#[derive(Clone, Copy)]
struct Gathered {
    rd: u32,
    rs1: u32,
    rs2: u32,
    value: u32,
}

/// The bits of a slice at their places in its field.
fn slice_bits(word: u32, slice: &FieldSlice) -> u32
    requires { IsTrue (is_slice slice.now) }
    ensures value { result ≡ bits_from_slice slice.now.field word slice.now }
    ensures most { result ≤ most_from_slice slice.now.field slice.now }
{
    cut(word, slice.word_bit, slice.width) << slice.field_bit
}

/// Adds the bits of a slice to the number of its field. There is one for each field, in the order of `Field`.
fn add_slice(numbers: &mut [u32; 4], word: u32, slice: &FieldSlice)
    requires slice { IsTrue (is_slice slice.now) }
    requires room { (f : Field) → number_at f numbers.old + most_from_slice f slice.now < 2 ^ 32 }
    ensures value { (f : Field) → number_at f numbers.new ≡ number_at f numbers.old + bits_from_slice f word slice.now }
    ensures most { (f : Field) → number_at f numbers.new ≤ number_at f numbers.old + most_from_slice f slice.now }
{
    numbers[slice.field as usize] += slice_bits(word, slice);
}

/// The fields of a word: what the slices of each add up to.
fn gather(word: u32, mut slices: &[FieldSlice]) -> Gathered
    requires slices { IsTrue (list_all is_slice slices.now) }
    requires reach { (f : Field) → reach f slices.now < 2 ^ 30 }
    ensures rd { result.rd ≡ gathered Rd word slices.entry.now }
    ensures rs1 { result.rs1 ≡ gathered Rs1 word slices.entry.now }
    ensures rs2 { result.rs2 ≡ gathered Rs2 word slices.entry.now }
    ensures value { result.value ≡ gathered Value word slices.entry.now }
    ensures most_rd { result.rd ≤ reach Rd slices.entry.now }
    ensures most_rs1 { result.rs1 ≤ reach Rs1 slices.entry.now }
    ensures most_rs2 { result.rs2 ≤ reach Rs2 slices.entry.now }
    ensures most_value { result.value ≤ reach Value slices.entry.now }
{
    let mut numbers = [0; 4];
    while let [slice, rest @ ..] = slices {
        add_slice(&mut numbers, word, slice);
        slices = rest;
    }
    let [rd, rs1, rs2, value] = numbers;
    Gathered {
        rd,
        rs1,
        rs2,
        value,
    }
}

/// The register for which the bits 0 stand, for each class: x8 where there are three bits.
const FIRSTS: [u32; 6] = [0, 0, 0, 0, 8, 0];

/// The number of the register for which the bits 0 stand.
fn first(class: RegisterClass) -> u32
    ensures value { result ≡ first_of class }
    ensures most { result ≤ 8 }
{
    FIRSTS[class as usize]
}

/// The register for which a number in the word stands.
fn register(class: RegisterClass, number: u32) -> Reg
    requires { first_of class + number < 32 }
    ensures { result ≡ first_of class + number }
{
    let number = first(class) + number;
    // It is below 32; the remainder lets the compiler see that it is.
    let Some(register) = Reg::new((number % 32) as u8) else {
        unreachable!()
    };
    register
}

/// The value for which a number in the word stands.
fn signed(sign: SignExtension, number: u32) -> i32
    requires number { number < 2 ^ 30 }
    requires low { negsuc 1073741823 ≤ℤ sign.modulus }
    requires high { sign.modulus ≤ℤ pos 1073741824 }
    ensures { result ≡ value_of sign number }
{
    let number = number as i32;
    if sign.greatest < number {
        number - sign.modulus
    } else {
        number
    }
}

/// The fields that a word has by the layout of an operation.
#[inline(always)]
fn fields_of(op: Op, word: u32) -> Fields
    ensures { result ≡ fields_at (shape_of op) word }
{
    let fields = gather(word, slices(op));
    let registers = classes(op);
    Fields {
        rd: register(registers.rd, fields.rd),
        rs1: register(registers.rs1, fields.rs1),
        rs2: register(registers.rs2, fields.rs2),
        value: signed(sign(op), fields.value),
    }
}

/// The instruction of an operation whose fixed bits a word has, if the operation takes the fields of the word.
#[inline(always)]
fn instruction_of(op: Op, word: u32) -> Option<Ins>
    requires fixed { bit_and word (mask_of op) ≡ fixed_of op }
    requires size { is_full op ≡ false → word < 2 ^ 16 }
    ensures found { IfSome result (λ i. Fits i.0 i.1 × (encoding_of i.0 i.1 ≡ word)) }
    ensures none { IfNone result (IsWordOf op word → ⊥) }
{
    Ins::try_new(op, fields_of(op, word))
}

/// The instruction of a row that a word encodes, if it does.
#[inline(always)]
fn instruction_of_row(row: &TableRow, word: u32) -> Option<Ins>
    requires { IsTrue (is_code_for word (row.now.0, row.now.3, row.now.4)) }
    ensures found { IfSome result (λ i. Fits i.0 i.1 × (encoding_of i.0 i.1 ≡ word)) }
    ensures none { IfNone result (bit_and word row.now.4 ≡ row.now.3 → IsWordOf row.now.0 word → ⊥) }
{
    if word & row.4 != row.3 {
        return None;
    }
    instruction_of(row.0, word)
}

/// The instruction that a word encodes by the first row that has one.
#[inline(always)]
fn first_instruction(mut rows: &[TableRow], word: u32) -> Option<Ins>
    requires { IsTrue (list_all (is_code_for word) (map (λ row. (row.0, row.3, row.4)) rows.now)) }
    ensures found { IfSome result (λ i. Fits i.0 i.1 × (encoding_of i.0 i.1 ≡ word)) }
    ensures none { IfNone result (IsWordOfNone (map (λ row. (row.0, row.3, row.4)) rows.entry.now) word) }
{
    while let [row, rest @ ..] = rows {
        if let Some(ins) = instruction_of_row(row, word) {
            return Some(ins);
        }
        rows = rest;
    }
    None
}

/// The instruction that a word of thirty-two bits encodes, if it does: its low two bits are then 11.
#[inline(always)]
pub fn decode32(word: u32) -> Option<Ins>
    // What is found is an instruction, and the word is its encoding.
    ensures found { IfSome result (λ i. Fits i.0 i.1 × (word_of i.0 i.1 ≡ Full word)) }
    // Whatever instruction has the word as its encoding is the one that is found.
    ensures only { (o : Op) (f : Fields) → Fits o f → word_of o f ≡ Full word → result ≡ Some (o, f) }
{
    if word % 4 != 3 {
        return None;
    }
    first_instruction(full_rows(word), word)
}

/// The instruction that a word of sixteen bits encodes, if it does: its low two bits are then not 11.
#[inline(always)]
pub fn decode16(word: u16) -> Option<Ins>
    // What is found is an instruction, and the word is its encoding.
    ensures found { IfSome result (λ i. Fits i.0 i.1 × (word_of i.0 i.1 ≡ Half word)) }
    // Whatever instruction has the word as its encoding is the one that is found.
    ensures only { (o : Op) (f : Fields) → Fits o f → word_of o f ≡ Half word → result ≡ Some (o, f) }
{
    if word % 4 == 3 {
        return None;
    }
    first_instruction(half_rows(word), u32::from(word))
}

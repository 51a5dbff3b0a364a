//! Instructions and their encodings.

use crate::operations::{operation_of, operations};
use crate::row::{copied, displayed, found, made, pairs_of, parts_of, shown};
use rv_code::{Fields, Ins, Word, decode16, decode32, encode, in_class, word_of};
use rv_ops::{
    Op, Reg, RegisterClass, Shape, TableRow, first_named, fixed, is_full, mask, name_of, shape,
};
use rv_text::digits;
use std::alloc::{AllocError, Global};
use std::test::Fail;

fn register_of(number: &str) -> Result<Reg, Fail> {
    found(Reg::new(number.parse::<u8>()?), "a number of no register")
}

// The fields of a row: rd, rs1, rs2 and the value.
fn fields_of(words: &str) -> Result<Fields, Fail> {
    let (rd, rest) = parts_of(words);
    let (rs1, rest) = parts_of(rest);
    let (rs2, value) = parts_of(rest);
    Ok(Fields {
        rd: register_of(rd)?,
        rs1: register_of(rs1)?,
        rs2: register_of(rs2)?,
        value: value.parse::<i32>()?,
    })
}

// The operation and the fields of a row: a name and the fields.
fn operation_with_fields(arguments: &str) -> Result<(Op, Fields), Fail> {
    let (name, fields) = parts_of(arguments);
    Ok((operation_of(name)?, fields_of(fields)?))
}

// Whether the constructor of the operation's shape, where there is one, makes this instruction.
fn is_made(ins: &Ins, op: Op, fields: &Fields) -> bool {
    let (rd, rs1, rs2) = (fields.rd, fields.rs1, fields.rs2);
    match shape(op) {
        Shape::Register => Ins::register(op, rd, rs1, rs2) == *ins,
        Shape::Immediate => Ins::immediate(op, rd, rs1, i64::from(fields.value)) == Some(*ins),
        _ => true,
    }
}

/// The instruction of a word.
pub fn decode(word: Word) -> Option<Ins> {
    match word {
        Word::Half(number) => decode16(number),
        Word::Full(number) => decode32(number),
    }
}

// Whether a word has the operation's length and its fixed bits.
fn is_of_operation(word: Word, op: Op) -> bool {
    match word {
        Word::Half(number) => !is_full(op) && u32::from(number) & mask(op) == fixed(op),
        Word::Full(number) => is_full(op) && number & mask(op) == fixed(op),
    }
}

// Whether each other way leads from the fields to the word and back.
fn is_both_ways(ins: &Ins, op: Op, fields: &Fields, word: Word) -> bool {
    is_made(ins, op, fields)
        && word_of(op, fields) == word
        && is_of_operation(word, op)
        && decode(word) == Some(*ins)
        && (ins.op(), *ins.fields()) == (op, *fields)
}

/// A word in hexadecimal digits.
pub fn word_text(alloc: Global, word: Word) -> Result<String, Fail> {
    match word {
        Word::Half(number) => made(format!(in alloc; "{number:04x}")),
        Word::Full(number) => made(format!(in alloc; "{number:08x}")),
    }
}

/// The word of an operation with fields that it takes, which is the same on each way to it, and decodes to them.
pub fn encoding(alloc: Global, arguments: &str) -> Result<String, Fail> {
    let (op, fields) = operation_with_fields(arguments)?;
    let Some(ins) = Ins::try_new(op, fields) else {
        return copied(alloc, "no instruction");
    };
    let word = encode(&ins);
    if !is_both_ways(&ins, op, &fields, word) {
        return copied(alloc, "another word on another way");
    }
    word_text(alloc, word)
}

/// Whether an operation takes fields.
pub fn is_taken(alloc: Global, arguments: &str) -> Result<String, Fail> {
    let (op, fields) = operation_with_fields(arguments)?;
    displayed(alloc, Ins::try_new(op, fields).is_some())
}

// Whether an operation takes a value, where a register stands for both.
fn takes_immediate(op: Op, register: Reg, value: i64) -> Option<bool> {
    match shape(op) {
        Shape::Immediate => Some(Ins::immediate(op, register, register, value).is_some()),
        _ => None,
    }
}

/// Whether an operation of the shape `rd, rs1, value` takes a value, where a register stands for both.
pub fn is_taken_immediate(alloc: Global, arguments: &str) -> Result<String, Fail> {
    let (name, rest) = parts_of(arguments);
    let (register, value) = parts_of(rest);
    let register = register_of(register)?;
    let value = value.parse::<i64>()?;
    shown(alloc, takes_immediate(operation_of(name)?, register, value))
}

/// The word of four or of eight hexadecimal digits.
pub fn word_of_digits(text: &str) -> Option<Word> {
    let value = digits(16, text.as_bytes())?;
    match text.len() {
        4 => u16::try_from(value).ok().map(Word::Half),
        8 => u32::try_from(value).ok().map(Word::Full),
        _ => None,
    }
}

/// The word that a row gives.
pub fn word_of_row(digits: &str) -> Result<Word, Fail> {
    found(
        word_of_digits(digits),
        "a word of neither four nor eight digits",
    )
}

fn instruction_text(alloc: Global, ins: &Ins) -> Result<String, AllocError> {
    let name = name_of(ins.op());
    let fields = ins.fields();
    let (rd, rs1, rs2) = (fields.rd.number(), fields.rs1.number(), fields.rs2.number());
    let value = fields.value;
    format!(in alloc; "{name} {rd} {rs1} {rs2} {value}")
}

/// The instruction of a word, behind which a row may say what it is: its name, rd, rs1, rs2 and the value.
pub fn decoding(alloc: Global, arguments: &str) -> Result<String, Fail> {
    let (word, _remark) = parts_of(arguments);
    match decode(word_of_row(word)?) {
        Some(ins) => made(instruction_text(alloc, &ins)),
        None => copied(alloc, "none"),
    }
}

/// The bytes of a word as they stand in memory.
pub fn bytes_in_memory(alloc: Global, arguments: &str) -> Result<String, Fail> {
    pairs_of(alloc, word_of_row(arguments)?.bytes().as_slice())
}

// The classes of registers by their names.
const CLASSES: [(RegisterClass, &str); 6] = [
    (RegisterClass::Absent, "Absent"),
    (RegisterClass::Any, "Any"),
    (RegisterClass::NotZero, "NotZero"),
    (RegisterClass::NotSp, "NotSp"),
    (RegisterClass::Prime, "Prime"),
    (RegisterClass::Set, "Set"),
];

fn has_number(class: RegisterClass, number: u8) -> bool {
    match Reg::new(number) {
        Some(register) => in_class(class, register),
        None => false,
    }
}

/// The registers of a class, as bits.
pub fn registers_of_class(alloc: Global, arguments: &str) -> Result<String, Fail> {
    let class = found(
        first_named(&CLASSES, arguments.as_bytes()),
        "a name of no class",
    )?;
    let mut bits: u32 = 0;
    for number in 0..32u8 {
        bits |= u32::from(has_number(class, number)).wrapping_shl(u32::from(number));
    }
    made(format!(in alloc; "{bits:08x}"))
}

// Whether a row encodes the operation of a name.
fn encodes(row: &str, name: &str) -> bool {
    let (call, arguments) = parts_of(row);
    call == "encode" && parts_of(arguments).0 == name
}

// Whether a row of a script encodes the operation of a name.
fn is_encoded(script: &str, name: &str) -> bool {
    for row in script.lines() {
        if encodes(row, name) {
            return true;
        }
    }
    false
}

// The name of the first operation that no row of a script encodes.
fn first_not_encoded(script: &str, table: &[TableRow]) -> Option<&'static str> {
    for entry in table {
        if !is_encoded(script, entry.1) {
            return Some(entry.1);
        }
    }
    None
}

/// The first operation that no row of the script encodes.
pub fn operation_not_encoded(alloc: Global, script: &str) -> Result<String, Fail> {
    shown(alloc, first_not_encoded(script, operations()))
}

// FNV-1a, of 64 bits.
fn digest(from: u64, text: &[u8]) -> u64 {
    let mut hash = from;
    for byte in text {
        hash = (hash ^ u64::from(*byte)).wrapping_mul(0x0000_0100_0000_01b3);
    }
    hash
}

// How many words decode and encode back, and the digest of a line for each word that decodes.
#[derive(Clone, Copy)]
struct Sum {
    count: u32,
    hash: u64,
}

// No words yet.
const NO_WORDS: Sum = Sum {
    count: 0,
    hash: 0xcbf2_9ce4_8422_2325,
};

// The sum goes on with a word and its bytes, if it decodes.
fn add_word(alloc: Global, sum: Sum, word: Word) -> Result<Sum, AllocError> {
    let Some(ins) = decode(word) else {
        return Ok(sum);
    };
    let is_same = encode(&ins) == word;
    let text = instruction_text(alloc, &ins)?;
    let hash = digest(sum.hash, word.bytes().as_slice());
    let hash = digest(hash, text.as_str().as_bytes());
    Ok(Sum {
        count: sum.count.wrapping_add(u32::from(is_same)),
        hash: digest(hash, b"\n"),
    })
}

fn sum_text(alloc: Global, sum: Sum) -> Result<String, Fail> {
    made(format!(in alloc; "{} {:016x}", sum.count, sum.hash))
}

/// How many of the 65,536 half words decode and encode back, and the digest of their lines.
pub fn half_words(alloc: Global, _arguments: &str) -> Result<String, Fail> {
    let mut sum = NO_WORDS;
    for number in 0..=u16::MAX {
        sum = add_word(alloc, sum, Word::Half(number))?;
    }
    sum_text(alloc, sum)
}

// The opcodes of the words of 32 bits, and that of the atomic operations, which are none of ours.
const OPCODES: [u32; 12] = [
    0x37, 0x17, 0x6f, 0x67, 0x63, 0x03, 0x23, 0x13, 0x33, 0x73, 0x0f, 0x2f,
];

// A word whose opcode goes through all of them, and whose top seven bits go through the three that operations have
// and what the number has there.
fn scattered_word(count: u32, number: u32) -> u32 {
    let opcode = OPCODES[(count % 12) as usize];
    let top = match count / 12 % 4 {
        0 => 0,
        1 => 0x4000_0000,
        2 => 0x0200_0000,
        _ => number & 0xfe00_0000,
    };
    number & 0x01ff_ff80 | top | opcode
}

/// How many of 48,000 scattered words of 32 bits decode and encode back, and the digest of their lines.
pub fn scattered_words(alloc: Global, _arguments: &str) -> Result<String, Fail> {
    let mut sum = NO_WORDS;
    let mut state: u32 = 1;
    for count in 0..48000 {
        state = state.wrapping_mul(1664525).wrapping_add(1013904223);
        let word = scattered_word(count, state ^ (state >> 16));
        sum = add_word(alloc, sum, Word::Full(word))?;
    }
    sum_text(alloc, sum)
}

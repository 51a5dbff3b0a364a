//! The tables of operations, registers, and control and status registers.

use crate::row::{copied, displayed, found, made, named, number_of, parts_of, shown, unquoted};
use rv_ops::{
    Csr, Op, Reg, TABLE, TableRow, classes, csr_by_name, csr_name, first_named, fixed, is_name,
    limits, mask, name_of, op_by_name, reg_by_name, reg_name, row, shape, sign,
};
use std::alloc::Global;
use std::test::Fail;

/// The operation of a name.
pub fn operation_of(name: &str) -> Result<Op, Fail> {
    found(op_by_name(name.as_bytes()), "a name of no operation")
}

// Whether every way to look an operation up leads to this row.
fn is_looked_up(entry: &TableRow) -> bool {
    let (op, name, its_shape, its_fixed, its_mask) = *entry;
    let found = row(op);
    name_of(op) == name
        && op_by_name(name.as_bytes()) == Some(op)
        && (found.name, found.shape, found.fixed, found.mask)
            == (name, its_shape, its_fixed, its_mask)
        && (shape(op), fixed(op), mask(op)) == (its_shape, its_fixed, its_mask)
}

// The row at a place: the operation, its name and its shape.
fn operation_at(alloc: Global, table: &[TableRow], place: usize) -> Result<String, Fail> {
    let Some(entry) = table.get(place) else {
        return copied(alloc, "none");
    };
    if !is_looked_up(entry) {
        return copied(alloc, "looked up otherwise");
    }
    let (op, name, shape) = (entry.0, entry.1, entry.2);
    made(format!(in alloc; "{op:?} {name} {shape:?}"))
}

/// The table of operations.
pub fn operations() -> &'static [TableRow] {
    &TABLE
}

/// The row of the table of operations at a place, which every look-up gives.
pub fn operation(alloc: Global, arguments: &str) -> Result<String, Fail> {
    operation_at(alloc, operations(), arguments.parse::<usize>()?)
}

/// The operation of a name in any letter case.
pub fn operation_named(alloc: Global, arguments: &str) -> Result<String, Fail> {
    named(alloc, op_by_name(unquoted(arguments).as_bytes()))
}

/// What an operation takes: the classes of rd, rs1 and rs2, the limits of the value, and its sign.
pub fn operands(alloc: Global, arguments: &str) -> Result<String, Fail> {
    let op = operation_of(arguments)?;
    let (registers, limits, sign) = (classes(op), limits(op), sign(op));
    let (rd, rs1, rs2) = (registers.rd, registers.rs1, registers.rs2);
    let (least, greatest, multiple) = (limits.least, limits.greatest, limits.multiple);
    let (first, last) = (limits.gap_first, limits.gap_last);
    let (own, modulus) = (sign.greatest, sign.modulus);
    made(format!(in alloc;
        "{rd:?} {rs1:?} {rs2:?}, {least} to {greatest} by {multiple} without {first} to {last}, {own} less {modulus}"
    ))
}

/// What is wrong with a value for an operation.
pub fn limit(alloc: Global, arguments: &str) -> Result<String, Fail> {
    let (name, value) = parts_of(arguments);
    let value = value.parse::<i64>()?;
    named(alloc, limits(operation_of(name)?).fault(value))
}

/// The name of the register of a number.
pub fn register(alloc: Global, arguments: &str) -> Result<String, Fail> {
    match Reg::new(arguments.parse::<u8>()?) {
        Some(register) => copied(alloc, reg_name(register)),
        None => copied(alloc, "none"),
    }
}

/// The number of the register of a name.
pub fn register_named(alloc: Global, arguments: &str) -> Result<String, Fail> {
    match reg_by_name(unquoted(arguments).as_bytes()) {
        Some(register) => displayed(alloc, register.number()),
        None => copied(alloc, "none"),
    }
}

/// The number of the register that reads as 0.
pub fn zero_register(alloc: Global, _arguments: &str) -> Result<String, Fail> {
    displayed(alloc, Reg::ZERO.number())
}

/// The name of the control and status register of a number.
pub fn csr(alloc: Global, arguments: &str) -> Result<String, Fail> {
    match Csr::new(u16::try_from(number_of(arguments)?)?) {
        Some(csr) => shown(alloc, csr_name(csr)),
        None => copied(alloc, "no register"),
    }
}

/// The number of the control and status register of a name.
pub fn csr_named(alloc: Global, arguments: &str) -> Result<String, Fail> {
    match csr_by_name(unquoted(arguments).as_bytes()) {
        Some(csr) => made(format!(in alloc; "0x{:x}", csr.number())),
        None => copied(alloc, "none"),
    }
}

// Whether the control and status register of a number has a name.
fn has_name(number: u16) -> bool {
    match Csr::new(number) {
        Some(csr) => csr_name(csr).is_some(),
        None => false,
    }
}

/// How many control and status registers have a name.
pub fn named_csrs(alloc: Global, _arguments: &str) -> Result<String, Fail> {
    let mut count: u32 = 0;
    for number in 0..4096 {
        count = count.wrapping_add(u32::from(has_name(number)));
    }
    displayed(alloc, count)
}

/// Whether a text is a name in any letter case.
pub fn is_same_name(alloc: Global, arguments: &str) -> Result<String, Fail> {
    let (name, text) = parts_of(arguments);
    displayed(alloc, is_name(unquoted(name), unquoted(text).as_bytes()))
}

// Names with their numbers, of which two differ in letter case alone.
const MODIFIER_NAMES: [(u16, &str); 4] = [(7, "hi"), (8, "lo"), (9, "LO"), (10, "pcrel_lo")];

/// The number of the first of `hi`, `lo`, `LO` and `pcrel_lo`, counted from 7 on, that is a name.
pub fn modifier_named(alloc: Global, arguments: &str) -> Result<String, Fail> {
    shown(
        alloc,
        first_named(&MODIFIER_NAMES, unquoted(arguments).as_bytes()),
    )
}

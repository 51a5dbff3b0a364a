//! How many operands a name takes.

ghost use Rattle.std.specs.Prelude.{◌≡◌, ◌++◌, map, IfOk, OnOk};
ghost use Rattle.rv_stmt.specs.Statement.{is_directive_name};
ghost use Rattle.rv_report.specs.Counts.{by_count, name_takes, numbers_taken, numbers_text, operands_text, some_numbers};

use rv_show::{Text, push_alternatives};
use rv_stmt::{OperandCount, directive_named, form_of};
use std::alloc::{AllocError, Global};

/// The numbers of operands that names take which take no more than so many.
pub const NUMERALS: [(usize, &str); 4] = [(0, "0"), (1, "1"), (2, "2"), (3, "3")];

/// Whether a name is that of a directive.
pub fn is_directive_name(name: &[u8]) -> bool
    ensures { result ≡ is_directive_name name.now }
{
    match name.first() {
        Some(byte) => *byte == b'.',
        None => false,
    }
}

// Whether a name takes so many operands.
fn name_takes(name: &[u8], count: usize) -> bool
    ensures { result ≡ name_takes name.now count }
{
    if !is_directive_name(name) {
        return form_of(name, count).is_ok();
    }
    match directive_named(name) {
        Some(directive) => directive.count.takes(count),
        None => false,
    }
}

// The numbers of operands that it takes.
fn numbers_taken(
    alloc: Global,
    name: &[u8],
    mut rows: &'static [(usize, &'static str)],
) -> Result<Vec<&'static [u8]>, AllocError>
    ensures { IfOk result (λ v. map (λ t. t.now) v.items ≡ numbers_taken name.now (map (λ row. (row.0, row.1.now)) rows.entry.now)) }
{
    let mut numbers = Vec::new(alloc);
    'rows: while let [row, rest @ ..] = rows {
        if name_takes(name, row.0) {
            numbers.push(row.1.as_bytes())?;
        }
        rows = rest;
    }
    Ok(numbers)
}

// Appends a number of operands.
fn push_operands(out: &mut Text, numbers: &[u8]) -> Result<(), AllocError>
    ensures { OnOk result (out.new ≡ out.old ++ operands_text numbers.now) }
{
    if numbers == b"0".as_slice() {
        return out.push(b"no operands");
    }
    if numbers == b"1".as_slice() {
        return out.push(b"1 operand");
    }
    out.push(numbers)?;
    out.push(b" operands")
}

// Appends the numbers of operands that a name takes which has a greatest one.
#[tactic(auto, unfolding(crate::specs::Counts::some_numbers))]
fn push_some_numbers(out: &mut Text, alloc: Global, name: &[u8]) -> Result<(), AllocError>
    ensures { OnOk result (out.new ≡ out.old ++ some_numbers name.now) }
{
    let taken = numbers_taken(alloc, name, &NUMERALS)?;
    let mut numbers = Text::new(alloc);
    push_alternatives(&mut numbers, b", ", b" or ", 0, taken.as_slice())?;
    push_operands(out, numbers.bytes())
}

// Appends the numbers of operands that a directive takes.
fn push_by_count(
    out: &mut Text,
    alloc: Global,
    count: OperandCount,
    name: &[u8],
) -> Result<(), AllocError>
    ensures { OnOk result (out.new ≡ out.old ++ by_count count name.now) }
{
    match count {
        OperandCount::AtLeast(least) => {
            out.push_number(least)?;
            out.push(b" or more operands")
        }
        OperandCount::Exactly(_) => push_some_numbers(out, alloc, name),
        OperandCount::Between(_, _) => push_some_numbers(out, alloc, name),
    }
}

/// Appends the numbers of operands that a name takes.
pub fn push_numbers(out: &mut Text, alloc: Global, name: &[u8]) -> Result<(), AllocError>
    ensures { OnOk result (out.new ≡ out.old ++ numbers_text name.now) }
{
    if !is_directive_name(name) {
        return push_some_numbers(out, alloc, name);
    }
    match directive_named(name) {
        Some(directive) => push_by_count(out, alloc, directive.count, name),
        None => push_some_numbers(out, alloc, name),
    }
}

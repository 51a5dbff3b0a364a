//! The messages of names of no control and status register.

ghost use Rattle.std.specs.Prelude.{◌≡◌, ◌++◌, map, IfOk, OnOk};
ghost use Rattle.rv_report.specs.Csrs.{counter_number, csr_help, csr_list, its_number, near_csrs, number_of_csr, standard_number, unknown_csr};

use crate::advice_tables::{COUNTER_NUMBERS, CSR_NUMBERS};
use rv_ops::{CSRS, first_named};
use rv_show::{Text, push_did_you_mean, upper_digit};
use std::alloc::{AllocError, Global};

// The names of some rows.
fn names_of_rows(
    alloc: Global,
    mut rows: &'static [(u16, &'static str)],
) -> Result<Vec<&'static [u8]>, AllocError>
    ensures { IfOk result (λ v. map (λ t. t.now) v.items ≡ map (λ row. row.1.now) rows.entry.now) }
{
    let mut names = Vec::new(alloc);
    'rows: while let [row, rest @ ..] = rows {
        names.push(row.1.as_bytes())?;
        rows = rest;
    }
    Ok(names)
}

/// The names of the control and status registers, in the order of their table.
#[tactic(auto, unfolding(crate::specs::Csrs::csr_list))]
pub fn csr_list(alloc: Global) -> Result<Vec<&'static [u8]>, AllocError>
    ensures { IfOk result (λ v. map (λ t. t.now) v.items ≡ csr_list) }
{
    names_of_rows(alloc, &CSRS)
}

// The number of the register of a name that the standard has.
#[tactic(auto, unfolding(crate::specs::Csrs::standard_number))]
fn standard_number(name: &[u8]) -> Option<u16>
    ensures { result ≡ standard_number name.now }
{
    first_named(&CSR_NUMBERS, name)
}

// The number of the counter of a name that the standard has.
#[tactic(auto, unfolding(crate::specs::Csrs::counter_number))]
fn counter_number(name: &[u8]) -> Option<u16>
    ensures { result ≡ counter_number name.now }
{
    first_named(&COUNTER_NUMBERS, name)
}

// Appends the number of a register, of twelve bits.
#[tactic(auto, unfolding(crate::specs::Csrs::its_number))]
fn push_its_number(out: &mut Text, number: u16) -> Result<(), AllocError>
    ensures { OnOk result (out.new ≡ out.old ++ its_number number) }
{
    out.push(b" here; its number is 0x")?;
    out.push_byte(upper_digit((number / 256 % 16) as u8))?;
    out.push_upper_hex((number % 256) as u8)
}

// Appends the question about the names near a name.
#[tactic(auto, unfolding(crate::specs::Csrs::near_csrs))]
fn push_near_csrs(out: &mut Text, alloc: Global, name: &[u8]) -> Result<(), AllocError>
    ensures { OnOk result (out.new ≡ out.old ++ near_csrs name.now) }
{
    let lower = name.to_ascii_lowercase(alloc)?;
    let names = csr_list(alloc)?;
    push_did_you_mean(out, alloc, lower.as_slice(), names.as_slice())
}

/// The number of the control and status register or the counter of a name that the standard has, and that is no name here.
pub fn number_of_csr(name: &[u8]) -> Option<u16>
    ensures { result ≡ number_of_csr name.now }
{
    match standard_number(name) {
        Some(number) => Some(number),
        None => counter_number(name),
    }
}

// Appends the number of a register, or the question about names near its name.
fn push_csr_help(out: &mut Text, alloc: Global, name: &[u8]) -> Result<(), AllocError>
    ensures { OnOk result (out.new ≡ out.old ++ csr_help name.now) }
{
    match number_of_csr(name) {
        Some(number) => push_its_number(out, number),
        None => push_near_csrs(out, alloc, name),
    }
}

/// Appends that no control and status register has a name.
#[tactic(auto, unfolding(crate::specs::Csrs::unknown_csr))]
pub fn push_unknown_csr(out: &mut Text, alloc: Global, name: &[u8]) -> Result<(), AllocError>
    ensures { OnOk result (out.new ≡ out.old ++ unknown_csr name.now) }
{
    out.push_about(b"no control and status register is called ", name, b"")?;
    push_csr_help(out, alloc, name)
}

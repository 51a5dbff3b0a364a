//! The mnemonics of the operations, and the names of the registers and of the control and status registers. They are read in either letter case.
ghost use Rattle.std.specs.Prelude.{◌≡◌, ℕ, ◌<◌, List, [], length, map, slice_index_or, Some, IfSome, IsSome, option_map};
ghost use Rattle.rv_ops.specs.Csrs.{csr_name, csr_named, IsNameOfCsr};
ghost use Rattle.rv_ops.specs.Names.{first_name, first_named};
ghost use Rattle.rv_ops.specs.Registers.{register_name, register_named, IsNameOfRegister};
ghost use Rattle.rv_ops.specs.Table.{operation_name, operation_named, IsNameOfOperation};
ghost use Rattle.rv_ops.specs.declared.op.Op.{Op};

use crate::csr::Csr;
use crate::csrs::CSRS;
use crate::lookup::row;
use crate::name_lists::{first_named, is_name};
use crate::op::Op;
use crate::register::Reg;
use crate::registers::REGISTERS;
use crate::table::{TABLE, TableRow};

/// The operation of the first row that has the mnemonic.
fn first_operation(rows: &[TableRow], name: &[u8]) -> Option<Op>
    ensures { result ≡ first_named (map (λ row. (row.0, row.1.now)) rows.now) name.now }
{
    rows.iter()
        .find(|row| is_name(row.1, name))
        .map(|row| row.0)
}

/// The name in the first row that has the number.
fn first_name(mut rows: &[(u16, &'static str)], number: u16) -> Option<&'static str>
    ensures { option_map (λ name. name.now) result ≡ first_name (map (λ row. (row.0, row.1.now)) rows.entry.now) number }
{
    while let [row, rest @ ..] = rows {
        if row.0 == number {
            return Some(row.1);
        }
        rows = rest;
    }
    None
}

/// The operation of a mnemonic, if there is one.
pub fn op_by_name(name: &[u8]) -> Option<Op>
    ensures value { result ≡ operation_named name.now }
    ensures found { IfSome result (λ op. IsNameOfOperation op name.now) }
    ensures only { (op : Op) → IsNameOfOperation op name.now → result ≡ Some op }
{
    first_operation(&TABLE, name)
}

/// The mnemonic of an operation.
pub fn name_of(op: Op) -> &'static str
    ensures value { result.now ≡ operation_name op }
    ensures read { operation_named result.now ≡ Some op }
{
    row(op).name
}

/// The register of a name, if there is one.
pub fn reg_by_name(name: &[u8]) -> Option<Reg>
    ensures value { result ≡ register_named name.now }
    ensures below { IfSome result (λ number. number < 32) }
    ensures found { IfSome result (λ number. IsNameOfRegister number name.now) }
    ensures only { (number : ℕ) → IsNameOfRegister number name.now → result ≡ Some number }
{
    first_named(&REGISTERS, name).and_then(Reg::new)
}

/// The name in a row.
fn name_at(rows: &[(u8, &'static str)], index: usize) -> &'static str
    requires { index < length rows.now }
    ensures { result.now ≡ slice_index_or (map (λ row. row.1.now) rows.now) index [] }
{
    rows[index].1
}

/// The name by which a register is written.
pub fn reg_name(register: Reg) -> &'static str
    ensures value { result.now ≡ register_name register }
    ensures read { register_named result.now ≡ Some register }
{
    name_at(&REGISTERS, usize::from(register.number()))
}

/// The control and status register of a name, if there is one.
pub fn csr_by_name(name: &[u8]) -> Option<Csr>
    ensures value { result ≡ csr_named name.now }
    ensures below { IfSome result (λ number. number < 4096) }
    ensures found { IfSome result (λ number. IsNameOfCsr number name.now) }
    ensures only { (number : ℕ) → IsNameOfCsr number name.now → result ≡ Some number }
{
    first_named(&CSRS, name).and_then(Csr::new)
}

/// The name of a control and status register. Most numbers have none.
pub fn csr_name(csr: Csr) -> Option<&'static str>
    ensures value { option_map (λ name. name.now) result ≡ csr_name csr }
    ensures read { IfSome result (λ name. csr_named name.now ≡ Some csr) }
    ensures only { (text : List ℕ) → IsNameOfCsr csr text → IsSome result }
{
    first_name(&CSRS, csr.number())
}

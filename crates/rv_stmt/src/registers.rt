//! The registers of operands, by class or by name.

ghost use Rattle.std.specs.Prelude.{◌≡◌};
ghost use Rattle.rv_text.specs.declared.faults.FaultNumber.TheVariants.{BadRegister};
ghost use Rattle.rv_stmt.specs.Readings.{and_then, or_fault};
ghost use Rattle.rv_stmt.specs.Registers.{accepts, accepted_register, register_in, register, csr_in};

use crate::reading::Reading;
use crate::token_range::TokenRange;
use rv_code::in_class;
use rv_ops::{Csr, Reg, RegisterClass, csr_by_name, reg_by_name};
use rv_text::FaultNumber;

/// The registers that an operand accepts.
#[derive(Clone, Copy)]
pub enum Accepted {
    /// Those of a class.
    Class(RegisterClass),
    /// `sp` alone.
    StackPointer,
}

impl Accepted {
    /// Whether the operand accepts the register.
    pub fn accepts(self, register: Reg) -> bool
        ensures { result ≡ accepts self register }
    {
        match self {
            Accepted::Class(class) => in_class(class, register),
            Accepted::StackPointer => register.number() == 2,
        }
    }

    /// The register, if there is one and the operand accepts it.
    pub fn check(self, register: Option<Reg>) -> Reading<Reg>
        ensures { result ≡ and_then (or_fault BadRegister register) (accepted_register self) }
    {
        let register = register.ok_or(FaultNumber::BadRegister)?;
        if self.accepts(register) {
            Ok(register)
        } else {
            Err(FaultNumber::RegisterRange)
        }
    }
}

/// The register whose name some tokens are.
pub fn register_in(run: &TokenRange<'_>) -> Option<Reg>
    ensures { result ≡ register_in run.now }
{
    let name = run.one_identifier()?;
    reg_by_name(name)
}

/// The register whose name some tokens are, if the operand accepts it.
pub fn register(accepted: Accepted, run: &TokenRange<'_>) -> Reading<Reg>
    ensures { result ≡ register accepted run.now }
{
    accepted.check(register_in(run))
}

/// The control and status register whose name some tokens are.
pub fn csr_in(run: &TokenRange<'_>) -> Option<Csr>
    ensures { result ≡ csr_in run.now }
{
    let name = run.one_identifier()?;
    csr_by_name(name)
}

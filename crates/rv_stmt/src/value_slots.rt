//! The operands that an expression may give: immediates, addresses, memory, control and status registers.

ghost use Rattle.std.specs.Prelude.{◌≡◌, IfOk};
ghost use Rattle.rv_ops.specs.Table.{shape_of};
ghost use Rattle.rv_stmt.specs.declared.operand.Role.TheVariants.{Immediate};
ghost use Rattle.rv_stmt.specs.Slots.{with_waiting, memory_slot, stack_memory_slot, memory_or_register_slot, memory_or_address_slot, address_through_rd_slot, csr_slot};
ghost use Rattle.rv_stmt.specs.Values.{plain, immediate};

use crate::draft::Draft;
use crate::memory::{base_of, memory};
use crate::operand::Role;
use crate::reading::Attempt;
use crate::registers::{Accepted, csr_in, register_in};
use crate::runs::Run;
use crate::values::{immediate, plain};
use rv_ops::{Op, classes, shape};
use std::alloc::Global;

impl Draft {
    /// An expression for a value in this role.
    pub fn expression_slot(self, alloc: Global, role: Role, run: &Run<'_>) -> Attempt<Draft>
        ensures { IfOk result (λ r. r ≡ with_waiting role run.now.span self (plain run.now.tokens)) }
    {
        self.with_waiting(role, run.span, plain(alloc, &run.tokens)?)
    }

    /// An immediate, with or without a modifier that the shape takes.
    pub fn immediate_slot(self, alloc: Global, op: Op, run: &Run<'_>) -> Attempt<Draft>
        ensures { IfOk result (λ r. r ≡ with_waiting Immediate run.now.span self (immediate (shape_of op) run.now.tokens)) }
    {
        let value = immediate(alloc, shape(op), &run.tokens)?;
        self.with_waiting(Role::Immediate, run.span, value)
    }

    /// `offset(register)`, whose register goes into `rs1`.
    pub fn memory_slot(self, alloc: Global, op: Op, run: &Run<'_>) -> Attempt<Draft>
        ensures { IfOk result (λ r. r ≡ memory_slot op run.now self) }
    {
        let accepted = Accepted::Class(classes(op).rs1);
        match memory(alloc, shape(op), accepted, &run.tokens)? {
            Ok(located) => self
                .with_rs1(located.base)
                .with_offset(run.span, located.offset),
            Err(fault) => Ok(Err(fault)),
        }
    }

    /// `offset(sp)`.
    pub fn stack_memory_slot(self, alloc: Global, op: Op, run: &Run<'_>) -> Attempt<Draft>
        ensures { IfOk result (λ r. r ≡ stack_memory_slot op run.now self) }
    {
        match memory(alloc, shape(op), Accepted::StackPointer, &run.tokens)? {
            Ok(located) => self.with_offset(run.span, located.offset),
            Err(fault) => Ok(Err(fault)),
        }
    }

    /// `offset(register)`, or a register alone.
    pub fn memory_or_register_slot(self, alloc: Global, op: Op, run: &Run<'_>) -> Attempt<Draft>
        ensures { IfOk result (λ r. r ≡ memory_or_register_slot op run.now self) }
    {
        match register_in(&run.tokens) {
            Some(register) => Ok(Ok(self.with_rs1(register))),
            None => self.memory_slot(alloc, op, run),
        }
    }

    /// An address that two instructions reach through `rd`.
    pub fn address_through_rd_slot(self, alloc: Global, run: &Run<'_>) -> Attempt<Draft>
        ensures { IfOk result (λ r. r ≡ address_through_rd_slot run.now self) }
    {
        self.with_rd_as_rs1()
            .expression_slot(alloc, Role::PairTarget, run)
    }

    /// `offset(register)`, or an address that two words reach through `rd`.
    pub fn memory_or_address_slot(self, alloc: Global, op: Op, run: &Run<'_>) -> Attempt<Draft>
        ensures { IfOk result (λ r. r ≡ memory_or_address_slot op run.now self) }
    {
        if run.tokens.punctuation_at(b"%", 0) || base_of(&run.tokens).is_some() {
            self.memory_slot(alloc, op, run)
        } else {
            self.address_through_rd_slot(alloc, run)
        }
    }

    /// The name of a control and status register, or an expression for its number.
    pub fn csr_slot(self, alloc: Global, run: &Run<'_>) -> Attempt<Draft>
        ensures { IfOk result (λ r. r ≡ csr_slot run.now self) }
    {
        match csr_in(&run.tokens) {
            Some(csr) => Ok(Ok(self.with_value(i32::from(csr.number())))),
            None => self.expression_slot(alloc, Role::Immediate, run),
        }
    }
}

//! An instruction while its operands are read.

ghost use Rattle.std.specs.Prelude.{◌≡◌, [], IfOk};
ghost use Rattle.rv_stmt.specs.Draft.{with_rd, with_rs1, with_rs2, with_value, with_operand};
ghost use Rattle.rv_stmt.specs.Slots.{with_waiting, with_offset};

use crate::operand::{Operand, OperandValue, Role};
use crate::reading::{Attempt, Reading};
use rv_code::Fields;
use rv_ops::Reg;
use rv_text::{Sequence, Span};
use std::alloc::{AllocError, Global};

/// The fields that are filled so far, and the operands whose values are still to come.
#[derive(Drop)]
pub struct Draft {
    pub fields: Fields,
    pub operands: Sequence<Operand>,
}

impl Draft {
    /// No operand is read yet.
    pub fn new(alloc: Global, fields: Fields) -> Draft
        ensures { result ≡ record { fields = fields; operands = [] } }
    {
        Draft {
            fields,
            operands: Sequence::new(alloc),
        }
    }

    /// With this rd.
    pub fn with_rd(mut self, register: Reg) -> Draft
        ensures { result ≡ with_rd self register }
    {
        self.fields.rd = register;
        self
    }

    /// With this rs1.
    pub fn with_rs1(mut self, register: Reg) -> Draft
        ensures { result ≡ with_rs1 self register }
    {
        self.fields.rs1 = register;
        self
    }

    /// With the register of rd in rs1 too.
    pub fn with_rd_as_rs1(self) -> Draft
        ensures { result ≡ with_rs1 self self.fields.rd }
    {
        let Draft { fields, operands } = self;
        let fields = Fields {
            rd: fields.rd,
            rs1: fields.rd,
            rs2: fields.rs2,
            value: fields.value,
        };
        Draft { fields, operands }
    }

    /// With this rs2.
    pub fn with_rs2(mut self, register: Reg) -> Draft
        ensures { result ≡ with_rs2 self register }
    {
        self.fields.rs2 = register;
        self
    }

    /// With this value.
    pub fn with_value(mut self, value: i32) -> Draft
        ensures { result ≡ with_value self value }
    {
        self.fields.value = value;
        self
    }

    // With one more operand.
    fn with_operand(mut self, operand: Operand) -> Result<Draft, AllocError>
        ensures { IfOk result (λ d. d ≡ with_operand self operand) }
    {
        self.operands.push(operand)?;
        Ok(self)
    }

    /// With an operand that waits for its value.
    pub fn with_waiting(
        self,
        role: Role,
        span: Span,
        value: Reading<OperandValue>,
    ) -> Attempt<Draft>
        ensures { IfOk result (λ r. r ≡ with_waiting role span self value) }
    {
        match value {
            Ok(value) => Ok(Ok(self.with_operand(Operand { value, role, span })?)),
            Err(fault) => Ok(Err(fault)),
        }
    }

    /// With the offset of a place in memory, 0 where it is absent.
    pub fn with_offset(self, span: Span, offset: Option<OperandValue>) -> Attempt<Draft>
        ensures { IfOk result (λ r. r ≡ with_offset span self offset) }
    {
        match offset {
            None => Ok(Ok(self.with_value(0))),
            Some(value) => self.with_waiting(Role::Immediate, span, Ok(value)),
        }
    }
}

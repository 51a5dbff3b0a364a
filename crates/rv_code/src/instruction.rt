//! Instructions.
ghost use Rattle.std.specs.Prelude.{◌≡◌, ◌↔◌, ◌≤ℤ◌, pos, negsuc, IsSome, IfSome};
ghost use Rattle.rv_ops.specs.Table.{shape_of};

use crate::fitting::fits;
use rv_ops::{Op, Reg, Shape};
use std::marker::Model;

/// The fields of an instruction; one that its shape lacks is x0 or 0. The immediate of a `csrrwi` and its kin
/// stands in `rs1`, and in its bits of the encoding. A fence has its predecessors in `rs1` and its successors in `rs2`;
/// they stand in bits 27:24 and 23:20 of the encoding.
#[derive(Clone, Copy, Debug, PartialEq, Eq)]
pub struct Fields {
    /// The destination register.
    pub rd: Reg,
    /// The first source register.
    pub rs1: Reg,
    /// The second source register.
    pub rs2: Reg,
    /// The immediate, the offset of a load, a store or `jalr`, the shift amount, the displacement of a branch or
    /// jump, or the number of a control and status register.
    pub value: i32,
}

/// An instruction: an operation with fields that it takes.
#[derive(Clone, Copy, Debug, PartialEq, Eq)]
pub struct Ins {
    op: Op,
    fields: Fields,
}

impl Model for Ins {
    ghost use Rattle.rv_ops.specs.declared.op.Op.{Op};
    ghost use Rattle.rv_code.specs.declared.instruction.Fields.{Fields};
    ghost use Rattle.rv_code.specs.Encoding.{Fits};

    ghost Value = { Op × Fields };

    ghost view = { λ i. (i.op, i.fields) };

    ghost invariant = { λ i. Fits i.op i.fields };

    ghost inverse = { λ v. record { op = v.0; fields = v.1 } };
}

impl Ins {
    ghost use Rattle.rv_code.specs.Encoding.{Fits, register_fields, immediate_fields, immediate_instruction};

    /// An instruction of fields that its operation takes.
    pub fn new(op: Op, fields: Fields) -> Self
        requires { Fits op fields }
        ensures { result ≡ (op, fields) }
    {
        Ins { op, fields }
    }

    /// An instruction of the fields, if the operation takes them.
    #[inline(always)]
    pub fn try_new(op: Op, fields: Fields) -> Option<Self>
        ensures fits { IsSome result ↔ Fits op fields }
        ensures value { IfSome result (λ i. i ≡ (op, fields)) }
    {
        if !fits(op, &fields) {
            return None;
        }
        Some(Ins::new(op, fields))
    }

    /// `op rd, rs1, rs2`.
    pub fn register(op: Op, rd: Reg, rs1: Reg, rs2: Reg) -> Self
        requires { shape_of op ≡ Shape.Register }
        ensures { result ≡ (op, register_fields rd rs1 rs2) }
    {
        // Shows the prover that each number is below 32.
        let _numbers = (rd.number(), rs1.number(), rs2.number());
        Ins::new(
            op,
            Fields {
                rd,
                rs1,
                rs2,
                value: 0,
            },
        )
    }

    /// `op rd, rs1, value`, if the table lets the operation take the value. It carries the proof of `immediate`.
    fn of_value(op: Op, rd: Reg, rs1: Reg, value: i64) -> Option<Self>
        requires { shape_of op ≡ Shape.Immediate }
        ensures fits { IsSome result ↔ ((negsuc 2047 ≤ℤ value) × (value ≤ℤ pos 2047)) }
        ensures value { IfSome result (λ i. i ≡ (op, immediate_fields rd rs1 value)) }
    {
        // Shows the prover that each number is below 32.
        let _numbers = (rd.number(), rs1.number());
        match i32::try_from(value) {
            Ok(value) => Ins::try_new(
                op,
                Fields {
                    rd,
                    rs1,
                    rs2: Reg::ZERO,
                    value,
                },
            ),
            Err(_) => None,
        }
    }

    /// `op rd, rs1, value`, if the value is -2048 to 2047.
    pub fn immediate(op: Op, rd: Reg, rs1: Reg, value: i64) -> Option<Self>
        requires { shape_of op ≡ Shape.Immediate }
        ensures value { result ≡ immediate_instruction op rd rs1 value }
        ensures fits { IsSome result ↔ ((negsuc 2047 ≤ℤ value) × (value ≤ℤ pos 2047)) }
    {
        Ins::of_value(op, rd, rs1, value)
    }

    /// The instruction's operation.
    pub fn op(&self) -> Op
        ensures value { result ≡ self.now.0 }
        ensures fits { Fits self.now.0 self.now.1 }
    {
        self.op
    }

    /// The instruction's fields.
    pub fn fields(&self) -> &Fields
        ensures { result.now ≡ self.now.1 }
    {
        &self.fields
    }
}

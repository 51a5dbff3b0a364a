//! The operands that are registers or sets.

ghost use Rattle.std.specs.Prelude.{◌≡◌};
ghost use Rattle.rv_stmt.specs.declared.registers.Accepted.TheVariants.{StackPointer};
ghost use Rattle.rv_stmt.specs.Draft.{with_rd, with_rs1, with_rs2};
ghost use Rattle.rv_stmt.specs.Slots.{base_slot, register_slot, predecessors_slot, successors_slot};

use crate::draft::Draft;
use crate::memory::bare_base;
use crate::reading::Reading;
use crate::registers::{Accepted, register};
use crate::sets::set;
use crate::token_range::TokenRange;

impl Draft {
    /// A register, into `rd`.
    pub fn rd_slot(self, accepted: Accepted, run: &TokenRange<'_>) -> Reading<Draft>
        ensures { result ≡ register_slot accepted run.now (with_rd self) }
    {
        Ok(self.with_rd(register(accepted, run)?))
    }

    /// A register, into `rs1`.
    pub fn rs1_slot(self, accepted: Accepted, run: &TokenRange<'_>) -> Reading<Draft>
        ensures { result ≡ register_slot accepted run.now (with_rs1 self) }
    {
        Ok(self.with_rs1(register(accepted, run)?))
    }

    /// An address without an offset, in `rs1`.
    pub fn base_slot(self, accepted: Accepted, run: &TokenRange<'_>) -> Reading<Draft>
        ensures { result ≡ base_slot accepted run.now self }
    {
        Ok(self.with_rs1(bare_base(accepted, run)?))
    }

    /// A register, into `rs2`.
    pub fn rs2_slot(self, accepted: Accepted, run: &TokenRange<'_>) -> Reading<Draft>
        ensures { result ≡ register_slot accepted run.now (with_rs2 self) }
    {
        Ok(self.with_rs2(register(accepted, run)?))
    }

    /// The register `sp`, which no field holds.
    pub fn stack_pointer_slot(self, run: &TokenRange<'_>) -> Reading<Draft>
        ensures { result ≡ register_slot StackPointer run.now (λ n. self) }
    {
        register(Accepted::StackPointer, run)?;
        Ok(self)
    }

    /// A fence's set of predecessors, in the place of `rs1`.
    pub fn predecessors_slot(self, run: &TokenRange<'_>) -> Reading<Draft>
        ensures { result ≡ predecessors_slot run.now self }
    {
        Ok(self.with_rs1(set(run)?))
    }

    /// A fence's set of successors, in the place of `rs2`.
    pub fn successors_slot(self, run: &TokenRange<'_>) -> Reading<Draft>
        ensures { result ≡ successors_slot run.now self }
    {
        Ok(self.with_rs2(set(run)?))
    }
}

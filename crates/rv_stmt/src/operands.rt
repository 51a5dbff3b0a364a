//! Reads the operands of an instruction, each by its slot.

ghost use Rattle.std.specs.Prelude.{◌≡◌, map, IfOk};
ghost use Rattle.rv_stmt.specs.Slots.{slot_of, operand_of_slot, slots_read};

use crate::draft::Draft;
use crate::operand::Role;
use crate::reading::Attempt;
use crate::registers::Accepted;
use crate::runs::Run;
use crate::slots::Slot;
use rv_ops::{Op, classes};
use rv_text::Fault;
use std::alloc::{AllocError, Global};

impl Draft {
    // One operand, by its slot.
    fn read_slot(self, alloc: Global, op: Op, slot: Slot, run: &Run<'_>) -> Attempt<Draft>
        ensures { IfOk result (λ r. r ≡ slot_of op slot run.now self) }
    {
        match slot {
            Slot::Rd => Ok(self.rd_slot(Accepted::Class(classes(op).rd), &run.tokens)),
            Slot::Rs1 => Ok(self.rs1_slot(Accepted::Class(classes(op).rs1), &run.tokens)),
            Slot::Rs2 => Ok(self.rs2_slot(Accepted::Class(classes(op).rs2), &run.tokens)),
            Slot::StackPointer => Ok(self.stack_pointer_slot(&run.tokens)),
            Slot::Immediate => self.immediate_slot(alloc, op, run),
            Slot::SourceImmediate => self.expression_slot(alloc, Role::SourceImmediate, run),
            Slot::Target => self.expression_slot(alloc, Role::Target, run),
            Slot::Memory => self.memory_slot(alloc, op, run),
            Slot::StackMemory => self.stack_memory_slot(alloc, op, run),
            Slot::Base => Ok(self.base_slot(Accepted::Class(classes(op).rs1), &run.tokens)),
            Slot::MemoryOrRegister => self.memory_or_register_slot(alloc, op, run),
            Slot::MemoryOrAddress => self.memory_or_address_slot(alloc, op, run),
            Slot::Address => self.expression_slot(alloc, Role::PairTarget, run),
            Slot::AddressThroughRd => self.address_through_rd_slot(alloc, run),
            Slot::Csr => self.csr_slot(alloc, run),
            Slot::Predecessors => Ok(self.predecessors_slot(&run.tokens)),
            Slot::Successors => Ok(self.successors_slot(&run.tokens)),
            Slot::Constant => self.expression_slot(alloc, Role::Constant, run),
        }
    }

    // One operand, or what is wrong with it.
    fn read_operand(
        self,
        alloc: Global,
        op: Op,
        slot: Slot,
        run: &Run<'_>,
    ) -> Result<Result<Draft, Fault>, AllocError>
        ensures { IfOk result (λ r. r ≡ operand_of_slot op slot run.now self) }
    {
        Ok(run.operand(self.read_slot(alloc, op, slot, run)?))
    }

    /// The operands from left to right, up to the first fault.
    pub fn read_operands(
        self,
        alloc: Global,
        op: Op,
        mut slots: &[Slot],
        mut runs: &[Run<'_>],
    ) -> Result<Result<Draft, Fault>, AllocError>
        ensures { IfOk result (λ r. r
            ≡ slots_read op slots.entry.now runs.entry.now self) }
    {
        let mut draft = self;
        while let [slot, more_slots @ ..] = slots {
            let [run, more_runs @ ..] = runs else {
                return Ok(Ok(draft));
            };
            let reading = draft.read_operand(alloc, op, *slot, run);
            let Ok(Ok(next)) = reading else {
                return reading;
            };
            draft = next;
            slots = more_slots;
            runs = more_runs;
        }
        Ok(Ok(draft))
    }
}

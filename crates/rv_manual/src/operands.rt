//! What the operands of instructions and directives are, in the words of docs/LANGUAGE.md, and the ways to write them.

use rv_ops::{is_name, op_by_name, shape};
use rv_stmt::{
    AlignmentUnit, DirectiveForm, DirectiveKind, FORMS, FormRow, OperandCount, Slot,
    directive_named, operand_slots,
};
use std::alloc::{AllocError, Global};

// The word for an operand.
fn slot_word(slot: Slot) -> &'static str {
    match slot {
        Slot::Rd => "rd",
        Slot::Rs1 => "rs1",
        Slot::Rs2 => "rs2",
        Slot::StackPointer => "sp",
        Slot::Immediate | Slot::SourceImmediate => "immediate",
        Slot::Target => "target",
        Slot::Memory | Slot::MemoryOrRegister | Slot::MemoryOrAddress => "offset(rs1)",
        Slot::StackMemory => "offset(sp)",
        Slot::Base => "(rs1)",
        Slot::Address | Slot::AddressThroughRd => "address",
        Slot::Csr => "csr",
        Slot::Predecessors | Slot::Successors => "set",
        Slot::Constant => "constant",
    }
}

/// The words for the operands of an instruction.
///
/// # Errors
///
/// `AllocError` if there is no memory for the text.
pub fn slot_words(alloc: Global, mut slots: &[Slot]) -> Result<String, AllocError> {
    let mut words = String::new(alloc);
    'slots: while let [slot, later @ ..] = slots {
        words.push_str(slot_word(*slot))?;
        if !later.is_empty() {
            words.push_str(", ")?;
        }
        slots = later;
    }
    Ok(words)
}

/// The words for the operands of a directive.
pub fn directive_words(form: DirectiveForm) -> &'static str {
    match form.kind {
        DirectiveKind::Data(_) => "expression, ...",
        DirectiveKind::Strings | DirectiveKind::TerminatedStrings => "string, ...",
        DirectiveKind::Fill if form.count.takes(2) => "size[, byte]",
        DirectiveKind::Fill => "size",
        DirectiveKind::Alignment(AlignmentUnit::Exponent) => "exponent",
        DirectiveKind::Alignment(AlignmentUnit::Bytes) => "number",
        DirectiveKind::Section => "name",
        DirectiveKind::Definition => "symbol, expression",
        DirectiveKind::Switch(_) | DirectiveKind::Ignored => "",
    }
}

/// A way to write an instruction or a directive.
#[derive(Drop)]
pub struct Way {
    /// The words for its operands.
    pub words: String,
    pub count: OperandCount,
}

// Adds the way to write an instruction with these operands.
fn push_way(ways: &mut Vec<Way>, alloc: Global, slots: &[Slot]) -> Result<(), AllocError> {
    ways.push(Way {
        words: slot_words(alloc, slots)?,
        count: OperandCount::Exactly(slots.len()),
    })?;
    Ok(())
}

// Adds the further ways to write an instruction.
fn push_forms(
    ways: &mut Vec<Way>,
    alloc: Global,
    name: &[u8],
    mut rows: &[FormRow],
) -> Result<(), AllocError> {
    'rows: while let [row, later @ ..] = rows {
        if is_name(row.0, name) {
            push_way(ways, alloc, row.3)?;
        }
        rows = later;
    }
    Ok(())
}

/// The ways to write an instruction or a directive, by its name: none where it is unknown.
///
/// # Errors
///
/// `AllocError` if there is no memory for them.
pub fn ways_to_write(alloc: Global, name: &[u8]) -> Result<Vec<Way>, AllocError> {
    let mut ways = Vec::new(alloc);
    if let Some(form) = directive_named(name) {
        ways.push(Way {
            words: String::from_str(alloc, directive_words(form))?,
            count: form.count,
        })?;
    }
    if let Some(op) = op_by_name(name) {
        push_way(&mut ways, alloc, operand_slots(shape(op)))?;
    }
    push_forms(&mut ways, alloc, name, &FORMS)?;
    Ok(ways)
}

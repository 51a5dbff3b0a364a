//! Which names the operands of instructions and directives take.

ghost use Rattle.std.specs.Prelude.{◌≡◌, ◌==◌, ◌&&◌, ◌||◌, false, map, slice_get};
ghost use Rattle.rv_stmt.specs.Directives.{directive_named};
ghost use Rattle.rv_stmt.specs.Forms.{forms_named, named_form, other_forms};
ghost use Rattle.rv_language.specs.LineNames.{have_slot, is_csr_slot, is_other_name, is_section, is_set_slot, names_symbols, slot_is, takes, takes_section};
ghost use Rattle.rv_stmt.specs.declared.modifiers.Modifier.TheVariants.{High, Low};
ghost use Rattle.rv_stmt.specs.Values.{takes_modifier};

use rv_code::in_class;
use rv_ops::{
    Op, Reg, RegisterClass, Shape, classes, csr_by_name, is_name, op_by_name, reg_by_name, shape,
};
use rv_stmt::{DirectiveKind, FORMS, FormRow, Slot, directive_named, operand_slots};

/// Some registers, a bit for each.
#[derive(Clone, Copy)]
pub struct Registers {
    bits: u32,
}

impl Registers {
    // Those of a class.
    fn of_class(class: RegisterClass) -> Registers {
        let mut bits = 0;
        for number in 0..32 {
            if let Some(register) = Reg::new(number) {
                bits |= u32::from(in_class(class, register)) << number;
            }
        }
        Registers { bits }
    }

    /// Whether a register is one of them.
    pub fn has(self, register: Reg) -> bool {
        (self.bits >> register.number()) % 2 == 1
    }
}

// The register `sp`, x2.
const STACK_POINTER: Registers = Registers { bits: 1 << 2 };

/// Which names an operand takes.
#[derive(Clone, Copy)]
pub struct NameKinds {
    pub registers: Registers,
    pub symbols: bool,
    /// `%hi` and `%pcrel_hi`.
    pub high_parts: bool,
    /// `%lo` and `%pcrel_lo`.
    pub low_parts: bool,
    pub csrs: bool,
    pub sets: bool,
    pub sections: bool,
}

const NONE: NameKinds = NameKinds {
    registers: Registers { bits: 0 },
    symbols: false,
    high_parts: false,
    low_parts: false,
    csrs: false,
    sets: false,
    sections: false,
};

impl NameKinds {
    /// Those of them that may stand behind an operator.
    pub fn behind_operator(self) -> NameKinds {
        NameKinds {
            symbols: self.symbols,
            ..NONE
        }
    }

    // Those of either.
    fn or(self, other: NameKinds) -> NameKinds
        ensures csrs { result.csrs ≡ (self.csrs || other.csrs) }
        ensures sets { result.sets ≡ (self.sets || other.sets) }
        ensures sections { result.sections ≡ (self.sections || other.sections) }
    {
        NameKinds {
            registers: Registers {
                bits: self.registers.bits | other.registers.bits,
            },
            symbols: self.symbols | other.symbols,
            high_parts: self.high_parts | other.high_parts,
            low_parts: self.low_parts | other.low_parts,
            csrs: self.csrs || other.csrs,
            sets: self.sets || other.sets,
            sections: self.sections || other.sections,
        }
    }
}

// Whether instructions of a shape take the upper part of a value.
fn takes_high_part(shape: Shape) -> bool
    ensures { result ≡ takes_modifier shape High }
{
    shape == Shape::Upper
}

// Whether they take the lower part.
fn takes_low_part(shape: Shape) -> bool
    ensures { result ≡ takes_modifier shape Low }
{
    matches!(
        shape,
        Shape::JumpRegister | Shape::Load | Shape::Store | Shape::Immediate
    )
}

// Which registers an operand of an instruction takes, in parentheses or not.
fn registers_of_slot(op: Op, slot: Slot, is_inside: bool) -> Registers {
    let classes = classes(op);
    match slot {
        Slot::Rd => Registers::of_class(classes.rd),
        Slot::Rs1 | Slot::Base | Slot::MemoryOrRegister => Registers::of_class(classes.rs1),
        Slot::Rs2 => Registers::of_class(classes.rs2),
        Slot::StackPointer => STACK_POINTER,
        Slot::StackMemory if is_inside => STACK_POINTER,
        Slot::Memory | Slot::MemoryOrAddress if is_inside => Registers::of_class(classes.rs1),
        _ => NONE.registers,
    }
}

// Which other names it takes.
fn others_of_slot(shape: Shape, slot: Slot, is_inside: bool) -> NameKinds
    ensures csrs { result.csrs ≡ is_csr_slot slot }
    ensures sets { result.sets ≡ is_set_slot slot }
    ensures sections { result.sections ≡ false }
{
    let expression = NameKinds {
        symbols: true,
        ..NONE
    };
    match slot {
        Slot::Rd | Slot::Rs1 | Slot::Rs2 | Slot::StackPointer | Slot::Base => NONE,
        Slot::Immediate => NameKinds {
            high_parts: !is_inside && takes_high_part(shape),
            low_parts: !is_inside && takes_low_part(shape),
            ..expression
        },
        Slot::Memory | Slot::StackMemory | Slot::MemoryOrRegister | Slot::MemoryOrAddress =>
            NameKinds {
                low_parts: !is_inside && takes_low_part(shape),
                ..expression
            },
        Slot::SourceImmediate
        | Slot::Target
        | Slot::Address
        | Slot::AddressThroughRd
        | Slot::Constant => expression,
        Slot::Csr => NameKinds {
            csrs: true,
            ..expression
        },
        Slot::Predecessors | Slot::Successors => NameKinds { sets: true, ..NONE },
    }
}

// Which names an operand of a list takes, by its number from 0 on.
fn names_in_slots(op: Op, slots: &[Slot], operand: usize, is_inside: bool) -> NameKinds
    ensures csrs { result.csrs ≡ slot_is is_csr_slot (slice_get slots.now operand) }
    ensures sets { result.sets ≡ slot_is is_set_slot (slice_get slots.now operand) }
    ensures sections { result.sections ≡ false }
{
    match slots.get(operand) {
        Some(slot) => NameKinds {
            registers: registers_of_slot(op, *slot, is_inside),
            ..others_of_slot(shape(op), *slot, is_inside)
        },
        None => NONE,
    }
}

// Which names an operand of an instruction takes in the further ways to write it.
fn names_in_forms(mut rows: &[FormRow], name: &[u8], operand: usize, is_inside: bool) -> NameKinds
    ensures csrs { result.csrs ≡ have_slot is_csr_slot operand (forms_named (map (λ row. named_form row.0.now row.1 row.2 row.3.now) rows.entry.now) name.now) }
    ensures sets { result.sets ≡ have_slot is_set_slot operand (forms_named (map (λ row. named_form row.0.now row.1 row.2 row.3.now) rows.entry.now) name.now) }
    ensures sections { result.sections ≡ false }
{
    let mut kinds = NONE;
    'rows: while let [row, later @ ..] = rows {
        if is_name(row.0, name) {
            kinds = kinds.or(names_in_slots(row.1, row.3, operand, is_inside));
        }
        rows = later;
    }
    kinds
}

// The same in all of them.
fn names_in_other_forms(name: &[u8], operand: usize, is_inside: bool) -> NameKinds
    ensures csrs { result.csrs ≡ have_slot is_csr_slot operand (forms_named other_forms name.now) }
    ensures sets { result.sets ≡ have_slot is_set_slot operand (forms_named other_forms name.now) }
    ensures sections { result.sections ≡ false }
{
    names_in_forms(&FORMS, name, operand, is_inside)
}

// Which names an operand of a directive takes, by its number from 0 on.
fn names_in_directive(kind: DirectiveKind, operand: usize) -> NameKinds
    ensures csrs { result.csrs ≡ false }
    ensures sets { result.sets ≡ false }
    ensures sections { result.sections ≡ (is_section kind && operand == 0) }
{
    match kind {
        DirectiveKind::Data(_)
        | DirectiveKind::Fill
        | DirectiveKind::Alignment(_)
        | DirectiveKind::Ignored => NameKinds {
            symbols: true,
            ..NONE
        },
        DirectiveKind::Definition => NameKinds {
            symbols: operand > 0,
            ..NONE
        },
        DirectiveKind::Section => NameKinds {
            sections: operand == 0,
            ..NONE
        },
        DirectiveKind::Strings | DirectiveKind::TerminatedStrings | DirectiveKind::Switch(_) =>
            NONE,
    }
}

/// Which names an operand of an instruction or a directive takes, by its number from 0 on, in parentheses or not.
pub fn names_taken(statement: &[u8], operand: usize, is_inside: bool) -> NameKinds
    ensures csrs { result.csrs ≡ takes is_csr_slot (directive_named statement.now) statement.now operand }
    ensures sets { result.sets ≡ takes is_set_slot (directive_named statement.now) statement.now operand }
    ensures sections { result.sections ≡ takes_section (directive_named statement.now) operand }
{
    if let Some(form) = directive_named(statement) {
        return names_in_directive(form.kind, operand);
    }
    let others = names_in_other_forms(statement, operand, is_inside);
    match op_by_name(statement) {
        Some(op) => names_in_slots(op, operand_slots(shape(op)), operand, is_inside).or(others),
        None => others,
    }
}

/// Whether a word in an operand of a wrong statement is no symbol: it is spelled like a register, or like a control and status register where one is
/// taken, or it stands where a set or the name of a section is taken.
pub fn is_other_name(statement: &[u8], operand: usize, word: &[u8]) -> bool
    ensures { result ≡ is_other_name statement.now operand word.now }
{
    if reg_by_name(word).is_some() {
        return true;
    }
    let kinds = names_taken(statement, operand, false);
    kinds.sets || kinds.sections || (kinds.csrs && csr_by_name(word).is_some())
}

/// Whether an operand of a directive without effect has names of symbols: each operand of those that say who sees a symbol, and of `.size`, and the
/// first one of `.type`.
pub fn names_symbols(directive: &[u8], operand: usize) -> bool
    ensures { result ≡ names_symbols directive.now operand }
{
    is_name(".globl", directive)
        || is_name(".global", directive)
        || is_name(".weak", directive)
        || is_name(".size", directive)
        || (is_name(".type", directive) && operand == 0)
}

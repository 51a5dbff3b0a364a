//! Which way of writing an instruction a mnemonic and a number of operands choose.

ghost use Rattle.std.specs.Prelude.{◌≡◌, map, IsTrue, IfSome, IsSome};
ghost use Rattle.std.specs.List.{list_all};
ghost use Rattle.rv_stmt.specs.Forms.{slots_of, own_form, forms_named, named_form, has_registers, other_forms, operand_count, first_of_count, form_of};

use crate::forms::{FORMS, FormRow};
use crate::operand_count::OperandCount;
use crate::reading::Reading;
use crate::slots::{OPERANDS, Slot};
use rv_code::Fields;
use rv_ops::{Op, Reg, Shape, is_name, op_by_name, shape};
use rv_text::FaultNumber;
use std::marker::Model;

/// A way to write an instruction: its operation, the fields where no operand fills them, and the operands.
#[derive(Drop)]
pub struct Form {
    /// Whether it is the operation's own way, and not one of another mnemonic, with operands left out or in a further way.
    pub own: bool,
    pub op: Op,
    pub fields: Fields,
    pub slots: &'static [Slot],
}

impl Model for Form {
    ghost use Rattle.rv_stmt.specs.Forms.{Form as FormValue};

    ghost Value = { FormValue };

    ghost view = { λ f. record { own = f.own; op = f.op; fields = f.fields; slots = f.slots.now } };
}

impl Form {
    // How many operands the form takes: one for each slot.
    fn operand_count(&self) -> OperandCount
        ensures { result ≡ operand_count self.now }
    {
        OperandCount::Exactly(self.slots.len())
    }
}

/// The operands of a shape, in the order in which they are written.
#[tactic(auto, unfolding(crate::specs::Forms::slots_of))]
pub fn operand_slots(shape: Shape) -> &'static [Slot]
    ensures { result.now ≡ slots_of shape }
{
    OPERANDS[shape as usize].1
}

// The operation's own way.
fn own_form(op: Op) -> Form
    ensures { result ≡ own_form op }
{
    let fields = Fields {
        rd: Reg::ZERO,
        rs1: Reg::ZERO,
        rs2: Reg::ZERO,
        value: 0,
    };
    Form {
        own: true,
        op,
        fields,
        slots: operand_slots(shape(op)),
    }
}

// The way of a row of the table of other ways.
fn form_of_row(row: &FormRow) -> Option<Form>
    ensures registers { IsTrue (has_registers row.now.2) → IsSome result }
    ensures form { IfSome result (λ f. f ≡ (named_form row.now.0.now row.now.1 row.now.2 row.now.3.now).1) }
{
    let (rd, rs1, rs2, value) = row.2;
    let fields = Fields {
        rd: Reg::new(rd)?,
        rs1: Reg::new(rs1)?,
        rs2: Reg::new(rs2)?,
        value,
    };
    Some(Form {
        own: false,
        op: row.1,
        fields,
        slots: row.3,
    })
}

// The first of these ways that has the mnemonic and takes so many operands; `unknown` where none has the mnemonic.
fn other_form(
    mut forms: &[FormRow],
    name: &[u8],
    count: usize,
    unknown: FaultNumber,
) -> Reading<Form>
    requires { IsTrue (list_all (λ row. has_registers row.2) forms.now) }
    ensures { result
        ≡ first_of_count unknown count (forms_named (map (λ row. named_form row.0.now row.1 row.2 row.3.now) forms.entry.now) name.now) }
{
    let mut fault = unknown;
    while let [row, rest @ ..] = forms {
        if is_name(row.0, name) {
            let form = form_of_row(row).ok_or(FaultNumber::OperandCount)?;
            if form.operand_count().takes(count) {
                return Ok(form);
            }
            fault = FaultNumber::OperandCount;
        }
        forms = rest;
    }
    Err(fault)
}

// The first way of the table that has the mnemonic and takes so many operands; `unknown` where none has the mnemonic.
#[tactic(auto, unfolding(crate::specs::Forms::other_forms))]
fn form_in_table(name: &[u8], count: usize, unknown: FaultNumber) -> Reading<Form>
    ensures { result ≡ first_of_count unknown count (forms_named other_forms name.now) }
{
    other_form(&FORMS, name, count, unknown)
}

/// The way of a mnemonic that takes so many operands.
///
/// # Errors
///
/// `UnknownName` if the mnemonic has no way at all, else `OperandCount`.
pub fn form_of(name: &[u8], count: usize) -> Reading<Form>
    ensures { result ≡ form_of name.now count }
{
    let Some(op) = op_by_name(name) else {
        return form_in_table(name, count, FaultNumber::UnknownName);
    };
    let form = own_form(op);
    if form.operand_count().takes(count) {
        Ok(form)
    } else {
        form_in_table(name, count, FaultNumber::OperandCount)
    }
}

//! The codes of lines.

ghost use Rattle.std.specs.Prelude.{◌≡◌, ◌<◌, ◌≤◌, ◌+◌, ◌-◌, ◌^◌, [], ◌∷◌, length, IfOk};
ghost use Rattle.rv_fix.specs.Code.{code, code_of_definition, code_of_body};
ghost use Rattle.rv_program.specs.declared.line_values.LineValues.TheVariants.{Symbol};
ghost use Rattle.rv_program.specs.Codes.{code_by_values, values_at, code_at};
ghost use Rattle.rv_program.specs.internal.Fits.{FitsBody, Fits};
ghost use Rattle.rv_program.specs.internal.ValueRows.{AreValueRows, base_of, program_of_rows};

use crate::line_values::LineValues;
use crate::text_lines::statement_on;
use crate::value_rows::{ValueRows, shape_on};
use rv_fix::{Coded, Entry, FixError, encode_line};
use rv_layout::Measured;
use rv_stmt::{Body, Definition, Stmt};
use rv_text::{Count, Fault};
use std::alloc::Global;

// No bytes and no fault.
fn no_bytes() -> Coded
    ensures { result ≡ code [] }
{
    Coded::padding(false, 0)
}

// The code of a definition whose symbol has this value: the fault of the value, if it has one.
fn code_of_definition(definition: &Definition, entry: Entry) -> Coded
    ensures { result ≡ code_of_definition definition.now.operands (entry ∷ []) }
{
    let [operand, ..] = definition.operands.as_slice() else {
        return no_bytes();
    };
    match entry {
        Ok(_) => no_bytes(),
        Err(fault) => Coded::faulty(Fault {
            number: fault.line_fault(),
            span: operand.span,
        }),
    }
}

// The code of a body whose symbol has this value.
#[tactic(auto, using(crate::proofs::FittingValues::only_definitions))]
fn code_of_symbol(body: &Body, entry: Entry) -> Coded
    requires { FitsBody body.now (Symbol entry) }
    ensures { result ≡ code_of_body body.now (entry ∷ []) }
{
    match body {
        Body::Equ(definition) => code_of_definition(definition, entry),
        _ => no_bytes(),
    }
}

// The code of a line with these values, where its shape is no fault.
#[tactic(auto, using(crate::proofs::FittingValues::no_code_without_values))]
fn code_of_values<C: Count>(
    alloc: Global,
    stmt: &Stmt,
    values: &LineValues,
    counter: &mut C,
) -> Result<Coded, FixError>
    requires values { FitsBody stmt.now.body values.now }
    requires encoded { C.encoded_count counter.old < 2 ^ 64 - 1 }
    ensures code { IfOk result (λ c. c ≡ code_by_values Measured.Nothing stmt.now.body values.now) }
    ensures least { C.encoded_count counter.old ≤ C.encoded_count counter.new }
    ensures most { C.encoded_count counter.new ≤ C.encoded_count counter.old + 1 }
    ensures parsed { C.parsed_count counter.new ≡ C.parsed_count counter.old }
    ensures valued { C.valued_count counter.new ≡ C.valued_count counter.old }
{
    match values {
        LineValues::Nothing => Ok(no_bytes()),
        LineValues::Operands(entries) => encode_line(alloc, stmt, entries, counter),
        LineValues::Symbol(entry) => Ok(code_of_symbol(&stmt.body, *entry)),
        LineValues::Padding(in_code, count) => Ok(Coded::padding(*in_code, *count)),
    }
}

// The code of a line with this statement, this shape and these values.
fn code_by_values<C: Count>(
    alloc: Global,
    stmt: &Stmt,
    shape: Measured,
    values: &LineValues,
    counter: &mut C,
) -> Result<Coded, FixError>
    requires values { Fits shape stmt.now.body values.now }
    requires encoded { C.encoded_count counter.old < 2 ^ 64 - 1 }
    ensures code { IfOk result (λ c. c ≡ code_by_values shape stmt.now.body values.now) }
    ensures least { C.encoded_count counter.old ≤ C.encoded_count counter.new }
    ensures most { C.encoded_count counter.new ≤ C.encoded_count counter.old + 1 }
    ensures parsed { C.parsed_count counter.new ≡ C.parsed_count counter.old }
    ensures valued { C.valued_count counter.new ≡ C.valued_count counter.old }
{
    match shape {
        Measured::Faulty(fault) => match values {
            LineValues::Padding(in_code, count) => Ok(Coded::padding(*in_code, *count)),
            _ => Ok(Coded::faulty(fault)),
        },
        _ => code_of_values(alloc, stmt, values, counter),
    }
}

impl ValueRows<'_> {
    /// The code of a line with its values, which `values` gives.
    ///
    /// The counter's number of lines encoded rises by at most one, whatever the outcome.
    ///
    /// # Errors
    ///
    /// `Memory` if there was no memory for the bytes.
    #[tactic(auto, using(crate::proofs::ValueLaws::values_fit))]
    pub fn code<C: Count>(
        &self,
        alloc: Global,
        line: u32,
        values: &LineValues,
        counter: &mut C,
    ) -> Result<Coded, FixError>
        requires rows { AreValueRows self.now }
        requires first { 1 ≤ line }
        requires last { line ≤ length self.now.symbols.text.lines.now }
        requires values { values.now ≡ values_at (base_of self.now) (program_of_rows self.now) line }
        requires encoded { C.encoded_count counter.old < 2 ^ 64 - 1 }
        ensures code { IfOk result (λ c. c ≡ code_at (base_of self.now) (program_of_rows self.now) line) }
        ensures least { C.encoded_count counter.old ≤ C.encoded_count counter.new }
        ensures most { C.encoded_count counter.new ≤ C.encoded_count counter.old + 1 }
        ensures parsed { C.parsed_count counter.new ≡ C.parsed_count counter.old }
        ensures valued { C.valued_count counter.new ≡ C.valued_count counter.old }
    {
        let stmt = statement_on(&self.symbols.text, line);
        code_by_values(alloc, stmt, shape_on(self, line), values, counter)
    }
}

//! Reads a line.

ghost use Rattle.std.specs.Prelude.{◌≡◌, ◌+◌, ◌≤◌, ◌^◌, length, IfOk};
ghost use Rattle.rv_stmt.specs.Statement.{statement_of};

use crate::error::StmtError;
use crate::statement::{Stmt, statement};
use rv_text::{Count, tokens};
use std::alloc::Global;

/// The statement of a line, which may be faulty: labels, then nothing, an instruction, a pseudo-instruction, which
/// stands for one or two, or the first fault. The line has at most 1,000 bytes. The counter's number of lines read goes up by
/// one, whatever the outcome.
///
/// # Errors
///
/// `Memory` if there was no memory for the tokens or the statement.
#[tactic(auto, using(rv_text::specs::TokenLaws::few_tokens))]
pub fn read_line<C: Count>(alloc: Global, line: &[u8], counter: &mut C) -> Result<Stmt, StmtError>
    requires length { length line.now ≤ 1000 }
    requires count { C.parsed_count counter.old ≤ 2 ^ 63 }
    ensures statement { IfOk result (λ s. s ≡ statement_of line.now) }
    ensures parsed { C.parsed_count counter.new ≡ C.parsed_count counter.old + 1 }
    ensures valued { C.valued_count counter.new ≡ C.valued_count counter.old }
    ensures encoded { C.encoded_count counter.new ≡ C.encoded_count counter.old }
{
    counter.parsed();
    let tokens = tokens(alloc, line)?;
    Ok(statement(alloc, &tokens)?)
}

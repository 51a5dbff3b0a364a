//! Why a line was not valued, encoded or assembled.

ghost use Rattle.std.specs.Prelude.{◌≡◌};
ghost use Rattle.rv_fix.specs.declared.error.FixError.TheVariants as fix;
ghost use Rattle.rv_fix.specs.declared.error.AssembleError.TheVariants as assemble;
ghost use Rattle.rv_fix.specs.Refusals.{refusal_number};

use rv_stmt::StmtError;
use std::alloc::AllocError;
use thiserror::Error;

/// Why there are no values, or no bytes, of a line. What is wrong with the line itself is reported in its code.
#[derive(Clone, Copy, Debug, PartialEq, Eq, Drop, Error)]
pub enum FixError {
    /// There was no memory for them.
    #[error("out of memory")]
    Memory,
}

impl FixError {
    /// The number of the refusal, 1.
    pub fn number(self) -> u8
        ensures { result ≡ 1 }
    {
        match self {
            FixError::Memory => 1,
        }
    }
}

impl From<AllocError> for FixError {
    ghost from_gives = { λ _ e. e ≡ fix.Memory };

    fn from(_error: AllocError) -> Self {
        FixError::Memory
    }
}

/// Why a line was not assembled by itself. Reasons are tried in this order, but memory may run out while the line is read.
#[derive(Clone, Copy, Debug, PartialEq, Eq, Drop, Error)]
pub enum AssembleError {
    /// The line depends on others: it uses a symbol, a local label or `%pcrel_lo`.
    #[error("the line uses names of other lines")]
    Names,
    /// There was no memory for the line.
    #[error("out of memory")]
    Memory,
}

impl AssembleError {
    /// The number of the refusal, 1 or 2.
    pub fn number(self) -> u8
        ensures { result ≡ refusal_number self }
    {
        match self {
            AssembleError::Names => 1,
            AssembleError::Memory => 2,
        }
    }
}

impl From<StmtError> for AssembleError {
    ghost from_gives = { λ _ e. e ≡ assemble.Memory };

    fn from(_error: StmtError) -> Self {
        AssembleError::Memory
    }
}

impl From<FixError> for AssembleError {
    ghost from_gives = { λ _ e. e ≡ assemble.Memory };

    fn from(_error: FixError) -> Self {
        AssembleError::Memory
    }
}

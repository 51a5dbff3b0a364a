//! Why a line was not read.

ghost use Rattle.std.specs.Prelude.{◌≡◌};
ghost use Rattle.rv_stmt.specs.declared.error.StmtError.TheVariants.{Memory};

use rv_text::TextError;
use std::alloc::AllocError;
use thiserror::Error;

/// Why a line was not read. What is wrong with the line itself is reported in its statement.
#[derive(Clone, Copy, Debug, PartialEq, Eq, Drop, Error)]
pub enum StmtError {
    /// There was no memory for the tokens or the statement.
    #[error("out of memory")]
    Memory,
}

impl StmtError {
    /// The number of the refusal, 1.
    pub fn number(self) -> u8
        ensures { result ≡ 1 }
    {
        match self {
            StmtError::Memory => 1,
        }
    }
}

impl From<AllocError> for StmtError {
    ghost from_gives = { λ _ e. e ≡ Memory };

    fn from(_error: AllocError) -> Self {
        StmtError::Memory
    }
}

impl From<TextError> for StmtError {
    ghost from_gives = { λ _ e. e ≡ Memory };

    fn from(_error: TextError) -> Self {
        StmtError::Memory
    }
}

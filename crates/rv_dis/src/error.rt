//! Why a text or a row was not made.

ghost use Rattle.std.specs.Prelude.{◌≡◌};
ghost use Rattle.rv_dis.specs.declared.error.DisError.TheVariants.{Memory};

use std::alloc::{AllocError, AllocFailed};
use thiserror::Error;

/// Why there is no text of an instruction, or are no rows of a stretch.
#[derive(Clone, Copy, Debug, PartialEq, Eq, Drop, Error)]
pub enum DisError {
    /// There was no memory for them.
    #[error("out of memory")]
    Memory,
}

impl DisError {
    /// The number of the refusal, 1.
    pub fn number(self) -> u8
        ensures { result ≡ 1 }
    {
        match self {
            DisError::Memory => 1,
        }
    }
}

impl From<AllocError> for DisError {
    ghost from_gives = { λ _ e. e ≡ Memory };

    fn from(_error: AllocError) -> Self {
        DisError::Memory
    }
}

impl<T: Drop> From<AllocFailed<T>> for DisError {
    ghost from_gives = { λ _ e. e ≡ Memory };

    fn from(_error: AllocFailed<T>) -> Self {
        DisError::Memory
    }
}

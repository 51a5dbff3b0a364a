//! Why there is no new tree.

ghost use Rattle.std.specs.Prelude.{◌≡◌};
ghost use Rattle.rv_tree.specs.declared.error.TreeError.TheVariants.{Memory};
ghost use Rattle.rv_tree.specs.Refusals.{refusal_number};

use std::alloc::{AllocError, AllocFailed};
use thiserror::Error;

/// Why a call gives no new tree. Reasons are tried in this order.
#[derive(Clone, Copy, Debug, PartialEq, Eq, Error)]
pub enum TreeError {
    /// There is no item of this number, or none can be put in there.
    #[error("there is no such item")]
    Place,
    /// An item has to be put in, and the tree has `MAX_ITEMS` already.
    #[error("the tree has 16384 items already")]
    Full,
    /// There was no memory for a node, or for what a pass makes.
    #[error("out of memory")]
    Memory,
}

impl TreeError {
    /// The number of the refusal, from 1 to 3.
    pub fn number(self) -> u8
        ensures { result ≡ refusal_number self }
    {
        match self {
            TreeError::Place => 1,
            TreeError::Full => 2,
            TreeError::Memory => 3,
        }
    }
}

impl From<AllocError> for TreeError {
    ghost from_gives = { λ _ e. e ≡ Memory };

    fn from(_: AllocError) -> Self {
        TreeError::Memory
    }
}

impl<T: Drop> From<AllocFailed<T>> for TreeError {
    ghost from_gives = { λ _ e. e ≡ Memory };

    fn from(_: AllocFailed<T>) -> Self {
        TreeError::Memory
    }
}

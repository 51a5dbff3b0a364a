//! Why an edit is refused.

ghost use Rattle.std.specs.Prelude.{◌≡◌};
ghost use Rattle.rv_program.specs.declared.edit_error.EditError.TheVariants.{Memory};
ghost use Rattle.rv_program.specs.internal.TreeRefusals.{refusal_by_tree};
ghost use Rattle.rv_program.specs.Text.{refusal_number};

use rv_fix::FixError;
use rv_stmt::StmtError;
use rv_text::TextError;
use rv_tree::TreeError;
use std::alloc::{AllocError, AllocFailed};
use thiserror::Error;

/// Why an edit was refused. Reasons are tried in this order.
#[derive(Clone, Copy, Debug, PartialEq, Eq, Error)]
pub enum EditError {
    /// `base_ok` does not hold. Only `Store::new` is refused so, no edit.
    #[error("the base is not a multiple of 4096 up to 0x80000000")]
    Base,
    /// No line of this number can be put in, or is there to be taken out.
    #[error("there is no such line")]
    Place,
    /// What has to be put in holds a line break, or is longer than `MAX_LINE_LENGTH`.
    #[error("the line holds a line break or is longer than 1000 bytes")]
    Line,
    /// A line has to be put in, and the text has `MAX_LINES` already.
    #[error("the text has 16384 lines already")]
    TooMany,
    /// There was no memory for what the store had to keep.
    #[error("out of memory")]
    Memory,
}

impl EditError {
    /// The number of the refusal, as it is answered to an editor.
    pub fn number(self) -> u8
        ensures { result ≡ refusal_number self }
    {
        match self {
            EditError::Base => 1,
            EditError::Place => 2,
            EditError::Line => 3,
            EditError::TooMany => 4,
            EditError::Memory => 5,
        }
    }
}

impl From<AllocError> for EditError {
    ghost from_gives = { λ _ e. e ≡ Memory };

    fn from(_: AllocError) -> Self {
        EditError::Memory
    }
}

impl<T: Drop> From<AllocFailed<T>> for EditError {
    ghost from_gives = { λ _ e. e ≡ Memory };

    fn from(_: AllocFailed<T>) -> Self {
        EditError::Memory
    }
}

impl From<TextError> for EditError {
    ghost from_gives = { λ _ e. e ≡ Memory };

    fn from(_: TextError) -> Self {
        EditError::Memory
    }
}

impl From<StmtError> for EditError {
    ghost from_gives = { λ _ e. e ≡ Memory };

    fn from(_: StmtError) -> Self {
        EditError::Memory
    }
}

impl From<FixError> for EditError {
    ghost from_gives = { λ _ e. e ≡ Memory };

    fn from(_: FixError) -> Self {
        EditError::Memory
    }
}

impl From<TreeError> for EditError {
    ghost from_gives = { λ refused e. e ≡ refusal_by_tree refused };

    fn from(refused: TreeError) -> Self {
        match refused {
            TreeError::Place => EditError::Place,
            TreeError::Full => EditError::TooMany,
            TreeError::Memory => EditError::Memory,
        }
    }
}

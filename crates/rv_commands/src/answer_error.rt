//! Why a command is not answered as a whole.

ghost use Rattle.std.specs.Prelude.{◌≡◌};
ghost use Rattle.rv_commands.specs.declared.answer_error.AnswerError.TheVariants.{Write, Memory};

use rv_dis::DisError;
use rv_text::Failed;
use std::alloc::AllocError;

/// Why a command was not answered as a whole.
#[derive(Clone, Copy, Debug, PartialEq, Eq)]
pub enum AnswerError {
    /// A call of the writer failed.
    Write,
    /// There was no memory for the command or its answer, and nothing of the answer was written.
    Memory,
}

impl From<Failed> for AnswerError {
    ghost from_gives = { λ _ e. e ≡ Write };

    fn from(_: Failed) -> Self {
        AnswerError::Write
    }
}

impl From<AllocError> for AnswerError {
    ghost from_gives = { λ _ e. e ≡ Memory };

    fn from(_: AllocError) -> Self {
        AnswerError::Memory
    }
}

impl From<DisError> for AnswerError {
    ghost from_gives = { λ _ e. e ≡ Memory };

    fn from(_: DisError) -> Self {
        AnswerError::Memory
    }
}

//! Why a run ends early.

ghost use Rattle.std.specs.Prelude.{◌≡◌};
ghost use Rattle.rv_commands.specs.Faults.{run_error, run_refusal_number, run_status, run_message};

use crate::answer_error::AnswerError;
use thiserror::Error;

/// Why a run ended early.
#[derive(Clone, Copy, Debug, PartialEq, Eq, Error)]
pub enum RunError {
    /// Not all of the input was read.
    #[error("the reader failed, or the input is longer than 64 MiB")]
    Read,
    /// Not all of an answer was written.
    #[error("the writer failed")]
    Write,
    /// There was no memory for a command or its answer.
    #[error("out of memory")]
    Memory,
}

impl RunError {
    /// The number of the error, from 1 to 3.
    pub fn number(self) -> u8
        ensures { result ≡ run_refusal_number self }
    {
        match self {
            RunError::Read => 1,
            RunError::Write => 2,
            RunError::Memory => 3,
        }
    }
}

impl From<AnswerError> for RunError {
    ghost from_gives = { λ reason e. e ≡ run_error reason };

    fn from(reason: AnswerError) -> Self {
        match reason {
            AnswerError::Write => RunError::Write,
            AnswerError::Memory => RunError::Memory,
        }
    }
}

/// The status of the process.
pub fn status(e: &RunError) -> u8
    ensures { result ≡ run_status e.now }
{
    match e {
        RunError::Read => 3,
        RunError::Write => 4,
        RunError::Memory => 5,
    }
}

/// What is said on standard error.
pub fn message(e: &RunError) -> &'static str
    ensures { result.now ≡ run_message e.now }
{
    match e {
        RunError::Read => "rvedit: read fault",
        RunError::Write => "rvedit: write fault",
        RunError::Memory => "rvedit: out of memory",
    }
}

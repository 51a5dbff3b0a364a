//! Why a text was not written as a whole.

ghost use Rattle.std.specs.Prelude.{◌≡◌};

use rv_text::Failed;
use thiserror::Error;

/// Why a text was not written as a whole.
#[derive(Clone, Copy, Debug, PartialEq, Eq, Drop, Error)]
pub enum ListError {
    /// A call of the writer failed, and what it took before stays written.
    #[error("the writer failed")]
    Write,
}

impl ListError {
    /// The number of the failure, 1.
    pub fn number(self) -> u8
        ensures { result ≡ 1 }
    {
        match self {
            ListError::Write => 1,
        }
    }
}

impl From<Failed> for ListError {
    fn from(_: Failed) -> Self {
        ListError::Write
    }
}

//! Why the reports of a text are not written as a whole.

ghost use Rattle.std.specs.Prelude.{◌≡◌};
ghost use Rattle.rv_files.specs.declared.report_error.ReportError.TheVariants.{Write, Memory};

use rv_text::Failed;
use std::alloc::AllocError;

/// Why the reports of a text were not written as a whole. What was written before stays written.
#[derive(Clone, Copy, Debug, PartialEq, Eq)]
pub enum ReportError {
    /// A call of the writer failed.
    Write,
    /// There was no memory for the next report.
    Memory,
}

impl From<Failed> for ReportError {
    ghost from_gives = { λ _ e. e ≡ Write };

    fn from(_: Failed) -> Self {
        ReportError::Write
    }
}

impl From<AllocError> for ReportError {
    ghost from_gives = { λ _ e. e ≡ Memory };

    fn from(_: AllocError) -> Self {
        ReportError::Memory
    }
}

//! Why a task was not done.

use std::alloc::AllocError;
use std::io::ErrorKind;

/// Why a task was not done.
#[derive(Clone, Copy)]
pub enum Failure {
    /// The text has faults, or is past a limit, which was reported.
    Faulty,
    /// The value of `--base` is no base.
    Base,
    /// The output would take the place of the input.
    SameFile,
    /// Standard output would write into the input.
    OutputInFile,
    /// Standard error would write into the input.
    ErrorInFile,
    /// Bytes would be written to a terminal.
    Terminal,
    /// The text has no label of the name that `--entry` asks for.
    NoLabel,
    /// No fault has the name that is to be explained.
    NoFault,
    /// The file cannot be read, for this reason.
    Read(&'static str),
    /// The output cannot be written, for this reason.
    Write(&'static str),
    /// There was no memory.
    Memory,
}

// Why a file cannot be read or written, by the kind of the error. Other kinds have no words.
const REASONS: [(ErrorKind, &str); 11] = [
    (ErrorKind::NotFound, "no such file"),
    (ErrorKind::NotADirectory, "no such folder"),
    (ErrorKind::PermissionDenied, "no permission"),
    (ErrorKind::IsADirectory, "is a folder"),
    (ErrorKind::FilesystemLoop, "a loop of links"),
    (ErrorKind::InvalidFilename, "the name is too long"),
    (ErrorKind::FileTooLarge, "the file is too large"),
    (ErrorKind::StorageFull, "the disk is full"),
    (ErrorKind::QuotaExceeded, "the quota is used up"),
    (ErrorKind::ReadOnlyFilesystem, "the disk is read-only"),
    (ErrorKind::BrokenPipe, "nobody reads it"),
];

// The words for a kind of error.
fn reason_of(kind: ErrorKind) -> &'static str {
    for (known, reason) in &REASONS {
        if kind == *known {
            return *reason;
        }
    }
    ""
}

impl From<AllocError> for Failure {
    fn from(_: AllocError) -> Self {
        Failure::Memory
    }
}

impl Failure {
    /// A file cannot be read: an error of this kind occurred.
    pub fn of_reading(kind: ErrorKind) -> Self {
        match kind {
            ErrorKind::OutOfMemory => Failure::Memory,
            _ => Failure::Read(reason_of(kind)),
        }
    }

    /// A file cannot be written: an error of this kind occurred. A file that is not there is made, but not its folder.
    pub fn of_writing(kind: ErrorKind) -> Self {
        match kind {
            ErrorKind::OutOfMemory => Failure::Memory,
            ErrorKind::NotFound => Failure::Write(reason_of(ErrorKind::NotADirectory)),
            _ => Failure::Write(reason_of(kind)),
        }
    }

    /// The status of the process.
    pub fn status(self) -> u8 {
        match self {
            Failure::Faulty => 1,
            Failure::Base
            | Failure::SameFile
            | Failure::OutputInFile
            | Failure::ErrorInFile
            | Failure::Terminal
            | Failure::NoLabel
            | Failure::NoFault => 2,
            Failure::Read(_) => 3,
            Failure::Write(_) => 4,
            Failure::Memory => 5,
        }
    }
}

//! The limits of a text, over the lines of a file.

ghost use Rattle.std.specs.Prelude.{◌≡◌, None, Some, IfErr, OnOk};
ghost use Rattle.rv_files.specs.Loading.{load_refusal};

use crate::lines::Lines;
use rv_store::{MAX_LINE_LENGTH, MAX_LINES};
use thiserror::Error;

/// Why a file was not loaded.
#[derive(Clone, Copy, Debug, PartialEq, Eq, Error)]
pub enum LoadError {
    /// The line of this number, from 1 on, is longer than `MAX_LINE_LENGTH`, and no line before it is.
    #[error("line {0} is longer than 1000 bytes")]
    LineTooLong(u32),
    /// There are more than `MAX_LINES` lines.
    #[error("there are more than 16384 lines")]
    TooManyLines,
    /// There was no memory for the text.
    #[error("out of memory")]
    Memory,
}

/// Looks for a line past a limit, in the order of the lines.
pub fn check_limits(file: &[u8]) -> Result<(), LoadError>
    ensures ok { OnOk result (load_refusal file.now ≡ None) }
    ensures err { IfErr result (λ e. load_refusal file.now ≡ Some e) }
{
    let mut lines = Lines::new(file);
    let mut number = 0u32;
    'lines: while let Some(line) = lines.next_line() {
        number += 1;
        if number as usize > MAX_LINES {
            return Err(LoadError::TooManyLines);
        }
        if line.len() > MAX_LINE_LENGTH {
            return Err(LoadError::LineTooLong(number));
        }
    }
    Ok(())
}

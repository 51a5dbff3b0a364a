//! What an edit reports.

ghost use Rattle.std.specs.Prelude.{◌≡◌};

use std::marker::Model;

/// Numbers of lines. Contracts see the list of them.
#[derive(Debug, Drop)]
pub struct LineNumbers {
    numbers: Vec<u32>,
}

impl Model for LineNumbers {
    ghost use Rattle.std.specs.Prelude.{ℕ, List};

    ghost Value = { List ℕ };

    ghost view = { λ n. n.numbers.items };
}

impl LineNumbers {
    /// The numbers as a slice.
    pub fn as_slice(&self) -> &[u32]
        ensures { result.now ≡ self.now }
    {
        self.numbers.as_slice()
    }
}

/// What an edit says of the lines that it changed.
#[derive(Debug, Drop)]
pub struct Changed {
    /// The lines of the text after the edit that are new or have another code than before, by their numbers, rising.
    pub lines: LineNumbers,
}

impl Changed {
    /// These lines.
    pub(crate) fn of(numbers: Vec<u32>) -> Self
        ensures { result.lines ≡ numbers.items }
    {
        Changed {
            lines: LineNumbers { numbers },
        }
    }
}

//! The words of a text among which the message of a fault looks for what may be meant.

ghost use Rattle.std.specs.Prelude.{◌≡◌, IfOk};
ghost use Rattle.rv_report.specs.Words.{line_of_label};

use rv_expr::Name;
use std::alloc::{AllocError, Global};
use std::marker::Model;

/// A word that a statement begins with and that no instruction and no directive is called. Contracts see its bytes and its line.
#[derive(Drop)]
pub struct UnknownWord {
    word: Name,
    line: u32,
}

impl Model for UnknownWord {
    ghost use Rattle.rv_report.specs.Words.{UnknownWord};

    ghost Value = { UnknownWord };

    ghost view = { λ w. record { word = w.word; line = w.line } };
}

impl UnknownWord {
    /// A word of a line, by its number from 1 on.
    ///
    /// # Errors
    ///
    /// `AllocError` if there is no memory for it.
    pub fn of(alloc: Global, word: &[u8], line: u32) -> Result<UnknownWord, AllocError>
        ensures { IfOk result (λ w. w ≡ record { word = word.now; line = line }) }
    {
        let word = Name::of(alloc, word)?;
        Ok(UnknownWord { word, line })
    }

    // Its bytes.
    fn bytes(&self) -> &[u8]
        ensures { result.now ≡ self.now.word }
    {
        self.word.bytes()
    }
}

/// The words of a text among which the message of a fault looks for what may be meant.
#[derive(Clone, Copy)]
pub struct TextWords<'a> {
    /// The symbols, each once.
    pub symbols: &'a [&'a [u8]],
    /// The words that statements begin with and that no instruction and no directive is called.
    pub unknown: &'a [UnknownWord],
}

/// The first line with a statement that begins with a name and is none: the name is that of a label, perhaps, and its colon is missing.
pub fn line_of_label(mut unknown: &[UnknownWord], name: &[u8]) -> Option<u32>
    ensures { result ≡ line_of_label name.now unknown.entry.now }
{
    'words: while let [word, later @ ..] = unknown {
        if word.bytes() == name {
            return Some(word.line);
        }
        unknown = later;
    }
    None
}

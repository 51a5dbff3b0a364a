//! Documents.

ghost use Rattle.std.specs.Prelude.{◌≡◌, ◌+◌, ◌≤◌, length, IfOk, OnOk, OnErr};
ghost use Rattle.rv_doc.specs.Edits.{replaced, text_after, text_after_range};

use crate::encoding::Encoding;
use crate::position::{Range, offset_of};
use std::alloc::{AllocError, Global};
use std::marker::Model;

/// A text that changes are made in. Contracts see its bytes.
#[derive(Drop)]
pub struct Document {
    alloc: Global,
    text: Vec<u8>,
}

impl Model for Document {
    ghost use Rattle.std.specs.Prelude.{ℕ, List};

    ghost Value = { List ℕ };

    ghost view = { λ d. d.text.items };
}

impl Document {
    /// A document with this text.
    pub fn new(alloc: Global, text: &[u8]) -> Result<Document, AllocError>
        ensures { IfOk result (λ d. d ≡ text.now) }
    {
        let text = Vec::from_slice(alloc, text)?;
        Ok(Document { alloc, text })
    }

    /// Its text.
    pub fn text(&self) -> &[u8]
        ensures { result.now ≡ self.now }
    {
        self.text.as_slice()
    }

    // Puts other bytes from a place on, in the place of as many.
    fn overwrite(&mut self, from: usize, with: &[u8])
        requires { from + length with.now ≤ length self.old }
        ensures { self.new ≡ replaced self.old from (from + length with.now) with.now }
    {
        let (_, rest) = self.text.as_mut_slice().split_at_mut(from);
        let (place, _) = rest.split_at_mut(with.len());
        place.copy_from_slice(with);
    }

    // Puts other bytes between two places.
    fn replace(&mut self, from: usize, to: usize, with: &[u8]) -> Result<(), AllocError>
        requires order { from ≤ to }
        requires within { to ≤ length self.old }
        ensures ok { OnOk result (self.new ≡ replaced self.old from to with.now) }
        ensures err { OnErr result (self.new ≡ self.old) }
    {
        if with.len() == to - from {
            self.overwrite(from, with);
            return Ok(());
        }
        let (front, rest) = self.text.as_slice().split_at(from);
        let (_, back) = rest.split_at(to - from);
        let mut text = Vec::new(self.alloc);
        text.reserve(self.text.len().saturating_add(with.len()))?;
        text.extend_from_slice(front)?;
        text.extend_from_slice(with)?;
        text.extend_from_slice(back)?;
        self.text = text;
        Ok(())
    }

    // Puts another text in the place of a range. One that ends before it begins is empty.
    fn change_range(
        &mut self,
        encoding: Encoding,
        range: Range,
        text: &[u8],
    ) -> Result<(), AllocError>
        ensures ok { OnOk result (self.new ≡ text_after_range encoding self.old range text.now) }
        ensures err { OnErr result (self.new ≡ self.old) }
    {
        let old = self.text.as_slice();
        let from = offset_of(encoding, old, range.start);
        let to = offset_of(encoding, old, range.end);
        self.replace(from, to.max(from), text)
    }

    /// Puts another text in the place of a range, or of the whole document.
    ///
    /// # Errors
    ///
    /// If there is no memory for the new text, the document stays as it is.
    pub fn change(
        &mut self,
        encoding: Encoding,
        range: Option<Range>,
        text: &[u8],
    ) -> Result<(), AllocError>
        ensures ok { OnOk result (self.new ≡ text_after encoding self.old (record { range = range; text = text.now })) }
        ensures err { OnErr result (self.new ≡ self.old) }
    {
        match range {
            Some(range) => self.change_range(encoding, range, text),
            None => {
                self.text = Vec::from_slice(self.alloc, text)?;
                Ok(())
            }
        }
    }
}

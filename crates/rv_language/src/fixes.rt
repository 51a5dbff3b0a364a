//! Changes of a line that may take its fault away.

use rv_show::Text;
use rv_text::Span;
use std::alloc::{AllocError, Global};

/// A text that takes the place of a part of a line.
#[derive(Drop)]
pub struct Fix {
    pub span: Span,
    pub text: Text,
}

/// Changes of a line, each once.
#[derive(Drop)]
pub struct Fixes {
    alloc: Global,
    list: Vec<Fix>,
}

impl Fix {
    // Whether it is that of this text in this place.
    fn is(&self, span: Span, text: &[u8]) -> bool {
        self.span == span && self.text.bytes() == text
    }
}

impl Fixes {
    /// None.
    pub fn new(alloc: Global) -> Fixes {
        Fixes {
            alloc,
            list: Vec::new(alloc),
        }
    }

    /// All of them, in the order in which they were added.
    pub fn as_slice(&self) -> &[Fix] {
        self.list.as_slice()
    }

    /// Adds the change that puts some texts, one after another, in the place of a part of the line.
    ///
    /// # Errors
    ///
    /// `AllocError` if there is no memory for it.
    pub fn add(&mut self, span: Span, mut parts: &[&[u8]]) -> Result<(), AllocError> {
        let mut text = Text::new(self.alloc);
        'parts: while let [part, later @ ..] = parts {
            text.push(part)?;
            parts = later;
        }
        self.add_text(span, text)
    }

    /// Adds the change that puts a text in the place of a part of the line.
    ///
    /// # Errors
    ///
    /// `AllocError` if there is no memory for it.
    pub fn add_text(&mut self, span: Span, text: Text) -> Result<(), AllocError> {
        let is_there = self.list.iter().any(|fix| fix.is(span, text.bytes()));
        if !is_there {
            self.list.push(Fix { span, text })?;
        }
        Ok(())
    }
}

//! Lists of labels. The names lie side by side, so that a label takes little memory.

ghost use Rattle.std.specs.Prelude.{◌≡◌, [], ◌∷◌, ◌++◌, ◌==◌, length, IfSome, IfNone, OnOk, OnErr};
ghost use Rattle.rv_stmt.specs.LabelNames.{Symbol, Local};
ghost use Rattle.rv_stmt.specs.LentLabels.{label_lent};

use crate::label::{Label, LabelName};
use rv_text::Span;
use std::alloc::{AllocError, Global};
use std::marker::Model;

// What a label defines: a symbol, by the length of its name, or a local label, by its number.
#[derive(Clone, Copy)]
enum EntryName {
    Symbol(u32),
    Local(u16),
}

// A label without the bytes of its name.
#[derive(Clone, Copy)]
struct Entry {
    name: EntryName,
    span: Span,
}

/// A list of labels. Contracts see the labels, and not where they lie in memory.
#[derive(Drop)]
pub struct Labels {
    names: Vec<u8>,
    entries: Vec<Entry>,
}

impl Model for Labels {
    ghost use Rattle.std.specs.Prelude.{◌≡◌, List, length};
    ghost use Rattle.rv_stmt.specs.LabelNames.{Label};

    ghost Value = { List Label };

    ghost use Rattle.rv_stmt.specs.LabelEntries.{labels_of, names_length};

    ghost view = { λ l. labels_of l.names.items l.entries.items };

    ghost invariant = { λ l. names_length l.entries.items ≡ length l.names.items };
}

/// Labels of a list that stand side by side. Contracts see the labels.
#[derive(Drop)]
pub struct LabelSlice<'a> {
    names: &'a [u8],
    entries: &'a [Entry],
}

impl<'a> Model for LabelSlice<'a> {
    ghost use Rattle.std.specs.Prelude.{◌≡◌, List, length};
    ghost use Rattle.rv_stmt.specs.LabelNames.{Label};

    ghost Value = { List Label };

    ghost use Rattle.rv_stmt.specs.LabelEntries.{labels_of, names_length};

    ghost view = { λ l. labels_of l.names.now l.entries.now };

    ghost invariant = { λ l. names_length l.entries.now ≡ length l.names.now };
}

impl Labels {
    /// An empty list.
    pub fn new(alloc: Global) -> Self
        ensures { result ≡ [] }
    {
        Labels {
            names: Vec::new(alloc),
            entries: Vec::new(alloc),
        }
    }

    // Appends a symbol.
    fn push_symbol(&mut self, name: &[u8], span: Span) -> Result<(), AllocError>
        ensures pushed { OnOk result (self.new ≡ self.old ++ record { name = Symbol name.now; span = span } ∷ []) }
        ensures refused { OnErr result (self.new ≡ self.old) }
    {
        let Ok(length) = u32::try_from(name.len()) else {
            return Err(AllocError);
        };
        self.entries.reserve(1)?;
        self.names.extend_from_slice(name)?;
        let name = EntryName::Symbol(length);
        self.entries.push_reserved(Entry { name, span });
        Ok(())
    }

    // Appends a local label.
    fn push_local(&mut self, number: u16, span: Span) -> Result<(), AllocError>
        ensures pushed { OnOk result (self.new ≡ self.old ++ record { name = Local number; span = span } ∷ []) }
        ensures refused { OnErr result (self.new ≡ self.old) }
    {
        let name = EntryName::Local(number);
        self.entries.push(Entry { name, span })?;
        Ok(())
    }

    /// Appends a label.
    ///
    /// # Errors
    ///
    /// `AllocError` if there is no memory for it, as for a name of 4 GiB. The list is then as before.
    pub fn push(&mut self, label: Label<'_>) -> Result<(), AllocError>
        ensures pushed { OnOk result (self.new ≡ self.old ++ label_lent label.entry ∷ []) }
        ensures refused { OnErr result (self.new ≡ self.old) }
    {
        match label.name {
            LabelName::Symbol(name) => self.push_symbol(name, label.span),
            LabelName::Local(number) => self.push_local(number, label.span),
        }
    }

    /// How many labels there are.
    pub fn len(&self) -> usize
        ensures { result ≡ length self.now }
    {
        self.as_slice().len()
    }

    /// Whether there is none.
    pub fn is_empty(&self) -> bool
        ensures { result ≡ (length self.now == 0) }
    {
        self.len() == 0
    }

    /// All of them.
    pub fn as_slice(&self) -> LabelSlice<'_>
        ensures { result ≡ self.now }
    {
        LabelSlice {
            names: self.names.as_slice(),
            entries: self.entries.as_slice(),
        }
    }
}

impl<'a> LabelSlice<'a> {
    /// No labels.
    pub fn empty() -> Self
        ensures { result ≡ [] }
    {
        LabelSlice {
            names: &[],
            entries: &[],
        }
    }

    /// How many labels there are.
    pub fn len(&self) -> usize
        ensures { result ≡ length self.now }
    {
        self.entries.len()
    }

    /// Whether there is none.
    pub fn is_empty(&self) -> bool
        ensures { result ≡ (length self.now == 0) }
    {
        self.len() == 0
    }

    /// The same labels once more.
    pub fn copy(&self) -> LabelSlice<'a>
        ensures { result ≡ self.now }
    {
        LabelSlice {
            names: self.names,
            entries: self.entries,
        }
    }

    /// The first label, and those after it, if there is one.
    pub fn split_first(&self) -> Option<(Label<'a>, LabelSlice<'a>)>
        ensures some { IfSome result (λ r. self.now ≡ label_lent r.0 ∷ r.1) }
        ensures none { IfNone result (self.now ≡ []) }
    {
        let [entry, entries @ ..] = self.entries else {
            return None;
        };
        let span = entry.span;
        match entry.name {
            EntryName::Symbol(length) => {
                let (name, names) = self.names.split_at(length as usize);
                let name = LabelName::Symbol(name);
                Some((Label { name, span }, LabelSlice { names, entries }))
            }
            EntryName::Local(number) => {
                let names = self.names;
                let name = LabelName::Local(number);
                Some((Label { name, span }, LabelSlice { names, entries }))
            }
        }
    }
}

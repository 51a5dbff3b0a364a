//! A document with its assembly.

ghost use Rattle.std.specs.Prelude.{◌≡◌, ◌+◌, ◌≤◌, ℕ, List, length, map, Some, IfOk};
ghost use Rattle.std.specs.Option.{option_map};
ghost use Rattle.serde_json.specs.View.{view};
ghost use Rattle.rv_doc.specs.Edits.{spliced, text_after_all};
ghost use Rattle.rv_doc.specs.Positions.{lines_of};
ghost use Rattle.rv_doc.specs.Changes.{changes_of};
ghost use Rattle.rv_changes.specs.Assembled.{assembled};
ghost use Rattle.rv_changes.specs.PlacedDocuments.{changed_by, placed, text_of};

use crate::base::Base;
use crate::limits::change_lines;
use crate::loading::load;
use rv_doc::{
    Document, Encoding, Lines, Touched, change_all, change_in, line_count, touched_lines,
};
use rv_store::{MAX_LINES, Store};
use rv_text::MAX_LINE_LENGTH;
use serde_json::Value;
use std::alloc::{AllocError, Global};
use std::marker::Model;

/// A document whose lines are in a store. Contracts see its text and its base.
#[derive(Drop)]
pub struct Assembly {
    base: Base,
    document: Document,
    store: Store,
    edited: u32,
}

impl Model for Assembly {
    ghost use Rattle.std.specs.Prelude.{◌≡◌};
    ghost use Rattle.rv_changes.specs.Assembled.{assembled};
    ghost use Rattle.rv_changes.specs.PlacedDocuments.{PlacedDocument, placed};

    ghost Value = { PlacedDocument };

    ghost view = { λ a. placed a.base a.document };

    ghost invariant = { λ a. a.store ≡ assembled a.base a.document };
}

// How many lines are edited one by one in any case, where no more than these change. An edit that moves the lines after it takes up to a tenth
// of a microsecond for each of them.
const MOST_EDITS: usize = 128;

// How many such edits, or definitions, there may be where more lines are gone over. A text that is put into a new store takes about 2 microseconds
// a line, as an edit does that moves no line.
const MOST_COSTLY: usize = 32;

// How many of the edits of some lines may take a look at each line, unless the text is put into a new store at once.
fn most_costly(touched: &Touched<'_>, added: usize) -> Option<usize> {
    if touched.count.max(added) <= MOST_EDITS {
        Some(usize::MAX)
    } else if touched.count == added && touched.first.saturating_add(added) <= MAX_LINES {
        Some(MOST_COSTLY)
    } else {
        None
    }
}

// How many changes of a message are made in the store one after another at most. Each takes as long as one that is sent alone.
const MOST_STEPS: usize = 16;

// Whether some changes of a message are made in the store one after another, since the lines from the first one that they touch to the last are
// many and others are put in or taken out.
fn are_steps(count: usize, old: &[u8], new: &[u8]) -> bool {
    if !(2..=MOST_STEPS).contains(&count) {
        return false;
    }
    let touched = touched_lines(old, new);
    most_costly(&touched, line_count(touched.new)).is_none()
}

// How many lines stand before those in which two texts differ.
fn first_touched(old: &[u8], new: &[u8]) -> u32 {
    u32::try_from(touched_lines(old, new).first).unwrap_or(u32::MAX)
}

// The store of a document that has changed, by the store of what it was.
fn store_after(
    alloc: Global,
    base: Base,
    mut store: Store,
    new: &[u8],
    touched: &Touched<'_>,
) -> Result<Store, AllocError>
    ensures { (old : List ℕ) → store ≡ assembled base old → lines_of new.now ≡ spliced (lines_of old) touched.now.first touched.now.count (lines_of touched.now.new.now) → touched.now.first + touched.now.count ≤ length (lines_of old) → IfOk result (λ s. s ≡ assembled base new.now) }
{
    let added = line_count(touched.new);
    let Some(most) = most_costly(touched, added) else {
        return load(alloc, base, new);
    };
    let lines = Lines::new(touched.new);
    let all = Lines::new(new);
    if change_lines(
        &mut store,
        touched.first,
        touched.count,
        lines,
        added,
        all,
        most,
    )? {
        Ok(store)
    } else {
        load(alloc, base, new)
    }
}

impl Assembly {
    /// A document of this text, which begins at a base.
    ///
    /// # Errors
    ///
    /// `AllocError` if there is no memory for it.
    pub fn new(alloc: Global, base: Base, text: &[u8]) -> Result<Assembly, AllocError>
        ensures { IfOk result (λ a. a ≡ placed base text.now) }
    {
        let document = Document::new(alloc, text)?;
        let store = load(alloc, base, text)?;
        Ok(Assembly {
            base,
            document,
            store,
            edited: 0,
        })
    }

    /// Its text.
    pub fn text(&self) -> &[u8]
        ensures { result.now ≡ self.now.document }
    {
        self.document.text()
    }

    /// The store of its lines.
    pub fn store(&self) -> &Store
        ensures { result.now ≡ text_of self.now }
    {
        &self.store
    }

    /// A new store of its lines.
    ///
    /// # Errors
    ///
    /// `AllocError` if there is no memory for it.
    pub fn copied(&self, alloc: Global) -> Result<Store, AllocError>
        ensures { IfOk result (λ store. store ≡ text_of self.now) }
    {
        load(alloc, self.base, self.document.text())
    }

    /// How many lines stand before those that changed last.
    pub fn edited(&self) -> u32 {
        self.edited
    }

    /// Whether all of the text is assembled: no line is too long, and none stands behind the last that a text can have.
    pub fn is_whole(&self) -> bool {
        let mut lines = Lines::new(self.text());
        let mut left = MAX_LINES;
        'lines: while let Some(line) = lines.next_line() {
            if line.len() > MAX_LINE_LENGTH || (left == 0 && !line.is_empty()) {
                return false;
            }
            left = left.saturating_sub(1);
        }
        true
    }

    // The text after the changes of a message, if each is well formed.
    fn text_after(
        &self,
        alloc: Global,
        encoding: Encoding,
        changes: &[Value],
    ) -> Result<Option<Document>, AllocError>
        ensures { IfOk result (λ new. new ≡ option_map (text_after_all encoding self.now.document) (changes_of (map view changes.now))) }
    {
        let mut document = Document::new(alloc, self.text())?;
        if change_all(&mut document, encoding, changes)? {
            Ok(Some(document))
        } else {
            Ok(None)
        }
    }

    // The document with another text.
    fn with_text(self, alloc: Global, new: Document) -> Result<Assembly, AllocError>
        ensures { IfOk result (λ a. a ≡ placed self.base new) }
    {
        let Assembly {
            base,
            document,
            store,
            ..
        } = self;
        let touched = touched_lines(document.text(), new.text());
        let edited = u32::try_from(touched.first).unwrap_or(u32::MAX);
        let store = store_after(alloc, base, store, new.text(), &touched)?;
        Ok(Assembly {
            base,
            document: new,
            store,
            edited,
        })
    }

    // The document with the place of its last edit.
    fn edited_at(self, edited: u32) -> Assembly
        ensures { result ≡ self }
    {
        Assembly {
            base: self.base,
            document: self.document,
            store: self.store,
            edited,
        }
    }

    // The document after the changes of a message, each of which is well formed and is made in the store before the next one.
    fn changed_in_steps(
        self,
        alloc: Global,
        encoding: Encoding,
        mut changes: &[Value],
    ) -> Result<Assembly, AllocError>
        ensures { (new : List ℕ) → Some new ≡ option_map (text_after_all encoding self.document) (changes_of (map view changes.entry.now)) → IfOk result (λ a. a ≡ placed self.base new) }
    {
        let mut made = self;
        'changes: while let Some((json, later)) = changes.split_first() {
            let Some(change) = change_in(json) else {
                return Ok(made);
            };
            let mut document = Document::new(alloc, made.text())?;
            document.change(encoding, change.range, change.text.as_bytes())?;
            made = made.with_text(alloc, document)?;
            changes = later;
        }
        Ok(made)
    }

    // The document with the text that the changes of a message make.
    fn with_changes(
        self,
        alloc: Global,
        encoding: Encoding,
        changes: &[Value],
        new: Document,
    ) -> Result<Assembly, AllocError>
        requires { Some new ≡ option_map (text_after_all encoding self.document) (changes_of (map view changes.now)) }
        ensures { IfOk result (λ a. a ≡ placed self.base new) }
    {
        if !are_steps(changes.len(), self.text(), new.text()) {
            return self.with_text(alloc, new);
        }
        let edited = first_touched(self.text(), new.text());
        let made = self.changed_in_steps(alloc, encoding, changes)?;
        Ok(made.edited_at(edited))
    }

    /// The document after the changes of a message, if each is well formed, and else the document as it is.
    ///
    /// # Errors
    ///
    /// `AllocError` if there is no memory for it.
    pub fn changed(
        self,
        alloc: Global,
        encoding: Encoding,
        changes: &[Value],
    ) -> Result<Result<Assembly, Assembly>, AllocError>
        ensures { IfOk result (λ new. new ≡ changed_by (option_map (text_after_all encoding self.document) (changes_of (map view changes.now))) self) }
    {
        match self.text_after(alloc, encoding, changes)? {
            Some(document) => Ok(Ok(self.with_changes(alloc, encoding, changes, document)?)),
            None => Ok(Err(self)),
        }
    }
}

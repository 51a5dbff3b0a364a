//! Which lines of a text are shown as one: those of a section, and those of a label.

use rv_diagnostics::{Message, Part};
use rv_list::{LineSource, View};
use rv_stmt::{Body, LabelName, LabelSlice, Stmt};
use std::alloc::{AllocError, Global};

// Lines that can be shown as one: the first and the last of them, by their numbers from 0 on.
#[derive(Clone, Copy)]
struct Fold {
    first: u32,
    last: u32,
}

// The folds of the lines so far, in the order of their first lines, and which of them is that of the section.
#[derive(Drop)]
struct Folds {
    found: Vec<Fold>,
    section: Option<usize>,
}

// Whether one of some labels is that of a symbol.
fn has_symbol(mut labels: LabelSlice<'_>) -> bool {
    'labels: while let Some((label, later)) = labels.split_first() {
        if matches!(label.name, LabelName::Symbol(_)) {
            return true;
        }
        labels = later;
    }
    false
}

impl Folds {
    // Takes a line into a fold.
    fn extend(&mut self, at: usize, line: u32) {
        if let Some(fold) = self.found.get_mut(at) {
            fold.last = line;
        }
    }

    // Takes the next line into the folds of its section and of its label, of which it may be the first. A line with at most a comment belongs to a fold
    // only if others follow in it.
    fn read(&mut self, line: u32, stmt: &Stmt) -> Result<(), AllocError> {
        let enters = matches!(stmt.body, Body::Switch(_));
        if enters {
            self.section = Some(self.found.len());
        }
        if enters || has_symbol(stmt.labels.as_slice()) {
            self.found.push(Fold {
                first: line,
                last: line,
            })?;
        }
        if stmt.labels.is_empty() && matches!(stmt.body, Body::Empty) {
            return Ok(());
        }
        if let Some(section) = self.section {
            self.extend(section, line);
        }
        let newest = self.found.len().saturating_sub(1);
        self.extend(newest, line);
        Ok(())
    }
}

// The folds of a text.
fn folds_of<V: View>(alloc: Global, view: &V) -> Result<Folds, AllocError> {
    let mut folds = Folds {
        found: Vec::new(alloc),
        section: None,
    };
    let mut lines = view.lines();
    for k in 0..view.line_count() {
        lines.advance();
        folds.read(k, lines.line().stmt)?;
    }
    Ok(folds)
}

/// Writes the folds of a text that have two lines or more: from a line that enters a section to the next one, and from a line with the label of a symbol
/// to the next one, or to the end of the section. They are without the blank lines and comments at their ends.
///
/// # Errors
///
/// `AllocError` if there is no memory for them.
pub fn put_folds<V: View>(m: &mut Message, alloc: Global, view: &V) -> Result<(), AllocError> {
    let folds = folds_of(alloc, view)?;
    m.begin_array()?;
    for fold in folds.found.as_slice() {
        if fold.first < fold.last {
            m.put_all(&[
                Part::BeginObject,
                Part::Key("startLine"),
                Part::Number(u64::from(fold.first)),
                Part::Key("endLine"),
                Part::Number(u64::from(fold.last)),
                Part::EndObject,
            ])?;
        }
    }
    m.end_array()
}

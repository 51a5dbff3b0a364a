//! The words of a text that statements begin with and that no instruction and no directive is called.

ghost use Rattle.std.specs.Prelude.{◌≡◌, ◌≤◌, ◌+◌, ◌++◌, length, take, IfOk, OnOk};
ghost use Rattle.rv_list.specs.Shown.{shown_line};
ghost use Rattle.rv_files.specs.Words.{unknown_word, unknown_words};

use rv_list::{LineSource, LineView, View};
use rv_report::UnknownWord;
use rv_show::part;
use rv_stmt::Body;
use rv_text::FaultNumber;
use std::alloc::{AllocError, Global};

// Adds the word of a line, if it is one of them.
fn push_word(
    words: &mut Vec<UnknownWord>,
    alloc: Global,
    number: u32,
    line: &LineView<'_>,
) -> Result<(), AllocError>
    ensures word { OnOk result (words.new.items ≡ words.old.items ++ unknown_word number (shown_line line.now)) }
    ensures few { OnOk result (length words.new.items ≤ length words.old.items + 1) }
{
    match &line.stmt.body {
        Body::Faulty(fault) => match fault.number {
            FaultNumber::UnknownName => {
                let word = UnknownWord::of(alloc, part(line.text, fault.span), number)?;
                words.push(word)?;
                Ok(())
            }
            _ => Ok(()),
        },
        _ => Ok(()),
    }
}

/// The first of the words of a text that statements begin with and that no instruction and no directive is called, at most so many.
///
/// # Errors
///
/// `AllocError` if there is no memory for them.
#[tactic(auto, unfolding(crate::specs::Words::unknown_words))]
pub fn first_unknown_words<V: View>(
    alloc: Global,
    view: &V,
    most: usize,
) -> Result<Vec<UnknownWord>, AllocError>
    ensures { IfOk result (λ words. words.items ≡ take most (unknown_words (V.shown view.now))) }
{
    let mut words = Vec::new(alloc);
    let mut lines = view.lines();
    for k in 0..view.line_count() {
        if words.len() >= most {
            return Ok(words);
        }
        lines.advance();
        push_word(&mut words, alloc, k + 1, &lines.line())?;
    }
    Ok(words)
}

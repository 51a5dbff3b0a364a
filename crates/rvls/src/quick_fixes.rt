//! Changes of lines that take a fault away, as an editor offers them.

ghost use Rattle.std.specs.Prelude.{◌≤◌, length};

use crate::trial::{put_line, takes_fault_away};
use rv_changes::Assembly;
use rv_diagnostics::{Context, Message, Part};
use rv_files::{first_names, first_symbols, searched};
use rv_language::{BrokenLine, Fix, colon_fixes, possible_fixes, put_edit, text_of};
use rv_list::{LineSource, LineView, View};
use rv_show::{Text, part, place_shown};
use rv_store::Store;
use rv_text::{Fault, Token, tokens};
use std::alloc::{AllocError, Global};

/// The kind of these changes. (Language Server Protocol 3.17, CodeActionKind)
pub const QUICK_FIX: &str = "quickfix";

// How many lines with faults are looked at for one answer at most.
const MOST_LINES: usize = 100;

// Where changes are tried, and what they may name.
#[derive(Drop)]
struct Trial<'a> {
    store: Store,
    symbols: &'a [&'a [u8]],
}

// What a change does, in words.
fn title_of(alloc: Global, old: &[u8], new: &[u8]) -> Result<String, AllocError> {
    let mut text = Text::new(alloc);
    if old.is_empty() {
        text.push_about(b"Insert ", new, b"")?;
    } else if new.is_empty() {
        text.push_about(b"Remove ", old, b"")?;
    } else {
        let place = place_shown(old, &[new]);
        text.push(b"Replace ")?;
        text.push_quoted_from(place, old)?;
        text.push(b" by ")?;
        text.push_quoted_from(place, new)?;
    }
    String::from_utf8_lossy(alloc, text.bytes())
}

// Writes a change of a line, by its number from 1 on.
fn put_fix(
    m: &mut Message,
    context: &Context<'_>,
    number: u32,
    line: &BrokenLine<'_>,
    fix: &Fix,
) -> Result<(), AllocError>
    requires { length line.now.text.now ≤ 1000 }
{
    let new = fix.text.bytes();
    let title = title_of(context.alloc, part(line.text, fix.span), new)?;
    let new_text = String::from_utf8_lossy(context.alloc, new)?;
    m.put_all(&[
        Part::BeginObject,
        Part::Key("title"),
        Part::Text(title.as_str()),
        Part::Key("kind"),
        Part::Text(QUICK_FIX),
        Part::Key("edit"),
        Part::BeginObject,
        Part::Key("changes"),
        Part::BeginObject,
    ])?;
    m.key(context.uri)?;
    m.begin_array()?;
    put_edit(
        m,
        context.encoding,
        number,
        line.text,
        fix.span,
        new_text.as_str(),
    )?;
    m.put_all(&[
        Part::EndArray,
        Part::EndObject,
        Part::EndObject,
        Part::EndObject,
    ])
}

// Writes those of some changes of a line that take its fault away, and says whether there are any.
fn put_some(
    m: &mut Message,
    context: &Context<'_>,
    store: &mut Store,
    number: u32,
    line: &BrokenLine<'_>,
    mut fixes: &[Fix],
) -> Result<bool, AllocError>
    requires { length line.now.text.now ≤ 1000 }
{
    let mut are_some = false;
    'fixes: while let [fix, later @ ..] = fixes {
        if takes_fault_away(store, number, line, fix)? {
            put_fix(m, context, number, line, fix)?;
            are_some = true;
        }
        fixes = later;
    }
    Ok(are_some)
}

// Writes the changes that take a fault of a line away.
fn put_for_line<V: View>(
    m: &mut Message,
    context: &Context<'_>,
    view: &V,
    trial: &mut Trial<'_>,
    number: u32,
    line: &BrokenLine<'_>,
) -> Result<(), AllocError>
    requires { length line.now.text.now ≤ 1000 }
{
    let fixes = possible_fixes(view, line, trial.symbols)?;
    if put_some(m, context, &mut trial.store, number, line, fixes.as_slice())? {
        return Ok(());
    }
    let fixes = colon_fixes(line)?;
    put_some(m, context, &mut trial.store, number, line, fixes.as_slice())?;
    Ok(())
}

// The tokens of a line behind its labels, each of which is two tokens.
fn behind_labels<'a>(line: &LineView<'_>, found: &'a [Token]) -> &'a [Token] {
    let labels = line.stmt.labels.len().saturating_mul(2);
    let (_, behind) = found.split_at(found.len().min(labels));
    behind
}

// Writes the changes that take the fault of a line away, and puts the line back where they were tried.
fn put_line_fixes<V: View>(
    m: &mut Message,
    context: &Context<'_>,
    view: &V,
    trial: &mut Trial<'_>,
    number: u32,
    line: &LineView<'_>,
    fault: Fault,
) -> Result<(), AllocError> {
    let text = text_of(line);
    let Ok(found) = tokens(context.alloc, text) else {
        return Err(AllocError);
    };
    let broken = BrokenLine {
        alloc: context.alloc,
        text,
        fault,
        tokens: behind_labels(line, found.tokens()),
    };
    put_for_line(m, context, view, trial, number, &broken)?;
    put_line(&mut trial.store, number, text)
}

// Writes the changes for the lines from number `from` on and before number `to`, both from 0 on, but for no more lines than are looked at.
fn put_lines<V: View>(
    m: &mut Message,
    context: &Context<'_>,
    view: &V,
    trial: &mut Trial<'_>,
    from: u32,
    to: u32,
) -> Result<(), AllocError> {
    let mut left = MOST_LINES;
    let mut lines = view.lines();
    for k in 0..view.line_count().min(to) {
        lines.advance();
        let line = lines.line();
        if let Some(fault) = line.code.fault
            && k >= from
            && left > 0
        {
            put_line_fixes(m, context, view, trial, k + 1, &line, fault)?;
            left -= 1;
        }
    }
    Ok(())
}

// Whether one of the lines from number `from` on and before number `to`, both from 0 on, has a fault.
fn has_fault<V: View>(view: &V, from: u32, to: u32) -> bool {
    let mut lines = view.lines();
    for k in 0..view.line_count().min(to) {
        lines.advance();
        if k >= from && lines.line().code.fault.is_some() {
            return true;
        }
    }
    false
}

/// Writes the changes that take the faults of lines away, of those from number `from` on and before number `to`, both from 0 on. Each is tried in
/// a copy of the text.
///
/// # Errors
///
/// `AllocError` if there is no memory for them.
pub fn put_quick_fixes(
    m: &mut Message,
    context: &Context<'_>,
    document: &Assembly,
    from: u32,
    to: u32,
) -> Result<(), AllocError> {
    let view = &document.store();
    m.begin_array()?;
    if has_fault(view, from, to) {
        let most = searched(MOST_LINES);
        let symbols = first_symbols(context.alloc, view, most)?;
        let names = first_names(context.alloc, symbols.as_slice(), most)?;
        let mut trial = Trial {
            store: document.copied(context.alloc)?,
            symbols: names.as_slice(),
        };
        put_lines(m, context, view, &mut trial, from, to)?;
    }
    m.end_array()
}

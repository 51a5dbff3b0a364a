//! Changes of a line that are tried before they are offered.

ghost use Rattle.std.specs.Prelude.{◌≡◌, ◌≤◌, length, IfOk};
ghost use Rattle.std.specs.List.{list_all};
ghost use Rattle.rv_list.specs.Shown.{shown_line};
ghost use Rattle.rvls.specs.QuickFixes.{changed, count_after, is_right_line, is_statement, may_stay};

use arrayvec::ArrayVec;
use rv_language::{BrokenLine, Fix, lines_to};
use rv_list::{LineSource, LineView, MAX_FAULTS, View, find_faults};
use rv_ops::reg_by_name;
use rv_show::{Text, bytes_from, first_bytes, part};
use rv_stmt::Body;
use rv_store::Store;
use rv_text::{Fault, MAX_LINE_LENGTH, Tally};
use std::alloc::AllocError;

// Whether a fault of a line may stay: it begins at a place or after it, and is not that a register stands there.
fn may_stay(text: &[u8], fault: Option<Fault>, at: usize) -> bool
    ensures { result ≡ may_stay text.now at fault }
{
    match fault {
        Some(fault) => {
            fault.span.from as usize >= at && reg_by_name(part(text, fault.span)).is_none()
        }
        None => true,
    }
}

// Whether all of some faults of a line may stay.
fn may_all_stay(text: &[u8], faults: &[Option<Fault>], at: usize) -> bool
    ensures { result ≡ list_all (may_stay text.now at) faults.now }
{
    faults.iter().all(|fault| may_stay(text, *fault, at))
}

// Whether a body is a statement, and not what is wrong with one.
fn is_statement(body: &Body) -> bool
    ensures { result ≡ is_statement body.now }
{
    match body {
        Body::Faulty(_) => false,
        _ => true,
    }
}

// Whether a line has no fault of its statement, and no other one that may not stay.
#[tactic(auto, using(crate::proofs::QuickFixes::right_line))]
fn is_right_line<V: View>(view: &V, number: u32, line: &LineView<'_>, at: usize) -> bool
    requires { length line.now.stmt.now.labels ≤ 1000 }
    ensures { result ≡ is_right_line (V.shown view.now) number at (shown_line line.now) }
{
    if !is_statement(&line.stmt.body) {
        return false;
    }
    let mut faults = ArrayVec::<Option<Fault>, MAX_FAULTS>::new();
    find_faults(&mut faults, view, number, line);
    may_all_stay(line.text, faults.as_slice(), at)
}

// A line after a change.
fn changed(line: &BrokenLine<'_>, fix: &Fix) -> Result<Text, AllocError>
    ensures { IfOk result (λ text. text ≡ changed line.now.text.now fix.now.span fix.now.text) }
{
    let mut text = Text::new(line.alloc);
    text.push(first_bytes(line.text, fix.span.from as usize))?;
    text.push(fix.text.bytes())?;
    text.push(bytes_from(line.text, fix.span.to as usize))?;
    Ok(text)
}

// How many bytes of a line stand after a change and the fault that it is for.
fn count_after(line: &BrokenLine<'_>, fix: &Fix) -> usize
    ensures { result ≡ count_after line.now.text.now line.now.fault.span fix.now.span }
{
    let to = line.fault.span.to.max(fix.span.to) as usize;
    line.text.len().saturating_sub(to)
}

/// Puts a line in the place of one of a text.
///
/// # Errors
///
/// `AllocError` if there is no memory for it.
pub fn put_line(store: &mut Store, number: u32, line: &[u8]) -> Result<(), AllocError> {
    match store.replace(number, line, &mut Tally::new()) {
        Ok(_) => Ok(()),
        Err(_) => Err(AllocError),
    }
}

/// Puts a line after a change into a text, in the place of the line of this number, and says whether the fault is gone: the line has no fault of
/// its statement, and no other fault but after the change and what was wrong.
///
/// # Errors
///
/// `AllocError` if there is no memory for it.
pub fn takes_fault_away(
    store: &mut Store,
    number: u32,
    line: &BrokenLine<'_>,
    fix: &Fix,
) -> Result<bool, AllocError> {
    let text = changed(line, fix)?;
    let length = text.bytes().len();
    if length > MAX_LINE_LENGTH {
        return Ok(false);
    }
    put_line(store, number, text.bytes())?;
    let view = &*store;
    let Some(lines) = lines_to(&view, number) else {
        return Ok(false);
    };
    let at = length.saturating_sub(count_after(line, fix));
    Ok(is_right_line(&view, number, &lines.line(), at))
}

//! Where names are used.

ghost use Rattle.std.specs.Prelude.{◌≡◌, ◌++◌, ◌≤◌, length, OnOk};
ghost use Rattle.rv_list.specs.Shown.{shown_line};
ghost use Rattle.rv_language.specs.Names.{text_edit};
ghost use Rattle.rv_language.specs.References.{asked_of, form_of, highlight, is_wanted, line_places, place, places_of, references};

use crate::definition::is_definition;
use crate::meaning::{Meaning, as_written};
use crate::named::without_letter;
use crate::names::{NameSpan, names_in, text_of};
use crate::places::{put_location, put_name_range};
use rv_diagnostics::{Context, Message, Part};
use rv_doc::Encoding;
use rv_list::{LineSource, LineView, View};
use rv_show::part;
use rv_text::Span;
use std::alloc::AllocError;

/// How a place of a name is written.
#[derive(Clone, Copy)]
pub enum PlaceForm<'a> {
    /// With its document.
    Location,
    /// Without it.
    Highlight,
    /// As an edit that puts this text there.
    Edit(&'a str),
}

/// Which places of a name are asked for.
#[derive(Clone, Copy)]
pub struct Wanted<'a> {
    pub meaning: Meaning<'a>,
    /// Whether that of the definition is one of them.
    pub with_definition: bool,
    pub form: PlaceForm<'a>,
}

// Whether a name of a line is asked for.
fn is_wanted<V: View>(
    view: &V,
    wanted: &Wanted<'_>,
    number: u32,
    text: &[u8],
    name: &NameSpan,
) -> bool
    ensures { result ≡ is_wanted (V.shown view.now) (asked_of wanted.now) number text.now name.now }
{
    let Some(name_written) = as_written(part(text, name.span)) else {
        return false;
    };
    if !wanted.meaning.is_meant(number, name_written) {
        return false;
    }
    wanted.with_definition || !is_definition(view, number, name_written, name.standing)
}

/// Writes an edit that puts a text in the place of a part of a line, by its number from 1 on.
#[tactic(auto, unfolding(crate::specs::Names::text_edit))]
pub fn put_edit(
    m: &mut Message,
    encoding: Encoding,
    number: u32,
    text: &[u8],
    span: Span,
    new_text: &str,
) -> Result<(), AllocError>
    requires { length text.now ≤ 1000 }
    ensures { OnOk result (m.new ≡ m.old ++ text_edit encoding number text.now span new_text.now) }
{
    m.put_all(&[Part::BeginObject, Part::Key("range")])?;
    put_name_range(m, encoding, number, text, span)?;
    m.put_all(&[Part::Key("newText"), Part::Text(new_text), Part::EndObject])
}

// Writes a place of a name in a line, without its document.
#[tactic(auto, unfolding(crate::specs::References::highlight))]
fn put_highlight(
    m: &mut Message,
    encoding: Encoding,
    number: u32,
    text: &[u8],
    span: Span,
) -> Result<(), AllocError>
    requires { length text.now ≤ 1000 }
    ensures { OnOk result (m.new ≡ m.old ++ highlight encoding number text.now span) }
{
    m.put_all(&[Part::BeginObject, Part::Key("range")])?;
    put_name_range(m, encoding, number, text, span)?;
    m.end_object()
}

// Writes a place of a name in a line, or an edit there.
fn put_place(
    m: &mut Message,
    context: &Context<'_>,
    wanted: &Wanted<'_>,
    number: u32,
    text: &[u8],
    span: Span,
) -> Result<(), AllocError>
    requires { length text.now ≤ 1000 }
    ensures { OnOk result (m.new ≡ m.old ++ place (form_of wanted.now.form) context.now.encoding context.now.uri.now number text.now span) }
{
    match wanted.form {
        PlaceForm::Location => put_location(m, context, number, text, span),
        PlaceForm::Highlight => put_highlight(m, context.encoding, number, text, span),
        PlaceForm::Edit(new_text) => {
            let span = without_letter(text, span);
            put_edit(m, context.encoding, number, text, span, new_text)
        }
    }
}

// Writes the places of those of some names of a line that are asked for.
fn put_names<V: View>(
    m: &mut Message,
    context: &Context<'_>,
    view: &V,
    wanted: &Wanted<'_>,
    number: u32,
    text: &[u8],
    names: &[NameSpan],
) -> Result<(), AllocError>
    requires { length text.now ≤ 1000 }
    ensures { OnOk result (m.new ≡ m.old ++ places_of context.now.encoding context.now.uri.now (V.shown view.now) (asked_of wanted.now) number text.now names.now) }
{
    let mut left = names;
    'names: while let [name, later @ ..] = left {
        if is_wanted(view, wanted, number, text, name) {
            put_place(m, context, wanted, number, text, name.span)?;
        }
        left = later;
    }
    Ok(())
}

// Writes the places in a line.
#[tactic(auto, unfolding(crate::specs::References::line_places), using(crate::proofs::NamesElsewhere::no_places))]
fn put_line<V: View>(
    m: &mut Message,
    context: &Context<'_>,
    view: &V,
    wanted: &Wanted<'_>,
    number: u32,
    line: &LineView<'_>,
) -> Result<(), AllocError>
    requires { length line.now.stmt.now.labels ≤ 1000 }
    ensures { OnOk result (m.new ≡ m.old ++ line_places context.now.encoding context.now.uri.now (V.shown view.now) (asked_of wanted.now) number (shown_line line.now)) }
{
    let text = text_of(line);
    if !wanted.meaning.may_stand_in(text) {
        return Ok(());
    }
    let names = names_in(context.alloc, line)?;
    put_names(m, context, view, wanted, number, text, names.as_slice())
}

/// Writes the places of a name in a text, line by line.
///
/// # Errors
///
/// `AllocError` if there is no memory for them.
pub fn put_references<V: View>(
    m: &mut Message,
    context: &Context<'_>,
    view: &V,
    wanted: &Wanted<'_>,
) -> Result<(), AllocError>
    ensures { OnOk result (m.new ≡ m.old ++ references context.now.encoding context.now.uri.now (V.shown view.now) (asked_of wanted.now)) }
{
    let mut lines = view.lines();
    for k in 0..view.line_count() {
        lines.advance();
        put_line(m, context, view, wanted, k + 1, &lines.line())?;
    }
    Ok(())
}

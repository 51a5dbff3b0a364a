//! Another name for what a name means.

ghost use Rattle.std.specs.Prelude.{◌≡◌, ◌++◌, ◌-◌, ◌≤◌, None, Ok, length, take, IfErr, IfOk, OnOk};
ghost use Rattle.rv_list.specs.Shown.{shown_line};
ghost use Rattle.rv_language.specs.declared.rename.RenameError.TheVariants.{Memory};
ghost use Rattle.rv_language.specs.Meanings.{meant, means, name_lent};
ghost use Rattle.rv_language.specs.NamesAt.{seen_of};
ghost use Rattle.rv_language.specs.References.{asked_of, references};
ghost use Rattle.rv_language.specs.Renames.{IsMeaningRefusal, IsRefusal, change_of, edits, keeps, length_with, line_refusal, lines_refusal, names_refusal, new_meaning, placed_name, prepared, rename_refusal, with_number, workspace_edit};

use crate::definition::definition_line;
use crate::meaning::{Meaning, Written, as_written, meaning_of};
use crate::named::Named;
use crate::names::{NameSpan, names_in, text_of};
use crate::new_names::is_symbol_name;
use crate::places::put_name_range;
use crate::references::{PlaceForm, Wanted, put_references};
use rv_diagnostics::{Context, Message, Part};
use rv_expr::label_number;
use rv_list::{LineSource, LineView, View};
use rv_show::part;
use rv_text::{MAX_LINE_LENGTH, Span, is_local_number};
use std::alloc::{AllocError, Global};

/// Why a name gets no other one.
#[derive(Clone, Copy)]
pub enum NameRefusal {
    /// The text does not define it.
    NotDefined,
    /// The new name cannot be that of a symbol.
    NoSymbolName,
    /// The new name cannot be that of a local label.
    NoLocalName,
    /// The new name would mean something else as well.
    Taken,
    /// A line would be too long.
    LineTooLong,
}

/// Why no edits are written.
pub enum RenameError {
    Refused(NameRefusal),
    Memory,
}

impl From<AllocError> for RenameError {
    ghost from_gives = { λ _ e. e ≡ Memory };

    fn from(_: AllocError) -> Self {
        RenameError::Memory
    }
}

// A name that gets another one: what both mean, and how many bytes they have.
#[derive(Clone, Copy)]
struct Renaming<'a> {
    old: Meaning<'a>,
    new: Meaning<'a>,
    old_length: usize,
    new_length: usize,
}

// What a new name means in the place of an old one.
fn new_meaning<'a, V: View>(
    alloc: Global,
    view: &V,
    old: &Meaning<'_>,
    new: &'a [u8],
) -> Result<Meaning<'a>, RenameError>
    ensures meaning { IfOk result (λ meaning. new_meaning (V.shown view.now) (meant old.now) new.now ≡ Ok (meant meaning)) }
    ensures refused { IfErr result (λ e. IsMeaningRefusal e (new_meaning (V.shown view.now) (meant old.now) new.now)) }
{
    let Meaning::Local(label) = old else {
        if is_symbol_name(alloc, new)? {
            return Ok(Meaning::Symbol(new));
        }
        return Err(RenameError::Refused(NameRefusal::NoSymbolName));
    };
    if is_local_number(new) {
        let number = label_number(new).unwrap_or(0);
        if let Some(meaning) = meaning_of(view, label.line, Written::Label(number)) {
            return Ok(meaning);
        }
    }
    Err(RenameError::Refused(NameRefusal::NoLocalName))
}

// A name of a local label with another number.
fn with_number(name: Written<'_>, number: u16) -> Written<'_>
    ensures { name_lent result ≡ with_number number (name_lent name.entry) }
{
    match name {
        Written::Symbol(symbol) => Written::Symbol(symbol),
        Written::Label(_) => Written::Label(number),
        Written::Back(_) => Written::Back(number),
        Written::Forward(_) => Written::Forward(number),
    }
}

impl Renaming<'_> {
    // Whether a name of a line means the same afterwards: it is the old one and the new one means it, or it is another.
    fn keeps(&self, line: u32, name: Written<'_>) -> bool
        ensures { result ≡ keeps (change_of self.now) line (name_lent name.entry) }
    {
        if !self.old.is_meant(line, name) {
            return !self.new.is_meant(line, name);
        }
        match &self.new {
            Meaning::Symbol(_) => true,
            Meaning::Local(label) => self.new.is_meant(line, with_number(name, label.number)),
        }
    }

    // How many bytes a line gets by a name that stands in it, and has without it.
    fn length_with(&self, line: u32, name: Written<'_>, length: usize) -> usize
        ensures { result ≡ length_with (change_of self.now) (means (meant self.now.old) line (name_lent name.entry)) length }
    {
        if self.old.is_meant(line, name) {
            length
                .saturating_add(self.new_length)
                .saturating_sub(self.old_length)
        } else {
            length
        }
    }
}

// Finds out whether a line of this text with these names can get the new name.
fn check_names(
    renaming: &Renaming<'_>,
    number: u32,
    text: &[u8],
    names: &[NameSpan],
) -> Result<(), RenameError>
    ensures done { OnOk result (names_refusal (change_of renaming.now) number text.now names.now ≡ None) }
    ensures refused { IfErr result (λ e. IsRefusal e (names_refusal (change_of renaming.now) number text.now names.now)) }
{
    let mut length = text.len();
    let mut left = names;
    'names: while let [name, later @ ..] = left {
        if let Some(written) = as_written(part(text, name.span)) {
            if !renaming.keeps(number, written) {
                return Err(RenameError::Refused(NameRefusal::Taken));
            }
            length = renaming.length_with(number, written, length);
        }
        left = later;
    }
    if length > MAX_LINE_LENGTH {
        return Err(RenameError::Refused(NameRefusal::LineTooLong));
    }
    Ok(())
}

// Finds out whether a line can get the new name.
#[tactic(auto, unfolding(crate::specs::Renames::line_refusal), using(crate::proofs::RenamedNames::untouched))]
fn check_line(
    alloc: Global,
    renaming: &Renaming<'_>,
    number: u32,
    line: &LineView<'_>,
) -> Result<(), RenameError>
    requires { length line.now.stmt.now.labels ≤ 1000 }
    ensures done { OnOk result (line_refusal (change_of renaming.now) number (shown_line line.now) ≡ None) }
    ensures refused { IfErr result (λ e. IsRefusal e (line_refusal (change_of renaming.now) number (shown_line line.now))) }
{
    let text = text_of(line);
    if !renaming.old.may_stand_in(text) && !renaming.new.may_stand_in(text) {
        return Ok(());
    }
    let names = names_in(alloc, line)?;
    check_names(renaming, number, text, names.as_slice())
}

// Finds out whether the lines of a text can get the new name.
fn check_lines<V: View>(alloc: Global, view: &V, renaming: &Renaming<'_>) -> Result<(), RenameError>
    ensures done { OnOk result (lines_refusal (V.shown view.now) (change_of renaming.now) ≡ None) }
    ensures refused { IfErr result (λ e. IsRefusal e (lines_refusal (V.shown view.now) (change_of renaming.now))) }
{
    let mut lines = view.lines();
    for k in 0..view.line_count() {
        lines.advance();
        check_line(alloc, renaming, k + 1, &lines.line())?;
    }
    Ok(())
}

// Writes the place of a name in a line, by its number from 1 on, and its text.
fn put_placed_name(
    m: &mut Message,
    context: &Context<'_>,
    number: u32,
    text: &[u8],
    span: Span,
) -> Result<(), AllocError>
    requires { length text.now ≤ 1000 }
    ensures { OnOk result (m.new ≡ m.old ++ placed_name context.now.encoding number text.now span) }
{
    let shown = String::from_utf8_lossy(context.alloc, part(text, span))?;
    m.put_all(&[Part::BeginObject, Part::Key("range")])?;
    put_name_range(m, context.encoding, number, text, span)?;
    m.put_all(&[
        Part::Key("placeholder"),
        Part::Text(shown.as_str()),
        Part::EndObject,
    ])?;
    Ok(())
}

/// Writes that a name of a line can get another one, and where it stands, or null.
///
/// # Errors
///
/// `AllocError` if there is no memory for it.
pub fn put_name<V: View>(
    m: &mut Message,
    context: &Context<'_>,
    view: &V,
    number: u32,
    line: &LineView<'_>,
    name: &Named<'_>,
) -> Result<(), AllocError>
    ensures { OnOk result (m.new ≡ m.old ++ prepared context.now.encoding (V.shown view.now) number (take 1000 line.now.text.now) (seen_of name.now)) }
{
    if definition_line(view, &name.meaning) == 0 {
        return m.null();
    }
    put_placed_name(m, context, number, text_of(line), name.span)
}

// Writes the edits of a document.
#[tactic(auto, unfolding(crate::specs::Renames::workspace_edit))]
fn put_edits<V: View>(
    m: &mut Message,
    context: &Context<'_>,
    view: &V,
    wanted: &Wanted<'_>,
) -> Result<(), AllocError>
    ensures { OnOk result (m.new ≡ m.old ++ workspace_edit context.now.uri.now (references context.now.encoding context.now.uri.now (V.shown view.now) (asked_of wanted.now))) }
{
    m.put_all(&[
        Part::BeginObject,
        Part::Key("changes"),
        Part::BeginObject,
        Part::Key(context.uri),
        Part::BeginArray,
    ])?;
    put_references(m, context, view, wanted)?;
    m.put_all(&[Part::EndArray, Part::EndObject, Part::EndObject])
}

/// Writes the edits that give a name another one, if each name keeps its meaning and no line gets too long.
///
/// # Errors
///
/// `Refused` if the name is not defined, the new one cannot be such a name or would be meant elsewhere, or a line would be too long, and
/// `Memory` if there is no memory for the edits.
pub fn put_rename<V: View>(
    m: &mut Message,
    context: &Context<'_>,
    view: &V,
    name: &Named<'_>,
    new_text: &str,
) -> Result<(), RenameError>
    ensures done { OnOk result (rename_refusal (V.shown view.now) (meant name.now.meaning) (name.now.span.to - name.now.span.from) new_text.now ≡ None) }
    ensures edits { OnOk result (m.new ≡ m.old ++ workspace_edit context.now.uri.now (edits context.now.encoding context.now.uri.now (V.shown view.now) (meant name.now.meaning) new_text.now)) }
    ensures refused { IfErr result (λ e. IsRefusal e (rename_refusal (V.shown view.now) (meant name.now.meaning) (name.now.span.to - name.now.span.from) new_text.now)) }
{
    if definition_line(view, &name.meaning) == 0 {
        return Err(RenameError::Refused(NameRefusal::NotDefined));
    }
    let new = new_text.as_bytes();
    let renaming = Renaming {
        old: name.meaning,
        new: new_meaning(context.alloc, view, &name.meaning, new)?,
        old_length: name.span.to.saturating_sub(name.span.from) as usize,
        new_length: new.len(),
    };
    check_lines(context.alloc, view, &renaming)?;
    let wanted = Wanted {
        meaning: name.meaning,
        with_definition: true,
        form: PlaceForm::Edit(new_text),
    };
    put_edits(m, context, view, &wanted)?;
    Ok(())
}

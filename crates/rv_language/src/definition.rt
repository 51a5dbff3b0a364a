//! Where names are defined.

ghost use Rattle.std.specs.Prelude.{◌≡◌, ◌++◌, ◌≤◌, length, OnOk};
ghost use Rattle.rv_list.specs.Shown.{shown_line};
ghost use Rattle.rv_language.specs.Meanings.{definition_line, is_definition, meant, name_lent};
ghost use Rattle.rv_language.specs.References.{defines, definition, definition_in, line_definition};

use crate::meaning::{Meaning, Written, as_written};
use crate::names::{NameSpan, Standing, names_defined, text_of};
use crate::places::{lines_to, put_location};
use rv_diagnostics::{Context, Message};
use rv_list::{DefinitionPlace, LineSource, LineView, View};
use rv_show::part;
use std::alloc::AllocError;

/// Whether a name of a line is a definition: the first one of a symbol, or a local label. The line has this number, from 1 on.
pub fn is_definition<V: View>(view: &V, line: u32, name: Written<'_>, standing: Standing) -> bool
    ensures { result ≡ is_definition (V.shown view.now) line (name_lent name.entry) standing }
{
    match name {
        Written::Symbol(bytes) => match standing {
            Standing::Label(index) => view.definition(bytes).is_label(line, index),
            Standing::Equ => view.definition(bytes).is_equ(line),
            Standing::Use => false,
        },
        Written::Label(_) => true,
        Written::Back(_) | Written::Forward(_) => false,
    }
}

/// The line of a definition, by its number from 1 on, and 0 if there is none.
pub fn definition_line<V: View>(view: &V, meaning: &Meaning<'_>) -> u32
    ensures { result ≡ definition_line (V.shown view.now) (meant meaning.now) }
{
    match meaning {
        Meaning::Local(label) => label.line,
        Meaning::Symbol(name) => match view.definition(name) {
            DefinitionPlace::Label(line, _) | DefinitionPlace::Equ(line) => line,
            DefinitionPlace::Nowhere => 0,
        },
    }
}

// Whether a name of a line is the definition of this meaning.
fn defines<V: View>(
    view: &V,
    meaning: &Meaning<'_>,
    number: u32,
    text: &[u8],
    name: &NameSpan,
) -> bool
    ensures { result ≡ defines (V.shown view.now) (meant meaning.now) number text.now name.now }
{
    let Some(name_written) = as_written(part(text, name.span)) else {
        return false;
    };
    meaning.is_meant(number, name_written)
        && is_definition(view, number, name_written, name.standing)
}

// Writes where the first of some names of a line stands that defines a meaning, or null.
fn put_first_defined<V: View>(
    m: &mut Message,
    context: &Context<'_>,
    view: &V,
    meaning: &Meaning<'_>,
    number: u32,
    text: &[u8],
    names: &[NameSpan],
) -> Result<(), AllocError>
    requires { length text.now ≤ 1000 }
    ensures { OnOk result (m.new ≡ m.old ++ definition_in context.now.encoding context.now.uri.now (V.shown view.now) (meant meaning.now) number text.now names.now) }
{
    let mut left = names;
    'names: while let [name, later @ ..] = left {
        if defines(view, meaning, number, text, name) {
            return put_location(m, context, number, text, name.span);
        }
        left = later;
    }
    m.null()
}

// Writes where a line defines a name, or null.
#[tactic(auto, unfolding(crate::specs::References::line_definition))]
fn put_defined<V: View>(
    m: &mut Message,
    context: &Context<'_>,
    view: &V,
    meaning: &Meaning<'_>,
    number: u32,
    line: &LineView<'_>,
) -> Result<(), AllocError>
    requires { length line.now.stmt.now.labels ≤ 1000 }
    ensures { OnOk result (m.new ≡ m.old ++ line_definition context.now.encoding context.now.uri.now (V.shown view.now) (meant meaning.now) number (shown_line line.now)) }
{
    let text = text_of(line);
    let names = names_defined(context.alloc, line)?;
    put_first_defined(m, context, view, meaning, number, text, names.as_slice())
}

/// Writes the place of a definition, or null.
///
/// # Errors
///
/// `AllocError` if there is no memory for it.
pub fn put_definition<V: View>(
    m: &mut Message,
    context: &Context<'_>,
    view: &V,
    meaning: &Meaning<'_>,
) -> Result<(), AllocError>
    ensures { OnOk result (m.new ≡ m.old ++ definition context.now.encoding context.now.uri.now (V.shown view.now) (meant meaning.now)) }
{
    let number = definition_line(view, meaning);
    let Some(lines) = lines_to(view, number) else {
        return m.null();
    };
    put_defined(m, context, view, meaning, number, &lines.line())
}

//! Requests about the lines of a document and the names in it.

ghost use Rattle.std.specs.Prelude.{◌≡◌, ◌++◌, ◌≤◌, length, take, OnOk};
ghost use Rattle.rv_language.specs.Meanings.{meant};
ghost use Rattle.rv_language.specs.NamesAt.{seen_of};
ghost use Rattle.rv_language.specs.References.{form_of, references};
ghost use Rattle.rvls.specs.NameAnswers.{about_name, in_list};

use crate::bodies::has_text;
use crate::publishing::put_report;
use crate::quick_fixes::{QUICK_FIX, put_quick_fixes};
use crate::writing::{Failure, Refusal};
use rv_changes::Assembly;
use rv_diagnostics::{Context, Message};
use rv_doc::{Position, number_at, position_of, text_at};
use rv_language::{
    Named, PlaceForm, Wanted, lines_to, name_at, put_completions, put_definition,
    put_document_symbols, put_encoding, put_folds, put_hints, put_hover, put_name, put_references,
    put_rename, put_section_places, put_semantic_tokens, put_signature_help,
};
use rv_list::{LineSource, LineView, View};
use serde_json::Value;
use std::alloc::AllocError;

/// What is asked about the name at a position.
#[derive(Clone, Copy)]
pub enum NameWish<'a> {
    /// Where it is defined.
    Definition,
    /// Where it stands, with its definition or without it.
    References(bool),
    /// Where it stands in this document.
    Highlights,
    /// Whether it can get another name.
    CanRename,
    /// To give it this name.
    Rename(&'a str),
}

/// What is asked about a position.
#[derive(Clone, Copy)]
pub enum Wish<'a> {
    /// What stands there.
    Hover,
    /// Which names may be typed there.
    Completion,
    /// How the statement there can be written.
    Signatures,
    /// Which instructions the line there stands for, with their fields.
    Encoding,
    /// Something about the name there.
    Name(NameWish<'a>),
}

/// What is asked about a document.
#[derive(Clone, Copy)]
pub enum Question<'a> {
    /// Which symbols it has.
    Symbols,
    /// Which of its lines are shown as one.
    Folds,
    /// The addresses and sizes of its sections.
    Sections,
    /// Which faults and warnings it has.
    Diagnostics,
    /// What the tokens are of the lines from the first number on and before the second, from 0 on.
    Tokens(u32, u32),
    /// What is shown beside such lines.
    Hints(u32, u32),
    /// Which changes take the faults of such lines away.
    Fixes(u32, u32),
    /// Something about a position.
    Place(Position, Wish<'a>),
}

impl Question<'_> {
    /// Whether the answer is right only if all names of the document are known.
    pub fn needs_all_names(&self) -> bool {
        matches!(self, Question::Place(_, Wish::Name(NameWish::Rename(_))))
    }
}

// What a request asks about the name at a position.
fn name_wish_in<'a>(method: &str, message: &'a Value) -> Result<NameWish<'a>, Refusal> {
    match method {
        "textDocument/definition" => Ok(NameWish::Definition),
        "textDocument/references" => {
            let wanted = message.pointer("/params/context/includeDeclaration");
            let with_definition = wanted
                .and_then(Value::as_bool)
                .ok_or(Refusal::WrongParameters)?;
            Ok(NameWish::References(with_definition))
        }
        "textDocument/documentHighlight" => Ok(NameWish::Highlights),
        "textDocument/prepareRename" => Ok(NameWish::CanRename),
        "textDocument/rename" => {
            let new_text = text_at(message, "/params/newName").ok_or(Refusal::WrongParameters)?;
            Ok(NameWish::Rename(new_text))
        }
        _ => Err(Refusal::UnknownMethod),
    }
}

// What a request asks about a position.
fn wish_in<'a>(method: &str, message: &'a Value) -> Result<Wish<'a>, Refusal> {
    match method {
        "textDocument/hover" => Ok(Wish::Hover),
        "textDocument/completion" => Ok(Wish::Completion),
        "textDocument/signatureHelp" => Ok(Wish::Signatures),
        "rvls/encoding" => Ok(Wish::Encoding),
        _ => Ok(Wish::Name(name_wish_in(method, message)?)),
    }
}

// The first line of the range of a request, from 0 on, and the first one after it. A line at whose beginning the range ends is after it.
fn lines_in(message: &Value) -> Option<(u32, u32)> {
    let from = number_at(message, "/params/range/start/line")?;
    let last = number_at(message, "/params/range/end/line")?;
    match number_at(message, "/params/range/end/character") {
        Some(0) => Some((from, last)),
        _ => Some((from, last.saturating_add(1))),
    }
}

// Whether a request for changes of lines wants quick fixes: they are of the kind that it names, of all kinds, or it names none.
fn wants_fixes(message: &Value) -> bool {
    match message.pointer("/params/context/only") {
        None | Some(Value::Null) => true,
        only => has_text(only, QUICK_FIX) || has_text(only, ""),
    }
}

// The lines that changes are wanted for. That of an empty range is one of them.
fn fixes_in(message: &Value) -> Option<Question<'_>> {
    let (from, to) = lines_in(message)?;
    if !wants_fixes(message) {
        return Some(Question::Fixes(0, 0));
    }
    Some(Question::Fixes(from, to.max(from.saturating_add(1))))
}

/// What a request asks about a document.
///
/// # Errors
///
/// `UnknownMethod` if it asks for something else, and `WrongParameters` if there is not all that it needs.
pub fn question_in<'a>(method: &str, message: &'a Value) -> Result<Question<'a>, Refusal> {
    match method {
        "textDocument/documentSymbol" => Ok(Question::Symbols),
        "textDocument/foldingRange" => Ok(Question::Folds),
        "rvls/sections" => Ok(Question::Sections),
        "textDocument/diagnostic" => Ok(Question::Diagnostics),
        "textDocument/semanticTokens/full" => Ok(Question::Tokens(0, u32::MAX)),
        "textDocument/semanticTokens/range" => {
            let (from, to) = lines_in(message).ok_or(Refusal::WrongParameters)?;
            Ok(Question::Tokens(from, to))
        }
        "textDocument/inlayHint" => {
            let (from, to) = lines_in(message).ok_or(Refusal::WrongParameters)?;
            Ok(Question::Hints(from, to))
        }
        "textDocument/codeAction" => fixes_in(message).ok_or(Refusal::WrongParameters),
        _ => {
            let wish = wish_in(method, message)?;
            let position = position_of(message).ok_or(Refusal::WrongParameters)?;
            Ok(Question::Place(position, wish))
        }
    }
}

// Writes the places of a name.
fn put_places<V: View>(
    m: &mut Message,
    context: &Context<'_>,
    view: &V,
    name: &Named<'_>,
    with_definition: bool,
    form: PlaceForm<'_>,
) -> Result<(), AllocError>
    ensures { OnOk result (m.new ≡ m.old ++ in_list (references context.now.encoding context.now.uri.now (V.shown view.now) (record { meaning = meant name.now.meaning; with_definition = with_definition; form = form_of form.entry }))) }
{
    let wanted = Wanted {
        meaning: name.meaning,
        with_definition,
        form,
    };
    m.begin_array()?;
    put_references(m, context, view, &wanted)?;
    m.end_array()
}

// Writes the answer where no name is.
fn put_no_name(m: &mut Message, wish: NameWish<'_>) -> Result<(), Failure> {
    match wish {
        NameWish::Definition | NameWish::CanRename => m.null()?,
        NameWish::References(_) | NameWish::Highlights => {
            m.begin_array()?;
            m.end_array()?;
        }
        NameWish::Rename(_) => return Err(Failure::Refused(Refusal::NoName)),
    }
    Ok(())
}

// Writes the answer where no line is.
fn put_no_line(m: &mut Message, wish: Wish<'_>) -> Result<(), Failure> {
    match wish {
        Wish::Hover | Wish::Signatures => m.null()?,
        Wish::Completion | Wish::Encoding => {
            m.begin_array()?;
            m.end_array()?;
        }
        Wish::Name(wish) => return put_no_name(m, wish),
    }
    Ok(())
}

// Writes the answer about a name of a line, by its number from 1 on.
fn put_about_name<V: View>(
    m: &mut Message,
    context: &Context<'_>,
    view: &V,
    number: u32,
    line: &LineView<'_>,
    name: &Named<'_>,
    wish: NameWish<'_>,
) -> Result<(), Failure>
    ensures { OnOk result (m.new ≡ m.old ++ about_name context.now.encoding context.now.uri.now (V.shown view.now) number (take 1000 line.now.text.now) (seen_of name.now) wish.entry) }
{
    match wish {
        NameWish::Definition => put_definition(m, context, view, &name.meaning)?,
        NameWish::References(with_definition) => put_places(
            m,
            context,
            view,
            name,
            with_definition,
            PlaceForm::Location,
        )?,
        NameWish::Highlights => put_places(m, context, view, name, true, PlaceForm::Highlight)?,
        NameWish::CanRename => put_name(m, context, view, number, line, name)?,
        NameWish::Rename(new_text) => put_rename(m, context, view, name, new_text)?,
    }
    Ok(())
}

// Writes the names that may be typed at a position of a line.
fn put_list<V: View>(
    m: &mut Message,
    context: &Context<'_>,
    view: &V,
    line: &LineView<'_>,
    position: Position,
) -> Result<(), AllocError> {
    m.begin_array()?;
    put_completions(m, context, view, line, position)?;
    m.end_array()
}

// Writes the answer about a position of a line, by its number from 1 on.
fn put_about_line<V: View>(
    m: &mut Message,
    context: &Context<'_>,
    view: &V,
    number: u32,
    line: &LineView<'_>,
    position: Position,
    wish: Wish<'_>,
) -> Result<(), Failure>
    requires { length line.now.stmt.now.labels ≤ 1000 }
{
    let column = position.character;
    match wish {
        Wish::Hover => put_hover(m, context, view, number, line, column)?,
        Wish::Completion => put_list(m, context, view, line, position)?,
        Wish::Signatures => put_signature_help(m, context, line, column)?,
        Wish::Encoding => put_encoding(m, context.alloc, line)?,
        Wish::Name(wish) => {
            let found = name_at(context.alloc, context.encoding, view, number, line, column)?;
            return match found {
                Some(name) => put_about_name(m, context, view, number, line, &name, wish),
                None => put_no_name(m, wish),
            };
        }
    }
    Ok(())
}

// Writes the answer about a position.
fn put_about_position<V: View>(
    m: &mut Message,
    context: &Context<'_>,
    view: &V,
    position: Position,
    wish: Wish<'_>,
) -> Result<(), Failure> {
    let number = position.line.saturating_add(1);
    match lines_to(view, number) {
        Some(lines) => put_about_line(m, context, view, number, &lines.line(), position, wish),
        None => put_no_line(m, wish),
    }
}

/// Writes the answer to a question about a document.
///
/// # Errors
///
/// `Refused` if a name cannot get another one, and `Memory` if there is no memory for the answer.
pub fn put_answer(
    m: &mut Message,
    context: &Context<'_>,
    document: &Assembly,
    question: Question<'_>,
) -> Result<(), Failure> {
    let view = &document.store();
    match question {
        Question::Symbols => {
            m.begin_array()?;
            put_document_symbols(m, context, view)?;
            m.end_array()?;
        }
        Question::Folds => put_folds(m, context.alloc, view)?,
        Question::Sections => put_section_places(m, view)?,
        Question::Diagnostics => put_report(m, context, document, document.edited())?,
        Question::Tokens(from, to) => put_semantic_tokens(m, context, view, from, to)?,
        Question::Hints(from, to) => put_hints(m, context, view, from, to)?,
        Question::Fixes(from, to) => put_quick_fixes(m, context, document, from, to)?,
        Question::Place(position, wish) => {
            return put_about_position(m, context, view, position, wish);
        }
    }
    Ok(())
}

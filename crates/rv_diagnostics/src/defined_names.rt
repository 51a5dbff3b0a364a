//! Where the names of faults are defined.

ghost use Rattle.std.specs.Prelude.{◌≡◌, ◌≤◌, length, option_map, IfOk};
ghost use Rattle.rv_report.specs.FaultyNames.{name_used};
ghost use Rattle.rv_report.specs.Lines.{line_of};
ghost use Rattle.rv_diagnostics.specs.Diagnostics.{first_place, name_of_fault, name_without_value, place_of_word, text_of_line, text_of_place};

use crate::told::Told;
use rv_expr::Names;
use rv_list::DefinitionPlace;
use rv_report::{FaultyLine, UsedName, faulty_name_at};
use rv_show::part;
use rv_text::{Fault, FaultNumber, Span, Token, tokens};
use std::alloc::{AllocError, Global};

/// Where the name of a fault is defined, the line there, and where it has the name.
#[derive(Clone, Copy)]
pub struct Definition<'a> {
    pub place: DefinitionPlace,
    pub text: &'a [u8],
    pub span: Span,
}

// The line of this number, and nothing where there is none.
fn text_of_line<T: Told>(told: &T, number: u32) -> &[u8]
    ensures value { result.now ≡ text_of_line (T.View.shown told.now) number }
    ensures few { length result.now ≤ 1000 }
{
    if number >= 1 && number <= told.line_count() {
        told.text(number)
    } else {
        &[]
    }
}

/// The line of a definition.
pub fn text_of_place<T: Told>(told: &T, place: DefinitionPlace) -> &[u8]
    ensures value { result.now ≡ text_of_place (T.View.shown told.now) place }
    ensures few { length result.now ≤ 1000 }
{
    match place {
        DefinitionPlace::Label(line, _) => text_of_line(told, line),
        DefinitionPlace::Equ(line) => text_of_line(told, line),
        DefinitionPlace::Nowhere => &[],
    }
}

// Where a line has a word first, by its tokens, and an empty place where it has not.
fn first_place(line: &[u8], word: &[u8], mut tokens: &[Token]) -> Span
    ensures { result ≡ first_place line.now word.now tokens.entry.now }
{
    'tokens: while let [token, later @ ..] = tokens {
        if part(line, token.span) == word {
            return token.span;
        }
        tokens = later;
    }
    Span { from: 0, to: 0 }
}

/// Where a line has a word first, and an empty place where it has not.
///
/// # Errors
///
/// `AllocError` if there is no memory for its tokens.
#[tactic(auto, unfolding(crate::specs::Diagnostics::place_of_word))]
pub fn place_of_word(alloc: Global, line: &[u8], word: &[u8]) -> Result<Span, AllocError>
    requires { length line.now ≤ 1000 }
    ensures { IfOk result (λ span. span ≡ place_of_word line.now word.now) }
{
    let Ok(found) = tokens(alloc, line) else {
        return Err(AllocError);
    };
    Ok(first_place(line, word, found.tokens()))
}

// A name for which an operand has no value, if it is a symbol.
fn name_without_value<'a>(name: Option<UsedName<'a>>) -> &'a [u8]
    ensures { result.now ≡ name_without_value (option_map name_used name.entry) }
{
    match name {
        Some(UsedName::Symbol(symbol)) => symbol,
        Some(UsedName::Local(_, _)) => &[],
        Some(UsedName::Here) => &[],
        None => &[],
    }
}

/// The name of a fault, of which it is told where it is defined.
pub fn name_of_fault<'a, N: Names>(line: &FaultyLine<'a>, names: &N, fault: Fault) -> &'a [u8]
    ensures { result.now ≡ name_of_fault (N.environment names.now line.now.address) (line_of line.now) fault.number fault.span }
{
    match fault.number {
        FaultNumber::FaultyEqu => name_without_value(faulty_name_at(line, names, fault.span)),
        _ => part(line.text, fault.span),
    }
}

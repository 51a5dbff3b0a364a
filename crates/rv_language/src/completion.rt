//! Names that may be typed at a place.

use crate::comments::{end_of, is_in_sign};
use crate::name_uses::Expected;
use crate::names::text_of;
use crate::operand_lists::{NameKinds, Registers, names_taken};
use crate::typed::{Typed, typed_in};
use rv_diagnostics::{Context, Message, Part, column_at, put_range};
use rv_doc::{Position, before_column};
use rv_files::symbols;
use rv_list::{LineView, View};
use rv_manual::{directive_words, entry_named, slot_words};
use rv_ops::{CSRS, Reg, TABLE, TableRow, reg_name};
use rv_show::{first_bytes, part};
use rv_stmt::{
    DIRECTIVES, DirectiveForm, DirectiveRow, FORMS, FormRow, SECTION_NAMES, Sect, operand_slots,
    set_name,
};
use rv_text::Span;
use std::alloc::{AllocError, Global};

// What an item is. (Language Server Protocol 3.17, CompletionItemKind)
const FUNCTION: u64 = 3;

const VARIABLE: u64 = 6;

const MODULE: u64 = 9;

const KEYWORD: u64 = 14;

const CONSTANT: u64 = 21;

const OPERATOR: u64 = 24;

// The modifiers of the upper part of a value, and of the lower part, with the parenthesis behind them.
const HIGH_PARTS: [&str; 2] = ["%hi(", "%pcrel_hi("];

const LOW_PARTS: [&str; 2] = ["%lo(", "%pcrel_lo("];

// The word that is being typed: its bytes, its line from 0 on, and its columns.
#[derive(Clone, Copy)]
struct Word<'a> {
    bytes: &'a [u8],
    line: u32,
    from: u32,
    to: u32,
}

// Whether a name begins with some bytes, in either letter case.
fn begins_with(name: &str, beginning: &[u8]) -> bool {
    first_bytes(name.as_bytes(), beginning.len()).eq_ignore_ascii_case(beginning)
}

// Writes what the manual says of the name of an item, if it is no symbol's.
fn put_documentation(m: &mut Message, name: &str, kind: u64) -> Result<(), AllocError> {
    if kind != KEYWORD && kind != VARIABLE {
        return Ok(());
    }
    match entry_named(name.as_bytes()) {
        Some(entry) => m.put_all(&[Part::Key("documentation"), Part::Text(entry.sentence)]),
        None => Ok(()),
    }
}

// Writes a name that may stand in the place of a word, if it begins with it.
fn put_item<'a>(
    m: &mut Message,
    word: &Word<'_>,
    name: &'a str,
    kind: u64,
    detail: &'a str,
) -> Result<(), AllocError> {
    if !begins_with(name, word.bytes) {
        return Ok(());
    }
    m.put_all(&[
        Part::BeginObject,
        Part::Key("label"),
        Part::Text(name),
        Part::Key("kind"),
        Part::Number(kind),
        Part::Key("detail"),
        Part::Text(detail),
    ])?;
    put_documentation(m, name, kind)?;
    m.put_all(&[Part::Key("textEdit"), Part::BeginObject, Part::Key("range")])?;
    put_range(m, word.line, word.from, word.to)?;
    m.put_all(&[
        Part::Key("newText"),
        Part::Text(name),
        Part::EndObject,
        Part::EndObject,
    ])
}

// Writes the operations.
fn put_operations(
    m: &mut Message,
    alloc: Global,
    word: &Word<'_>,
    mut rows: &[TableRow],
) -> Result<(), AllocError> {
    'rows: while let [row, later @ ..] = rows {
        let words = slot_words(alloc, operand_slots(row.2))?;
        put_item(m, word, row.1, KEYWORD, words.as_str())?;
        rows = later;
    }
    Ok(())
}

// Writes the pseudo-instructions, and the further ways to write operations.
fn put_forms(
    m: &mut Message,
    alloc: Global,
    word: &Word<'_>,
    mut rows: &[FormRow],
) -> Result<(), AllocError> {
    'rows: while let [row, later @ ..] = rows {
        let words = slot_words(alloc, row.3)?;
        put_item(m, word, row.0, KEYWORD, words.as_str())?;
        rows = later;
    }
    Ok(())
}

// Writes the directives.
fn put_directives(
    m: &mut Message,
    word: &Word<'_>,
    mut rows: &[DirectiveRow],
) -> Result<(), AllocError> {
    'rows: while let [row, later @ ..] = rows {
        let form = DirectiveForm {
            count: row.1,
            kind: row.2,
        };
        put_item(m, word, row.0, KEYWORD, directive_words(form))?;
        rows = later;
    }
    Ok(())
}

// Writes the sections.
fn put_sections(
    m: &mut Message,
    word: &Word<'_>,
    mut rows: &[(&str, Sect)],
) -> Result<(), AllocError> {
    'rows: while let [row, later @ ..] = rows {
        put_item(m, word, row.0, MODULE, "section")?;
        rows = later;
    }
    Ok(())
}

// Writes a register, if it is one of some.
fn put_register(
    m: &mut Message,
    word: &Word<'_>,
    registers: Registers,
    number: u8,
) -> Result<(), AllocError> {
    match Reg::new(number) {
        Some(register) if registers.has(register) => {
            put_item(m, word, reg_name(register), VARIABLE, "register")
        }
        _ => Ok(()),
    }
}

// Writes some registers.
fn put_registers(m: &mut Message, word: &Word<'_>, registers: Registers) -> Result<(), AllocError> {
    for number in 0..32 {
        put_register(m, word, registers, number)?;
    }
    Ok(())
}

// Writes the set of fences that has a number, if it has a name.
fn put_set(m: &mut Message, word: &Word<'_>, number: u8) -> Result<(), AllocError> {
    let Some(set) = Reg::new(number) else {
        return Ok(());
    };
    match set_name(set) {
        Some(name) => put_item(m, word, name, CONSTANT, "set"),
        None => Ok(()),
    }
}

// Writes the sets of fences.
fn put_sets(m: &mut Message, word: &Word<'_>) -> Result<(), AllocError> {
    for number in 0..32 {
        put_set(m, word, number)?;
    }
    Ok(())
}

// Writes the control and status registers.
fn put_csrs(m: &mut Message, word: &Word<'_>, mut rows: &[(u16, &str)]) -> Result<(), AllocError> {
    'rows: while let [row, later @ ..] = rows {
        put_item(m, word, row.1, VARIABLE, "control and status register")?;
        rows = later;
    }
    Ok(())
}

// Writes modifiers.
fn put_modifiers(m: &mut Message, word: &Word<'_>, names: &[&str]) -> Result<(), AllocError> {
    for name in names {
        put_item(m, word, name, OPERATOR, "modifier")?;
    }
    Ok(())
}

// Writes the symbols of a text. Those of `.equ`s belong to no section.
fn put_symbols<V: View>(
    m: &mut Message,
    alloc: Global,
    view: &V,
    word: &Word<'_>,
) -> Result<(), AllocError> {
    let symbols = symbols(alloc, view)?;
    let mut left = symbols.as_slice();
    'symbols: while let [symbol, later @ ..] = left {
        if let Ok(name) = str::from_utf8(symbol.name()) {
            match symbol.section() {
                Some(_) => put_item(m, word, name, FUNCTION, "label")?,
                None => put_item(m, word, name, CONSTANT, "constant")?,
            }
        }
        left = later;
    }
    Ok(())
}

// Writes the names of the kinds that an operand takes.
fn put_names<V: View>(
    m: &mut Message,
    alloc: Global,
    view: &V,
    word: &Word<'_>,
    kinds: NameKinds,
) -> Result<(), AllocError> {
    put_registers(m, word, kinds.registers)?;
    if kinds.csrs {
        put_csrs(m, word, &CSRS)?;
    }
    if kinds.sets {
        put_sets(m, word)?;
    }
    if kinds.sections {
        put_sections(m, word, &SECTION_NAMES)?;
    }
    if kinds.high_parts {
        put_modifiers(m, word, &HIGH_PARTS)?;
    }
    if kinds.low_parts {
        put_modifiers(m, word, &LOW_PARTS)?;
    }
    if kinds.symbols {
        put_symbols(m, alloc, view, word)?;
    }
    Ok(())
}

// Writes the names of instructions and directives.
fn put_statements(m: &mut Message, alloc: Global, word: &Word<'_>) -> Result<(), AllocError> {
    put_operations(m, alloc, word, &TABLE)?;
    put_forms(m, alloc, word, &FORMS)?;
    put_directives(m, word, &DIRECTIVES)
}

// Which names may stand in an operand where this was typed.
fn names_typed(typed: &Typed<'_>) -> NameKinds {
    let kinds = names_taken(typed.statement, typed.operand, typed.depth > 0);
    if typed.begins {
        kinds
    } else {
        kinds.behind_operator()
    }
}

// Writes the names that may stand where this was typed.
fn put_expected<V: View>(
    m: &mut Message,
    alloc: Global,
    view: &V,
    word: &Word<'_>,
    typed: &Typed<'_>,
) -> Result<(), AllocError> {
    match typed.expected {
        Expected::Statement => put_statements(m, alloc, word),
        Expected::Operand | Expected::Modifier => {
            put_names(m, alloc, view, word, names_typed(typed))
        }
        Expected::Base => {
            let kinds = names_taken(typed.statement, typed.operand, true);
            put_registers(m, word, kinds.registers)
        }
        Expected::Sign => Ok(()),
    }
}

/// Writes the names that may be typed at a position of this line: none in the sign of a comment, and none after its end, and so none in one that is
/// too long, which is assembled as if it were empty.
///
/// # Errors
///
/// `AllocError` if there is no memory for them.
pub fn put_completions<V: View>(
    m: &mut Message,
    context: &Context<'_>,
    view: &V,
    line: &LineView<'_>,
    position: Position,
) -> Result<(), AllocError> {
    let whole = text_of(line);
    let text = first_bytes(whole, end_of(whole));
    let at = before_column(context.encoding, text, position.character);
    let place = u32::try_from(at).unwrap_or(u32::MAX);
    let to = column_at(context.encoding, text, place);
    if to != position.character || is_in_sign(text, at) {
        return Ok(());
    }
    let Some(typed) = typed_in(context.alloc, first_bytes(text, at))? else {
        return Ok(());
    };
    let span = Span {
        from: typed.from,
        to: place,
    };
    let word = Word {
        bytes: part(text, span),
        line: position.line,
        from: column_at(context.encoding, text, typed.from),
        to,
    };
    put_expected(m, context.alloc, view, &word, &typed)
}

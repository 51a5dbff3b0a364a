//! Files as texts.

ghost use Rattle.std.specs.Prelude.{◌≡◌, ◌+◌, ◌<◌, ◌++◌, ◌∷◌, [], true, None, length, unwrap_or, IfOk, OnOk, IfErr};
ghost use Rattle.rv_layout.specs.Places.{is_base};
ghost use Rattle.rv_program.specs.Text.{is_line};
ghost use Rattle.rv_files.specs.Lines.{lines_of};
ghost use Rattle.rv_files.specs.Loading.{load_refusal, refusal_from};
ghost use Rattle.rv_files.specs.declared.limits.LoadError.TheVariants.{Memory};

use crate::limits::{LoadError, check_limits};
use crate::lines::Lines;
use rv_store::{Draft, EditError, MAX_LINES, Store};
use rv_text::Tally;
use std::alloc::Global;

// Puts a line at the end of a text. Where there is no memory for that, the text stays.
fn append(draft: &mut Draft, line: &[u8]) -> Result<(), LoadError>
    requires few { length draft.old.lines < MAX_LINES }
    requires line { is_line line.now ≡ true }
    ensures ok { OnOk result (draft.new ≡ record { base = draft.old.base; lines = draft.old.lines ++ line.now ∷ [] }) }
    ensures memory { IfErr result (λ e. e ≡ Memory) }
{
    match draft.push(line, &mut Tally::new()) {
        Ok(()) => Ok(()),
        Err(EditError::Memory) => Err(LoadError::Memory),
        Err(_) => unreachable!(),
    }
}

// Puts lines at the end of a text, none of which is past a limit.
fn append_all(draft: &mut Draft, mut lines: Lines<'_>) -> Result<(), LoadError>
    requires { refusal_from (length draft.old.lines + 1) lines ≡ None }
    ensures ok { OnOk result (draft.new ≡ record { base = draft.old.base; lines = draft.old.lines ++ lines.entry }) }
    ensures memory { IfErr result (λ e. e ≡ Memory) }
{
    'lines: while let Some(line) = lines.next_line() {
        append(draft, line)?;
    }
    Ok(())
}

/// The text of a file's lines, whose first section begins at the base.
///
/// # Errors
///
/// In the order of the lines, `LineTooLong` for the first that is too long, or `TooManyLines`. Where no line is past a limit, `Memory` if
/// there is no memory for the text.
pub fn load(alloc: Global, base: u32, file: &[u8]) -> Result<Store, LoadError>
    requires { is_base base ≡ true }
    ensures text { IfOk result (λ text. text ≡ record { base = base; lines = lines_of file.now }) }
    ensures within { OnOk result (load_refusal file.now ≡ None) }
    ensures err { IfErr result (λ e. e ≡ unwrap_or (load_refusal file.now) Memory) }
{
    check_limits(file)?;
    let Ok(mut draft) = Draft::new(alloc, base) else {
        unreachable!()
    };
    append_all(&mut draft, Lines::new(file))?;
    match Store::of_draft(draft, &mut Tally::new()) {
        Ok(store) => Ok(store),
        Err(_) => Err(LoadError::Memory),
    }
}

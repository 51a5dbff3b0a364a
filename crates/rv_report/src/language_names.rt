//! The names that statements begin with.

ghost use Rattle.std.specs.Prelude.{◌≡◌, ◌++◌, map, IfOk, OnOk};
ghost use Rattle.rv_report.specs.LanguageNames.{directives, mnemonics, names_like, without_operations};

use crate::counts::is_directive_name;
use rv_ops::{TABLE, TableRow, op_by_name};
use rv_stmt::{DIRECTIVES, DirectiveRow, FORMS, FormRow};
use std::alloc::{AllocError, Global};

// Adds the names of operations.
fn push_operations<'a>(
    names: &mut Vec<&'a [u8]>,
    mut rows: &'a [TableRow],
) -> Result<(), AllocError>
    ensures { OnOk result (map (λ t. t.now) names.new.items ≡ map (λ t. t.now) names.old.items ++ map (λ row. row.1.now) rows.entry.now) }
{
    'rows: while let [row, rest @ ..] = rows {
        names.push(row.1.as_bytes())?;
        rows = rest;
    }
    Ok(())
}

// Adds the names of pseudo-instructions, without those that operations have, too.
fn push_forms<'a>(names: &mut Vec<&'a [u8]>, mut rows: &'a [FormRow]) -> Result<(), AllocError>
    ensures { OnOk result (map (λ t. t.now) names.new.items ≡ map (λ t. t.now) names.old.items ++ without_operations (map (λ row. row.0.now) rows.entry.now)) }
{
    'rows: while let [row, rest @ ..] = rows {
        let name = row.0.as_bytes();
        if op_by_name(name).is_none() {
            names.push(name)?;
        }
        rows = rest;
    }
    Ok(())
}

// Adds the names of directives.
fn push_directives<'a>(
    names: &mut Vec<&'a [u8]>,
    mut rows: &'a [DirectiveRow],
) -> Result<(), AllocError>
    ensures { OnOk result (map (λ t. t.now) names.new.items ≡ map (λ t. t.now) names.old.items ++ map (λ row. row.0.now) rows.entry.now) }
{
    'rows: while let [row, rest @ ..] = rows {
        names.push(row.0.as_bytes())?;
        rows = rest;
    }
    Ok(())
}

// The names of the operations and the pseudo-instructions, each once, in the order of their tables.
#[tactic(auto, unfolding(crate::specs::LanguageNames::mnemonics))]
fn mnemonics(alloc: Global) -> Result<Vec<&'static [u8]>, AllocError>
    ensures { IfOk result (λ v. map (λ t. t.now) v.items ≡ mnemonics) }
{
    let mut names = Vec::new(alloc);
    push_operations(&mut names, &TABLE)?;
    push_forms(&mut names, &FORMS)?;
    Ok(names)
}

// The names of the directives.
#[tactic(auto, unfolding(crate::specs::LanguageNames::directives))]
fn directives(alloc: Global) -> Result<Vec<&'static [u8]>, AllocError>
    ensures { IfOk result (λ v. map (λ t. t.now) v.items ≡ directives) }
{
    let mut names = Vec::new(alloc);
    push_directives(&mut names, &DIRECTIVES)?;
    Ok(names)
}

/// The directives for a name that begins with `.`, and the operations and pseudo-instructions for any other.
pub fn names_like(alloc: Global, name: &[u8]) -> Result<Vec<&'static [u8]>, AllocError>
    ensures { IfOk result (λ v. map (λ t. t.now) v.items ≡ names_like name.now) }
{
    if is_directive_name(name) {
        return directives(alloc);
    }
    mnemonics(alloc)
}

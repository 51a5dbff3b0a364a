//! The look-up of names, which are read in either letter case.

ghost use Rattle.std.specs.Prelude.{◌≡◌, map, option_map, true, IfSome};
ghost use Rattle.std.specs.Str.{str_eq_ignore_ascii_case};
ghost use Rattle.rv_manual.specs.Manual.{entry_in, entry_value, first_name, row_value, without_ending};

use crate::atomic_instructions::{ATOMICS, ORDERED_ATOMICS};
use crate::compressed_instructions::COMPRESSED;
use crate::directives::DIRECTIVES;
use crate::entry::{Entry, ManualRow};
use crate::instructions::{INTEGERS, SYSTEM};
use crate::pseudo_instructions::PSEUDO_INSTRUCTIONS;
use crate::registers::{CSRS, REGISTERS};
use rv_ops::is_name;

/// What a table is about.
#[derive(Clone, Copy)]
pub enum Subject {
    Integers,
    System,
    Atomics,
    OrderedAtomics,
    Compressed,
    PseudoInstructions,
    Directives,
    Registers,
    Csrs,
}

/// The subjects, in the order in which a name is looked for.
pub const SUBJECTS: [Subject; 9] = [
    Subject::Integers,
    Subject::System,
    Subject::PseudoInstructions,
    Subject::Registers,
    Subject::Directives,
    Subject::Csrs,
    Subject::Compressed,
    Subject::Atomics,
    Subject::OrderedAtomics,
];

// The first of some names that is the name, but for letter case.
fn first_name(mut names: &[&'static str], name: &[u8]) -> Option<&'static str>
    ensures value { option_map (λ n. n.now) result ≡ first_name (map (λ n. n.now) names.entry.now) name.now }
    ensures found { IfSome result (λ n. str_eq_ignore_ascii_case n.now name.now ≡ true) }
{
    'names: while let [first, rest @ ..] = names {
        if is_name(first, name) {
            return Some(*first);
        }
        names = rest;
    }
    None
}

// The entry of the first row that has the name.
fn entry_in(mut rows: &[ManualRow], name: &[u8]) -> Option<Entry>
    ensures value { option_map (λ e. entry_value e.name.now e.source e.sentence.now) result
        ≡ entry_in (map (λ row. row_value (map (λ n. n.now) row.0.now) row.1 row.2.now) rows.entry.now) name.now }
    ensures found { IfSome result (λ e. str_eq_ignore_ascii_case e.name.now name.now ≡ true) }
{
    'rows: while let [row, rest @ ..] = rows {
        match first_name(row.0, name) {
            Some(found) => {
                return Some(Entry {
                    name: found,
                    source: row.1,
                    sentence: row.2,
                });
            }
            None => {}
        }
        rows = rest;
    }
    None
}

// The entry of a name in the table of a subject.
fn entry_of(subject: Subject, name: &[u8]) -> Option<Entry>
    ensures { IfSome result (λ e. str_eq_ignore_ascii_case e.name.now name.now ≡ true) }
{
    match subject {
        Subject::Integers => entry_in(&INTEGERS, name),
        Subject::System => entry_in(&SYSTEM, name),
        Subject::Atomics => entry_in(&ATOMICS, name),
        Subject::OrderedAtomics => entry_in(&ORDERED_ATOMICS, name),
        Subject::Compressed => entry_in(&COMPRESSED, name),
        Subject::PseudoInstructions => entry_in(&PSEUDO_INSTRUCTIONS, name),
        Subject::Directives => entry_in(&DIRECTIVES, name),
        Subject::Registers => entry_in(&REGISTERS, name),
        Subject::Csrs => entry_in(&CSRS, name),
    }
}

// The entry of a name in the first of some tables that has it.
fn entry_among(mut subjects: &[Subject], name: &[u8]) -> Option<Entry>
    ensures { IfSome result (λ e. str_eq_ignore_ascii_case e.name.now name.now ≡ true) }
{
    'subjects: while let [subject, rest @ ..] = subjects {
        match entry_of(*subject, name) {
            Some(entry) => return Some(entry),
            None => {}
        }
        subjects = rest;
    }
    None
}

// A name without what stands behind `.cfi_`: all directives whose names begin so have one row.
fn without_ending(name: &[u8]) -> &[u8]
    ensures { result.now ≡ without_ending name.now }
{
    match name.split_at_checked(5) {
        Some((beginning, _)) if is_name(".cfi_", beginning) => beginning,
        _ => name,
    }
}

/// What the manual says of the name of an instruction, a directive, a register, or a control and status register. It is read in either letter case.
pub fn entry_named(name: &[u8]) -> Option<Entry>
    ensures { IfSome result (λ e. str_eq_ignore_ascii_case e.name.now (without_ending name.now) ≡ true) }
{
    entry_among(&SUBJECTS, without_ending(name))
}

//! What messages advise, by the names that they are about.

ghost use Rattle.std.specs.Prelude.{◌≡◌, map};
ghost use Rattle.rv_report.specs.Advice.{advice, advice_in, is_any, replacements, replacements_in};

use crate::advice_tables::{
    AdviceRow, CHARACTERS, LABEL_GIVEN, NAME_GIVEN, NUMBER_GIVEN, OPERAND_GIVEN, OTHER_DIRECTIVES,
    OTHER_MNEMONICS, RANGE_EXCEEDED, REGISTER_GIVEN, REGISTER_LETTERS, RV64_MNEMONICS,
};
use rv_ops::is_name;

/// What a message gives advice about.
#[derive(Clone, Copy)]
pub enum Topic {
    /// A directive that other assemblers have.
    OtherDirective,
    /// An instruction that other assemblers or processors have.
    OtherMnemonic,
    /// An instruction of RV64.
    Rv64Mnemonic,
    /// A statement that takes a number or an address, where a register stands.
    RegisterGiven,
    /// A statement that takes a constant, where a label stands.
    LabelGiven,
    /// A statement that takes a register, where a number stands.
    NumberGiven,
    /// A statement that takes a register, where a name stands.
    NameGiven,
    /// A statement that does not take an operand.
    OperandGiven,
    /// A letter that the names of registers begin with.
    RegisterLetter,
    /// A statement whose value is out of range.
    RangeExceeded,
    /// A character that looks like one of the language.
    Character,
}

// Whether a name is one of some, in either letter case.
fn is_any(mut names: &[&str], name: &[u8]) -> bool
    ensures { result ≡ is_any (map (λ n. n.now) names.entry.now) name.now }
{
    'names: while let [first, rest @ ..] = names {
        if is_name(first, name) {
            return true;
        }
        names = rest;
    }
    false
}

// The advice of the first row that has a name, and none for other names.
fn advice_in(mut rows: &'static [AdviceRow], name: &[u8]) -> &'static [u8]
    ensures { result.now ≡ advice_in (map (λ row. (map (λ n. n.now) row.0.now, row.1.now)) rows.entry.now) name.now }
{
    'rows: while let [row, rest @ ..] = rows {
        if is_any(row.0, name) {
            return row.1.as_bytes();
        }
        rows = rest;
    }
    b""
}

/// What a message advises about a name: the end of the message, which is empty where there is no advice.
#[tactic(auto, unfolding(crate::specs::Advice::advice))]
pub fn advice(topic: Topic, name: &[u8]) -> &'static [u8]
    ensures { result.now ≡ advice topic name.now }
{
    match topic {
        Topic::OtherDirective => advice_in(&OTHER_DIRECTIVES, name),
        Topic::OtherMnemonic => advice_in(&OTHER_MNEMONICS, name),
        Topic::Rv64Mnemonic => advice_in(&RV64_MNEMONICS, name),
        Topic::RegisterGiven => advice_in(&REGISTER_GIVEN, name),
        Topic::LabelGiven => advice_in(&LABEL_GIVEN, name),
        Topic::NumberGiven => advice_in(&NUMBER_GIVEN, name),
        Topic::NameGiven => advice_in(&NAME_GIVEN, name),
        Topic::OperandGiven => advice_in(&OPERAND_GIVEN, name),
        Topic::RegisterLetter => advice_in(&REGISTER_LETTERS, name),
        Topic::RangeExceeded => advice_in(&RANGE_EXCEEDED, name),
        Topic::Character => advice_in(&CHARACTERS, name),
    }
}

// What can take the place of a name: the words of the first row that has it, and none for other names.
fn replacements_in(mut rows: &'static [AdviceRow], name: &[u8]) -> &'static [&'static str]
    ensures { map (λ n. n.now) result.now ≡ replacements_in (map (λ row. (map (λ n. n.now) row.0.now, map (λ n. n.now) row.2.now)) rows.entry.now) name.now }
{
    'rows: while let [row, rest @ ..] = rows {
        if is_any(row.0, name) {
            return row.2;
        }
        rows = rest;
    }
    &[]
}

/// What can take the place of a name that a message advises about, where nothing else in the line changes: where it is empty, that of the
/// whole statement. A statement with it means what was meant if it has no fault.
#[tactic(auto, unfolding(crate::specs::Advice::replacements))]
pub fn replacements(topic: Topic, name: &[u8]) -> &'static [&'static str]
    ensures { map (λ n. n.now) result.now ≡ replacements topic name.now }
{
    match topic {
        Topic::OtherDirective => replacements_in(&OTHER_DIRECTIVES, name),
        Topic::OtherMnemonic => replacements_in(&OTHER_MNEMONICS, name),
        Topic::RegisterGiven => replacements_in(&REGISTER_GIVEN, name),
        Topic::LabelGiven => replacements_in(&LABEL_GIVEN, name),
        Topic::NumberGiven => replacements_in(&NUMBER_GIVEN, name),
        Topic::RangeExceeded => replacements_in(&RANGE_EXCEEDED, name),
        Topic::Character => replacements_in(&CHARACTERS, name),
        Topic::Rv64Mnemonic | Topic::NameGiven | Topic::OperandGiven | Topic::RegisterLetter => &[],
    }
}

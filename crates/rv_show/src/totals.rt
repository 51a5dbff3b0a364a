//! The row that ends the reports of a file.

ghost use Rattle.std.specs.Prelude.{◌≡◌, ◌^◌, ◌<◌, ◌++◌, OnErr, OnOk};
ghost use Rattle.rv_show.specs.Totals.{amount_of, both_counts, counts_text, first_shown, last_row, last_rows, part_shown};

use crate::text::Text;
use std::alloc::{AllocError, Global};

// Appends that only the first reports are shown.
#[tactic(auto, unfolding(crate::specs::Totals::first_shown))]
fn push_first_shown(out: &mut Text, most: u32) -> Result<(), AllocError>
    ensures { OnOk result (out.new ≡ out.old ++ first_shown most) }
{
    out.push(b"; the first ")?;
    out.push_number(most)?;
    out.push(b" reports are shown, --all shows all")
}

// Appends which reports are shown, where not all are.
fn push_part_shown(out: &mut Text, count: u32, most: u32) -> Result<(), AllocError>
    ensures { OnOk result (out.new ≡ out.old ++ part_shown count most) }
{
    if count <= most {
        Ok(())
    } else {
        push_first_shown(out, most)
    }
}

/// Appends how many there are of something, by its word.
#[tactic(auto, unfolding(crate::specs::Totals::amount_of))]
pub fn push_amount(out: &mut Text, word: &[u8], count: u32) -> Result<(), AllocError>
    ensures { OnOk result (out.new ≡ out.old ++ amount_of word.now count) }
{
    out.push_number(count)?;
    out.push(b" ")?;
    out.push(word)?;
    out.push(if count == 1 { b"" } else { b"s" })
}

// Appends how many faults and warnings there are, where there are both.
#[tactic(auto, unfolding(crate::specs::Totals::both_counts))]
fn push_both_counts(out: &mut Text, faults: u32, warnings: u32) -> Result<(), AllocError>
    ensures { OnOk result (out.new ≡ out.old ++ both_counts faults warnings) }
{
    push_amount(out, b"fault", faults)?;
    out.push(b", ")?;
    push_amount(out, b"warning", warnings)
}

// Appends how many faults and warnings there are.
fn push_counts(out: &mut Text, faults: u32, warnings: u32) -> Result<(), AllocError>
    ensures { OnOk result (out.new ≡ out.old ++ counts_text faults warnings) }
{
    if warnings == 0 {
        push_amount(out, b"fault", faults)
    } else if faults == 0 {
        push_amount(out, b"warning", warnings)
    } else {
        push_both_counts(out, faults, warnings)
    }
}

// Appends the row that ends the reports of a file.
#[tactic(auto, unfolding(crate::specs::Totals::last_row))]
fn push_last_row(
    out: &mut Text,
    file: &[u8],
    faults: u32,
    warnings: u32,
    reports: u32,
    most: u32,
) -> Result<(), AllocError>
    ensures { OnOk result (out.new ≡ out.old ++ last_row file.now faults warnings reports most) }
{
    out.push(file)?;
    out.push(b": ")?;
    push_counts(out, faults, warnings)?;
    push_part_shown(out, reports, most)?;
    out.push(b"\n")
}

// Appends the row that ends so many reports of a file, of which at most `most` are shown, if it has faults or warnings.
fn push_last_rows(
    out: &mut Text,
    file: &[u8],
    faults: u32,
    warnings: u32,
    reports: u32,
    most: u32,
) -> Result<(), AllocError>
    ensures { OnOk result (out.new ≡ out.old ++ last_rows file.now faults warnings reports most) }
{
    if faults == 0 && warnings == 0 {
        return Ok(());
    }
    push_last_row(out, file, faults, warnings, reports, most)
}

/// Appends the row that ends so many reports of a file: how many faults and warnings it has, and which reports are shown, where at most
/// `most` are. There is none where it has neither.
///
/// # Errors
///
/// `AllocError` if there is no memory for it. The list is then as before.
pub fn push_report_count(
    out: &mut Vec<u8>,
    alloc: Global,
    file: &[u8],
    faults: u32,
    warnings: u32,
    reports: u32,
    most: u32,
) -> Result<(), AllocError>
    ensures appended { OnOk result (out.new.items ≡ out.old.items ++ last_rows file.now faults warnings reports most) }
    ensures refused { OnErr result (out.new.items ≡ out.old.items) }
{
    let mut text = Text::new(alloc);
    push_last_rows(&mut text, file, faults, warnings, reports, most)?;
    out.extend_from_slice(text.bytes())
}

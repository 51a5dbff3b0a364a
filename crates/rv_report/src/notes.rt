//! The rows below a report that say more about its fault.

ghost use Rattle.std.specs.Prelude.{◌≡◌, ◌++◌, OnOk};
ghost use Rattle.rv_show.specs.Origins.{origin_seen, source_of};
ghost use Rattle.rv_report.specs.Reports.{note_at, note_by, odd_note_at, odd_note_by};

use rv_list::DefinitionPlace;
use rv_show::{Origin, Page, Text, origin_of, push_amount, push_place};
use rv_text::FaultNumber;
use std::alloc::AllocError;

// Appends the row that says where the first definition of a name is.
#[tactic(auto, unfolding(crate::specs::Reports::note_at))]
fn push_note_at(out: &mut Text, origin: &Origin<'_>) -> Result<(), AllocError>
    ensures { OnOk result (out.new ≡ out.old ++ note_at (origin_seen origin.now)) }
{
    push_place(out, origin)?;
    out.push(b": note: the first definition is here\n")
}

/// Appends the row that says where the first definition of a name is, for a fault that is about a later one.
pub fn push_note(
    out: &mut Text,
    page: &Page<'_>,
    number: FaultNumber,
    place: DefinitionPlace,
) -> Result<(), AllocError>
    ensures { OnOk result (out.new ≡ out.old ++ note_by number (source_of page.now) place) }
{
    if number != FaultNumber::Duplicate {
        return Ok(());
    }
    match place {
        DefinitionPlace::Nowhere => Ok(()),
        DefinitionPlace::Label(line, _) => push_note_at(out, &origin_of(page, line)),
        DefinitionPlace::Equ(line) => push_note_at(out, &origin_of(page, line)),
    }
}

// Appends the row that says for how many more instructions one at an odd address is reported.
#[tactic(auto, unfolding(crate::specs::Reports::odd_note_at))]
fn push_odd_note_at(out: &mut Text, origin: &Origin<'_>, more: u32) -> Result<(), AllocError>
    ensures { OnOk result (out.new ≡ out.old ++ odd_note_at (origin_seen origin.now) more) }
{
    push_place(out, origin)?;
    out.push(b": note: and ")?;
    push_amount(out, b"more instruction", more)?;
    out.push(b" after it, for the same reason\n")
}

/// Appends the row that says for how many more instructions this one is reported, if its fault is that its address is odd and
/// there are some.
pub fn push_odd_note(
    out: &mut Text,
    origin: &Origin<'_>,
    number: FaultNumber,
    more: u32,
) -> Result<(), AllocError>
    ensures { OnOk result (out.new ≡ out.old ++ odd_note_by number (origin_seen origin.now) more) }
{
    if number != FaultNumber::OddAddress || more == 0 {
        return Ok(());
    }
    push_odd_note_at(out, origin, more)
}

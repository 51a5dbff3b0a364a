//! The pass over the items of a text after an edit that makes anew those of the lines that are due.

ghost use Rattle.std.specs.Prelude.{◌≡◌, ◌≤◌, ◌<◌, ◌+◌, ◌-◌, ◌*◌, ◌^◌, ◌∷◌, [], length, get_or, None, IfOk, IfErr, IfSome};
ghost use Rattle.rv_program.specs.Counted.{counts_of};
ghost use Rattle.rv_program.specs.Edits.{edit_of};
ghost use Rattle.rv_program.specs.internal.Former.{AreFormer};
ghost use Rattle.rv_program.specs.internal.Items.{AreFirstItems};
ghost use Rattle.rv_program.specs.internal.LinesAhead.{BeginsOther};
ghost use Rattle.rv_program.specs.internal.Renewals.{changed_through, AreCounted, AreLeft, IsDone, AreApart};
ghost use Rattle.rv_program.specs.internal.Revisions.{edited_text, IsRevised, AreDue};
ghost use Rattle.rv_program.specs.internal.ValueRows.{base_of};

use crate::item::Item;
use crate::line_sum::LineSum;
use crate::renewed_line::{add_changed, renewed};
use crate::revision::Revision;
use crate::value_rows::ValueRows;
use rv_text::Count;
use rv_tree::{Pass, SumTree, TreeError};
use std::alloc::{AllocError, Global};

#[derive(Drop)]
struct Renewal<'a, 'e, C: Count> {
    alloc: Global,
    revision: &'a Revision<'a, 'e>,
    rows: &'a ValueRows<'a>,
    // The lines ahead that are due.
    ahead: &'a [u32],
    // The lines that have another code, so far.
    changed: &'a mut Vec<u32>,
    counter: &'a mut C,
}

// The lines behind line `k + 1`, where they begin with that one.
fn ahead_of_next(ahead: &[u32], k: u32) -> Option<&[u32]>
    requires last { k < 2 ^ 32 - 1 }
    ensures later { IfSome result (λ later. ahead.now ≡ (k + 1) ∷ later.now) }
    ensures none { result ≡ None → BeginsOther ahead.now (k + 1) }
{
    let [line, later @ ..] = ahead else {
        return None;
    };
    if *line != k + 1 {
        return None;
    }
    Some(later)
}

// The first of some lines, or the greatest number where there is none.
fn first_of(lines: &[u32]) -> u32
    ensures { result ≡ get_or lines.now 0 (2 ^ 32 - 1) }
{
    lines.first().copied().unwrap_or(u32::MAX)
}

impl<'a, 'e, C: Count> Pass<Item> for Renewal<'a, 'e, C> {
    ghost accepts = { λ p b xs. AreLeft (edited_text p.revision.now) p.rows.now p.ahead.now b xs (counts_of C.parsed_count C.valued_count C.encoded_count p.counter.now) };

    ghost gives = { λ p b x y q.
        IsDone (edited_text p.revision.now) p.rows.now b x y (counts_of C.parsed_count C.valued_count C.encoded_count p.counter.now) (counts_of C.parsed_count C.valued_count C.encoded_count q.counter.now)
        p.changed.now.items q.changed.now.items p.ahead.now q.ahead.now
        × (edited_text q.revision.now ≡ edited_text p.revision.now) × (q.rows.now ≡ p.rows.now)
        × (q.changed.ghost_name ≡ p.changed.ghost_name)
        × (q.counter.ghost_name ≡ p.counter.ghost_name) };

    ghost refuses = { λ p b x q. (edited_text q.revision.now ≡ edited_text p.revision.now)
        × AreCounted (edited_text p.revision.now) b.count (b.count + 1) (counts_of C.parsed_count C.valued_count C.encoded_count p.counter.now) (counts_of C.parsed_count C.valued_count C.encoded_count q.counter.now)
        × (q.changed.ghost_name ≡ p.changed.ghost_name)
        × (q.counter.ghost_name ≡ p.counter.ghost_name) };

    ghost keeps = { λ p b s. AreApart p.ahead.now b s };

    fn visit(&mut self, before: &LineSum, item: &Item) -> Result<Option<Item>, AllocError> {
        let Some(ahead) = ahead_of_next(self.ahead, before.count) else {
            return Ok(None);
        };
        self.ahead = ahead;
        let line = before.count + 1;
        match renewed(
            self.alloc,
            self.revision,
            self.rows,
            line,
            item,
            self.counter,
        ) {
            Ok(Some(new)) => {
                add_changed(self.revision, line, item, &new, self.changed)?;
                Ok(Some(new))
            }
            Ok(None) => Ok(None),
            Err(_) => Err(AllocError),
        }
    }

    fn skips(&self, before: &LineSum, sum: &LineSum) -> bool {
        match before.count.checked_add(sum.count) {
            Some(last) => last < first_of(self.ahead),
            None => false,
        }
    }

    ghost use Rattle.std.proofs.Common.{refl};
    ghost use Rattle.rv_program.specs.internal.Renewals.{done-next, apart_left};
    ghost use Rattle.rv_program.specs.internal.Revisions.{edited_text};

    ghost accepts_rest = { λ p q b x y xs c g. done-next (edited_text p.revision.now) (edited_text q.revision.now) p.rows.now q.rows.now _ _ b x y xs _ _ _ _ c g.0 g.1 g.2 };

    ghost kept = { λ p b xs n v a k. apart_left _ p (edited_text p.revision.now) p.rows.now p.ahead.now (counts_of C.parsed_count C.valued_count C.encoded_count p.counter.now) p.changed.now.items (λ c x done. (done, refl, refl, refl, refl)) b xs v a k };
}

/// The items of the first lines of a text after an edit, those of these lines made anew, which are those that are due: one pass over the
/// tree. Those of them that are new or have another code are added to the changed lines, of which there are none.
///
/// The counter's number of expressions computed rises by at most the operands of the lines that the edit invalidates, and its number of
/// lines encoded by at most those that are new or have other values or another shape, whatever the outcome.
///
/// # Errors
///
/// `Memory` if there was no memory for what is kept.
pub fn renewed_in_one_pass<C: Count>(
    alloc: Global,
    revision: &Revision<'_, '_>,
    rows: &ValueRows<'_>,
    items: &SumTree<Item>,
    due: &[u32],
    changed: &mut Vec<u32>,
    counter: &mut C,
) -> Result<SumTree<Item>, TreeError>
    requires revised { IsRevised (edited_text revision.now) rows.now }
    requires due { AreDue (edited_text revision.now) (length items.now.items) due.now }
    requires count { length items.now.items ≤ length rows.now.symbols.text.lines.now }
    requires former { AreFormer revision.now.base revision.now.lines.now (edit_of revision.now.edit) 0 items.now.items }
    requires changed { changed.old.items ≡ [] }
    requires valued { C.valued_count counter.old + 1000 * length rows.now.symbols.text.lines.now < 2 ^ 64 }
    requires encoded { C.encoded_count counter.old + length rows.now.symbols.text.lines.now < 2 ^ 64 }
    ensures memory { IfErr result (λ e. e ≡ TreeError.Memory) }
    ensures items { IfOk result (λ t. AreFirstItems (base_of rows.now) rows.now.symbols.text.lines.now (length items.now.items) t.items) }
    ensures changed { IfOk result (λ _. changed.new.items ≡ changed_through (edited_text revision.now) (length items.now.items)) }
    ensures counted { AreCounted (edited_text revision.now) 0 (length items.now.items) (counts_of C.parsed_count C.valued_count C.encoded_count counter.old) (counts_of C.parsed_count C.valued_count C.encoded_count counter.new) }
{
    let mut pass = Renewal {
        alloc,
        revision,
        rows,
        ahead: due,
        changed,
        counter,
    };
    items.rewritten(&mut pass)
}

//! Stores of texts that are assembled at once.

ghost use Rattle.std.specs.Prelude.{◌≡◌, ◌≤◌, ◌<◌, ◌+◌, ◌^◌, IfOk, IfErr};
ghost use Rattle.rv_program.specs.Counted.{counts_of};
ghost use Rattle.rv_program.specs.CountedTexts.{IsCountedWhole};

use crate::draft::Draft;
use crate::loading::items_of;
use crate::store::Store;
use crate::survey::Survey;
use rv_program::{EditError, Lines, NameTable};
use rv_stmt::operands_are_few;
use rv_text::Count;

impl Store {
    /// The text of a draft, assembled at once: it is what one gets who puts the lines in one by one, but each line is gone over as often as
    /// one alone.
    ///
    /// The counter's numbers have to be at most 2^63; none of them falls, and less than 2^32 is added to each, whatever the outcome. No
    /// line is read, at most two values are computed for each operand, and each line is encoded at most once.
    ///
    /// # Errors
    ///
    /// `Memory` if there is no memory for what is kept.
    pub fn of_draft<C: Count>(draft: Draft, counter: &mut C) -> Result<Store, EditError>
        requires valued { C.valued_count counter.old ≤ 2 ^ 63 }
        requires encoded { C.encoded_count counter.old ≤ 2 ^ 63 }
        ensures text { IfOk result (λ s. s ≡ draft) }
        ensures memory { IfErr result (λ e. e ≡ EditError.Memory) }
        ensures counted { IsCountedWhole draft.lines (counts_of C.parsed_count C.valued_count C.encoded_count counter.old) (counts_of C.parsed_count C.valued_count C.encoded_count counter.new) }
        ensures valued { C.valued_count counter.new < C.valued_count counter.old + 2 ^ 32 }
        ensures encoded { C.encoded_count counter.new < C.encoded_count counter.old + 2 ^ 32 }
    {
        operands_are_few();
        let Draft { alloc, base, lines } = draft;
        let mut names = NameTable::new(alloc);
        let survey = Survey::of_lines(alloc, base, lines, &mut names, counter)?;
        let column = Lines::in_column(survey.lines.as_slice());
        let rows = survey.rows(&column, base, &names);
        let items = items_of(alloc, &rows, counter)?;
        Ok(Store {
            alloc,
            base,
            names,
            survey,
            items,
        })
    }
}

//! How much of a text a search by sums is asked about.

ghost use Rattle.std.specs.Prelude.{◌≡◌, ◌==◌, true};
ghost use Rattle.rv_program.specs.Text.{is_line};
ghost use Rattle.rv_program.specs.internal.LineSums.{lacks_wanted};
ghost use Rattle.rv_program.specs.internal.Masks.{shared};

use rv_program::{Item, Line, Mask, bucket_of};
use rv_text::Tally;
use rv_tree::{Sought, SumTree, Summed};
use std::alloc::Global;
use std::cell::Cell;
use std::test::Fail;

// How many lines the text has.
const LINES: u32 = 16_384;

// A search for the lines that have something of a mask, as the store makes it, and how many parts it was asked about.
#[derive(Drop)]
struct Counted {
    mask: Mask,
    asked: Cell<u32>,
}

impl Sought<Item> for Counted {
    ghost lacks = { λ w s. shared w.mask s.mask == 0 };

    fn skips(&self, sum: &<Item as Summed>::Sum) -> bool {
        self.asked.set(self.asked.get().wrapping_add(1));
        sum.mask.lacks(self.mask)
    }

    ghost lacks_parts = { λ p a b v w k. lacks_wanted p.mask a b v w k };
}

// A line that is not assembled yet.
fn item(alloc: Global, line: &[u8]) -> Result<Item, Fail>
    requires { is_line line.now ≡ true }
{
    match Line::read(alloc, line, &mut Tally::new()) {
        Ok(line) => Ok(Item::entered(line)),
        Err(_) => Err(Fail::new("a line is refused")),
    }
}

// A text in which one line uses a name, by its number from 1 on, and each line uses another one.
fn text(alloc: Global, number: u32) -> Result<SumTree<Item>, Fail> {
    let mut tree = SumTree::new(alloc);
    for k in 0..LINES {
        let line = if k + 1 == number {
            b"j far".as_slice()
        } else {
            b"j near".as_slice()
        };
        tree = tree.inserted(k + 1, item(alloc, line)?)?;
    }
    Ok(tree)
}

/// A search for a name that one line of 16,384 uses: whether the part that is found has this line, and how many thousand parts it was asked about.
pub fn searched(alloc: Global, number: u32) -> Result<String, Fail> {
    let tree = text(alloc, number)?;
    let sought = Counted {
        mask: Mask::of_bucket(bucket_of(b"far")),
        asked: Cell::new(0),
    };
    let part = tree.next_part(0, &sought);
    let is_found = part.begin < number && number <= part.end;
    let asked = sought.asked.get() / 1000;
    Ok(format!(in alloc; "{is_found}, {asked} thousand asked")?)
}

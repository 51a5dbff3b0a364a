//! Which rows are shown where not all are.

ghost use Rattle.std.specs.Prelude.{◌≡◌, length};
ghost use Rattle.rv_doc.specs.Windows.{nearest, passed, shows, windowed};

/// Which of some rows are shown: those behind some that are skipped, up to so many.
#[derive(Clone, Copy)]
pub struct Window {
    pub skipped: usize,
    pub most: usize,
}

impl Window {
    /// The window of the rows that are nearest to a place, at most so many. So many of all rows stand before the place.
    pub fn nearest(most: usize, before: usize, all: usize) -> Window
        ensures { result ≡ nearest most before all }
    {
        let half = before.saturating_sub(most / 2);
        Window {
            skipped: half.min(all.saturating_sub(most)),
            most,
        }
    }

    /// Goes on behind some rows, and returns those of them that are shown.
    pub fn pass<'a, T>(&mut self, rows: &'a [T]) -> &'a [T]
        ensures shown { result.now ≡ windowed self.old rows.entry.now }
        ensures passed { self.new ≡ passed self.old (length rows.entry.now) }
    {
        let (skipped, others) = rows.split_at(self.skipped.min(rows.len()));
        let (shown, _) = others.split_at(self.most.min(others.len()));
        self.skipped -= skipped.len();
        self.most -= shown.len();
        shown
    }

    /// Goes on to the next row, and says whether it is shown.
    pub fn shows_next(&mut self) -> bool
        ensures shown { result ≡ shows self.old }
        ensures passed { self.new ≡ passed self.old 1 }
    {
        if self.skipped > 0 {
            self.skipped -= 1;
            return false;
        }
        if self.most == 0 {
            return false;
        }
        self.most -= 1;
        true
    }
}

//! Lines that are all looked at for faults.

ghost use Rattle.std.specs.Prelude.{◌≡◌};

use crate::view::{LineSource, LineView, TestedLines};

/// Lines without a test: each may have faults.
#[derive(Drop)]
pub struct Untested<L: LineSource> {
    lines: L,
}

impl<L: LineSource> Untested<L> {
    /// These lines.
    pub fn new(lines: L) -> Untested<L>
        ensures { result.lines ≡ lines }
    {
        Untested { lines }
    }
}

impl<L: LineSource> LineSource for Untested<L> {
    ghost shown = { λ u. L.shown u.lines };

    ghost passed = { λ u. L.passed u.lines };

    fn advance(&mut self) {
        self.lines.advance();
    }

    fn line(&self) -> LineView<'_> {
        self.lines.line()
    }
}

impl<L: LineSource> TestedLines for Untested<L> {
    fn may_have_faults(&self) -> bool {
        true
    }
}

//! What names give where a constant has to stand.

ghost use Rattle.rv_fix.specs.Values.{for_constants};

use rv_expr::{Direction, LabelReference, Names, ValueFault};

/// What the names give, except that neither `.` nor a local label is a constant.
#[derive(Drop)]
pub struct ForConstants<'a, N: Names> {
    pub names: &'a N,
}

impl<N: Names> Names for ForConstants<'_, N> {
    ghost environment = { λ c here. for_constants (N.environment c.names.now here) };

    fn symbol(&self, here: u32, name: &[u8]) -> Result<i64, ValueFault> {
        self.names.symbol(here, name)
    }

    fn local(&self, _here: u32, _number: u16, _direction: Direction) -> Result<i64, ValueFault> {
        Err(ValueFault::NotConstant)
    }

    fn here(&self, _here: u32) -> Result<i64, ValueFault> {
        Err(ValueFault::NotConstant)
    }

    fn paired_high(&self, here: u32, label: &LabelReference) -> Result<i64, ValueFault> {
        self.names.paired_high(here, label)
    }
}

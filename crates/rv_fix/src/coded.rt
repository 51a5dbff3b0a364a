//! The code of a line.

ghost use Rattle.std.specs.Prelude.{◌≡◌, [], IsTrue, ◌↔◌};
ghost use Rattle.rv_fix.specs.Code.{code, faulty, zeros_with};
ghost use Rattle.rv_fix.specs.Padding.{padding};

use crate::payload::Payload;
use rv_text::Fault;

/// The code of a line: its bytes, and at most one fault of its body.
pub struct Coded {
    pub payload: Payload,
    pub fault: Option<Fault>,
}

// What a derive would do, but proved here: a crate that drops a code would prove the derived drop of each type in it.
impl Drop for Coded {
    fn drop(self) {
        let Coded {
            payload: _,
            fault: _,
        } = self;
    }
}

impl Coded {
    // Bytes without a fault.
    pub(crate) fn of(payload: Payload) -> Self
        ensures { result ≡ code payload }
    {
        Coded {
            payload,
            fault: None,
        }
    }

    // So many zeros, and a fault.
    pub(crate) fn zeros(count: u32, fault: Fault) -> Self
        ensures { result ≡ zeros_with count fault }
    {
        Coded {
            payload: Payload::repeated(0, count),
            fault: Some(fault),
        }
    }

    // No bytes and no fault.
    pub(crate) fn empty() -> Self
        ensures { result ≡ code [] }
    {
        Coded::of(Payload::repeated(0, 0))
    }

    /// A fault and no bytes.
    pub fn faulty(fault: Fault) -> Self
        ensures { result ≡ faulty fault }
    {
        Coded::zeros(0, fault)
    }

    /// So many bytes before an alignment: in a section of code a zero byte where their number is odd, then `c.nop` where what is
    /// left is 2 modulo 4, then `nop`; elsewhere zeros.
    pub fn padding(in_code: bool, count: u32) -> Self
        ensures { result ≡ code (padding in_code count) }
    {
        Coded::of(Payload::padding(in_code, count))
    }

    /// Whether these are the same bytes and the same fault.
    pub fn is_same(&self, other: &Coded) -> bool
        ensures { IsTrue result ↔ (self.now ≡ other.now) }
    {
        if !is_same_fault(self.fault, other.fault) {
            return false;
        }
        self.payload.is_same(&other.payload)
    }
}

// Whether these are the same fault, or none.
fn is_same_fault(left: Option<Fault>, right: Option<Fault>) -> bool
    ensures { IsTrue result ↔ (left ≡ right) }
{
    match left {
        Some(x) => match right {
            Some(y) => x == y,
            None => false,
        },
        None => right.is_none(),
    }
}

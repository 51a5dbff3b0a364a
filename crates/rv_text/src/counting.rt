//! The counters of the work done.

ghost use Rattle.std.specs.Prelude.{◌≡◌, ℕ, ◌+◌, ◌<◌, ◌-◌, ◌^◌};

use std::marker::Model;

/// Counts the calls of three kinds of work: lines read, expressions computed and lines encoded. Each method adds one
/// to its own number and leaves the two others.
pub trait Count {
    /// How many lines were read.
    ghost parsed_count: { Self → ℕ };

    /// How many expressions were computed.
    ghost valued_count: { Self → ℕ };

    /// How many lines were encoded.
    ghost encoded_count: { Self → ℕ };

    /// A line was read.
    fn parsed(&mut self)
        requires { parsed_count self.old < 2 ^ 64 - 1 }
        ensures parsed { parsed_count self.new ≡ parsed_count self.old + 1 }
        ensures valued { valued_count self.new ≡ valued_count self.old }
        ensures encoded { encoded_count self.new ≡ encoded_count self.old };

    /// An expression was computed.
    fn valued(&mut self)
        requires { valued_count self.old < 2 ^ 64 - 1 }
        ensures parsed { parsed_count self.new ≡ parsed_count self.old }
        ensures valued { valued_count self.new ≡ valued_count self.old + 1 }
        ensures encoded { encoded_count self.new ≡ encoded_count self.old };

    /// A line was encoded.
    fn encoded(&mut self)
        requires { encoded_count self.old < 2 ^ 64 - 1 }
        ensures parsed { parsed_count self.new ≡ parsed_count self.old }
        ensures valued { valued_count self.new ≡ valued_count self.old }
        ensures encoded { encoded_count self.new ≡ encoded_count self.old + 1 };
}

/// A counter of three numbers.
#[derive(Clone, Copy, Debug)]
pub struct Tally {
    parsed: u64,
    valued: u64,
    encoded: u64,
}

impl Model for Tally {
    ghost use Rattle.rv_text.specs.Counting.{Counts};

    ghost Value = { Counts };

    ghost view = { λ t. record { parsed = t.parsed; valued = t.valued; encoded = t.encoded } };

    ghost inverse = { λ c. record { parsed = c.parsed; valued = c.valued; encoded = c.encoded } };
}

impl Tally {
    /// Nothing is counted yet.
    pub fn new() -> Self
        ensures { result ≡ record { parsed = 0; valued = 0; encoded = 0 } }
    {
        Tally {
            parsed: 0,
            valued: 0,
            encoded: 0,
        }
    }

    /// Forgets what was counted.
    pub fn reset(&mut self)
        ensures { self.new ≡ record { parsed = 0; valued = 0; encoded = 0 } }
    {
        *self = Tally::new();
    }

    /// How many lines were read.
    pub fn parsed_calls(&self) -> u64
        ensures { result ≡ self.now.parsed }
    {
        self.parsed
    }

    /// How many expressions were computed.
    pub fn valued_calls(&self) -> u64
        ensures { result ≡ self.now.valued }
    {
        self.valued
    }

    /// How many lines were encoded.
    pub fn encoded_calls(&self) -> u64
        ensures { result ≡ self.now.encoded }
    {
        self.encoded
    }
}

impl Count for Tally {
    ghost parsed_count = { λ t. t.parsed };

    ghost valued_count = { λ t. t.valued };

    ghost encoded_count = { λ t. t.encoded };

    fn parsed(&mut self) {
        self.parsed += 1;
    }

    fn valued(&mut self) {
        self.valued += 1;
    }

    fn encoded(&mut self) {
        self.encoded += 1;
    }
}

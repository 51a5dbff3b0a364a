//! A reader or a writer of few bytes at once.

ghost use Rattle.std.specs.Prelude.{◌≡◌, ◌<◌, ◌≤◌, ℕ, length, take};

use rv_text::{Failed, Sink, Source};

/// Gives or takes so many bytes at once at most, but one at least, and counts its calls.
#[derive(Drop)]
pub struct Pieces<S> {
    /// What is read from or written to.
    pub inner: S,
    /// How many bytes a call gives or takes at most.
    pub most: usize,
    /// How many calls there were.
    pub calls: u64,
}

impl<S> Pieces<S> {
    /// No call was made.
    pub fn new(inner: S, most: usize) -> Self
        ensures { result.inner ≡ inner }
    {
        Pieces {
            inner,
            most,
            calls: 0,
        }
    }
}

impl<S: Source> Source for Pieces<S> {
    ghost left = { λ s. S.left s.inner };

    ghost failures = { λ s. S.failures s.inner };

    fn read(&mut self, buffer: &mut [u8]) -> Result<usize, Failed> {
        self.calls = self.calls.saturating_add(1);
        let (front, _) = buffer.split_at_mut(buffer.len().min(self.most.max(1)));
        self.inner.read(front)
    }
}

// The first bytes, so many at most, or all where there are fewer.
fn front(bytes: &[u8], most: usize) -> &[u8]
    requires { 0 < most }
    ensures within { length result.now ≤ length bytes.now }
    ensures some { 0 < length bytes.now → 0 < length result.now }
    ensures prefix { (n : ℕ) → n ≤ length result.now → take n result.now ≡ take n bytes.now }
{
    let (front, _) = bytes.split_at(bytes.len().min(most));
    front
}

impl<S: Sink> Sink for Pieces<S> {
    ghost taken = { λ s. S.taken s.inner };

    ghost failures = { λ s. S.failures s.inner };

    fn write(&mut self, bytes: &[u8]) -> Result<usize, Failed> {
        self.calls = self.calls.saturating_add(1);
        self.inner.write(front(bytes, self.most.max(1)))
    }
}

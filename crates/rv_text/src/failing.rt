//! A reader or a writer of which one call fails.

ghost use Rattle.std.specs.Prelude.{◌≡◌, ◌==◌, ◌+◌, ◌-◌, ◌^◌, ◌<◌, ◌≤◌, Some, length, take, IfOk, OnErr, IsErr};
ghost use Rattle.rv_text.specs.Streams.{before, after, IsAtEnd, failures_after, calls_before, after_call, fails_now, failures_to_come};

use crate::streams::{Failed, Sink, Source};

/// Wraps a reader or a writer, fails one of its calls without making it, and passes the others on.
#[derive(Drop)]
pub struct FailsAt<T> {
    /// What is wrapped.
    pub inner: T,
    /// How many calls are passed on before the one that fails. None where no call fails any more.
    pub passing: Option<u64>,
    /// How many calls were failed here, beside those that failed inside.
    pub failures: u64,
    pub ghost at_most_one: { failures + failures_to_come passing ≤ 1 },
}

impl<T> FailsAt<T> {
    /// Fails the call number `m`, counted from 1, and no other. At 0 no call fails.
    pub fn new(inner: T, m: u64) -> FailsAt<T>
        ensures inner { result.inner ≡ inner }
        ensures passing { result.passing ≡ calls_before m }
        ensures failures { result.failures ≡ 0 }
    {
        FailsAt {
            inner,
            passing: m.checked_sub(1),
            failures: 0,
        }
    }

    // Whether this call fails. Counts it.
    fn fails(&mut self) -> bool
        ensures inner { self.new.inner ≡ self.old.inner }
        ensures passing { self.new.passing ≡ after_call self.old.passing }
        ensures failures { self.new.failures ≡ self.old.failures + fails_now self.old.passing }
        ensures now { result ≡ (fails_now self.old.passing == 1) }
    {
        match self.passing {
            None => false,
            Some(0) => {
                self.passing = None;
                self.failures = 1;
                true
            }
            Some(n) => {
                self.passing = Some(n - 1);
                false
            }
        }
    }
}

impl<S: Source> Source for FailsAt<S> {
    ghost left = { λ s. S.left s.inner };

    ghost failures = { λ s. S.failures s.inner + s.failures };

    fn read(&mut self, buffer: &mut [u8]) -> Result<usize, Failed>
        requires { S.failures self.old.inner + self.old.failures < 2 ^ 64 - 1 }
        ensures within { IfOk result (λ n. n ≤ length buffer.old) }
        ensures given { IfOk result (λ n. S.left self.old.inner ≡ before (take n buffer.new) (S.left self.new.inner)) }
        ensures end { IfOk result (λ n. n ≡ 0 → 0 < length buffer.old → IsAtEnd (S.left self.new.inner)) }
        ensures failed { OnErr result (S.left self.new.inner ≡ S.left self.old.inner) }
        ensures count { S.failures self.new.inner + self.new.failures ≡ failures_after (S.failures self.old.inner + self.old.failures) result }

        // The one call is failed here, without a call of what is wrapped.
        ensures passing { self.new.passing ≡ after_call self.old.passing }
        ensures own { self.new.failures ≡ self.old.failures + fails_now self.old.passing }
        ensures fails { self.old.passing ≡ Some 0 → IsErr result }
        ensures untouched { self.old.passing ≡ Some 0 → self.new.inner ≡ self.old.inner }
    {
        if self.fails() {
            return Err(Failed);
        }
        self.inner.read(buffer)
    }
}

impl<S: Sink> Sink for FailsAt<S> {
    ghost taken = { λ s. S.taken s.inner };

    ghost failures = { λ s. S.failures s.inner + s.failures };

    fn write(&mut self, bytes: &[u8]) -> Result<usize, Failed>
        requires { S.failures self.old.inner + self.old.failures < 2 ^ 64 - 1 }
        ensures within { IfOk result (λ n. n ≤ length bytes.now) }
        ensures some { IfOk result (λ n. 0 < length bytes.now → 0 < n) }
        ensures taken { IfOk result (λ n. S.taken self.new.inner ≡ after (S.taken self.old.inner) (take n bytes.now)) }
        ensures failed { OnErr result (S.taken self.new.inner ≡ S.taken self.old.inner) }
        ensures count { S.failures self.new.inner + self.new.failures ≡ failures_after (S.failures self.old.inner + self.old.failures) result }

        // The one call is failed here, without a call of what is wrapped.
        ensures passing { self.new.passing ≡ after_call self.old.passing }
        ensures own { self.new.failures ≡ self.old.failures + fails_now self.old.passing }
        ensures fails { self.old.passing ≡ Some 0 → IsErr result }
        ensures untouched { self.old.passing ≡ Some 0 → self.new.inner ≡ self.old.inner }
    {
        if self.fails() {
            return Err(Failed);
        }
        self.inner.write(bytes)
    }
}

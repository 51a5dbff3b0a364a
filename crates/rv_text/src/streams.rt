//! What bytes come from and go to.

ghost use Rattle.std.specs.Prelude.{◌≡◌, ◌-◌, ◌^◌, ◌<◌, ◌≤◌, ℕ, List, Option, length, take, IfOk, OnErr};
ghost use Rattle.rv_text.specs.Streams.{before, after, IsAtEnd, failures_after, Writes};

/// A call of a reader or a writer that failed.
#[derive(Clone, Copy, Debug, PartialEq, Eq)]
pub struct Failed;

/// What bytes come from. Contracts see the bytes that are left, where the type knows them, and how many calls failed.
pub trait Source {
    /// The bytes that are left, where the type knows them.
    ghost left: { Self → Option (List ℕ) };

    /// How many calls have failed.
    ghost failures: { Self → ℕ };

    /// Fills a prefix of the buffer with the next bytes, and says how many these are: with room in the buffer none only
    /// at the end. After a failed call the same bytes are left. The count of failed calls has to be below `u64::MAX`.
    fn read(&mut self, buffer: &mut [u8]) -> Result<usize, Failed>
        requires { failures self.old < 2 ^ 64 - 1 }
        ensures within { IfOk result (λ n. n ≤ length buffer.old) }
        ensures given { IfOk result (λ n. left self.old ≡ before (take n buffer.new) (left self.new)) }
        ensures end { IfOk result (λ n. n ≡ 0 → 0 < length buffer.old → IsAtEnd (left self.new)) }
        ensures failed { OnErr result (left self.new ≡ left self.old) }
        ensures count { failures self.new ≡ failures_after (failures self.old) result };
}

/// What bytes go to. Contracts see the bytes that were taken, where the type knows them, and how many calls failed.
pub trait Sink {
    /// The bytes that were taken, where the type knows them.
    ghost taken: { Self → Option (List ℕ) };

    /// How many calls have failed.
    ghost failures: { Self → ℕ };

    /// Takes a prefix of the bytes, and says how many these are: none only where there are none. A failed call takes no
    /// byte. The count of failed calls has to be below `u64::MAX`.
    fn write(&mut self, bytes: &[u8]) -> Result<usize, Failed>
        requires { failures self.old < 2 ^ 64 - 1 }
        ensures within { IfOk result (λ n. n ≤ length bytes.now) }
        ensures some { IfOk result (λ n. 0 < length bytes.now → 0 < n) }
        ensures taken { IfOk result (λ n. taken self.new ≡ after (taken self.old) (take n bytes.now)) }
        ensures failed { OnErr result (taken self.new ≡ taken self.old) }
        ensures count { failures self.new ≡ failures_after (failures self.old) result };
}

/// Writes all the bytes. At the first call that fails it stops, and some prefix of the bytes was taken.
#[tactic(auto, using(crate::proofs::StreamLemmas::after_take_more, crate::proofs::StreamLemmas::prefix_taken))]
pub fn write_all<W: Sink>(sink: &mut W, bytes: &[u8]) -> Result<(), Failed>
    requires { W.failures sink.old < 2 ^ 64 - 1 }
    ensures text { Writes (W.taken sink.old) bytes.now result (W.taken sink.new) }
    ensures count { W.failures sink.new ≡ failures_after (W.failures sink.old) result }
{
    let mut done = 0;
    while done < bytes.len() {
        let (_, rest) = bytes.split_at(done);
        let n = sink.write(rest)?;
        done += n;
    }
    Ok(())
}

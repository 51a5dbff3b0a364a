//! A reader and a writer in memory.

ghost use Rattle.std.specs.Prelude.{◌≡◌, ◌-◌, ◌^◌, ◌<◌, ◌≤◌, ℕ, List, Some, [], ◌++◌, length, min, take, IfOk, IsOk, OnErr};
ghost use Rattle.rv_text.specs.Streams.{before, failures_after};

use crate::streams::{Failed, Sink, Source};
use crate::token_list::TextError;
use std::alloc::Global;
use std::marker::Model;

/// A reader of bytes in memory, which takes no memory of its own and never fails. Contracts see the bytes that are left.
#[derive(Drop)]
pub struct MemSource<'a> {
    rest: &'a [u8],
}

impl<'a> Model for MemSource<'a> {
    ghost use Rattle.std.specs.Prelude.{ℕ, List};

    ghost Value = { List ℕ };

    ghost view = { λ s. s.rest.now };
}

impl<'a> MemSource<'a> {
    /// All the bytes are left.
    pub fn new(bytes: &'a [u8]) -> MemSource<'a>
        ensures { result ≡ bytes.entry.now }
    {
        MemSource { rest: bytes }
    }
}

impl<'a> Source for MemSource<'a> {
    ghost left = { λ s. Some s };

    ghost failures = { λ _. 0 };

    /// Gives as many of the bytes that are left as there is room for, and never fails.
    fn read(&mut self, buffer: &mut [u8]) -> Result<usize, Failed>
        ensures within { IfOk result (λ n. n ≤ length buffer.old) }
        ensures given { IfOk result (λ n. Some self.old ≡ before (take n buffer.new) (Some self.new)) }
        ensures end { IfOk result (λ n. n ≡ 0 → 0 < length buffer.old → self.new ≡ []) }
        ensures failed { OnErr result (Some self.new ≡ Some self.old) }
        ensures count { 0 ≡ failures_after 0 result }
        ensures room { IfOk result (λ n. n ≡ min (length buffer.old) (length self.old)) }
        ensures succeeds { IsOk result }
    {
        let n = buffer.len().min(self.rest.len());
        let (prefix, rest) = self.rest.split_at(n);
        buffer[..n].copy_from_slice(prefix);
        self.rest = rest;
        Ok(n)
    }
}

/// A writer into memory that is taken when it is made. Where it is full, a call with bytes is failed. Contracts see the
/// bytes that it took, its capacity, and the count of failed calls.
#[derive(Drop)]
pub struct MemSink {
    bytes: Vec<u8>,
    capacity: usize,
    failures: u64,
}

impl Model for MemSink {
    ghost use Rattle.std.specs.Prelude.{◌≤◌, vec_len, vec_capacity};
    ghost use Rattle.rv_text.specs.Streams.{Filled};

    ghost Value = { Filled };

    ghost view = { λ s. record { bytes = s.bytes.items; capacity = s.capacity; failures = s.failures } };

    ghost invariant = { λ s. (vec_len s.bytes ≤ s.capacity) × (s.capacity ≤ vec_capacity s.bytes) };
}

impl MemSink {
    /// Takes memory for `capacity` bytes, of which none is taken yet. Its one error is want of that memory.
    pub fn new(alloc: Global, capacity: usize) -> Result<MemSink, TextError>
        ensures { IfOk result (λ s. s ≡ record { bytes = []; capacity = capacity; failures = 0 }) }
    {
        let bytes = Vec::with_capacity(alloc, capacity)?;
        Ok(MemSink {
            bytes,
            capacity,
            failures: 0,
        })
    }

    /// The bytes that were taken.
    pub fn bytes(&self) -> &[u8]
        ensures { result.now ≡ self.now.bytes }
    {
        self.bytes.as_slice()
    }
}

impl Sink for MemSink {
    ghost taken = { λ s. Some s.bytes };

    ghost failures = { λ s. s.failures };

    /// Takes as many bytes as there is room for.
    fn write(&mut self, bytes: &[u8]) -> Result<usize, Failed>
        requires { self.old.failures < 2 ^ 64 - 1 }
        ensures within { IfOk result (λ n. n ≤ length bytes.now) }
        ensures some { IfOk result (λ n. 0 < length bytes.now → 0 < n) }
        ensures taken { IfOk result (λ n. self.new.bytes ≡ self.old.bytes ++ take n bytes.now) }
        ensures failed { OnErr result (self.new.bytes ≡ self.old.bytes) }
        ensures count { self.new.failures ≡ failures_after self.old.failures result }
        ensures capacity { self.new.capacity ≡ self.old.capacity }
        ensures room { IfOk result (λ n. n ≡ min (length bytes.now) (self.old.capacity - length self.old.bytes)) }
        ensures full { OnErr result ((length self.old.bytes ≡ self.old.capacity) × (0 < length bytes.now)) }
    {
        let n = bytes.len().min(self.capacity - self.bytes.len());
        if n == 0 && !bytes.is_empty() {
            self.failures += 1;
            return Err(Failed);
        }
        self.bytes.extend_from_slice(&bytes[..n]).unwrap();
        Ok(n)
    }
}

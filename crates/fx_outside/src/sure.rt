ghost use Rattle.std.specs.Prelude.{◌≡◌, ℕ, ◌+◌, ◌-◌, ◌^◌, ◌<◌, ◌≤◌, [], List, length, take, drop, Some, None, min};
ghost use Rattle.fx_outside.specs.Faults.{Rose};
ghost use Rattle.fx_outside.specs.Source.{Reads, IfGot};
ghost use Rattle.fx_outside.specs.Sink.{Writes};

use super::memory_source::copy_front;
use super::{Read, Sink, Source, Write};
use std::marker::Model;

/// A source over bytes in memory that never fails and fills the buffer as far as it can. It is seen as the bytes that are
/// left.
#[derive(Drop)]
pub struct SureSource {
    bytes: Vec<u8>,
    at: usize,
}

impl Model for SureSource {
    ghost Value = { List ℕ };

    ghost view = { λ s. drop s.at s.bytes.items };

    ghost invariant = { λ s. s.at ≤ length s.bytes.items };
}

impl SureSource {
    /// A source of these bytes.
    pub fn new(bytes: Vec<u8>) -> SureSource
        ensures { result ≡ bytes.items }
    {
        SureSource { bytes, at: 0 }
    }
}

impl Source for SureSource {
    ghost left = { λ s. Some s };

    ghost faults = { λ _. 0 };

    fn read(&mut self, buf: &mut [u8]) -> Read
        requires { 0 < length buf.old }
        ensures bytes { Reads (Some self.old) (Some self.new) result buf.new }
        ensures sure { result ≡ Read.Failed → ⊥ }
        ensures count { IfGot result (λ n. n ≡ min (length buf.old) (length self.old)) }
    {
        let rest = &self.bytes[self.at..];
        let count = buf.len().min(rest.len());
        if count == 0 {
            return Read::End;
        }
        copy_front(rest, buf, count);
        self.at += count;
        Read::Got(count)
    }
}

/// A sink that never fails and keeps only the number of its bytes, at most 2^64 - 1. It is seen as this number.
#[derive(Drop)]
pub struct SureSink {
    taken: u64,
}

impl Model for SureSink {
    ghost Value = { ℕ };

    ghost view = { λ s. s.taken };
}

impl SureSink {
    /// A sink that has taken nothing.
    pub fn new() -> SureSink
        ensures { result ≡ 0 }
    {
        SureSink { taken: 0 }
    }

    /// How many bytes it took.
    pub fn taken(&self) -> u64
        ensures { result ≡ self.now }
    {
        self.taken
    }
}

impl Sink for SureSink {
    ghost held = { λ _. None };

    ghost faults = { λ _. 0 };

    fn write(&mut self, bytes: &[u8]) -> Write
        requires { 0 < length bytes.now }
        ensures whole { result ≡ Write.Took (length bytes.now) }
        ensures taken { self.new ≡ min (self.old + length bytes.now) (2 ^ 64 - 1) }
    {
        self.taken = self.taken.saturating_add(bytes.len() as u64);
        Write::Took(bytes.len())
    }
}

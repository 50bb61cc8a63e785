ghost use Rattle.std.specs.Prelude.{◌≡◌, ◌^◌, ◌<◌, ◌≤◌, ◌↔◌, length, take, drop, Some, Contains};
ghost use Rattle.fx_outside.specs.Faults.{Rose, next_count};
ghost use Rattle.fx_outside.specs.Source.{Reads, IfGot, faults_after_read};
ghost use Rattle.fx_outside.specs.Memory.{MemoryReads, given_count};

use super::{Read, Source};
use std::marker::Model;

/// A source over bytes in memory, which gives at most so many at a time and fails at chosen reads.
#[derive(Drop)]
pub struct MemorySource {
    bytes: Vec<u8>,
    at: usize,
    piece: usize,
    fails: Vec<u64>,
    reads: u64,
    faults: u64,
}

impl Model for MemorySource {
    ghost Value = { MemoryReads };

    ghost view = { λ s. record {
      left = drop s.at s.bytes.items;
      piece = s.piece;
      fails = s.fails.items;
      reads = s.reads;
      faults = s.faults;
    } };

    ghost invariant = { λ s. s.at ≤ length s.bytes.items };
}

impl MemorySource {
    /// A source of `bytes` whose reads give at most `piece` bytes each, and at least one. The reads whose numbers, counted
    /// from 0, are among `fails` have a fault.
    pub fn new(bytes: Vec<u8>, piece: usize, fails: Vec<u64>) -> MemorySource
        ensures left { result.left ≡ bytes.items }
        ensures piece { result.piece ≡ piece }
        ensures fails { result.fails ≡ fails.items }
        ensures reads { result.reads ≡ 0 }
        ensures faults { result.faults ≡ 0 }
    {
        MemorySource {
            bytes,
            at: 0,
            piece,
            fails,
            reads: 0,
            faults: 0,
        }
    }
}

impl Source for MemorySource {
    ghost left = { λ s. Some s.left };

    ghost faults = { λ s. s.faults };

    fn read(&mut self, buf: &mut [u8]) -> Read
        requires { 0 < length buf.old }
        ensures bytes { Reads (Some self.old.left) (Some self.new.left) result buf.new }
        ensures later { self.old.faults ≤ self.new.faults }
        ensures cause { result ≡ Read.Failed → Rose self.old.faults self.new.faults }
        ensures bounded { result ≡ Read.Failed → self.new.faults < 2 ^ 64 }

        // It fails exactly at the chosen reads, and else gives as many bytes as it can.
        ensures fails { (result ≡ Read.Failed) ↔ Contains self.old.fails self.old.reads }
        ensures count { IfGot result (λ n. n ≡ given_count self.old (length buf.old)) }
        ensures after { self.new ≡ record self.old {
          left = self.new.left;
          reads = next_count self.old.reads;
          faults = faults_after_read result self.old.faults;
        } }
    {
        let fails = self.fails.contains(&self.reads);
        self.reads = self.reads.saturating_add(1);
        if fails {
            self.faults = self.faults.saturating_add(1);
            return Read::Failed;
        }
        let rest = &self.bytes[self.at..];
        let count = self.piece.max(1).min(buf.len()).min(rest.len());
        if count == 0 {
            return Read::End;
        }
        copy_front(rest, buf, count);
        self.at += count;
        Read::Got(count)
    }
}

// Copies so many bytes from the front of one slice to that of the other.
pub fn copy_front(from: &[u8], to: &mut [u8], count: usize)
    requires in_from { count ≤ length from.now }
    requires in_to { count ≤ length to.old }
    ensures { take count to.new ≡ take count from.now }
{
    to[..count].copy_from_slice(&from[..count]);
}

ghost use Rattle.std.specs.Prelude.{◌≡◌, ◌^◌, ◌<◌, ◌≤◌, ◌↔◌, [], length, Some, Contains};
ghost use Rattle.fx_outside.specs.Faults.{Rose, next_count};
ghost use Rattle.fx_outside.specs.Sink.{Writes, IfTook, faults_after_write};
ghost use Rattle.fx_outside.specs.Memory.{MemoryWrites};

use super::{Sink, Write};
use std::alloc::Global;
use std::marker::Model;

/// A sink over memory, which takes each piece whole and fails at chosen writes.
#[derive(Drop)]
pub struct MemorySink {
    held: Vec<u8>,
    fails: Vec<u64>,
    writes: u64,
    faults: u64,
}

impl Model for MemorySink {
    ghost Value = { MemoryWrites };

    ghost view = { λ s. record {
      held = s.held.items;
      fails = s.fails.items;
      writes = s.writes;
      faults = s.faults;
    } };
}

impl MemorySink {
    /// A sink that holds nothing. The writes whose numbers, counted from 0, are among `fails` have a fault.
    pub fn new(alloc: Global, fails: Vec<u64>) -> MemorySink
        ensures held { result.held ≡ [] }
        ensures fails { result.fails ≡ fails.items }
        ensures writes { result.writes ≡ 0 }
        ensures faults { result.faults ≡ 0 }
    {
        MemorySink {
            held: Vec::new(alloc),
            fails,
            writes: 0,
            faults: 0,
        }
    }

    /// The bytes that it holds.
    pub fn bytes(&self) -> &[u8]
        ensures { result.now ≡ self.now.held }
    {
        self.held.as_slice()
    }
}

impl Sink for MemorySink {
    ghost held = { λ s. Some s.held };

    ghost faults = { λ s. s.faults };

    fn write(&mut self, bytes: &[u8]) -> Write
        requires { 0 < length bytes.now }
        ensures bytes { Writes (Some self.old.held) (Some self.new.held) result bytes.now }
        ensures later { self.old.faults ≤ self.new.faults }
        ensures cause { result ≡ Write.Failed → Rose self.old.faults self.new.faults }
        ensures bounded { result ≡ Write.Failed → self.new.faults < 2 ^ 64 }

        // It fails exactly at the chosen writes, and else takes the piece whole or finds no memory.
        ensures fails { (result ≡ Write.Failed) ↔ Contains self.old.fails self.old.writes }
        ensures whole { IfTook result (λ n. n ≡ length bytes.now) }
        ensures after { self.new ≡ record self.old {
          held = self.new.held;
          writes = next_count self.old.writes;
          faults = faults_after_write result self.old.faults;
        } }
    {
        let fails = self.fails.contains(&self.writes);
        self.writes = self.writes.saturating_add(1);
        if fails {
            self.faults = self.faults.saturating_add(1);
            return Write::Failed;
        }
        match self.held.extend_from_slice(bytes) {
            Ok(()) => Write::Took(bytes.len()),
            Err(_) => Write::NoMemory,
        }
    }
}

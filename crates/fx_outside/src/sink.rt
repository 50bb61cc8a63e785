ghost use Rattle.std.specs.Prelude.{◌≡◌, ℕ, ◌^◌, ◌<◌, ◌≤◌, List, length, Option};
ghost use Rattle.fx_outside.specs.Faults.{Rose};
ghost use Rattle.fx_outside.specs.Sink.{Writes};

/// The answer of a write.
#[derive(Clone, Copy, Debug, PartialEq, Eq)]
pub enum Write {
    /// So many bytes of the piece's front, at least one, were appended.
    Took(usize),
    /// The sink found no memory. Nothing was appended.
    NoMemory,
    /// The sink has a fault. Nothing was appended.
    Failed,
}

/// Bytes that go out. A sink is seen as the bytes that it holds, where it tells them, and a count of its faults, which
/// never falls.
pub trait Sink {
    ghost held: { Self → Option (List ℕ) };

    ghost faults: { Self → ℕ };

    /// Appends a front of `bytes`, which aren't empty. `Failed` comes only where the count of faults rose, or stands at the
    /// last number of 64 bits; `NoMemory` may come at any write.
    fn write(&mut self, bytes: &[u8]) -> Write
        requires { 0 < length bytes.now }
        ensures bytes { Writes (held self.old) (held self.new) result bytes.now }
        ensures later { faults self.old ≤ faults self.new }
        ensures cause { result ≡ Write.Failed → Rose (faults self.old) (faults self.new) }
        ensures bounded { result ≡ Write.Failed → faults self.new < 2 ^ 64 };
}

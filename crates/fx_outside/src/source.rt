ghost use Rattle.std.specs.Prelude.{◌≡◌, ℕ, ◌^◌, ◌<◌, ◌≤◌, List, length, Option};
ghost use Rattle.fx_outside.specs.Faults.{Rose};
ghost use Rattle.fx_outside.specs.Source.{Reads};

/// The answer of a read.
#[derive(Clone, Copy, Debug, PartialEq, Eq)]
pub enum Read {
    /// So many bytes, at least one, stand at the front of the buffer.
    Got(usize),
    /// No byte is left.
    End,
    /// The source has a fault. Nothing was taken from it.
    Failed,
}

/// Bytes that come in. A source is seen as the bytes that it still has, where it tells them, and a count of its faults,
/// which never falls.
pub trait Source {
    ghost left: { Self → Option (List ℕ) };

    ghost faults: { Self → ℕ };

    /// Reads into the front of `buf`, which isn't empty. `Failed` comes only where the count of faults rose, or stands at
    /// the last number of 64 bits.
    fn read(&mut self, buf: &mut [u8]) -> Read
        requires { 0 < length buf.old }
        ensures bytes { Reads (left self.old) (left self.new) result buf.new }
        ensures later { faults self.old ≤ faults self.new }
        ensures cause { result ≡ Read.Failed → Rose (faults self.old) (faults self.new) }
        ensures bounded { result ≡ Read.Failed → faults self.new < 2 ^ 64 };
}

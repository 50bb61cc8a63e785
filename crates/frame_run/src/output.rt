ghost use Rattle.std.specs.Prelude.{◌≡◌, ◌≤◌};
ghost use Rattle.fx_outside.specs.Faults.{Rose};
ghost use Rattle.fx_outside.specs.Told.{HasWritten, HasPart};

use fx_outside::{Sink, Write};

/// What a sink made of a text.
#[derive(Clone, Copy)]
pub enum Written {
    /// It took the whole text.
    Whole,
    /// It found no memory. It took a front of the text.
    NoMemory,
    /// It has a fault. It took a front of the text.
    Failed,
}

/// Writes the whole text, piece by piece where the sink takes less at a time.
pub fn write_all<K: Sink>(sink: &mut K, text: &[u8]) -> Written
    ensures whole { result ≡ Written.Whole → HasWritten (K.held sink.old) (K.held sink.new) text.now }
    ensures part { HasPart (K.held sink.old) (K.held sink.new) text.now }
    ensures later { K.faults sink.old ≤ K.faults sink.new }
    ensures cause { result ≡ Written.Failed → Rose (K.faults sink.old) (K.faults sink.new) }
{
    let mut at = 0;
    while at < text.len() {
        match sink.write(&text[at..]) {
            Write::Took(count) => at += count,
            Write::NoMemory => return Written::NoMemory,
            Write::Failed => return Written::Failed,
        }
    }
    Written::Whole
}

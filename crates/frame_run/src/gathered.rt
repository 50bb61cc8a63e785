ghost use Rattle.std.specs.Prelude.{◌≡◌, ◌≢◌, ◌≤◌, [], ◌++◌, MatchBool, vec_len};
ghost use Rattle.fx_outside.specs.Faults.{Rose};
ghost use Rattle.fx_outside.specs.Told.{HasWritten, HasPart, IsSoFar};
ghost use Rattle.frame_run.specs.declared.gathered.TheConstants.{GATHERED_MAX};

use super::output::{Written, write_all};
use fx_outside::Sink;
use std::alloc::Global;
use std::mem;

/// At most so many bytes are gathered before they are written.
pub const GATHERED_MAX: usize = 65_536;

/// The text of lines that is still to be written: that of the lines that have ended, and that of the present line.
#[derive(Drop)]
pub struct Gathered {
    pub text: Vec<u8>,
    pub line: Vec<u8>,
    ghost bounded: { vec_len text ≤ GATHERED_MAX },
}

impl Gathered {
    /// Nothing is gathered.
    pub fn new(alloc: Global) -> Gathered
        ensures { result.text.items ≡ [] }
    {
        Gathered {
            text: Vec::new(alloc),
            line: Vec::new(alloc),
        }
    }

    /// Writes what is gathered.
    pub fn write<K: Sink>(&mut self, sink: &mut K) -> Written
        ensures whole { result ≡ Written.Whole → HasWritten (K.held sink.old) (K.held sink.new) self.old.text.items }
        ensures part { HasPart (K.held sink.old) (K.held sink.new) self.old.text.items }
        ensures text { self.new.text.items ≡ [] }
        ensures line { self.new.line ≡ self.old.line }
        ensures later { K.faults sink.old ≤ K.faults sink.new }
        ensures cause { result ≡ Written.Failed → Rose (K.faults sink.old) (K.faults sink.new) }
    {
        let written = write_all(sink, self.text.as_slice());
        self.text.clear();
        written
    }

    /// Ends the present line: its text is gathered too where there is room for it, and else it is written after what was
    /// gathered.
    pub fn end_line<K: Sink>(&mut self, alloc: Global, sink: &mut K) -> Written
        ensures whole { result ≡ Written.Whole → IsSoFar (K.held sink.old) (K.held sink.new) (self.old.text.items ++ self.old.line.items) self.new.text.items }
        ensures part { HasPart (K.held sink.old) (K.held sink.new) (self.old.text.items ++ self.old.line.items) }
        ensures text { result ≢ Written.Whole → self.new.text.items ≡ [] }
        ensures later { K.faults sink.old ≤ K.faults sink.new }
        ensures cause { result ≡ Written.Failed → Rose (K.faults sink.old) (K.faults sink.new) }
    {
        if self.gather() {
            return Written::Whole;
        }
        match self.write(sink) {
            Written::Whole => {
                let line = mem::replace(&mut self.line, Vec::new(alloc));
                write_all(sink, line.as_slice())
            }
            Written::NoMemory => Written::NoMemory,
            Written::Failed => Written::Failed,
        }
    }

    // Gathers the text of the present line, where there is room for it.
    fn gather(&mut self) -> bool
        ensures text { MatchBool result (self.new.text.items ≡ self.old.text.items ++ self.old.line.items) (self.new.text.items ≡ self.old.text.items) }
        ensures line { self.new.line ≡ self.old.line }
    {
        if self.line.is_empty() {
            return true;
        }
        if GATHERED_MAX - self.text.len() < self.line.len() {
            return false;
        }
        self.text.extend_from_slice(self.line.as_slice()).is_ok()
    }
}

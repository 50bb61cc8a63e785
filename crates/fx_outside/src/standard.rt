ghost use Rattle.std.specs.Prelude.{◌≡◌, ◌^◌, ◌<◌, ◌≤◌, length, None};
ghost use Rattle.fx_outside.specs.Faults.{Rose};
ghost use Rattle.fx_outside.specs.Source.{Reads, faults_after_read};
ghost use Rattle.fx_outside.specs.Sink.{Writes, faults_after_write};
ghost use Rattle.fx_outside.specs.Standard.{StandardStream, ReadsFrom, WritesTo};

use super::{Read, Sink, Source, Write};
use std::io;
use std::marker::Model;

/// A source over a reader of std, as standard input. It tells no bytes. It is seen as its count of faults, of which each
/// error of the reader is one, and the bytes that the reader will give, where they are known.
#[derive(Drop)]
pub struct StdSource<R: io::Read + Drop> {
    reader: R,
    faults: u64,
}

impl<R: io::Read + Drop> Model for StdSource<R> {
    ghost Value = { StandardStream };

    ghost view = { λ s. record { faults = s.faults; known = R.remaining s.reader } };
}

impl<R: io::Read + Drop> StdSource<R> {
    /// A source over this reader.
    pub fn new(reader: R) -> StdSource<R>
        ensures { result ≡ record { faults = 0; known = R.remaining reader } }
    {
        StdSource { reader, faults: 0 }
    }
}

impl<R: io::Read + Drop> Source for StdSource<R> {
    ghost left = { λ _. None };

    ghost faults = { λ s. s.faults };

    fn read(&mut self, buf: &mut [u8]) -> Read
        requires { 0 < length buf.old }
        ensures bytes { Reads None None result buf.new }
        ensures reader { ReadsFrom self.old.known self.new.known result buf.new }
        ensures after { self.new.faults ≡ faults_after_read result self.old.faults }
        ensures later { self.old.faults ≤ self.new.faults }
        ensures cause { result ≡ Read.Failed → Rose self.old.faults self.new.faults }
        ensures bounded { result ≡ Read.Failed → self.new.faults < 2 ^ 64 }
    {
        match self.reader.read(buf) {
            Ok(0) => Read::End,
            Ok(count) => Read::Got(count),
            Err(_) => {
                self.faults = self.faults.saturating_add(1);
                Read::Failed
            }
        }
    }
}

/// A sink over a writer of std, as standard output. It tells no bytes. It is seen as its count of faults, of which each
/// error of the writer is one and each write that took nothing, and the bytes that the writer holds, where they are known.
#[derive(Drop)]
pub struct StdSink<W: io::Write + Drop> {
    writer: W,
    faults: u64,
}

impl<W: io::Write + Drop> Model for StdSink<W> {
    ghost Value = { StandardStream };

    ghost view = { λ s. record { faults = s.faults; known = W.contents s.writer } };
}

impl<W: io::Write + Drop> StdSink<W> {
    /// A sink over this writer.
    pub fn new(writer: W) -> StdSink<W>
        ensures { result ≡ record { faults = 0; known = W.contents writer } }
    {
        StdSink { writer, faults: 0 }
    }
}

impl<W: io::Write + Drop> Sink for StdSink<W> {
    ghost held = { λ _. None };

    ghost faults = { λ s. s.faults };

    fn write(&mut self, bytes: &[u8]) -> Write
        requires { 0 < length bytes.now }
        ensures bytes { Writes None None result bytes.now }
        ensures writer { WritesTo self.old.known self.new.known result bytes.now }
        ensures after { self.new.faults ≡ faults_after_write result self.old.faults }
        ensures later { self.old.faults ≤ self.new.faults }
        ensures cause { result ≡ Write.Failed → Rose self.old.faults self.new.faults }
        ensures bounded { result ≡ Write.Failed → self.new.faults < 2 ^ 64 }
    {
        match self.writer.write(bytes) {
            Ok(0) | Err(_) => {
                self.faults = self.faults.saturating_add(1);
                Write::Failed
            }
            Ok(count) => Write::Took(count),
        }
    }
}

ghost use Rattle.std.specs.Prelude.{◌≡◌, ◌<◌};

use crate::compare::expect;
use fx_outside::{
    MemorySink, MemorySource, Read, Sink, Source, StdSink, StdSource, Steps, SureSink, SureSource,
    Write,
};
use std::alloc::AllocError;
use std::collections::VecDeque;
use std::io;
use std::marker::Brand;
use std::process::Abort;
use std::sync::ledger::{Blank, Ledger};
use std::test::Fail;

// A reader and writer whose every call has an error.
#[derive(Drop)]
struct Broken;

impl io::Read for Broken {
    fn read(&mut self, _buf: &mut [u8]) -> io::Result<usize> {
        Err(io::ErrorKind::Other.into())
    }
}

impl io::Write for Broken {
    fn write(&mut self, _buf: &[u8]) -> io::Result<usize> {
        Err(io::ErrorKind::Other.into())
    }

    fn flush(&mut self) -> io::Result<()> {
        Ok(())
    }
}

// A writer that takes nothing.
#[derive(Drop)]
struct Full;

impl io::Write for Full {
    fn write(&mut self, _buf: &[u8]) -> io::Result<usize> {
        Ok(0)
    }

    fn flush(&mut self) -> io::Result<()> {
        Ok(())
    }
}

// Reads once into a buffer of four bytes, and asserts the answer and the bytes that came.
fn read_gives<S: Source>(rt: &impl Abort, source: &mut S, answer: Read, bytes: &[u8]) {
    let mut buf = [0; 4];
    let got = source.read(&mut buf);
    expect(rt, got, answer);
    if let Read::Got(count) = got {
        assert!(rt; count <= 4);
        expect(rt, &buf[..count], bytes);
    }
}

fn write_gives<K: Sink>(rt: &impl Abort, sink: &mut K, answer: Write) {
    expect(rt, sink.write(b"abc"), answer);
}

fn ticks_twice<L: Ledger>(blank: Blank)
    requires name { blank.name ≡ L.name }
    requires parts { blank.parts ≡ L.parts }
    requires some { 0 < L.parts }
{
    let mut steps = Steps::<L>::at_zero(blank);
    steps.tick();
    steps.tick();
}

#[test]
fn a_memory_source_gives_pieces_and_fails_where_it_is_told(rt: HostRuntime) -> Result<(), Fail> {
    for (piece, first, second) in [(0, b"a".as_slice(), b"b".as_slice()), (3, b"abc", b"def")] {
        let bytes = b"abcdef".to_vec(rt.alloc())?;
        let mut source = MemorySource::new(bytes, piece, vec![in rt.alloc(); 1]?);
        read_gives(&rt, &mut source, Read::Got(first.len()), first);
        read_gives(&rt, &mut source, Read::Failed, b"");
        read_gives(&rt, &mut source, Read::Got(second.len()), second);
    }
    let mut source = MemorySource::new(b"abcdef".to_vec(rt.alloc())?, 4096, Vec::new(rt.alloc()));
    read_gives(&rt, &mut source, Read::Got(4), b"abcd");
    read_gives(&rt, &mut source, Read::Got(2), b"ef");
    read_gives(&rt, &mut source, Read::End, b"");
    let mut source = SureSource::new(b"abcdef".to_vec(rt.alloc())?);
    read_gives(&rt, &mut source, Read::Got(4), b"abcd");
    read_gives(&rt, &mut source, Read::Got(2), b"ef");
    read_gives(&rt, &mut source, Read::End, b"");
    Ok(())
}

#[test]
fn a_memory_sink_holds_whole_pieces_and_fails_where_it_is_told(
    rt: HostRuntime,
) -> Result<(), Fail> {
    let mut sink = MemorySink::new(rt.alloc(), vec![in rt.alloc(); 1, 3]?);
    write_gives(&rt, &mut sink, Write::Took(3));
    write_gives(&rt, &mut sink, Write::Failed);
    write_gives(&rt, &mut sink, Write::Took(3));
    write_gives(&rt, &mut sink, Write::Failed);
    expect(&rt, sink.bytes(), b"abcabc".as_slice());
    let mut sink = SureSink::new();
    write_gives(&rt, &mut sink, Write::Took(3));
    write_gives(&rt, &mut sink, Write::Took(3));
    expect(&rt, sink.taken(), 6);
    Ok(())
}

#[test]
fn a_standard_source_reads_its_reader(rt: HostRuntime) -> Result<(), Fail> {
    let mut bytes = VecDeque::new(rt.alloc());
    for byte in b"abcdef" {
        bytes.push_back(*byte)?;
    }
    let mut source = StdSource::new(bytes);
    read_gives(&rt, &mut source, Read::Got(4), b"abcd");
    read_gives(&rt, &mut source, Read::Got(2), b"ef");
    read_gives(&rt, &mut source, Read::End, b"");
    read_gives(&rt, &mut StdSource::new(Broken), Read::Failed, b"");
    Ok(())
}

#[test]
fn a_standard_sink_writes_to_its_writer(rt: HostRuntime) {
    write_gives(
        &rt,
        &mut StdSink::new(VecDeque::new(rt.alloc())),
        Write::Took(3),
    );
    write_gives(&rt, &mut StdSink::new(Broken), Write::Failed);
    write_gives(&rt, &mut StdSink::new(Full), Write::Failed);
}

#[test]
fn steps_are_counted_on_a_ledger() {
    ticks_twice::<Brand>(Blank::new(1));
}

//! What no contract says: each adapter at a concrete reader and writer, and ample memory.
use crate::{
    Gate, MAX_INPUT, MemSink, MemSource, OpenGate, ReadSource, ReadStop, Sink, Source, WriteSink,
    read_all, write_all,
};
use lvs_types::Failed;
use std::alloc::Global;
use std::io;
use std::io::{Cursor, ErrorKind, Read, Write};
use std::test::Fail;

/// A writer that takes all, and whose flush fails.
#[derive(Drop)]
struct StuckWriter(Vec<u8>);

impl Write for StuckWriter {
    fn write(&mut self, bytes: &[u8]) -> io::Result<usize> {
        self.0.write(bytes)
    }

    fn flush(&mut self) -> io::Result<()> {
        Err(io::Error::from(ErrorKind::BrokenPipe))
    }
}

/// A reader that fails once, and then has no more.
#[derive(Drop)]
struct FailingReader {
    has_failed: bool,
}

impl Read for FailingReader {
    fn read(&mut self, _buf: &mut [u8]) -> io::Result<usize> {
        if self.has_failed {
            return Ok(0);
        }
        self.has_failed = true;
        Err(io::Error::from(ErrorKind::Other))
    }
}

fn filled(alloc: Global, count: usize) -> Result<Vec<u8>, Fail> {
    Ok(vec![in alloc; 7u8; count]?)
}

#[test]
fn a_source_gives_pieces_and_fails_where_it_is_told(rt: HostRuntime) -> Result<(), Fail> {
    let alloc = rt.alloc();
    let mut source = MemSource::new(b"abcdef".to_vec(alloc)?, 4, [1u64].to_vec(alloc)?);
    let mut buf = [0u8; 8];
    assert_eq!(rt; source.read(&mut buf), Ok(4));
    assert_eq!(rt; source.read(&mut buf), Err(Failed));
    assert_eq!(rt; source.read(&mut buf), Ok(2));
    assert_eq!(rt; source.read(&mut buf), Ok(0));
    Ok(())
}

#[test]
fn a_sink_takes_pieces_until_it_is_full(rt: HostRuntime) -> Result<(), Fail> {
    let alloc = rt.alloc();
    let mut sink = MemSink::new(alloc, 4, 5, Vec::new(alloc))?;
    assert_eq!(rt; sink.write(b"abcdef"), Ok(4));
    assert_eq!(rt; sink.write(b"ef"), Ok(1));
    assert_eq!(rt; sink.write(b"f"), Err(Failed));
    assert_eq!(rt; sink.write(b""), Ok(0));
    assert_eq!(rt; sink.bytes(), b"abcde".as_slice());
    Ok(())
}

#[test]
fn a_long_input_is_cut_at_its_limit(rt: HostRuntime) -> Result<(), Fail> {
    let alloc = rt.alloc();
    let mut source = MemSource::new(filled(alloc, MAX_INPUT)?, 100_000, Vec::new(alloc));
    match read_all(alloc, &mut source) {
        Ok(bytes) => assert_eq!(rt; bytes.len(), MAX_INPUT),
        Err(stop) => assert_eq!(rt; stop, ReadStop::NoMemory, "an input of the greatest length"),
    }
    let mut source = MemSource::new(filled(alloc, MAX_INPUT + 5)?, 100_000, Vec::new(alloc));
    assert_eq!(rt; read_all(alloc, &mut source).err(), Some(ReadStop::TooLong));
    Ok(())
}

#[test]
fn a_reader_and_a_writer_of_std_serve(rt: HostRuntime) -> Result<(), Fail> {
    let alloc = rt.alloc();
    let mut source = ReadSource::new(Cursor::new(b"abc".as_slice()));
    match read_all(alloc, &mut source) {
        Ok(bytes) => assert_eq!(rt; bytes.as_slice(), b"abc".as_slice()),
        Err(stop) => assert_eq!(rt; stop, ReadStop::NoMemory, "a reader over memory"),
    }
    let mut sink = WriteSink::new(Vec::new(alloc));
    assert_eq!(rt; write_all(&mut sink, b"xyz"), Ok(()));
    assert_eq!(rt; sink.faults(), 0);
    assert_eq!(rt; sink.into_inner().as_slice(), b"xyz".as_slice());
    Ok(())
}

#[test]
fn a_write_is_offered_whole(rt: HostRuntime) -> Result<(), Fail> {
    let alloc = rt.alloc();
    let bytes = filled(alloc, 100_000)?;
    let mut sink = WriteSink::new(Vec::new(alloc));
    assert_eq!(rt; sink.write(&bytes), Ok(100_000));
    Ok(())
}

#[test]
fn a_flush_that_fails_is_a_fault_and_nothing_follows_it(rt: HostRuntime) -> Result<(), Fail> {
    let alloc = rt.alloc();
    let mut sink = WriteSink::new(StuckWriter(Vec::new(alloc)));
    assert_eq!(rt; sink.write(b"abc"), Err(Failed));
    assert_eq!(rt; sink.write(b"def"), Err(Failed));
    assert_eq!(rt; sink.faults(), 2);
    assert_eq!(rt; sink.into_inner().0.as_slice(), b"abc".as_slice());
    Ok(())
}

#[test]
fn a_read_that_fails_is_no_end(rt: HostRuntime) -> Result<(), Fail> {
    let mut source = ReadSource::new(FailingReader { has_failed: false });
    assert_eq!(rt;
        read_all(rt.alloc(), &mut source).err(),
        Some(ReadStop::Fault)
    );
    assert!(rt; source.into_inner().has_failed);
    Ok(())
}

#[test]
fn an_open_gate_returns() {
    OpenGate.at(3, 0);
}

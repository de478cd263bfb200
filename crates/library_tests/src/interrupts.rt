//! std's readers and writers that are interrupted.

use std::io::{self, ErrorKind, Read, Write};
use std::test::Fail;
use streams::standard::{StdReader, StdWriter};
use streams::{ByteSink, ByteSource, put, read_at_most};

/// A reader and writer whose next calls are interrupted so many times, and then fail or not. It forgets what is written.
#[derive(Drop)]
struct InterruptedStream<'t> {
    times: usize,
    fails: bool,
    rest: &'t [u8],
}

impl<'t> InterruptedStream<'t> {
    fn new(times: usize, fails: bool, rest: &'t [u8]) -> InterruptedStream<'t> {
        InterruptedStream { times, fails, rest }
    }

    /// What an interruption or a failure answers, if it is due.
    fn refuse(&mut self) -> io::Result<()> {
        if self.times > 0 {
            self.times -= 1;
            return Err(io::Error::from(ErrorKind::Interrupted));
        }
        if self.fails {
            return Err(io::Error::from(ErrorKind::Other));
        }
        Ok(())
    }
}

impl Read for InterruptedStream<'_> {
    fn read(&mut self, buf: &mut [u8]) -> io::Result<usize> {
        self.refuse()?;
        self.rest.read(buf)
    }
}

impl Write for InterruptedStream<'_> {
    fn write(&mut self, buf: &[u8]) -> io::Result<usize> {
        self.refuse()?;
        Ok(buf.len())
    }

    fn flush(&mut self) -> io::Result<()> {
        Ok(())
    }
}

#[test]
fn an_interrupted_read_is_tried_again(rt: HostRuntime) -> Result<(), Fail> {
    for times in [0, 1, 2, 30] {
        let mut source = StdReader::new(InterruptedStream::new(times, false, b"TAD 200"));
        let text = read_at_most(rt.alloc(), &mut source, 100)?;
        assert!(rt; text.as_slice() == b"TAD 200".as_slice() && !source.failed());
    }
    let mut source = StdReader::new(InterruptedStream::new(3, true, b"TAD 200"));
    assert!(rt; read_at_most(rt.alloc(), &mut source, 100).is_err() && source.failed());
    Ok(())
}

#[test]
fn an_interrupted_write_is_tried_again(rt: HostRuntime) {
    for times in [0, 1, 2, 30] {
        let mut sink = StdWriter::new(InterruptedStream::new(times, false, b""));
        assert!(rt; put(&mut sink, b"HALT 0200").is_ok() && !sink.failed());
    }
    let mut sink = StdWriter::new(InterruptedStream::new(3, true, b""));
    assert!(rt; put(&mut sink, b"HALT 0200").is_err() && sink.failed());
}

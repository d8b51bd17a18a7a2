//! Sources and sinks over other streams.

use isl_io::{CleanSink, CleanSource, Failed, Sink, Source, StdSink, StdSource};
use std::alloc::Global;
use std::io;
use std::io::{ErrorKind, Read, Write};

// A stream that gives or takes a number of bytes at each call, or fails where there is none, and that may
// fail to flush what it took.
#[derive(Drop)]
struct Stream {
    moves: Option<usize>,
    flushes: bool,
}

impl Read for Stream {
    fn read(&mut self, buf: &mut [u8]) -> io::Result<usize> {
        let n = self.moves.ok_or(ErrorKind::Other)?.min(buf.len());
        buf[..n].fill(b'a');
        Ok(n)
    }
}

impl Write for Stream {
    fn write(&mut self, buf: &[u8]) -> io::Result<usize> {
        Ok(self.moves.ok_or(ErrorKind::Other)?.min(buf.len()))
    }

    fn flush(&mut self) -> io::Result<()> {
        if self.flushes {
            Ok(())
        } else {
            Err(ErrorKind::Other.into())
        }
    }
}

pub(crate) fn streams_are_passed_on() -> bool {
    let mut right = true;
    for (moves, flushes, read, written) in [
        (Some(4), true, Ok(4), Ok(4)),
        (Some(0), true, Ok(0), Err(Failed)),
        (None, true, Err(Failed), Err(Failed)),
        (Some(4), false, Ok(4), Err(Failed)),
    ] {
        let mut source = StdSource::new(Stream { moves, flushes });
        let mut sink = StdSink::new(Stream { moves, flushes });
        right = source.read(&mut [0; 12]) == read && sink.write(b"abcdef") == written && right;
    }
    right
}

pub(crate) fn clean_ends_take_all(alloc: Global) -> bool {
    match b"{ };{ };".to_vec(alloc) {
        Ok(script) => {
            let mut source = CleanSource::new(script, 5);
            let five = source.read(&mut [0; 12]) == Ok(5);
            let three = source.read(&mut [0; 12]) == Ok(3);
            let none = source.read(&mut [0; 12]) == Ok(0);
            five && three && none && CleanSink::new().write(b"abc") == Ok(3)
        }
        Err(_) => false,
    }
}

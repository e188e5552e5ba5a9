//! Tests of the devices that wrap readers and writers.
use crate::all_hold::all_hold;
use std::io::{self, Read, Write};
use widestring::bytes::{ByteSink, ByteSource, FromRead, FromWrite, put_all};

// Returns whether a device moved this many bytes.
fn is_moved(answer: io::Result<usize>, count: usize) -> bool {
    match answer {
        Ok(moved) => moved == count,
        Err(_) => false,
    }
}

#[test]
fn readers_and_writers(rt: HostRuntime) {
    let mut source = FromRead::new(b"abc".as_slice());
    let mut ended = FromRead::new(b"".as_slice());
    let mut sink = FromWrite::new(Vec::new(rt.alloc()));
    let mut buffer = [0; 2];
    let cases = [
        is_moved(source.take(&mut []), 0),
        !source.failed() && !source.ended() && is_moved(source.take(&mut buffer), 2),
        is_moved(source.into_inner().read(&mut buffer), 1),
        is_moved(ended.take(&mut buffer), 0),
        ended.ended(),
        !ended.failed(),
        is_moved(sink.put(b"ab"), 2),
        !sink.failed() && put_all(&mut sink, b"c") == Ok(()),
        sink.into_inner().as_slice() == b"abc".as_slice(),
    ];
    all_hold(&rt, &cases);
}

// A reader and a writer that may fail at the first call and succeed at the second, and count their calls and flushes.
#[derive(Drop)]
struct Counting {
    first: Option<io::ErrorKind>,
    calls: usize,
    flushes: usize,
}

impl Counting {
    fn new(first: Option<io::ErrorKind>) -> Counting {
        Counting {
            first,
            calls: 0,
            flushes: 0,
        }
    }

    fn call(&mut self) -> io::Result<()> {
        self.calls = self.calls.saturating_add(1);
        match self.first {
            Some(kind) if self.calls == 1 => Err(io::Error::from(kind)),
            _ => Ok(()),
        }
    }
}

impl Read for Counting {
    fn read(&mut self, _buf: &mut [u8]) -> io::Result<usize> {
        self.call()?;
        Ok(0)
    }
}

impl Write for Counting {
    fn write(&mut self, bytes: &[u8]) -> io::Result<usize> {
        self.call()?;
        Ok(bytes.len())
    }

    fn flush(&mut self) -> io::Result<()> {
        self.flushes = self.flushes.saturating_add(1);
        Ok(())
    }
}

// Returns whether a source and a sink fail at the first call, and make exactly one call of what they wrap.
fn fail_once(kind: io::ErrorKind) -> bool {
    let mut source = FromRead::new(Counting::new(Some(kind)));
    let mut sink = FromWrite::new(Counting::new(Some(kind)));
    source.take(&mut [0]).is_err()
        && source.failed()
        && source.into_inner().calls == 1
        && sink.put(b"a").is_err()
        && sink.failed()
        && sink.into_inner().calls == 1
}

#[test]
fn no_device_tries_again_or_flushes(rt: HostRuntime) {
    let mut sink = FromWrite::new(Counting::new(None));
    let is_put = is_moved(sink.put(b"ab"), 2);
    let counts = sink.into_inner();
    let cases = [
        fail_once(io::ErrorKind::Other),
        fail_once(io::ErrorKind::Interrupted),
        is_put && counts.calls == 1 && counts.flushes == 0,
    ];
    all_hold(&rt, &cases);
}

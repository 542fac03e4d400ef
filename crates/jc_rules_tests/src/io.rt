//! Readings and writings, whole and cut short.

use crate::testing::{flushes, has_bytes, holds, reads, writes};
use jc_fakes::{Bytes, Endless, FailsAt, OneByte, Taken, TakesUpTo, Then};
use jc_io::{Failed, FromRead, ReadFault, Sink, Source, ToWrite, read_up_to, write_all};
use std::alloc::Global;
use std::io;
use std::io::{ErrorKind, Read, Write};
use std::process::Abort;

/// A reading of at most so many bytes gives this text.
fn gives<S: Source>(rt: &impl Abort, alloc: Global, source: &mut S, most: usize, want: &str) {
    let all = read_up_to(alloc, source, most).expect(rt, "a reading");
    has_bytes(rt, all.as_slice(), want.as_bytes());
}

/// A reading ends where a read fails.
fn fails<S: Source>(rt: &impl Abort, alloc: Global, source: &mut S, most: usize) {
    let answer = read_up_to(alloc, source, most);
    holds(rt, "a failure", matches!(&answer, Err(ReadFault::Failed)));
}

/// How many bytes are read at most, and what comes.
const READINGS: &[(usize, &str)] = &[(0, ""), (5, "line\n"), (6, "line\nx"), (7, "line\nx")];

#[test]
fn reads_up_to_the_limit(rt: HostRuntime) {
    for (most, want) in READINGS {
        gives(&rt, rt.alloc(), &mut Bytes::new(b"line\nx"), *most, want);
        let mut single = OneByte::new(Bytes::new(b"line\nx"));
        gives(&rt, rt.alloc(), &mut single, *most, want);
    }
    let mut source = Bytes::new(b"line\nx");
    gives(&rt, rt.alloc(), &mut source, 5, "line\n");
    gives(&rt, rt.alloc(), &mut source, 5, "x");
    let mut reader = FromRead::new(b"line\nx".as_slice());
    gives(&rt, rt.alloc(), &mut reader, 10, "line\nx");
}

#[test]
fn cuts_an_endless_source(rt: HostRuntime) {
    let all = read_up_to(rt.alloc(), &mut Endless::new(b'a'), 10000).expect(&rt, "a reading");
    holds(&rt, "the length", all.len() == 10000);
    holds(&rt, "each byte", all.iter().all(|byte| *byte == b'a'));
}

// Three bytes come in three reads, and the fourth read finds the end. A reading ends where a read fails, and the next
// gives the rest.
#[test]
fn a_failed_read_ends_the_reading(rt: HostRuntime) {
    for (at, rest) in [(0, "abc"), (1, "bc"), (2, "c"), (3, "")] {
        let mut source = FailsAt::new(OneByte::new(Bytes::new(b"abc")), at);
        fails(&rt, rt.alloc(), &mut source, 10);
        gives(&rt, rt.alloc(), &mut source, 10, rest);
    }
    let mut source = FailsAt::new(OneByte::new(Bytes::new(b"abc")), 4);
    gives(&rt, rt.alloc(), &mut source, 10, "abc");
}

/// A reader that gives one byte a call and fails at its second, and a writer that takes one byte a
/// call and fails at its second, as at each flush.
#[derive(Drop)]
struct Broken {
    calls: u8,
}

impl Broken {
    fn turn(&mut self) -> io::Result<usize> {
        self.calls = self.calls.saturating_add(1);
        if self.calls == 2 {
            return Err(ErrorKind::BrokenPipe.into());
        }
        Ok(1)
    }
}

impl Read for Broken {
    fn read(&mut self, buf: &mut [u8]) -> io::Result<usize> {
        if buf.is_empty() {
            return Ok(0);
        }
        self.turn()?;
        buf[0] = b'x';
        Ok(1)
    }
}

impl Write for Broken {
    fn write(&mut self, buf: &[u8]) -> io::Result<usize> {
        if buf.is_empty() {
            return Ok(0);
        }
        self.turn()?;
        Ok(1)
    }

    fn flush(&mut self) -> io::Result<()> {
        Err(ErrorKind::BrokenPipe.into())
    }
}

#[test]
fn an_error_is_failed(rt: HostRuntime) {
    let mut source = FromRead::new(Broken { calls: 0 });
    let mut sink = ToWrite::new(Broken { calls: 0 });
    let mut buf = [0; 2];
    for want in [Ok(1), Err(Failed), Ok(1)] {
        reads(&rt, &mut source, &mut buf, want);
        writes(&rt, &mut sink, b"xyz", want);
    }
    flushes(&rt, &mut sink, Err(Failed));
}

fn writes_all<K: Sink>(rt: &impl Abort, sink: &mut K, text: &str, want: Result<(), Failed>) {
    holds(rt, text, write_all(sink, text.as_bytes()) == want);
}

// A full slice takes 0 bytes, with no error of its own: that is a failure.
#[test]
fn writes_to_a_writer(rt: HostRuntime) {
    for (text, want) in [("at 0", Ok(())), ("at 0 of 0\n", Err(Failed))] {
        let mut bytes = [0; 4];
        let mut sink = ToWrite::new(bytes.as_mut_slice());
        writes_all(&rt, &mut sink, text, want);
        flushes(&rt, &mut sink, Ok(()));
        drop(sink);
        has_bytes(&rt, &bytes, b"at 0");
    }
}

#[test]
fn writes_the_same_by_single_bytes(rt: HostRuntime) {
    let mut sink = OneByte::new(Taken::new(rt.alloc()));
    writes_all(&rt, &mut sink, "at 0 of 0\n", Ok(()));
    writes_all(&rt, &mut sink, "", Ok(()));
    has_bytes(&rt, sink.inner.as_slice(), b"at 0 of 0\n");
}

/// How much room a sink has, how a writing ends there, and what the sink then holds.
const ROOMS: &[(usize, Result<(), Failed>, &str)] = &[
    (0, Err(Failed), ""),
    (4, Err(Failed), "at 0"),
    (9, Err(Failed), "at 0 of 0"),
    (10, Ok(()), "at 0 of 0\n"),
];

#[test]
fn writes_until_the_sink_refuses(rt: HostRuntime) {
    for then in [Then::Fails, Then::TakesNone] {
        for (room, want, text) in ROOMS {
            let mut sink = TakesUpTo::new(Taken::new(rt.alloc()), *room, then);
            writes_all(&rt, &mut sink, "at 0 of 0\n", *want);
            has_bytes(&rt, sink.sink.as_slice(), text.as_bytes());
        }
    }
}

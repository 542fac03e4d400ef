//! Each source and sink by itself.

use crate::testing::{flushes, has_bytes, holds, reads, writes};
use jc_fakes::{Bytes, CountsFlushes, Endless, FailsAt, OneByte, Taken, TakesUpTo, Then};
use jc_io::Failed;

#[test]
fn bytes_fill_the_buffer(rt: HostRuntime) {
    let mut source = Bytes::new(b"abc");
    let mut buf = [0; 2];
    reads(&rt, &mut source, &mut [], Ok(0));
    reads(&rt, &mut source, &mut buf, Ok(2));
    has_bytes(&rt, &buf, b"ab");
    reads(&rt, &mut source, &mut buf, Ok(1));
    has_bytes(&rt, &buf, b"cb");
    reads(&rt, &mut source, &mut buf, Ok(0));
}

#[test]
fn endless_fills_the_buffer(rt: HostRuntime) {
    let mut source = Endless::new(b'\n');
    let mut buf = [0; 3];
    reads(&rt, &mut source, &mut buf, Ok(3));
    has_bytes(&rt, &buf, b"\n\n\n");
}

#[test]
fn one_byte_is_read(rt: HostRuntime) {
    let mut source = OneByte::new(Bytes::new(b"ab"));
    let mut buf = [0; 2];
    reads(&rt, &mut source, &mut [], Ok(0));
    reads(&rt, &mut source, &mut buf, Ok(1));
    has_bytes(&rt, &buf, b"a\0");
}

#[test]
fn one_byte_is_written(rt: HostRuntime) {
    let mut sink = OneByte::new(CountsFlushes::new(Taken::new(rt.alloc())));
    writes(&rt, &mut sink, b"ab", Ok(1));
    writes(&rt, &mut sink, b"", Ok(0));
    flushes(&rt, &mut sink, Ok(()));
    holds(&rt, "flushes", sink.inner.flushes == 1);
    has_bytes(&rt, sink.inner.sink.as_slice(), b"a");
}

#[test]
fn one_read_fails(rt: HostRuntime) {
    let mut source = FailsAt::new(Bytes::new(b"abc"), 1);
    let mut buf = [0; 1];
    for want in [Ok(1), Err(Failed), Ok(1), Ok(1), Ok(0)] {
        reads(&rt, &mut source, &mut buf, want);
    }
}

#[test]
fn one_flush_or_write_fails(rt: HostRuntime) {
    let mut sink = FailsAt::new(Taken::new(rt.alloc()), 1);
    writes(&rt, &mut sink, b"ab", Ok(2));
    flushes(&rt, &mut sink, Err(Failed));
    flushes(&rt, &mut sink, Ok(()));
    writes(&rt, &mut sink, b"c", Ok(1));
    has_bytes(&rt, sink.inner.as_slice(), b"abc");
    let mut sink = FailsAt::new(Taken::new(rt.alloc()), 0);
    writes(&rt, &mut sink, b"ab", Err(Failed));
    has_bytes(&rt, sink.inner.as_slice(), b"");
}

#[test]
fn flushes_are_counted(rt: HostRuntime) {
    let mut sink = CountsFlushes::new(Taken::new(rt.alloc()));
    writes(&rt, &mut sink, b"ab", Ok(2));
    holds(&rt, "none", sink.flushes == 0);
    flushes(&rt, &mut sink, Ok(()));
    flushes(&rt, &mut sink, Ok(()));
    holds(&rt, "two", sink.flushes == 2);
    has_bytes(&rt, sink.sink.as_slice(), b"ab");
    let mut sink = CountsFlushes::new(FailsAt::new(Taken::new(rt.alloc()), 0));
    flushes(&rt, &mut sink, Err(Failed));
    holds(&rt, "a failed one", sink.flushes == 1);
}

#[test]
fn takes_up_to_its_room(rt: HostRuntime) {
    for (then, refusal) in [(Then::Fails, Err(Failed)), (Then::TakesNone, Ok(0))] {
        let mut sink = TakesUpTo::new(CountsFlushes::new(Taken::new(rt.alloc())), 3, then);
        writes(&rt, &mut sink, b"ab", Ok(2));
        writes(&rt, &mut sink, b"cd", Ok(1));
        writes(&rt, &mut sink, b"d", refusal);
        writes(&rt, &mut sink, b"d", refusal);
        writes(&rt, &mut sink, b"", Ok(0));
        flushes(&rt, &mut sink, Ok(()));
        holds(&rt, "counts", sink.refused == 2 && sink.sink.flushes == 1);
        has_bytes(&rt, sink.sink.sink.as_slice(), b"abc");
    }
}

//! Tests of sessions that are cut short, by a source, a sink or a limit.

use crate::nets::holds;
use crate::sessions::{ANSWERS, EMPTY, LINES, RECEIVED, ends};
use jc_fakes::{Bytes, FailsAt, OneByte, Taken, TakesUpTo, Then};
use jc_io::Source;
use std::process::Abort;
use std::test::Fail;

/// Expects a session on these lines to end so, after it wrote this.
fn writes<R: AllocGlobal + Abort, S: Source>(rt: &R, lines: &mut S, end: u8, want: &str) {
    let mut out = Taken::new(rt.alloc());
    ends(rt, RECEIVED, lines, &mut out, end);
    holds(rt, out.as_slice() == want.as_bytes());
}

#[test]
fn one_byte_a_call(rt: HostRuntime) {
    let mut lines = OneByte::new(Bytes::new(LINES.as_bytes()));
    writes(&rt, &mut lines, 0, ANSWERS);
}

/// Where each read gives one byte, a failed read comes after the answers of all lines whose LF was read: the lines have
/// 7, three times 18, and 8 bytes, and one more read finds the end.
#[test]
fn a_read_that_fails(rt: HostRuntime) {
    let first = "at 4\n";
    let second = "at 4\nat 4\nstuck 36 DepsMissing b.apply(2, a)\n";
    let third = "at 4\nat 4\nstuck 36 DepsMissing b.apply(2, a)\nat 5\n";
    let fourth = "at 4\nat 4\nstuck 36 DepsMissing b.apply(2, a)\nat 5\nat 6\n";
    for k in 0..70 {
        let want = match k {
            0..=6 => "",
            7..=24 => first,
            25..=42 => second,
            43..=60 => third,
            61..=68 => fourth,
            _ => ANSWERS,
        };
        let mut lines = FailsAt::new(OneByte::new(Bytes::new(LINES.as_bytes())), k);
        writes(&rt, &mut lines, 55, want);
    }
}

/// Expects a sink with room for so many bytes to have these at the end, and the session to end with a failed write.
fn fills<R: AllocGlobal + Abort>(rt: &R, room: usize, then: Then, want: &str) {
    let mut out = TakesUpTo::new(Taken::new(rt.alloc()), room, then);
    ends(
        rt,
        EMPTY,
        &mut Bytes::new(b"where\nstep\nstate\n"),
        &mut out,
        56,
    );
    holds(rt, out.sink.as_slice() == want.as_bytes());
}

#[test]
fn a_writer_that_is_full(rt: HostRuntime) {
    fills(&rt, 10, Then::Fails, "at 0 of 0\n");
    fills(&rt, 10, Then::TakesNone, "at 0 of 0\n");
    fills(&rt, 4, Then::Fails, "at 0");
    fills(&rt, 4, Then::TakesNone, "at 0");
}

/// So many times one byte, and these bytes after them.
fn filled<R: AllocGlobal>(rt: &R, byte: u8, n: usize, last: &[u8]) -> Result<Vec<u8>, Fail> {
    let mut bytes = Vec::new(rt.alloc());
    for _ in 0..n {
        bytes.push(byte)?;
    }
    bytes.extend_from_slice(last)?;
    Ok(bytes)
}

#[test]
fn a_line_that_is_too_long(rt: HostRuntime) -> Result<(), Fail> {
    let over = filled(&rt, b' ', 4097, b"\nwhere\n")?;
    writes(
        &rt,
        &mut Bytes::new(&over),
        0,
        "refused 58 BadLine\nat 0 of 4\n",
    );
    let just = filled(&rt, b' ', 4096, b"\nwhere")?;
    writes(&rt, &mut Bytes::new(&just), 0, "at 0 of 4\n");
    Ok(())
}

#[test]
fn a_million_lines(rt: HostRuntime) -> Result<(), Fail> {
    let lines = filled(&rt, b'\n', 1000000, b"")?;
    writes(&rt, &mut Bytes::new(&lines), 0, "");
    let more = filled(&rt, b'\n', 1000000, b"w")?;
    writes(&rt, &mut Bytes::new(&more), 57, "");
    Ok(())
}

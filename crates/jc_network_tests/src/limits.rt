//! Tests of sessions at their limits: the most bytes of lines, and the most events.

use crate::nets::holds;
use crate::sessions::{EMPTY, ends};
use jc_fakes::{Bytes, Taken};
use jc_io::{Failed, Source};
use std::alloc::{AllocError, Global};
use std::process::Abort;
use std::test::Fail;

/// A source of some bytes, of a line so many times, and of some bytes at the end.
#[derive(Drop)]
struct Repeated<'a> {
    left: &'a [u8],
    line: &'a [u8],
    turns: u64,
    last: &'a [u8],
}

impl<'a> Source for Repeated<'a> {
    ghost use Rattle.std.specs.Prelude.{None};

    ghost left = { λ _. None };

    ghost failures = { λ _. 0 };

    fn read(&mut self, buf: &mut [u8]) -> Result<usize, Failed> {
        if self.left.is_empty() {
            if self.turns > 0 {
                self.turns -= 1;
                self.left = self.line;
            } else {
                self.left = self.last;
                self.last = &[];
            }
        }
        let n = buf.len().min(self.left.len());
        let (front, rest) = self.left.split_at(n);
        buf[..n].copy_from_slice(front);
        self.left = rest;
        Ok(n)
    }
}

/// So many bytes: the first ones, blanks, and the last ones.
fn filled(alloc: Global, first: &str, count: usize, last: &str) -> Result<Vec<u8>, AllocError> {
    let mut bytes = Vec::new(alloc);
    bytes.extend_from_slice(first.as_bytes())?;
    for _ in first.len()..count.saturating_sub(last.len()) {
        bytes.push(b' ')?;
    }
    bytes.extend_from_slice(last.as_bytes())?;
    Ok(bytes)
}

/// Expects the end and the answers of a session on 16,384 lines of 4,096 bytes, which are 67,108,864 bytes, the most
/// that there may be. The last line ends so, without an LF, and has so many bytes.
fn expect<R: AllocGlobal + Abort>(
    rt: &R,
    last: (&str, usize),
    end: u8,
    want: &str,
) -> Result<(), Fail> {
    let first = filled(rt.alloc(), "where", 4_096, "\n")?;
    let line = filled(rt.alloc(), "", 4_096, "\n")?;
    let last = filled(rt.alloc(), "", last.1, last.0)?;
    let mut lines = Repeated {
        left: &first,
        line: &line,
        turns: 16_382,
        last: &last,
    };
    let mut out = Taken::new(rt.alloc());
    ends(rt, EMPTY, &mut lines, &mut out, end);
    holds(rt, out.as_slice() == want.as_bytes());
    Ok(())
}

#[test]
fn most_bytes(rt: HostRuntime) -> Result<(), Fail> {
    expect(&rt, ("step", 4_096), 0, "at 0 of 0\nrefused 51 AtEnd\n")?;
    expect(&rt, ("step ", 4_097), 57, "at 0 of 0\n")
}

/// At the last position that there may be, each event is refused; a text that is no event is refused as that.
const LINES: &str =
    "goto 100000\nact a.send\nact a.exec\nact b.send\nact a.jump\nback\nact a.send\nwhere\n";

const ANSWERS: &str =
    "at 100000\nrefused 19 TooManyEvents\nrefused 19 TooManyEvents\nrefused 18 UnknownReplica at 0\nrefused 7 Unexpected at 2\nat 99999\nat 100000\nat 100000 of 100000\n";

/// A replica that sends at each of 100,000 events.
fn full(alloc: Global) -> Result<String, AllocError> {
    let mut text = String::from_str(alloc, "jsoncrdt 1 replica a {yield} schedule {")?;
    for _ in 0..100_000 {
        text.push_str("a.send;")?;
    }
    text.push_str("}")?;
    Ok(text)
}

#[test]
fn most_events(rt: HostRuntime) -> Result<(), Fail> {
    let text = full(rt.alloc())?;
    let mut out = Taken::new(rt.alloc());
    ends(
        &rt,
        text.as_str(),
        &mut Bytes::new(LINES.as_bytes()),
        &mut out,
        0,
    );
    holds(&rt, out.as_slice() == ANSWERS.as_bytes());
    Ok(())
}

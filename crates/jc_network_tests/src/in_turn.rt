//! Tests that each answer is written and flushed before the next line is read.

use crate::nets::holds;
use crate::sessions::{ANSWERS, LINES, RECEIVED, ends};
use jc_fakes::Taken;
use jc_io::{Failed, Sink, Source};
use std::cell::Cell;

/// How many bytes the answers of the first lines have: of none, of one, and so on.
const DUE: [u64; 6] = [0, 5, 45, 50, 55, 271];

/// What the sink has seen, for the source to look at.
#[derive(Drop)]
struct Seen {
    taken: Cell<u64>,
    flushes: Cell<u64>,
    /// How many bytes were taken when it was flushed last.
    flushed: Cell<u64>,
}

/// A source whose reads stop at the end of a line. It records whether it was ever read before there were as many
/// flushes as it has given lines, or before the answers of these lines were flushed.
#[derive(Drop)]
struct LineByLine<'a> {
    left: &'a [u8],
    lines: usize,
    seen: &'a Seen,
    too_early: bool,
}

impl<'a> LineByLine<'a> {
    fn is_too_early(&self) -> bool {
        let due = DUE.get(self.lines).copied().unwrap_or(u64::MAX);
        self.seen.flushes.get() < self.lines as u64 || self.seen.flushed.get() < due
    }
}

impl<'a> Source for LineByLine<'a> {
    ghost use Rattle.std.specs.Prelude.{None};

    ghost left = { λ _. None };

    ghost failures = { λ _. 0 };

    fn read(&mut self, buf: &mut [u8]) -> Result<usize, Failed> {
        if self.is_too_early() {
            self.too_early = true;
        }
        let line = match self.left.iter().position(|byte| *byte == b'\n') {
            Some(at) => at + 1,
            None => self.left.len(),
        };
        let (front, rest) = self.left.split_at(line.min(buf.len()));
        buf[..front.len()].copy_from_slice(front);
        self.left = rest;
        if front.ends_with(b"\n") {
            self.lines = self.lines.saturating_add(1);
        }
        Ok(front.len())
    }
}

/// A sink that shows what it takes and when it is flushed.
#[derive(Drop)]
struct Shows<'a, K> {
    sink: K,
    seen: &'a Seen,
}

impl<'a, K: Sink> Sink for Shows<'a, K> {
    ghost taken = { λ s. K.taken s.sink };

    ghost failures = { λ s. K.failures s.sink };

    fn write(&mut self, bytes: &[u8]) -> Result<usize, Failed> {
        let n = self.sink.write(bytes)?;
        let taken = self.seen.taken.get().saturating_add(n as u64);
        self.seen.taken.set(taken);
        Ok(n)
    }

    fn flush(&mut self) -> Result<(), Failed> {
        self.seen
            .flushes
            .set(self.seen.flushes.get().saturating_add(1));
        self.seen.flushed.set(self.seen.taken.get());
        self.sink.flush()
    }
}

#[test]
fn in_turn(rt: HostRuntime) {
    let seen = Seen {
        taken: Cell::new(0),
        flushes: Cell::new(0),
        flushed: Cell::new(0),
    };
    let mut lines = LineByLine {
        left: LINES.as_bytes(),
        lines: 0,
        seen: &seen,
        too_early: false,
    };
    let mut out = Shows {
        sink: Taken::new(rt.alloc()),
        seen: &seen,
    };
    ends(&rt, RECEIVED, &mut lines, &mut out, 0);
    holds(&rt, out.sink.as_slice() == ANSWERS.as_bytes());
    holds(&rt, !lines.too_early && lines.lines == 5);
    holds(&rt, seen.flushes.get() == 5 && seen.flushed.get() == 271);
}

//! Tests that each answer is written and flushed before more of the input is read.

use jc_fakes::Taken;
use jc_io::{Failed, Sink, Source};
use jc_serve::serve;
use std::cell::Cell;

/// Requests, each with the text that it brings. Each is answered by one line.
const REQUESTS: &str =
    "where\nscenario 81\njsoncrdt 1 replica a { doc := 1; doc.get(\"k\") := 2 } schedule { a.exec; a.exec }\nstep\nstate a\nview\nno request\n";

/// How many bytes each of them has.
const LENGTHS: [usize; 6] = [6, 93, 5, 8, 5, 11];

/// What the sink has seen, for the source to look at: how many lines it took, and how many of these were flushed.
#[derive(Drop)]
struct Seen {
    taken: Cell<usize>,
    flushed: Cell<usize>,
}

/// A source whose reads stop at the end of a request. It records whether it was ever read before each request that it
/// has given was answered by a line that was flushed.
#[derive(Drop)]
struct OneByOne<'a> {
    left: &'a [u8],
    /// How many requests it has begun to give, and how many bytes of the last one are left.
    given: usize,
    of_request: usize,
    seen: &'a Seen,
    too_early: bool,
}

impl<'a> Source for OneByOne<'a> {
    ghost use Rattle.std.specs.Prelude.{None};

    ghost left = { λ _. None };

    ghost failures = { λ _. 0 };

    fn read(&mut self, buf: &mut [u8]) -> Result<usize, Failed> {
        if self.of_request == 0 {
            if self.seen.flushed.get() < self.given {
                self.too_early = true;
            }
            let Some(length) = LENGTHS.get(self.given).copied() else {
                return Ok(0);
            };
            self.of_request = length;
            self.given = self.given.saturating_add(1);
        }
        let length = self.of_request.min(buf.len()).min(self.left.len());
        let (front, rest) = self.left.split_at(length);
        buf[..front.len()].copy_from_slice(front);
        self.of_request = self.of_request.saturating_sub(front.len());
        self.left = rest;
        Ok(front.len())
    }
}

/// A sink that shows how many lines it takes, and how many of these were flushed.
#[derive(Drop)]
struct Shows<'a, K> {
    sink: K,
    seen: &'a Seen,
}

impl<'a, K: Sink> Sink for Shows<'a, K> {
    ghost taken = { λ s. K.taken s.sink };

    ghost failures = { λ s. K.failures s.sink };

    fn write(&mut self, bytes: &[u8]) -> Result<usize, Failed> {
        let n = self.sink.write(bytes)?;
        let lines = bytes[..n].iter().filter(|byte| **byte == b'\n').count();
        self.seen
            .taken
            .set(self.seen.taken.get().saturating_add(lines));
        Ok(n)
    }

    fn flush(&mut self) -> Result<(), Failed> {
        self.seen.flushed.set(self.seen.taken.get());
        self.sink.flush()
    }
}

#[test]
fn in_turn(rt: HostRuntime) {
    let seen = Seen {
        taken: Cell::new(0),
        flushed: Cell::new(0),
    };
    let mut requests = OneByOne {
        left: REQUESTS.as_bytes(),
        given: 0,
        of_request: 0,
        seen: &seen,
        too_early: false,
    };
    let mut out = Shows {
        sink: Taken::new(rt.alloc()),
        seen: &seen,
    };
    let done = serve(rt.alloc(), &mut requests, &mut out);
    assert!(rt; done.is_ok());
    assert!(rt; !requests.too_early && requests.left.is_empty());
    assert!(rt; seen.taken.get() == LENGTHS.len() && seen.flushed.get() == LENGTHS.len());
}

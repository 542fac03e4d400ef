//! Outputs: what is held and what is sent, and writings cut short.

ghost use Rattle.std.specs.Prelude.{[], ◌∷◌, not};
ghost use Rattle.jc_io.specs.Written.{sink};
ghost use Rattle.jc_out.specs.Pieces.{EndsBy};

use crate::testing::{has_bytes, holds};
use jc_fakes::{CountsFlushes, FailsAt, Taken, TakesUpTo, Then};
use jc_io::{Failed, Sink};
use jc_out::{Out, room};
use std::alloc::Global;
use std::process::Abort;

#[test]
fn bytes_are_held_until_they_are_sent(rt: HostRuntime) {
    let mut sink = CountsFlushes::new(Taken::new(rt.alloc()));
    let mut held = room(rt.alloc());
    let mut out = Out::new(&mut sink, &mut held);
    out.push(b"at 1\n");
    out.push(b"");
    holds(&rt, "it isn't broken", !out.is_broken());
    drop(out);
    has_bytes(&rt, sink.sink.as_slice(), b"");
    has_bytes(&rt, held.as_slice(), b"at 1\n");
    let mut out = Out::new(&mut sink, &mut held);
    out.push(b"at 2\n");
    out.send();
    holds(&rt, "a flush", out.flush() == Ok(()));
    holds(&rt, "all", out.end());
    drop(out);
    has_bytes(&rt, sink.sink.as_slice(), b"at 1\nat 2\n");
    has_bytes(&rt, held.as_slice(), b"");
    holds(&rt, "it was passed on", sink.flushes == 1);
}

/// Gives as many `a` and then as many `b` to an output, and looks at how many bytes were sent.
fn sends(rt: &impl Abort, alloc: Global, pushed: (usize, usize), want: usize) {
    let mut sink = Taken::new(alloc);
    let mut held = room(alloc);
    let first = vec![in alloc; b'a'; pushed.0].expect(rt, "the first bytes");
    let second = vec![in alloc; b'b'; pushed.1].expect(rt, "the second bytes");
    let mut out = Out::new(&mut sink, &mut held);
    out.push(first.as_slice());
    out.push(second.as_slice());
    drop(out);
    let sent = sink.as_slice();
    holds(rt, "how many were sent", sent.len() == want);
    holds(
        rt,
        "all are there",
        sent.len() + held.len() == first.len() + second.len(),
    );
    let count = sent.iter().take_while(|byte| **byte == b'a').count();
    holds(
        rt,
        "the first are before the second",
        count == pushed.0.min(want),
    );
}

/// How many bytes are given first and then, and how many of them are sent.
const PUSHED: &[((usize, usize), usize)] = &[
    ((0, 0), 0),
    ((65_535, 0), 0),
    ((65_535, 1), 65_536),
    ((65_536, 0), 65_536),
    ((65_536, 1), 65_536),
    ((1, 65_535), 65_536),
    ((2, 65_535), 65_537),
    ((1, 65_536), 65_537),
    ((0, 65_535), 0),
];

#[test]
fn many_bytes_are_sent_at_once(rt: HostRuntime) {
    for (pushed, want) in PUSHED {
        sends(&rt, rt.alloc(), *pushed, *want);
    }
}

// What is put behind the held bytes by hand is one of them.
#[test]
fn bytes_are_put_behind_those_that_are_held(rt: HostRuntime) {
    let mut sink = Taken::new(rt.alloc());
    let mut held = room(rt.alloc());
    let mut out = Out::new(&mut sink, &mut held);
    out.held
        .extend_from_slice(b"at ")
        .expect(&rt, "the bytes that are put behind");
    out.send_much();
    holds(&rt, "few are held", out.held.len() == 3);
    out.pass(b"1\n");
    holds(&rt, "they went before", out.held.is_empty());
    out.push(b"at 2\n");
    out.change_room(room(rt.alloc()));
    holds(&rt, "what was held is sent", out.held.is_empty());
    out.push(b"at 3\n");
    holds(&rt, "the end", out.end());
    drop(out);
    has_bytes(&rt, sink.as_slice(), b"at 1\nat 2\nat 3\n");
}

// The second write is the one that fails, so the first two pieces are one write.
#[test]
fn pieces_are_one_write(rt: HostRuntime) {
    let mut sink = FailsAt::new(Taken::new(rt.alloc()), 1);
    let mut held = room(rt.alloc());
    let mut out = Out::new(&mut sink, &mut held);
    out.push(b"at 1\n");
    out.push(b"at 2\n");
    holds(&rt, "the first write", out.end());
    out.push(b"at 3\n");
    holds(&rt, "the second write", !out.end());
    drop(out);
    has_bytes(&rt, sink.inner.as_slice(), b"at 1\nat 2\n");
}

/// Writes two pieces over an output, and returns whether no write failed. Its contract is what a caller knows of the
/// sink, once the output is gone.
fn writes_pieces<K: Sink>(alloc: Global, to: &mut K, first: &[u8], second: &[u8]) -> bool
    ensures { EndsBy (not result) 2 (first.now ∷ second.now ∷ []) (sink K.Sink to.old) (sink K.Sink to.new) }
{
    let mut held = room(alloc);
    let mut out = Out::new(to, &mut held);
    out.push(first);
    out.push(second);
    out.end()
}

/// How much room a sink has, whether two pieces are written whole, and what the sink then holds.
const ROOMS: &[(usize, bool, &str)] = &[
    (0, false, ""),
    (4, false, "at 1"),
    (5, false, "at 1\n"),
    (9, false, "at 1\nat 2"),
    (10, true, "at 1\nat 2\n"),
];

#[test]
fn pieces_are_written_until_the_sink_refuses(rt: HostRuntime) {
    for (room, want, text) in ROOMS {
        let mut sink = TakesUpTo::new(Taken::new(rt.alloc()), *room, Then::TakesNone);
        let is_whole = writes_pieces(rt.alloc(), &mut sink, b"at 1\n", b"at 2\n");
        holds(&rt, text, is_whole == *want);
        has_bytes(&rt, sink.sink.as_slice(), text.as_bytes());
    }
}

// It may be asked early whether a write failed. Nothing that is given then reaches the sink.
#[test]
fn a_failed_write_is_the_last(rt: HostRuntime) {
    let mut sink = TakesUpTo::new(Taken::new(rt.alloc()), 4, Then::Fails);
    let mut held = room(rt.alloc());
    let mut out = Out::new(&mut sink, &mut held);
    out.push(b"at 1\n");
    holds(&rt, "it isn't broken", !out.is_broken());
    out.send();
    holds(&rt, "it is broken", out.is_broken());
    out.push(b"at 2\n");
    out.send();
    holds(&rt, "the end", !out.end());
    drop(out);
    holds(&rt, "one write was refused", sink.refused == 1);
    has_bytes(&rt, sink.sink.as_slice(), b"at 1");
}

#[test]
fn a_failed_flush_breaks_nothing(rt: HostRuntime) {
    let mut sink = FailsAt::new(Taken::new(rt.alloc()), 0);
    let mut held = room(rt.alloc());
    let mut out = Out::new(&mut sink, &mut held);
    holds(&rt, "a flush", out.flush() == Err(Failed));
    holds(&rt, "it isn't broken", !out.is_broken());
    out.push(b"at 1\n");
    holds(&rt, "the end", out.end());
    drop(out);
    has_bytes(&rt, sink.inner.as_slice(), b"at 1\n");
}

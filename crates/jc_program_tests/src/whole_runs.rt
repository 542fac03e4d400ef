//! Tests of `work_alone` without arguments: whole runs, refused texts, and failures of each stream.

use super::commands::no_files;
use super::{counts, holds};
use jc_fakes::{Bytes, Endless, FailsAt, OneByte, Taken, TakesUpTo, Then};
use jc_io::{Sink, Source};
use jc_program::laws::{alone_promise_gives_facts, one_run, promise_gives_facts};
use jc_program::work_alone;
use std::process::Abort;
use std::test::Fail;

pub(super) const ONE: &str = "jsoncrdt 1 replica a { doc.get(\"a\") := 1 } schedule { a.exec }";

const STUCK: &str = "jsoncrdt 1 replica a { doc.get(\"a\") := 1 } schedule { a.exec; a.exec }";

const TWO: &str =
    "jsoncrdt 1 replica a { doc.get(\"a\") := 1; doc.get(\"a\") := 2 } schedule { a.exec; a.exec }";

pub(super) const FIRST_BLOCK: &str =
    "event 1 a.exec\n0 EXEC\n1 MAKE-ASSIGN\n2 GET\n3 DOC\n2 MAKE-OP\n3 APPLY-LOCAL\n4 DESCEND\n5 CHILD-MAP\n5 ASSIGN\n6 CLEAR-NONE\n6 ADD-ID1\n7 PRESENCE2\n6 CHILD-REG\n5 ADD-ID1\n6 PRESENCE2\n";

const SECOND_BLOCK: &str =
    "event 2 a.exec\n0 EXEC\n1 MAKE-ASSIGN\n2 GET\n3 DOC\n2 MAKE-OP\n3 APPLY-LOCAL\n4 DESCEND\n5 CHILD-GET\n5 ASSIGN\n6 CLEAR-REG\n6 ADD-ID1\n7 PRESENCE1\n6 CHILD-GET\n5 ADD-ID1\n6 PRESENCE1\n";

pub(super) const ONE_DUMP: &str =
    "{\"acted\":false,\"left\":0,\"name\":\"a\",\"ops\":[\"1@a\"],\"queue\":[\"1@a\"],\"recv\":[],\"send\":[],\"tree\":{\"mapT(doc)\":{\"pres(\\\"a\\\")\":[\"1@a\"],\"regT(\\\"a\\\")\":{\"1@a\":{\"n\":\"1\"}}},\"pres(doc)\":[\"1@a\"]},\"vars\":{}}\n";

const STUCK_LINE: &str = "stuck 30 NoCommand a.exec\n";

const TOO_LONG: &str = "refused 6 TextTooLong at 8388608\n";

const TWO_DUMP: &str =
    "{\"acted\":false,\"left\":0,\"name\":\"a\",\"ops\":[\"1@a\",\"2@a\"],\"queue\":[\"1@a\",\"2@a\"],\"recv\":[],\"send\":[],\"tree\":{\"mapT(doc)\":{\"pres(\\\"a\\\")\":[\"1@a\",\"2@a\"],\"regT(\\\"a\\\")\":{\"2@a\":{\"n\":\"2\"}}},\"pres(doc)\":[\"1@a\",\"2@a\"]},\"vars\":{}}\n";

/// Runs the program with these arguments, without files.
pub(super) fn work<R: AllocGlobal, I: Source, K: Sink, E: Sink>(
    rt: &R,
    words: &[String],
    input: &mut I,
    out: &mut K,
    err: &mut E,
) -> Option<u8> {
    work_alone(&no_files(rt.alloc()), words, input, out, err)
}

pub(super) fn ends(rt: &impl Abort, got: Option<u8>, want: u8) {
    assert_eq!(rt; got, Some(want));
}

/// Expects the parts, one after another.
pub(super) fn expect_text(rt: &impl Abort, mut text: &[u8], parts: &[&str]) {
    for part in parts {
        assert!(rt; text.starts_with(part.as_bytes()), "{part}");
        text = &text[part.len()..];
    }
    holds(rt, text.is_empty());
}

/// Expects the text and the status of a run without arguments, and nothing on the error's sink.
fn expect_run<R: AllocGlobal + Abort, I: Source + Drop>(
    rt: &R,
    mut input: I,
    shown: &[&str],
    status: u8,
) {
    let mut out = Taken::new(rt.alloc());
    let mut err = Taken::new(rt.alloc());
    ends(rt, work(rt, &[], &mut input, &mut out, &mut err), status);
    expect_text(rt, out.as_slice(), shown);
    holds(rt, err.as_slice().is_empty());
}

#[test]
fn runs(rt: HostRuntime) {
    // For their contracts alone: the texts below are the only ones, and all facts of the promise hold of these runs.
    one_run();
    promise_gives_facts();
    alone_promise_gives_facts();
    let one = [FIRST_BLOCK, ONE_DUMP];
    let stuck = [FIRST_BLOCK, ONE_DUMP, STUCK_LINE];
    let two = [FIRST_BLOCK, SECOND_BLOCK, TWO_DUMP];
    expect_run(&rt, Bytes::new(ONE.as_bytes()), &one, 0);
    expect_run(&rt, OneByte::new(Bytes::new(ONE.as_bytes())), &one, 0);
    expect_run(&rt, Bytes::new(STUCK.as_bytes()), &stuck, 3);
    expect_run(&rt, Bytes::new(TWO.as_bytes()), &two, 0);
}

/// Texts that are no scenario, and the line of each.
const REFUSED: &[(&[u8], &str)] = &[
    (b"", "refused 14 NoHeader at 0\n"),
    (b"jsoncrdt 3", "refused 14 NoHeader at 9\n"),
    (b"jsoncrdt 1", "refused 16 NoReplica at 10\n"),
    (b"jsoncrdt 1 \xff", "refused 13 NotUtf8 at 11\n"),
    (
        b"jsoncrdt 1 replica let {}",
        "refused 10 ReservedName at 19\n",
    ),
    (
        b"jsoncrdt 1 replica a {yield",
        "refused 8 EndOfText at 27\n",
    ),
    (
        b"jsoncrdt 1 replica a {} replica a {}",
        "refused 15 SameName at 32\n",
    ),
    (
        b"jsoncrdt 1 replica a {} schedule {b.exec}",
        "refused 18 UnknownReplica at 34\n",
    ),
];

#[test]
fn refused_texts(rt: HostRuntime) {
    for (text, line) in REFUSED {
        expect_run(&rt, Bytes::new(text), &[line], 1);
    }
    expect_run(&rt, Endless::new(b' '), &[TOO_LONG], 1);
}

#[test]
fn longest_text(rt: HostRuntime) -> Result<(), Fail> {
    let mut text = Vec::new(rt.alloc());
    text.extend_from_slice(ONE.as_bytes())?;
    for _ in ONE.len()..8388608 {
        text.push(b' ')?;
    }
    let longest = [FIRST_BLOCK, ONE_DUMP];
    expect_run(&rt, Bytes::new(text.as_slice()), &longest, 0);
    text.push(b' ')?;
    expect_run(&rt, Bytes::new(text.as_slice()), &[TOO_LONG], 1);
    Ok(())
}

/// Expects a run whose read number `at` fails.
fn expect_failed_read<R: AllocGlobal + Abort, I: Source + Drop>(rt: &R, input: I, at: u64) {
    let mut input = FailsAt::new(input, at);
    let mut out = Taken::new(rt.alloc());
    let mut err = Taken::new(rt.alloc());
    ends(rt, work(rt, &[], &mut input, &mut out, &mut err), 4);
    expect_text(rt, out.as_slice(), &[]);
    expect_text(rt, err.as_slice(), &["read failed\n"]);
}

#[test]
fn failed_reads(rt: HostRuntime) {
    expect_failed_read(&rt, Bytes::new(ONE.as_bytes()), 0);
    expect_failed_read(&rt, Bytes::new(ONE.as_bytes()), 1);
    for at in [0, 1, 30, 61, 62] {
        expect_failed_read(&rt, OneByte::new(Bytes::new(ONE.as_bytes())), at);
    }
    let source = OneByte::new(Bytes::new(ONE.as_bytes()));
    expect_run(&rt, FailsAt::new(source, 63), &[FIRST_BLOCK, ONE_DUMP], 0);
}

/// Expects a run whose output has room for `room` bytes alone.
fn expect_failed_write<R: AllocGlobal + Abort>(rt: &R, shown: &[u8], room: usize, then: Then) {
    let mut input = Bytes::new(STUCK.as_bytes());
    let mut out = TakesUpTo::new(Taken::new(rt.alloc()), room, then);
    let mut err = Taken::new(rt.alloc());
    ends(rt, work(rt, &[], &mut input, &mut out, &mut err), 4);
    assert!(rt;
        shown.starts_with(out.sink.as_slice()),
        "after {room} bytes"
    );
    counts(rt, out.sink.as_slice().len(), room);
    expect_text(rt, err.as_slice(), &["write failed\n"]);
}

#[test]
fn failed_writes(rt: HostRuntime) -> Result<(), Fail> {
    let mut shown = String::from_str(rt.alloc(), FIRST_BLOCK)?;
    shown.push_str(ONE_DUMP)?;
    shown.push_str(STUCK_LINE)?;
    let shown = shown.as_bytes();
    let block = FIRST_BLOCK.len();
    let dump = ONE_DUMP.len();
    for room in [
        0,
        1,
        14,
        block - 1,
        block,
        block + dump - 1,
        block + dump,
        shown.len() - 1,
    ] {
        expect_failed_write(&rt, shown, room, Then::Fails);
        expect_failed_write(&rt, shown, room, Then::TakesNone);
    }
    Ok(())
}

/// Expects a run whose write number `at` fails, and that nothing is written after it.
fn expect_lost_write<R: AllocGlobal + Abort>(rt: &R, at: u64, shown: &[&str]) {
    let mut input = Bytes::new(STUCK.as_bytes());
    let mut out = FailsAt::new(Taken::new(rt.alloc()), at);
    let mut err = Taken::new(rt.alloc());
    ends(rt, work(rt, &[], &mut input, &mut out, &mut err), 4);
    expect_text(rt, out.inner.as_slice(), shown);
    expect_text(rt, err.as_slice(), &["write failed\n"]);
}

#[test]
fn nothing_is_written_after_a_failure(rt: HostRuntime) {
    expect_lost_write(&rt, 0, &[]);
    expect_lost_write(&rt, 1, &[FIRST_BLOCK]);
    expect_lost_write(&rt, 2, &[FIRST_BLOCK, ONE_DUMP]);
}

#[test]
fn failing_standard_error(rt: HostRuntime) {
    let mut input = FailsAt::new(Bytes::new(ONE.as_bytes()), 0);
    let mut out = Taken::new(rt.alloc());
    let mut err = TakesUpTo::new(Taken::new(rt.alloc()), 3, Then::Fails);
    ends(&rt, work(&rt, &[], &mut input, &mut out, &mut err), 4);
    expect_text(&rt, err.sink.as_slice(), &["rea"]);
}

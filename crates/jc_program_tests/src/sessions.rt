//! Tests of the command `debug`.

use super::commands::{Shelf, expect_shown, no_files, said};
use super::holds;
use super::whole_runs::{ONE, ONE_DUMP, ends, expect_text};
use jc_fakes::{Bytes, Endless, FailsAt, OneByte, Taken, TakesUpTo, Then};
use jc_io::{Sink, Source};
use jc_program::work_alone;
use std::alloc::Global;
use std::process::Abort;

/// A scenario, lines, what is printed, and the status.
const SESSIONS: &[(&str, &str, &[&str], u8)] = &[
    // No line.
    (ONE, "", &[], 0),
    // A schedule of no event.
    (
        "jsoncrdt 1 replica a {} schedule {}",
        "where\nstep\nstate\n",
        &[
            "at 0 of 0\nrefused 51 AtEnd\n",
            "{\"acted\":false,\"left\":0,\"name\":\"a\",\"ops\":[],\"queue\":[],\"recv\":[],\"send\":[],\"tree\":{},\"vars\":{}}\n",
        ],
        0,
    ),
    // Events of the caller's own, one of them stuck.
    (
        "jsoncrdt 1 replica a { doc.get(\"a\") := 1; doc.get(\"a\") := 2; yield } replica b { yield } schedule { a.exec; a.exec; a.send; b.recv(a) }",
        "goto 4\nact b.apply(2, a)\nact b.apply(1, a)\nact b.apply(2, a)\nstate b\n",
        &[
            "at 4\nat 4\nstuck 36 DepsMissing b.apply(2, a)\nat 5\nat 6\n",
            "{\"acted\":true,\"left\":1,\"name\":\"b\",\"ops\":[\"1@a\",\"2@a\"],\"queue\":[],\"recv\":[\"1@a\",\"2@a\"],\"send\":[],\"tree\":{\"mapT(doc)\":{\"pres(\\\"a\\\")\":[\"1@a\",\"2@a\"],\"regT(\\\"a\\\")\":{\"2@a\":{\"n\":\"2\"}}},\"pres(doc)\":[\"1@a\",\"2@a\"]},\"vars\":{}}\n",
        ],
        0,
    ),
    // What can be made, and what can't.
    (
        "jsoncrdt 1 replica a { doc.get(\"a\") := 1; yield } schedule { a.exec }",
        "act a.send\nstep\nact a.done\nact a.send\nact a.recv(a)\nact a.apply(1, a)\nact a.apply(9, a)\nact a.exec\nact a.done\nact a.done\nenabled\nback\nenabled\n",
        &[
            "at 0\nstuck 32 NotAtYield a.send\nat 1\nat 1\nstuck 33 NotActed a.done\nat 2\nat 3\nat 3\nstuck 35 AlreadyApplied a.apply(1, a)\n",
            "at 3\nstuck 34 NotReceived a.apply(9, a)\nat 3\nstuck 31 AtYield a.exec\nat 4\nat 4\nstuck 30 NoCommand a.done\nnone\nat 3\n",
            "a.send\na.recv(a)\na.done\n",
        ],
        0,
    ),
    // Back over bindings.
    (
        "jsoncrdt 1 replica a { let x = doc; x.get(\"a\") := 1; let x = x.get(\"a\"); x.delete; let x = doc } schedule { a.exec; a.exec; a.exec; a.exec; a.exec }",
        "step 5\nstate\nback\nstate\nback 2\nstate\nstep 3\nstate\ngoto 6\nback 6\ngoto 3\ntrace\n",
        &[
            "at 5\n",
            "{\"acted\":false,\"left\":0,\"name\":\"a\",\"ops\":[\"1@a\",\"2@a\"],\"queue\":[\"1@a\",\"2@a\"],\"recv\":[],\"send\":[],\"tree\":{\"mapT(doc)\":{\"pres(\\\"a\\\")\":[],\"regT(\\\"a\\\")\":{}},\"pres(doc)\":[\"1@a\"]},\"vars\":{\"x\":{\"cursor\":[\"doc\"]}}}\n",
            "at 4\n",
            "{\"acted\":false,\"left\":1,\"name\":\"a\",\"ops\":[\"1@a\",\"2@a\"],\"queue\":[\"1@a\",\"2@a\"],\"recv\":[],\"send\":[],\"tree\":{\"mapT(doc)\":{\"pres(\\\"a\\\")\":[],\"regT(\\\"a\\\")\":{}},\"pres(doc)\":[\"1@a\"]},\"vars\":{\"x\":{\"cursor\":[\"mapT(doc)\",\"\\\"a\\\"\"]}}}\n",
            "at 2\n",
            "{\"acted\":false,\"left\":3,\"name\":\"a\",\"ops\":[\"1@a\"],\"queue\":[\"1@a\"],\"recv\":[],\"send\":[],\"tree\":{\"mapT(doc)\":{\"pres(\\\"a\\\")\":[\"1@a\"],\"regT(\\\"a\\\")\":{\"1@a\":{\"n\":\"1\"}}},\"pres(doc)\":[\"1@a\"]},\"vars\":{\"x\":{\"cursor\":[\"doc\"]}}}\n",
            "at 5\n",
            "{\"acted\":false,\"left\":0,\"name\":\"a\",\"ops\":[\"1@a\",\"2@a\"],\"queue\":[\"1@a\",\"2@a\"],\"recv\":[],\"send\":[],\"tree\":{\"mapT(doc)\":{\"pres(\\\"a\\\")\":[],\"regT(\\\"a\\\")\":{}},\"pres(doc)\":[\"1@a\"]},\"vars\":{\"x\":{\"cursor\":[\"doc\"]}}}\n",
            "refused 52 PastSchedule\nrefused 50 AtStart\nat 3\nevent 3 a.exec\n0 EXEC\n1 LET\n2 GET\n3 VAR\n",
        ],
        0,
    ),
    // A breakpoint.
    (
        "jsoncrdt 1 replica a { doc.get(\"l\") := []; yield; doc.get(\"l\").idx(0).insertAfter(\"x\"); yield } replica b { yield; doc.get(\"l\").idx(0).insertAfter(\"y\"); yield } schedule { a.exec; a.send; a.done; b.recv(a); b.apply(1, a); b.done; a.exec; b.exec; a.send; b.send; a.recv(b); b.recv(a); a.apply(2, b); b.apply(2, a); b.done }",
        "break rule INSERT2\nrun\nrun\nrun\n",
        &["set 1\nat 14\nbreak 1\nat 15\nend\nrefused 51 AtEnd\n"],
        0,
    ),
    // What could be made at the start, and after four events.
    (
        "jsoncrdt 1 replica a { doc.get(\"m\") := {}; yield; doc.get(\"m\").delete; yield } replica b { yield; doc.get(\"m\").get(\"k\") := 1; yield } schedule { a.exec; a.send; a.done; b.recv(a); b.apply(1, a); b.done; a.exec; b.exec; a.send; b.send; a.recv(b); b.recv(a); a.apply(2, b); b.apply(2, a) }",
        "enabled\ngoto 4\nenabled\n",
        &[
            "a.exec\nb.send\nb.recv(a)\nb.recv(b)\n",
            "at 4\na.exec\nb.send\nb.recv(a)\nb.recv(b)\nb.apply(1, a)\nb.done\n",
        ],
        0,
    ),
    // Lines that are refused.
    (
        ONE,
        "\nstep x\nbreak rule RECV-ONE\nact a.take(a, 1, a)\nbreak replica z\nact a.jump\nact\nact z.exec\nunbreak 1\nbreak at 1\nbreak replica a\nunbreak 1\nbreak rule EXEC\nrun\nquit\nwhere\n",
        &[
            "refused 58 BadLine\nrefused 58 BadLine\nrefused 7 Unexpected at 2\n",
            "refused 18 UnknownReplica\nrefused 7 Unexpected at 2\nrefused 8 EndOfText at 0\n",
            "refused 18 UnknownReplica at 0\nrefused 53 NoSuchBreak\nset 1\nset 2\ncleared 1\nset 1\nat 1\nbreak 1\n",
        ],
        0,
    ),
    // A text that is refused: no line is answered.
    ("", "step\n", &["refused 14 NoHeader at 0\n"], 1),
];

/// Expects the text and the status of a session on a scenario, and nothing on the error's sink.
fn expect_session(
    rt: &impl Abort,
    alloc: Global,
    scenario: &str,
    lines: &str,
    shown: &[&str],
    status: u8,
) {
    let shelf = Shelf {
        alloc,
        files: &[("scenario", scenario.as_bytes())],
    };
    expect_shown(rt, &shelf, &["debug", "scenario"], lines, shown, status);
}

#[test]
fn sessions(rt: HostRuntime) {
    for (scenario, lines, shown, status) in SESSIONS {
        expect_session(&rt, rt.alloc(), scenario, lines, shown, *status);
    }
}

#[test]
fn scenario_on_the_input(rt: HostRuntime) {
    let shelf = no_files(rt.alloc());
    let words = ["debug", "-"];
    expect_shown(&rt, &shelf, &words, ONE, &[], 0);
    expect_shown(&rt, &shelf, &words, "", &["refused 14 NoHeader at 0\n"], 1);
}

/// Expects a session on the first scenario that ends with 4, with this text, and this line on the error's sink.
fn expect_stopped<I: Source + Drop, K: Sink>(
    rt: &impl Abort,
    alloc: Global,
    mut lines: I,
    out: &mut K,
    line: &str,
) {
    let shelf = Shelf {
        alloc,
        files: &[("scenario", ONE.as_bytes())],
    };
    let mut err = Taken::new(alloc);
    let Ok(words) = said(alloc, &["debug", "scenario"]) else {
        panic!(rt; "no memory for the words")
    };
    ends(rt, work_alone(&shelf, &words, &mut lines, out, &mut err), 4);
    expect_text(rt, err.as_slice(), &[line]);
}

#[test]
fn failed_line(rt: HostRuntime) {
    let lines = OneByte::new(Bytes::new(b"where\nstep\n"));
    let mut out = Taken::new(rt.alloc());
    expect_stopped(
        &rt,
        rt.alloc(),
        FailsAt::new(lines, 8),
        &mut out,
        "read failed\n",
    );
    expect_text(&rt, out.as_slice(), &["at 0 of 1\n"]);
}

#[test]
fn failed_answer(rt: HostRuntime) {
    let lines = Bytes::new(b"where\nstep\n");
    let mut out = TakesUpTo::new(Taken::new(rt.alloc()), 12, Then::Fails);
    expect_stopped(&rt, rt.alloc(), lines, &mut out, "write failed\n");
    expect_text(&rt, out.sink.as_slice(), &["at 0 of 1\nat"]);
}

#[test]
fn too_many_lines(rt: HostRuntime) {
    let mut out = Taken::new(rt.alloc());
    expect_stopped(
        &rt,
        rt.alloc(),
        Endless::new(b'\n'),
        &mut out,
        "too many lines\n",
    );
    holds(&rt, out.as_slice().is_empty());
}

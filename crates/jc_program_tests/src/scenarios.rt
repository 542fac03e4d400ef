//! Tests of `run`: the states at the end, and the line of the stuck event.

use super::holds;
use super::whole_runs::{ends, work};
use jc_fakes::{Bytes, Taken};
use std::process::Abort;

/// A scenario, the end of its run's text, and the status.
const RUNS: &[(&str, &str, u8)] = &[
    // A list that isn't there.
    (
        "jsoncrdt 1 replica a { doc.get(\"m\") := 1; let x = doc.get(\"l\").idx(0) } schedule { a.exec; a.exec }",
        "{\"acted\":false,\"left\":1,\"name\":\"a\",\"ops\":[\"1@a\"],\"queue\":[\"1@a\"],\"recv\":[],\"send\":[],\"tree\":{\"mapT(doc)\":{\"pres(\\\"m\\\")\":[\"1@a\"],\"regT(\\\"m\\\")\":{\"1@a\":{\"n\":\"1\"}}},\"pres(doc)\":[\"1@a\"]},\"vars\":{}}\nstuck 25 NoSuchNode listT(\"l\") a.exec\n",
        3,
    ),
    // An empty document.
    (
        "jsoncrdt 1 replica a { let x = doc.get(\"l\").idx(0) } schedule { a.exec }",
        "{\"acted\":false,\"left\":1,\"name\":\"a\",\"ops\":[],\"queue\":[],\"recv\":[],\"send\":[],\"tree\":{},\"vars\":{}}\nstuck 25 NoSuchNode mapT(doc) a.exec\n",
        3,
    ),
    // A map, then a number under the same key.
    (
        "jsoncrdt 1 replica a { doc.get(\"k\") := {}; doc.get(\"k\") := 1 } schedule { a.exec; a.exec }",
        "{\"acted\":false,\"left\":0,\"name\":\"a\",\"ops\":[\"1@a\",\"2@a\"],\"queue\":[\"1@a\",\"2@a\"],\"recv\":[],\"send\":[],\"tree\":{\"mapT(doc)\":{\"mapT(\\\"k\\\")\":{},\"pres(\\\"k\\\")\":[\"1@a\",\"2@a\"],\"regT(\\\"k\\\")\":{\"2@a\":{\"n\":\"1\"}}},\"pres(doc)\":[\"1@a\",\"2@a\"]},\"vars\":{}}\n",
        0,
    ),
    // The other way round, and the values read.
    (
        "jsoncrdt 1 replica a { doc.get(\"k\") := 1; doc.get(\"k\") := {}; let v = doc.get(\"k\").values } schedule { a.exec; a.exec; a.exec }",
        "{\"acted\":false,\"left\":0,\"name\":\"a\",\"ops\":[\"1@a\",\"2@a\"],\"queue\":[\"1@a\",\"2@a\"],\"recv\":[],\"send\":[],\"tree\":{\"mapT(doc)\":{\"mapT(\\\"k\\\")\":{},\"pres(\\\"k\\\")\":[\"2@a\"],\"regT(\\\"k\\\")\":{}},\"pres(doc)\":[\"1@a\",\"2@a\"]},\"vars\":{\"v\":{\"values\":[]}}}\n",
        0,
    ),
    // A map deleted while a key is added to it.
    (
        "jsoncrdt 1 replica a { doc.get(\"m\") := {}; yield; doc.get(\"m\").delete; yield } replica b { yield; doc.get(\"m\").get(\"k\") := 1; yield } schedule { a.exec; a.send; a.done; b.recv(a); b.apply(1, a); b.done; a.exec; b.exec; a.send; b.send; a.recv(b); b.recv(a); a.apply(2, b); b.apply(2, a) }",
        "{\"acted\":true,\"left\":1,\"name\":\"a\",\"ops\":[\"1@a\",\"2@a\",\"2@b\"],\"queue\":[\"1@a\",\"2@a\"],\"recv\":[\"2@b\"],\"send\":[\"1@a\",\"2@a\"],\"tree\":{\"mapT(doc)\":{\"mapT(\\\"m\\\")\":{\"pres(\\\"k\\\")\":[\"2@b\"],\"regT(\\\"k\\\")\":{\"2@b\":{\"n\":\"1\"}}},\"pres(\\\"m\\\")\":[\"2@b\"]},\"pres(doc)\":[\"1@a\",\"2@b\"]},\"vars\":{}}\n{\"acted\":true,\"left\":1,\"name\":\"b\",\"ops\":[\"1@a\",\"2@a\",\"2@b\"],\"queue\":[\"2@b\"],\"recv\":[\"1@a\",\"2@a\"],\"send\":[\"2@b\"],\"tree\":{\"mapT(doc)\":{\"mapT(\\\"m\\\")\":{\"pres(\\\"k\\\")\":[\"2@b\"],\"regT(\\\"k\\\")\":{\"2@b\":{\"n\":\"1\"}}},\"pres(\\\"m\\\")\":[\"2@b\"]},\"pres(doc)\":[\"1@a\",\"2@b\"]},\"vars\":{}}\n",
        0,
    ),
    // Two inserts at the head of one list.
    (
        "jsoncrdt 1 replica a { doc.get(\"l\") := []; yield; doc.get(\"l\").idx(0).insertAfter(\"x\"); yield } replica b { yield; doc.get(\"l\").idx(0).insertAfter(\"y\"); yield } schedule { a.exec; a.send; a.done; b.recv(a); b.apply(1, a); b.done; a.exec; b.exec; a.send; b.send; a.recv(b); b.recv(a); a.apply(2, b); b.apply(2, a) }",
        "{\"acted\":true,\"left\":1,\"name\":\"a\",\"ops\":[\"1@a\",\"2@a\",\"2@b\"],\"queue\":[\"1@a\",\"2@a\"],\"recv\":[\"2@b\"],\"send\":[\"1@a\",\"2@a\"],\"tree\":{\"mapT(doc)\":{\"listT(\\\"l\\\")\":{\"next(2@a)\":\"tail\",\"next(2@b)\":\"2@a\",\"next(head)\":\"2@b\",\"pres(2@a)\":[\"2@a\"],\"pres(2@b)\":[\"2@b\"],\"regT(2@a)\":{\"2@a\":\"x\"},\"regT(2@b)\":{\"2@b\":\"y\"}},\"pres(\\\"l\\\")\":[\"1@a\",\"2@a\",\"2@b\"]},\"pres(doc)\":[\"1@a\",\"2@a\",\"2@b\"]},\"vars\":{}}\n{\"acted\":true,\"left\":1,\"name\":\"b\",\"ops\":[\"1@a\",\"2@a\",\"2@b\"],\"queue\":[\"2@b\"],\"recv\":[\"1@a\",\"2@a\"],\"send\":[\"2@b\"],\"tree\":{\"mapT(doc)\":{\"listT(\\\"l\\\")\":{\"next(2@a)\":\"tail\",\"next(2@b)\":\"2@a\",\"next(head)\":\"2@b\",\"pres(2@a)\":[\"2@a\"],\"pres(2@b)\":[\"2@b\"],\"regT(2@a)\":{\"2@a\":\"x\"},\"regT(2@b)\":{\"2@b\":\"y\"}},\"pres(\\\"l\\\")\":[\"1@a\",\"2@a\",\"2@b\"]},\"pres(doc)\":[\"1@a\",\"2@a\",\"2@b\"]},\"vars\":{}}\n",
        0,
    ),
    // Indexes of a list with a deleted element.
    (
        "jsoncrdt 1 replica a { doc := []; doc.idx(0).insertAfter(\"x\"); doc.idx(1).insertAfter(\"y\"); doc.idx(1).delete; let z = doc.idx(1); let w = doc.idx(2) } schedule { a.exec; a.exec; a.exec; a.exec; a.exec; a.exec }",
        "{\"acted\":false,\"left\":1,\"name\":\"a\",\"ops\":[\"1@a\",\"2@a\",\"3@a\",\"4@a\"],\"queue\":[\"1@a\",\"2@a\",\"3@a\",\"4@a\"],\"recv\":[],\"send\":[],\"tree\":{\"listT(doc)\":{\"next(2@a)\":\"3@a\",\"next(3@a)\":\"tail\",\"next(head)\":\"2@a\",\"pres(2@a)\":[],\"pres(3@a)\":[\"3@a\"],\"regT(2@a)\":{},\"regT(3@a)\":{\"3@a\":\"y\"}},\"pres(doc)\":[\"1@a\",\"2@a\",\"3@a\"]},\"vars\":{\"z\":{\"cursor\":[\"listT(doc)\",\"3@a\"]}}}\nstuck 26 PastEnd a.exec\n",
        3,
    ),
    // A number deleted while a list is put in its place.
    (
        "jsoncrdt 1 replica a { doc.get(\"l\") := 1; yield; doc.get(\"l\").delete; yield } replica b { yield; doc.get(\"l\") := []; yield } schedule { a.exec; a.send; a.done; b.recv(a); b.apply(1, a); b.done; a.exec; b.exec; a.send; b.send; a.recv(b); b.recv(a); a.apply(2, b); b.apply(2, a) }",
        "{\"acted\":true,\"left\":1,\"name\":\"a\",\"ops\":[\"1@a\",\"2@a\",\"2@b\"],\"queue\":[\"1@a\",\"2@a\"],\"recv\":[\"2@b\"],\"send\":[\"1@a\",\"2@a\"],\"tree\":{\"mapT(doc)\":{\"listT(\\\"l\\\")\":{\"next(head)\":\"tail\"},\"pres(\\\"l\\\")\":[\"2@b\"],\"regT(\\\"l\\\")\":{}},\"pres(doc)\":[\"1@a\",\"2@b\"]},\"vars\":{}}\n{\"acted\":true,\"left\":1,\"name\":\"b\",\"ops\":[\"1@a\",\"2@a\",\"2@b\"],\"queue\":[\"2@b\"],\"recv\":[\"1@a\",\"2@a\"],\"send\":[\"2@b\"],\"tree\":{\"mapT(doc)\":{\"listT(\\\"l\\\")\":{\"next(head)\":\"tail\",\"pres(head)\":[]},\"pres(\\\"l\\\")\":[\"2@b\"],\"regT(\\\"l\\\")\":{}},\"pres(doc)\":[\"1@a\",\"2@b\"]},\"vars\":{}}\n",
        0,
    ),
    // A variable bound again.
    (
        "jsoncrdt 1 replica a { let x = doc; x.get(\"a\") := 1; let x = x.get(\"a\"); x.delete; let x = doc } schedule { a.exec; a.exec; a.exec; a.exec; a.exec }",
        "{\"acted\":false,\"left\":0,\"name\":\"a\",\"ops\":[\"1@a\",\"2@a\"],\"queue\":[\"1@a\",\"2@a\"],\"recv\":[],\"send\":[],\"tree\":{\"mapT(doc)\":{\"pres(\\\"a\\\")\":[],\"regT(\\\"a\\\")\":{}},\"pres(doc)\":[\"1@a\"]},\"vars\":{\"x\":{\"cursor\":[\"doc\"]}}}\n",
        0,
    ),
    // Keys are no place to assign at.
    (
        "jsoncrdt 1 replica a { doc.get(\"a\") := 1; let s = doc.keys; s := 1 } schedule { a.exec; a.exec; a.exec }",
        "{\"acted\":false,\"left\":1,\"name\":\"a\",\"ops\":[\"1@a\"],\"queue\":[\"1@a\"],\"recv\":[],\"send\":[],\"tree\":{\"mapT(doc)\":{\"pres(\\\"a\\\")\":[\"1@a\"],\"regT(\\\"a\\\")\":{\"1@a\":{\"n\":\"1\"}}},\"pres(doc)\":[\"1@a\"]},\"vars\":{\"s\":{\"keys\":[\"a\"]}}}\nstuck 24 NotACursor a.exec\n",
        3,
    ),
    // Nothing to do.
    (
        "jsoncrdt 1 replica a {} schedule {}",
        "{\"acted\":false,\"left\":0,\"name\":\"a\",\"ops\":[],\"queue\":[],\"recv\":[],\"send\":[],\"tree\":{},\"vars\":{}}\n",
        0,
    ),
];

/// Expects the end of a run's text, and the status.
fn expect_end<R: AllocGlobal + Abort>(rt: &R, scenario: &str, end: &str, status: u8) {
    let mut input = Bytes::new(scenario.as_bytes());
    let mut out = Taken::new(rt.alloc());
    let mut err = Taken::new(rt.alloc());
    ends(rt, work(rt, &[], &mut input, &mut out, &mut err), status);
    assert!(rt; out.as_slice().ends_with(end.as_bytes()), "{scenario}");
    holds(rt, err.as_slice().is_empty());
}

#[test]
fn runs_end(rt: HostRuntime) {
    for (scenario, end, status) in RUNS {
        expect_end(&rt, scenario, end, *status);
    }
}

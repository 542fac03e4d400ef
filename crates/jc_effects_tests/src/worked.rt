//! Texts of effects, worked out by hand.

use crate::networks::effects_of_last;
use jc_effects::{Effects, write_effects};
use jc_rules::Text;
use jc_scenario::read;
use json::Writer;
use std::alloc::{AllocError, Global};
use std::process::Abort;
use std::test::Fail;

/// A scenario, and the effects of the last event of its schedule.
const ROWS: &[(&str, &str)] = &[
    // An assignment makes the way to it, and a register at its end.
    (
        "jsoncrdt 1 replica a { doc.get(\"m\").get(\"x\") := 1 } schedule { a.exec }",
        "[{\"gained\":[\"1@a\"],\"key\":\"doc\",\"made\":[\"map\"],\"map\":[{\"gained\":[\"1@a\"],\"key\":\"\\\"m\\\"\",\"made\":[\"map\"],\"map\":[{\"gained\":[\"1@a\"],\"key\":\"\\\"x\\\"\",\"made\":[\"register\"],\"shown\":true,\"written\":[[\"1@a\",{\"n\":\"1\"}]]}],\"shown\":true}],\"shown\":true}]",
    ),
    // A second one takes the first one's value, and leaves its identifier.
    (
        "jsoncrdt 1 replica p { doc.get(\"key\") := \"A\"; doc.get(\"key\") := \"B\" } schedule { p.exec; p.exec }",
        "[{\"gained\":[\"2@p\"],\"key\":\"doc\",\"map\":[{\"gained\":[\"2@p\"],\"key\":\"\\\"key\\\"\",\"taken\":[[\"1@p\",\"A\"]],\"written\":[[\"2@p\",\"B\"]]}]}]",
    ),
    // One that didn't know of it takes nothing.
    (
        "jsoncrdt 1 replica p { doc.get(\"key\") := \"B\"; yield } replica q { doc.get(\"key\") := \"C\"; yield } schedule { p.exec; q.exec; q.send; p.recv(q); p.apply(1, q) }",
        "[{\"gained\":[\"1@q\"],\"key\":\"doc\",\"map\":[{\"gained\":[\"1@q\"],\"key\":\"\\\"key\\\"\",\"written\":[[\"1@q\",\"C\"]]}]}]",
    ),
    // A new map takes what its maker knew, and leaves what it didn't know: blue goes, red stays.
    (
        "jsoncrdt 1 replica p { doc.get(\"colors\").get(\"blue\") := \"#0000ff\"; yield; doc.get(\"colors\").get(\"red\") := \"#ff0000\"; yield } replica q { yield; doc.get(\"colors\") := {}; yield } schedule { p.exec; p.send; p.done; q.recv(p); q.apply(1, p); q.done; p.exec; q.exec; q.send; p.recv(q); p.apply(2, q) }",
        "[{\"gained\":[\"2@q\"],\"key\":\"doc\",\"map\":[{\"gained\":[\"2@q\"],\"key\":\"\\\"colors\\\"\",\"lost\":[\"1@p\"],\"map\":[{\"key\":\"\\\"blue\\\"\",\"lost\":[\"1@p\"],\"shown\":false,\"taken\":[[\"1@p\",\"#0000ff\"]]}]}]}]",
    ),
    // What was taken before isn't taken again.
    (
        "jsoncrdt 1 replica a { doc.get(\"m\").get(\"a\") := 1; doc.get(\"m\") := {}; doc.get(\"m\").get(\"b\") := 2; doc.get(\"m\") := {} } schedule { a.exec; a.exec; a.exec; a.exec }",
        "[{\"gained\":[\"4@a\"],\"key\":\"doc\",\"map\":[{\"gained\":[\"4@a\"],\"key\":\"\\\"m\\\"\",\"lost\":[\"2@a\",\"3@a\"],\"map\":[{\"key\":\"\\\"b\\\"\",\"lost\":[\"3@a\"],\"shown\":false,\"taken\":[[\"3@a\",{\"n\":\"2\"}]]}]}]}]",
    ),
    // A delete takes a map with its keys.
    (
        "jsoncrdt 1 replica a { doc.get(\"m\").get(\"a\") := 1; doc.get(\"m\").get(\"b\") := 2; doc.get(\"m\").delete } schedule { a.exec; a.exec; a.exec }",
        "[{\"key\":\"doc\",\"map\":[{\"key\":\"\\\"m\\\"\",\"lost\":[\"1@a\",\"2@a\"],\"map\":[{\"key\":\"\\\"a\\\"\",\"lost\":[\"1@a\"],\"shown\":false,\"taken\":[[\"1@a\",{\"n\":\"1\"}]]},{\"key\":\"\\\"b\\\"\",\"lost\":[\"2@a\"],\"shown\":false,\"taken\":[[\"2@a\",{\"n\":\"2\"}]]}],\"shown\":false}]}]",
    ),
    // One of what never was makes the way to it, and the same once more changes nothing.
    (
        "jsoncrdt 1 replica a { doc.get(\"x\").get(\"y\").delete } schedule { a.exec }",
        "[{\"key\":\"doc\",\"made\":[\"map\"],\"map\":[{\"key\":\"\\\"x\\\"\",\"made\":[\"map\"]}]}]",
    ),
    (
        "jsoncrdt 1 replica a { doc.get(\"x\").get(\"y\").delete; doc.get(\"x\").get(\"y\").delete } schedule { a.exec; a.exec }",
        "[]",
    ),
    // An insert links the key before its element otherwise.
    (
        "jsoncrdt 1 replica a { doc := []; doc.idx(0).insertAfter(\"x\"); doc.idx(0).insertAfter({}) } schedule { a.exec; a.exec; a.exec }",
        "[{\"gained\":[\"3@a\"],\"key\":\"doc\",\"list\":[{\"key\":\"head\",\"next\":[\"2@a\",\"3@a\"]},{\"gained\":[\"3@a\"],\"key\":\"3@a\",\"made\":[\"map\"],\"next\":[null,\"2@a\"],\"shown\":true}]}]",
    ),
    // It passes over a greater element, and comes to stand behind that one, which is named after it.
    (
        "jsoncrdt 1 replica p { doc := []; yield; doc.idx(0).insertAfter(\"o\"); yield } replica q { yield; doc.idx(0).insertAfter(\"a\"); doc.idx(0).insertAfter(\"b\"); yield } schedule { p.exec; p.send; p.done; q.recv(p); q.apply(1, p); q.done; p.exec; p.send; q.exec; q.exec; q.recv(p); q.apply(2, p) }",
        "[{\"gained\":[\"2@p\"],\"key\":\"doc\",\"list\":[{\"gained\":[\"2@p\"],\"key\":\"2@p\",\"made\":[\"register\"],\"next\":[null,\"tail\"],\"shown\":true,\"written\":[[\"2@p\",\"o\"]]},{\"key\":\"2@q\",\"next\":[\"tail\",\"2@p\"]}]}]",
    ),
    // A new list takes the old one's elements and what is in them; links stay.
    (
        "jsoncrdt 1 replica a { doc := []; doc.idx(0).insertAfter({}); doc.idx(1).get(\"k\") := true; doc := [] } schedule { a.exec; a.exec; a.exec; a.exec }",
        "[{\"gained\":[\"4@a\"],\"key\":\"doc\",\"list\":[{\"key\":\"2@a\",\"lost\":[\"2@a\",\"3@a\"],\"map\":[{\"key\":\"\\\"k\\\"\",\"lost\":[\"3@a\"],\"shown\":false,\"taken\":[[\"3@a\",true]]}],\"shown\":false}],\"lost\":[\"1@a\",\"2@a\",\"3@a\"]}]",
    ),
];

/// The text of the effects.
fn text_of(alloc: Global, names: &[Text], effects: &Effects) -> Result<Vec<u8>, AllocError> {
    let mut out = Writer::new(Vec::new(alloc));
    write_effects(alloc, names, effects, &mut out)?;
    Ok(out.into_inner())
}

fn is_worked(rt: &impl Abort, alloc: Global, text: &str, want: &str) -> Result<(), Fail> {
    let scenario = read(alloc, text.as_bytes())?;
    let effects = effects_of_last(rt, alloc, &scenario)?;
    let got = text_of(alloc, &scenario.names, &effects)?;
    assert!(rt; got.as_slice() == want.as_bytes(), "{text}");
    Ok(())
}

#[test]
fn worked_by_hand(rt: HostRuntime) -> Result<(), Fail> {
    for (text, want) in ROWS {
        is_worked(&rt, rt.alloc(), text, want)?;
    }
    Ok(())
}

//! Tests of what operations mean, in runs that were worked by hand and in random networks.

ghost use Rattle.std.specs.Prelude.{◌<◌};

use crate::nets::{DELETION, EXECS, INSERTS, LISTS, MEETING, PAST_THE_END, deep, holds, make};
use crate::turns::{Turn, in_network};
use jc_json::Tree;
use jc_meaning::{have_distinct_ids, meaning, same_tree};
use jc_network::Net;
use jc_rules::{Event, Op, Text};
use jc_tree::{ArenaTree, PlainTree};
use std::alloc::{AllocError, Global};
use std::cell::Cell;
use std::process::Abort;
use std::test::Fail;

/// The text of the tree.
fn text_of(alloc: Global, names: &[Text], store: &PlainTree) -> Result<String, AllocError> {
    let tree = Tree {
        alloc,
        names,
        store,
    };
    // Nothing but memory is refused.
    match serde_json::to_string(alloc, &tree) {
        Ok(text) => Ok(text),
        Err(_) => Err(AllocError),
    }
}

/// The text of the tree that the operations mean.
fn meant(rt: &impl Abort, alloc: Global, names: &[Text], ops: &[Op]) -> Result<String, AllocError> {
    assert!(rt; have_distinct_ids(ops));
    let store = meaning(alloc, ops)?;
    text_of(alloc, names, &store)
}

fn is_text(rt: &impl Abort, got: &str, want: &str) {
    assert!(rt; got == want, "{got}");
}

/// Whether the tree is what the operations mean, but for empty presence sets.
fn is_meaning(
    rt: &impl Abort,
    alloc: Global,
    ops: &[Op],
    tree: &ArenaTree,
) -> Result<bool, AllocError> {
    assert!(rt; have_distinct_ids(ops));
    let means = meaning(alloc, ops)?;
    same_tree(alloc, &means, tree)
}

/// The replica's tree is what its operations mean, but for empty presence sets.
pub fn is_meant(rt: &impl Abort, alloc: Global, net: &Net, p: u16) {
    let (Ok(ops), Some(replica)) = (net.applied(p), net.replica(p)) else {
        panic!(rt; "no replica");
    };
    holds(
        rt,
        is_meaning(rt, alloc, ops.as_slice(), replica.tree()) == Ok(true),
    );
}

fn mean(
    rt: &impl Abort,
    alloc: Global,
    names: &[Text],
    ops: &[Op],
    want: &str,
) -> Result<(), AllocError> {
    let text = meant(rt, alloc, names, ops)?;
    is_text(rt, text.as_str(), want);
    Ok(())
}

/// The replica's tree is what its operations mean, and they mean this tree.
pub fn is_meant_as(
    rt: &impl Abort,
    alloc: Global,
    net: &Net,
    p: u16,
    want: &str,
) -> Result<(), AllocError> {
    is_meant(rt, alloc, net, p);
    let Ok(ops) = net.applied(p) else {
        panic!(rt; "no replica");
    };
    mean(rt, alloc, net.names(), ops.as_slice(), want)
}

const NOTHING: &str = "jsoncrdt 1 replica a { doc := 1 }";

const MAP_THEN_VALUE: &str = "jsoncrdt 1 replica a { doc.get(\"k\") := {}; doc.get(\"k\") := 1 }";

const VALUE_THEN_MAP: &str = "jsoncrdt 1 replica a { doc.get(\"k\") := 1; doc.get(\"k\") := {} }";

const UNDELETED: &str =
    "{\"mapT(doc)\":{\"mapT(\\\"m\\\")\":{\"pres(\\\"k\\\")\":[\"2@b\"],\"regT(\\\"k\\\")\":{\"2@b\":{\"n\":\"1\"}}},\"pres(\\\"m\\\")\":[\"2@b\"]},\"pres(doc)\":[\"1@a\",\"2@b\"]}";

const MET: &str =
    "{\"mapT(doc)\":{\"listT(\\\"l\\\")\":{\"next(2@a)\":\"tail\",\"next(2@b)\":\"2@a\",\"next(head)\":\"2@b\",\"pres(2@a)\":[\"2@a\"],\"pres(2@b)\":[\"2@b\"],\"regT(2@a)\":{\"2@a\":\"x\"},\"regT(2@b)\":{\"2@b\":\"y\"}},\"pres(\\\"l\\\")\":[\"1@a\",\"2@a\",\"2@b\"]},\"pres(doc)\":[\"1@a\",\"2@a\",\"2@b\"]}";

const NEW_LIST: &str =
    "{\"mapT(doc)\":{\"listT(\\\"l\\\")\":{\"next(head)\":\"tail\"},\"pres(\\\"l\\\")\":[\"2@b\"],\"regT(\\\"l\\\")\":{}},\"pres(doc)\":[\"1@a\",\"2@b\"]}";

const TWO: &[Event] = &[Event::Exec(0); 2];

const FOUR: &[Event] = &[Event::Exec(0); 4];

/// A scenario, events, a replica, and the tree that its operations mean then.
const ROWS: [(&str, &[Event], u16, &str); 10] = [
    (NOTHING, &[], 0, "{}"),
    (
        MAP_THEN_VALUE,
        TWO,
        0,
        "{\"mapT(doc)\":{\"mapT(\\\"k\\\")\":{},\"pres(\\\"k\\\")\":[\"1@a\",\"2@a\"],\"regT(\\\"k\\\")\":{\"2@a\":{\"n\":\"1\"}}},\"pres(doc)\":[\"1@a\",\"2@a\"]}",
    ),
    (
        VALUE_THEN_MAP,
        TWO,
        0,
        "{\"mapT(doc)\":{\"mapT(\\\"k\\\")\":{},\"pres(\\\"k\\\")\":[\"2@a\"],\"regT(\\\"k\\\")\":{}},\"pres(doc)\":[\"1@a\",\"2@a\"]}",
    ),
    (DELETION, MEETING, 0, UNDELETED),
    (DELETION, MEETING, 1, UNDELETED),
    (INSERTS, MEETING, 0, MET),
    (INSERTS, MEETING, 1, MET),
    (
        PAST_THE_END,
        FOUR,
        0,
        "{\"listT(doc)\":{\"next(2@a)\":\"3@a\",\"next(3@a)\":\"tail\",\"next(head)\":\"2@a\",\"pres(3@a)\":[\"3@a\"],\"regT(2@a)\":{},\"regT(3@a)\":{\"3@a\":\"y\"}},\"pres(doc)\":[\"1@a\",\"2@a\",\"3@a\"]}",
    ),
    (LISTS, MEETING, 0, NEW_LIST),
    (LISTS, MEETING, 1, NEW_LIST),
];

#[test]
fn worked_runs(rt: HostRuntime) -> Result<(), Fail> {
    for (scenario, events, p, want) in &ROWS {
        in_network(&rt, rt.alloc(), scenario, events, &Turn::Meaning(*p, want))?;
    }
    Ok(())
}

/// A map 512 keys deep with a value that was cleared, in a new map for the document.
fn deep_tree(alloc: Global) -> Result<String, AllocError> {
    let mut tree = String::from_str(alloc, "{\"mapT(doc)\":{")?;
    for _ in 1..512u16 {
        tree.push_str("\"mapT(\\\"a\\\")\":{")?;
    }
    tree.push_str("\"regT(\\\"a\\\")\":{}}")?;
    for _ in 1..512u16 {
        tree.push_str("}")?;
    }
    tree.push_str(",\"pres(doc)\":[\"2@a\"]}")?;
    Ok(tree)
}

fn is_deep(rt: &impl Abort, alloc: Global, text: &str) -> Result<(), Fail> {
    let tree = deep_tree(alloc)?;
    in_network(rt, alloc, text, EXECS, &Turn::Meaning(0, tree.as_str()))
}

#[test]
fn deep_value(rt: HostRuntime) -> Result<(), Fail> {
    let text = deep(rt.alloc())?;
    is_deep(&rt, rt.alloc(), text.as_str())
}

/// The next number below the count.
fn pick(seed: &mut u64, count: usize) -> usize
    requires { 0 < count }
    ensures { result < count }
{
    *seed = seed
        .wrapping_mul(6364136223846793005)
        .wrapping_add(1442695040888963407);
    (*seed >> 33) as usize % count
}

const COMMANDS: [&str; 12] = [
    "; yield",
    "; yield",
    "; doc.get(\"k\") := 1",
    "; doc.get(\"k\") := {}",
    "; doc.get(\"k\") := []",
    "; doc.get(\"k\").delete",
    "; doc.get(\"k\").get(\"j\") := 2",
    "; doc.get(\"k\").idx(0).insertAfter(3)",
    "; doc.get(\"k\").idx(0).insertAfter([])",
    "; doc.get(\"k\").idx(1).insertAfter({})",
    "; doc.get(\"k\").idx(1).delete",
    "; doc := {}",
];

/// Pushes a replica's script: a yield, and commands at random.
fn push_script(text: &mut String, seed: &mut u64) -> Result<(), AllocError> {
    text.push_str(" { doc.get(\"k\") := []; yield")?;
    for _ in 0..6u8 {
        text.push_str(COMMANDS[pick(seed, 12)])?;
    }
    text.push_str("; yield }")
}

/// Three replicas with scripts at random.
fn random_text(alloc: Global, seed: &mut u64) -> Result<String, AllocError> {
    let mut text = String::from_str(alloc, "jsoncrdt 1")?;
    for name in [" replica a", " replica b", " replica c"] {
        text.push_str(name)?;
        push_script(&mut text, seed)?;
    }
    Ok(text)
}

/// One of the events, at random, where there are any.
fn one_of(events: &[Event], seed: &mut u64) -> Option<Event> {
    if events.is_empty() {
        return None;
    }
    Some(events[pick(seed, events.len())])
}

/// One of the events that can be made.
fn any_of(net: &Net, seed: &mut u64) -> Result<Option<Event>, AllocError> {
    let events = net.enabled()?;
    Ok(one_of(events.as_slice(), seed))
}

/// Makes so many events at random, as long as there are any.
fn make_some(rt: &impl Abort, net: &mut Net, count: u32, seed: &mut u64) -> Result<(), AllocError> {
    for _ in 0..count {
        match any_of(net, seed)? {
            Some(event) => make(rt, net, &[event]),
            None => return Ok(()),
        }
    }
    Ok(())
}

/// After events at random each replica's tree is what its operations mean.
pub fn have_run(
    rt: &impl Abort,
    alloc: Global,
    net: &mut Net,
    seed: &Cell<u64>,
) -> Result<(), AllocError> {
    let mut number = seed.get();
    make_some(rt, net, 60, &mut number)?;
    seed.set(number);
    for p in 0..3 {
        is_meant(rt, alloc, net, p);
    }
    Ok(())
}

fn run_one(rt: &impl Abort, alloc: Global, seed: &Cell<u64>) -> Result<(), Fail> {
    let mut number = seed.get();
    let text = random_text(alloc, &mut number)?;
    seed.set(number);
    in_network(rt, alloc, text.as_str(), &[], &Turn::Random(&*seed))
}

/// In a thousand random networks each replica's tree is what its operations mean.
#[test]
fn random_networks(rt: HostRuntime) -> Result<(), Fail> {
    let seed = Cell::new(1);
    for _ in 0..1000u16 {
        run_one(&rt, rt.alloc(), &seed)?;
    }
    Ok(())
}

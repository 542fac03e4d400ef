//! Tests of the document lines of replicas, with enough memory.

use crate::nets::{DELETION, MEETING, holds};
use crate::turns::{Turn, in_network};
use jc_network::{CompareFault, Net};
use jc_view::view_replica;
use std::alloc::Global;
use std::process::Abort;
use std::test::Fail;

/// The replicas of the meeting, and the line of each.
const LINES: &[(u16, &str)] = &[
    (0, "{\"doc\":{\"m\":{\"k\":1}},\"name\":\"a\"}\n"),
    (1, "{\"doc\":{\"m\":{\"k\":1}},\"name\":\"b\"}\n"),
];

/// The document line of the replica is this one.
fn shows(rt: &impl Abort, alloc: Global, net: &Net, p: u16, want: &str) {
    match view_replica(alloc, net, p) {
        Ok(line) => holds(rt, line.as_slice() == want.as_bytes()),
        Err(_) => panic!(rt; "no line"),
    }
}

/// The replicas have these lines, and one that isn't there has none.
pub fn documents_are_shown(rt: &impl Abort, alloc: Global, net: &Net) {
    for (p, want) in LINES {
        shows(rt, alloc, net, *p, want);
    }
    holds(
        rt,
        matches!(
            view_replica(alloc, net, 2),
            Err(CompareFault::NoSuchReplica)
        ),
    );
}

#[test]
fn documents(rt: HostRuntime) -> Result<(), Fail> {
    in_network(&rt, rt.alloc(), DELETION, MEETING, &Turn::Documents)
}

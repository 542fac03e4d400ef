//! Tests of networks whose events are all taken back.

use crate::nets::{
    DELETION, EXECS, INSERTS, MEETING, PAST_THE_END, deep, dumps, has_dumps, holds, make,
};
use crate::turns::{Turn, in_network};
use jc_network::Net;
use jc_replica::LastStep;
use jc_rules::Event;
use std::alloc::{AllocError, Global};
use std::process::Abort;
use std::test::Fail;

const FIVE: &[Event] = &[Event::Exec(0); 5];

/// Makes the events, and returns the dump lines before each of them.
fn run_seen(
    rt: &impl Abort,
    alloc: Global,
    net: &mut Net,
    events: &[Event],
) -> Result<Vec<String>, AllocError> {
    let mut before = Vec::new(alloc);
    for event in events {
        before.push(dumps(rt, alloc, net)?)?;
        make(rt, net, &[*event]);
    }
    Ok(before)
}

/// Each step that is taken back leaves the dump lines from before it.
fn expect_before(
    rt: &impl Abort,
    alloc: Global,
    net: &mut Net,
    before: &[String],
) -> Result<(), AllocError> {
    for lines in before.iter().rev() {
        holds(rt, net.undo());
        has_dumps(rt, alloc, net, lines.as_str())?;
    }
    holds(rt, net.steps() == 0 && !net.undo());
    Ok(())
}

/// The events are taken back and made again.
fn back_and_there(
    rt: &impl Abort,
    alloc: Global,
    net: &mut Net,
    events: &[Event],
    before: &[String],
    last: &str,
) -> Result<(), AllocError> {
    expect_before(rt, alloc, net, before)?;
    make(rt, net, events);
    has_dumps(rt, alloc, net, last)
}

/// The events are made, taken back, and made again.
pub fn there_and_back(
    rt: &impl Abort,
    alloc: Global,
    net: &mut Net,
    events: &[Event],
) -> Result<(), AllocError> {
    let before = run_seen(rt, alloc, net, events)?;
    let last = dumps(rt, alloc, net)?;
    back_and_there(rt, alloc, net, events, before.as_slice(), last.as_str())
}

/// Whether the network's last step sent or received so many operations.
fn has_moved(net: &Net, count: usize, is_sent: bool) -> bool {
    match net.last_step() {
        Some(LastStep::Sent(ops)) => is_sent && ops.len() == count,
        Some(LastStep::Received(ids)) => !is_sent && ids.len() == count,
        _ => false,
    }
}

/// Each event that is made is the last step, whichever replica makes it, and on the way back the one before it is again.
pub fn last_steps(rt: &impl Abort, net: &mut Net) {
    holds(rt, net.last_step().is_none());
    make(rt, net, &[Event::Exec(0), Event::Send(0)]);
    holds(rt, has_moved(net, 1, true));
    make(rt, net, &[Event::Recv(1, 0)]);
    holds(rt, has_moved(net, 1, false));
    holds(rt, net.undo() && has_moved(net, 1, true));
    holds(rt, net.undo());
    holds(rt, matches!(net.last_step(), Some(LastStep::Made { .. })));
    net.begin();
    holds(rt, net.last_step().is_none());
}

fn expect(rt: &impl Abort, alloc: Global, text: &str, events: &[Event]) -> Result<(), Fail> {
    in_network(rt, alloc, text, &[], &Turn::ThereAndBack(&*events))
}

fn expect_deep(rt: &impl Abort, alloc: Global) -> Result<(), Fail> {
    let text = deep(alloc)?;
    expect(rt, alloc, text.as_str(), EXECS)
}

#[test]
fn steps_are_taken_back(rt: HostRuntime) -> Result<(), Fail> {
    let alloc = rt.alloc();
    expect(&rt, alloc, DELETION, MEETING)?;
    expect(&rt, alloc, INSERTS, MEETING)?;
    expect(&rt, alloc, PAST_THE_END, FIVE)?;
    expect_deep(&rt, alloc)
}

#[test]
fn the_last_step_is_returned(rt: HostRuntime) -> Result<(), Fail> {
    in_network(&rt, rt.alloc(), INSERTS, &[], &Turn::LastSteps)
}

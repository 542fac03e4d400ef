//! Tests of the event that a replica chooses, worked by hand.

use crate::nets::{DELETION, FIRST, holds};
use crate::turns::{Turn, in_network};
use jc_choice::{Phase, choose};
use jc_network::Net;
use jc_rules::Event;
use std::process::Abort;
use std::test::Fail;

/// The first events of the two replicas: the first one assigns the map and sends it.
const MEETING: &[Event] = &[
    Event::Exec(0),
    Event::Send(0),
    Event::Recv(1, 0),
    Event::Apply(1, FIRST),
    Event::Done(1),
    Event::Exec(1),
    Event::Send(1),
    Event::Done(1),
];

/// After so many of these events a replica chooses in a phase: the event, and its phase after it.
type Row = (usize, u16, Phase, Option<(Event, Phase)>);

const ROWS: &[Row] = &[
    // a command that isn't yield
    (0, 0, Phase::Start, Some((Event::Exec(0), Phase::Start))),
    // at a yield: to send, to receive from all but itself
    (
        0,
        1,
        Phase::Start,
        Some((Event::Send(1), Phase::Receiving(0))),
    ),
    (
        1,
        0,
        Phase::Start,
        Some((Event::Send(0), Phase::Receiving(0))),
    ),
    (
        2,
        0,
        Phase::Receiving(0),
        Some((Event::Recv(0, 1), Phase::Receiving(2))),
    ),
    (
        2,
        1,
        Phase::Receiving(0),
        Some((Event::Recv(1, 0), Phase::Receiving(1))),
    ),
    // nothing was received
    (
        2,
        0,
        Phase::Receiving(2),
        Some((Event::Done(0), Phase::Start)),
    ),
    (
        2,
        1,
        Phase::Receiving(1),
        Some((Event::Done(1), Phase::Start)),
    ),
    (
        2,
        1,
        Phase::Receiving(65535),
        Some((Event::Done(1), Phase::Start)),
    ),
    // an operation that is ready, and none
    (
        3,
        1,
        Phase::Receiving(1),
        Some((Event::Apply(1, FIRST), Phase::Applying)),
    ),
    (
        3,
        1,
        Phase::Applying,
        Some((Event::Apply(1, FIRST), Phase::Applying)),
    ),
    (4, 1, Phase::Applying, Some((Event::Done(1), Phase::Start))),
    // its second command, and then none is left
    (5, 1, Phase::Start, Some((Event::Exec(1), Phase::Start))),
    (8, 1, Phase::Start, None),
    // no such replica
    (0, 2, Phase::Start, None),
];

/// The replica chooses this in the phase.
pub fn chooses(rt: &impl Abort, net: &Net, p: u16, phase: Phase, want: &Option<(Event, Phase)>) {
    holds(rt, choose(net, p, phase) == *want);
}

#[test]
fn choices_are_those(rt: HostRuntime) -> Result<(), Fail> {
    for (count, p, phase, want) in ROWS {
        let events = MEETING.get(..*count).unwrap_or(MEETING);
        let turn = Turn::Choice(*p, *phase, *want);
        in_network(&rt, rt.alloc(), DELETION, events, &turn)?;
    }
    Ok(())
}

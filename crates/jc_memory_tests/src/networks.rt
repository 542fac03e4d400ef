//! Tests of questions to a network and a trace, with too little memory.

use crate::attempts::{Attempt, Outcome, done_if, holds, refusals};
use crate::memory::fill;
use crate::rows::{DEEP, DELETION, INSERTS, TOMBSTONE, dumps, has_dumps, start};
use jc_dump::{dump_replica, trace_text};
use jc_meaning::{Comparison, compare};
use jc_network::{CompareFault, Net};
use jc_rules::{Event, Id, Rule, Trace};
use std::alloc::Global;
use std::process::Abort;

/// A question.
#[derive(Clone, Copy)]
enum Asked {
    Enabled,
    Applied,
    AppliedIds,
    Dump,
    Compared,
    Traced,
}

const ALL: [Asked; 6] = [
    Asked::Enabled,
    Asked::Applied,
    Asked::AppliedIds,
    Asked::Dump,
    Asked::Compared,
    Asked::Traced,
];

/// The events that are enabled where two replicas have met.
const ENABLED: &[Event] = &[
    Event::Send(0),
    Event::Recv(0, 0),
    Event::Recv(0, 1),
    Event::Done(0),
    Event::Send(1),
    Event::Recv(1, 0),
    Event::Recv(1, 1),
    Event::Done(1),
];

/// The operations that both replicas have applied.
const APPLIED: &[Id] = &[
    Id {
        counter: 1,
        replica: 0,
    },
    Id {
        counter: 2,
        replica: 0,
    },
    Id {
        counter: 2,
        replica: 1,
    },
];

const DUMP: &str =
    "{\"acted\":true,\"left\":1,\"name\":\"a\",\"ops\":[\"1@a\",\"2@a\",\"2@b\"],\"queue\":[\"1@a\",\"2@a\"],\"recv\":[\"2@b\"],\"send\":[\"1@a\",\"2@a\"],\"tree\":{\"mapT(doc)\":{\"mapT(\\\"m\\\")\":{\"pres(\\\"k\\\")\":[\"2@b\"],\"regT(\\\"k\\\")\":{\"2@b\":{\"n\":\"1\"}}},\"pres(\\\"m\\\")\":[\"2@b\"]},\"pres(doc)\":[\"1@a\",\"2@b\"]},\"vars\":{}}\n";

const TRACE: &str = "0 SEND\n";

fn is_refused(fault: CompareFault) -> Outcome {
    match fault {
        CompareFault::Memory => Outcome::Refused,
        CompareFault::NoSuchReplica => Outcome::Wrong,
    }
}

fn enabled(net: &Net, want: &[Event]) -> Outcome {
    match net.enabled() {
        Ok(events) => done_if(events.as_slice() == want),
        Err(_) => Outcome::Refused,
    }
}

/// Whether the operations have these identifiers.
fn applied(net: &Net) -> Outcome {
    let ops = match net.applied(1) {
        Ok(ops) => ops,
        Err(fault) => return is_refused(fault),
    };
    let mut is = ops.len() == APPLIED.len();
    for (op, id) in ops.iter().zip(APPLIED) {
        is = is && op.id == *id;
    }
    done_if(is)
}

fn applied_ids(net: &Net) -> Outcome {
    match net.applied_ids(1) {
        Ok(ids) => done_if(ids.as_slice() == APPLIED),
        Err(fault) => is_refused(fault),
    }
}

fn dumped(alloc: Global, net: &Net) -> Outcome {
    match dump_replica(alloc, net, 0) {
        Ok(line) => done_if(line.as_str() == DUMP),
        Err(fault) => is_refused(fault),
    }
}

fn compared(alloc: Global, net: &Net) -> Outcome {
    match compare(alloc, net, 0, 1) {
        Ok(Comparison::SameOps { same_tree }) => done_if(same_tree),
        Ok(Comparison::DifferentOps) => Outcome::Wrong,
        Err(fault) => is_refused(fault),
    }
}

fn traced(alloc: Global, trace: &Trace) -> Outcome {
    match trace_text(alloc, trace) {
        Ok(text) => done_if(text.as_str() == TRACE),
        Err(_) => Outcome::Refused,
    }
}

/// A question to a network, or to a trace.
#[derive(Drop)]
struct Ask<'a> {
    alloc: Global,
    net: &'a Net,
    trace: &'a Trace,
    asked: Asked,
    /// The events that are enabled.
    events: &'a [Event],
    lines: &'a str,
}

impl<'a> Attempt for Ask<'a> {
    fn make(&mut self) -> Outcome {
        match self.asked {
            Asked::Enabled => enabled(self.net, self.events),
            Asked::Applied => applied(self.net),
            Asked::AppliedIds => applied_ids(self.net),
            Asked::Dump => dumped(self.alloc, self.net),
            Asked::Compared => compared(self.alloc, self.net),
            Asked::Traced => traced(self.alloc, self.trace),
        }
    }

    fn stands(&mut self) -> bool {
        has_dumps(self.alloc, self.net, self.lines)
    }
}

/// Asks all of this with ample memory.
fn is_told(rt: &impl Abort, ask: &mut Ask<'_>, all: &[Asked]) {
    for asked in all {
        ask.asked = *asked;
        holds(rt, ask.make() == Outcome::Done);
    }
}

/// Asks all of this with little memory.
fn is_refused_and_told(rt: &impl Abort, ask: &mut Ask<'_>, all: &[Asked]) {
    for asked in all {
        ask.asked = *asked;
        holds(rt, refusals(rt, ask.alloc, ask) > 0);
    }
}

fn ask_all(rt: &impl Abort, alloc: Global, net: &Net, all: &[Asked], events: &[Event]) {
    let mut trace = Trace::new(alloc);
    holds(rt, trace.push(Rule::Send).is_ok());
    let lines = dumps(alloc, net).ok().expect(rt, "dumps");
    let mut ask = Ask {
        alloc,
        net,
        trace: &trace,
        asked: Asked::Enabled,
        events,
        lines: lines.as_str(),
    };
    is_told(rt, &mut ask, all);
    let blocks = fill(rt, alloc);
    is_refused_and_told(rt, &mut ask, all);
    drop(blocks);
}

fn run_on(rt: &impl Abort, net: &mut Net, events: &[Event]) {
    for event in events {
        holds(rt, net.step(event).is_ok());
    }
}

/// A scenario, how many of its events are executed, what is asked then, and the events that are enabled.
const ROWS: [(&str, usize, &[Asked], &[Event]); 4] = [
    (DELETION, 14, &ALL, ENABLED),
    (INSERTS, 14, &[Asked::Enabled], ENABLED),
    (TOMBSTONE, 4, &[Asked::Enabled], &[Event::Exec(0)]),
    (DEEP, 11, &[Asked::Enabled], &[Event::Exec(0)]),
];

#[test]
fn answers_are_refused(rt: HostRuntime) {
    for (text, count, all, enabled) in &ROWS {
        let (mut net, mut events) = start(&rt, rt.alloc(), text);
        events.truncate(*count);
        run_on(&rt, &mut net, &events);
        ask_all(&rt, rt.alloc(), &net, all, enabled);
    }
}

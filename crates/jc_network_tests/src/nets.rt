//! Scenarios, the networks to which their events lead, and what the tests expect of them.

ghost use Rattle.std.specs.Prelude.{IfOk};
ghost use Rattle.jc_scenario.specs.WellFormed.{IsWellFormedScenario};
ghost use Rattle.jc_scenario.specs.Views.{scenario_view};

use jc_dump::dump_replica;
use jc_network::{Net, StartFault, StepFault};
use jc_rules::{Event, Id};
use jc_scenario::{Scenario, ScenarioFault, read};
use std::alloc::{AllocError, Global};
use std::process::Abort;
use std::test::Fail;

/// One replica deletes a map in which the other one assigns a key.
pub const DELETION: &str =
    "jsoncrdt 1 replica a { doc.get(\"m\") := {}; yield; doc.get(\"m\").delete; yield } replica b { yield; doc.get(\"m\").get(\"k\") := 1; yield }";

/// Both insert at the head of a list.
pub const INSERTS: &str =
    "jsoncrdt 1 replica a { doc.get(\"l\") := []; yield; doc.get(\"l\").idx(0).insertAfter(\"x\"); yield } replica b { yield; doc.get(\"l\").idx(0).insertAfter(\"y\"); yield }";

/// One deletes a number where the other one puts a list.
pub const LISTS: &str =
    "jsoncrdt 1 replica a { doc.get(\"l\") := 1; yield; doc.get(\"l\").delete; yield } replica b { yield; doc.get(\"l\") := []; yield }";

/// A replica alone, whose last command is stuck.
pub const PAST_THE_END: &str =
    "jsoncrdt 1 replica a { doc := []; doc.idx(0).insertAfter(\"x\"); doc.idx(1).insertAfter(\"y\"); doc.idx(1).delete; let z = doc.idx(1); let w = doc.idx(2) }";

/// One assignment.
pub const ONE: &str = "jsoncrdt 1 replica a { doc.get(\"a\") := 1 }";

/// A replica that only yields.
pub const YIELD: &str = "jsoncrdt 1 replica a { yield }";

/// The scripts of the deletion, in version 2.
pub const DELETION_IN_TWO: &str =
    "jsoncrdt 2 replica a { doc.get(\"m\") := {}; yield; doc.get(\"m\").delete; yield } replica b { yield; doc.get(\"m\").get(\"k\") := 1; yield }";

/// A given event is stuck: the second, since the replica has no command then.
pub const STUCK_GIVEN: &str =
    "jsoncrdt 2 replica a { doc := 1 } replica b {} given { a.exec; a.exec; b.exec }";

/// Commands of a replica alone.
pub const EXECS: &[Event] = &[Event::Exec(0); 515];

/// The first identifiers of the two replicas that meet.
pub const FIRST: Id = Id {
    counter: 1,
    replica: 0,
};

pub const SECOND_OF_A: Id = Id {
    counter: 2,
    replica: 0,
};

pub const SECOND_OF_B: Id = Id {
    counter: 2,
    replica: 1,
};

/// The two replicas know the first operation, run a command each, and send these to each other. One is done then.
pub const MEETING: &[Event] = &[
    Event::Exec(0),
    Event::Send(0),
    Event::Done(0),
    Event::Recv(1, 0),
    Event::Apply(1, FIRST),
    Event::Done(1),
    Event::Exec(0),
    Event::Exec(1),
    Event::Send(0),
    Event::Send(1),
    Event::Recv(0, 1),
    Event::Recv(1, 0),
    Event::Apply(0, SECOND_OF_B),
    Event::Apply(1, SECOND_OF_A),
    Event::Done(1),
];

pub fn holds(rt: &impl Abort, fact: bool) {
    assert!(rt; fact);
}

pub fn scene(alloc: Global, text: &str) -> Result<Scenario, ScenarioFault>
    ensures { IfOk result (λ s. IsWellFormedScenario (scenario_view s)) }
{
    read(alloc, text.as_bytes())
}

/// A path as long as a path may be, an assignment there, and one above, which clears it.
pub fn deep(alloc: Global) -> Result<String, AllocError> {
    let mut text = String::from_str(alloc, "jsoncrdt 1 replica a { let x = doc; ")?;
    for _ in 0..512 {
        text.push_str("let x = x.get(\"a\"); ")?;
    }
    text.push_str("x := 1; doc := {} }")?;
    Ok(text)
}

/// The number of the event's refusal: 0 where it is made, and 255 where another event is refused or memory is wanting.
pub fn number_of(net: &mut Net, event: &Event) -> u8 {
    match net.step(event) {
        Ok(_) => 0,
        Err(StepFault::Full) => 38,
        Err(StepFault::Stuck(stuck)) => if stuck.event == *event {
            stuck.number
        } else {
            255
        },
        Err(StepFault::Memory) => 255,
    }
}

/// Makes the events, none of which is refused.
pub fn make(rt: &impl Abort, net: &mut Net, events: &[Event]) {
    for event in events {
        holds(rt, number_of(net, event) == 0);
    }
}

// The network to which the events lead from the scenario's start, which there is. None of them is refused.
fn led_to(rt: &impl Abort, alloc: Global, scenario: &Scenario, events: &[Event]) -> Net
    requires { IsWellFormedScenario (scenario_view scenario.now) }
{
    let mut net = Net::start(alloc, scenario).ok().expect(rt, "a start");
    make(rt, &mut net, events);
    net
}

/// The network after the events, in place of the scenario's schedule.
pub fn after(rt: &impl Abort, alloc: Global, text: &str, events: &[Event]) -> Result<Net, Fail> {
    let scenario = scene(alloc, text)?;
    Ok(led_to(rt, alloc, &scenario, events))
}

/// The network after the scenario's own schedule.
pub fn run(rt: &impl Abort, alloc: Global, text: &str) -> Result<Net, Fail> {
    let scenario = scene(alloc, text)?;
    Ok(led_to(rt, alloc, &scenario, scenario.schedule.as_slice()))
}

/// Which given event of the scenario is stuck, and the number of its refusal; zeros where there is a start.
pub fn stuck_given(alloc: Global, scenario: &Scenario) -> (u64, u8)
    requires { IsWellFormedScenario (scenario_view scenario.now) }
{
    match Net::start(alloc, scenario) {
        Ok(_) => (0, 0),
        Err(StartFault::Given { at, stuck }) => (at, stuck.number),
        Err(StartFault::Memory) => (0, 255),
    }
}

/// The dump lines of all replicas.
pub fn dumps(rt: &impl Abort, alloc: Global, net: &Net) -> Result<String, AllocError> {
    let mut lines = String::new(alloc);
    for p in 0..net.names().len() as u16 {
        match dump_replica(alloc, net, p) {
            Ok(line) => lines.push_str(line.as_str())?,
            Err(_) => panic!(rt; "no dump"),
        }
    }
    Ok(lines)
}

/// The network has these dump lines.
pub fn has_dumps(rt: &impl Abort, alloc: Global, net: &Net, want: &str) -> Result<(), AllocError> {
    let lines = dumps(rt, alloc, net)?;
    holds(rt, lines.as_str() == want);
    Ok(())
}

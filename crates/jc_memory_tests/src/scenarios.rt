//! Tests of reading, printing and starting a scenario with too little memory.

ghost use Rattle.jc_scenario.specs.WellFormed.{IsWellFormedScenario};
ghost use Rattle.jc_scenario.specs.Views.{scenario_view};

use crate::attempts::{Attempt, MOST, Outcome, done_if, holds, is_done, refusals};
use crate::memory::{UNIT, fill, leave};
use crate::rows::{TEXTS, scene};
use jc_network::Net;
use jc_scenario::{Scenario, ScenarioFault, print, read};
use std::alloc::Global;
use std::process::Abort;

fn have_same_events(one: &Scenario, other: &Scenario) -> bool {
    one.given.as_slice() == other.given.as_slice()
        && one.schedule.as_slice() == other.schedule.as_slice()
}

/// A text that is read, and what it gives with ample memory.
#[derive(Drop)]
struct Reading<'a> {
    alloc: Global,
    text: &'a str,
    ample: &'a Scenario,
}

impl<'a> Attempt for Reading<'a> {
    fn make(&mut self) -> Outcome {
        match read(self.alloc, self.text.as_bytes()) {
            Ok(scenario) => done_if(have_same_events(&scenario, self.ample)),
            Err(ScenarioFault::Memory) => Outcome::Refused,
            Err(_) => Outcome::Wrong,
        }
    }

    fn stands(&mut self) -> bool {
        true
    }
}

/// The text is read with ample memory, and then refused until there is enough.
fn is_read(rt: &impl Abort, alloc: Global, text: &str) {
    let ample = scene(rt, alloc, text);
    let mut reading = Reading {
        alloc,
        text,
        ample: &ample,
    };
    holds(rt, reading.make() == Outcome::Done);
    let blocks = fill(rt, alloc);
    holds(rt, refusals(rt, alloc, &mut reading) > 0);
    drop(blocks);
}

#[test]
fn texts_are_refused(rt: HostRuntime) {
    for text in TEXTS {
        is_read(&rt, rt.alloc(), text);
    }
}

/// A call on a scenario.
#[derive(Clone, Copy)]
enum Made<'a> {
    /// Its canonical text, which is this.
    Text(&'a str),
    Network,
    Copy,
}

fn made_of(alloc: Global, scenario: &Scenario, made: Made) -> Outcome
    requires { IsWellFormedScenario (scenario_view scenario.now) }
{
    match made {
        Made::Text(ample) => match print(alloc, scenario) {
            Ok(text) => done_if(text.as_str() == ample),
            Err(_) => Outcome::Refused,
        },
        Made::Network => match Net::start(alloc, scenario) {
            Ok(net) => done_if(net.steps() == 0),
            Err(_) => Outcome::Refused,
        },
        Made::Copy => match scenario.copy() {
            Ok(copy) => done_if(have_same_events(&copy, scenario)),
            Err(_) => Outcome::Refused,
        },
    }
}

fn made_with(
    rt: &impl Abort,
    alloc: Global,
    scenario: &Scenario,
    made: Made,
    bytes: usize,
) -> Outcome
    requires { IsWellFormedScenario (scenario_view scenario.now) }
{
    let blocks = leave(rt, alloc, bytes);
    let outcome = made_of(alloc, scenario, made);
    drop(blocks);
    outcome
}

/// The number of refusals before it succeeds.
fn refused(rt: &impl Abort, alloc: Global, scenario: &Scenario, made: Made) -> u64
    requires { IsWellFormedScenario (scenario_view scenario.now) }
{
    for n in 0..MOST {
        if is_done(rt, made_with(rt, alloc, scenario, made, n * UNIT)) {
            return n as u64;
        }
    }
    panic!(rt; "it is always refused")
}

/// All is made of the scenario with ample memory, and then refused until there is enough.
fn all_is_made(rt: &impl Abort, alloc: Global, scenario: &Scenario)
    requires { IsWellFormedScenario (scenario_view scenario.now) }
{
    let ample = print(alloc, scenario).ok().expect(rt, "a text");
    for made in [Made::Text(ample.as_str()), Made::Network, Made::Copy] {
        holds(rt, made_of(alloc, scenario, made) == Outcome::Done);
        let blocks = fill(rt, alloc);
        holds(rt, refused(rt, alloc, scenario, made) > 0);
        drop(blocks);
    }
}

#[test]
fn what_is_made_of_scenarios_is_refused(rt: HostRuntime) {
    for text in TEXTS {
        let scenario = scene(&rt, rt.alloc(), text);
        all_is_made(&rt, rt.alloc(), &scenario);
    }
}

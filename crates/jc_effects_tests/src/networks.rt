//! Networks of small scenarios, and what one more event changes.

ghost use Rattle.std.specs.Prelude.{◌≤◌, length, IfOk};
ghost use Rattle.jc_rules.specs.Step.{AfterIn};
ghost use Rattle.jc_scenario.specs.WellFormed.{IsWellFormedScenario};
ghost use Rattle.jc_scenario.specs.Views.{scenario_view};
ghost use Rattle.jc_network.specs.Given.{before_given};

use jc_effects::Effects;
use jc_journal::event_effects;
use jc_network::Net;
use jc_rules::Event;
use jc_scenario::Scenario;
use std::alloc::{AllocError, Global};
use std::process::Abort;

/// The network to which the events lead from the start of the scripts. None of them is refused.
fn after(
    rt: &impl Abort,
    alloc: Global,
    scenario: &Scenario,
    events: &[Event],
) -> Result<Net, AllocError>
    requires formed { IsWellFormedScenario (scenario_view scenario.now) }
    requires few { length events.now ≤ 100 }
    ensures { IfOk result (λ net. AfterIn (before_given (scenario_view scenario.now)) events.now net.history.now) }
{
    let mut net = Net::first(alloc, scenario)?;
    match net.lead(events) {
        Ok(()) => Ok(net),
        Err(_) => panic!(rt; "an event is refused"),
    }
}

/// What the event changes that comes after these.
fn effects_after(
    rt: &impl Abort,
    alloc: Global,
    scenario: &Scenario,
    events: &[Event],
    event: &Event,
) -> Result<Option<Effects>, AllocError>
    requires formed { IsWellFormedScenario (scenario_view scenario.now) }
    requires few { length events.now ≤ 100 }
{
    let old = after(rt, alloc, scenario, events)?;
    let mut new = after(rt, alloc, scenario, events)?;
    match new.step(event) {
        Ok(_) => event_effects(alloc, &old, &new, event),
        Err(_) => panic!(rt; "the event is refused"),
    }
}

/// What the last event of the scenario's schedule changes, which has an operation.
pub fn effects_of_last(
    rt: &impl Abort,
    alloc: Global,
    scenario: &Scenario,
) -> Result<Effects, AllocError>
    requires { IsWellFormedScenario (scenario_view scenario.now) }
{
    let Some((event, events)) = scenario.schedule.split_last() else {
        panic!(rt; "no event");
    };
    assert!(rt; events.len() <= 100);
    match effects_after(rt, alloc, scenario, events, event)? {
        Some(effects) => Ok(effects),
        None => panic!(rt; "no operation"),
    }
}

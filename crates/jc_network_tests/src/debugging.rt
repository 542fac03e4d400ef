//! Tests of calls of the debugger that no session shows: replicas by their numbers, and a debugger at its limits.

use crate::nets::{STUCK_GIVEN, YIELD, holds, scene};
use jc_debug::{DebugFault, Debugger};
use jc_network::{StartFault, Unstarted};
use jc_rules::{Event, Rule};
use std::alloc::Global;
use std::process::Abort;
use std::test::Fail;

/// A debugger at the start of the scenario with this text.
fn begun(rt: &impl Abort, alloc: Global, text: &str) -> Result<Debugger, Fail> {
    let scenario = scene(alloc, text)?;
    Ok(Debugger::new(alloc, scenario).ok().expect(rt, "a debugger"))
}

// ---- outcomes as numbers: 0, the number of a refusal, or 255 for want of memory

fn fault_of(fault: &DebugFault) -> u8 {
    match fault {
        DebugFault::Refused(refusal) => refusal.number(),
        DebugFault::Stuck(stuck) => stuck.number,
        DebugFault::Memory => 255,
    }
}

fn act(debugger: &mut Debugger, event: &Event) -> u8 {
    match debugger.act(event) {
        Ok(()) => 0,
        Err(fault) => fault_of(&fault),
    }
}

fn goto(debugger: &mut Debugger, n: u64) -> u8 {
    match debugger.goto(n) {
        Ok(()) => 0,
        Err(fault) => fault_of(&fault),
    }
}

/// The number of a new breakpoint, or 1000 and that of the refusal.
fn break_of(answer: Result<u16, DebugFault>) -> u16 {
    match answer {
        Ok(k) => k,
        Err(fault) => 1000 + u16::from(fault_of(&fault)),
    }
}

fn missing_replicas(rt: &impl Abort, debugger: &mut Debugger) {
    holds(rt, act(debugger, &Event::Exec(5)) == 37);
    holds(
        rt,
        debugger.position() == 0 && debugger.schedule().is_empty(),
    );
    holds(rt, break_of(debugger.break_replica(1)) == 1037);
}

fn fill(rt: &impl Abort, debugger: &mut Debugger) {
    for _ in 0..100_000 {
        holds(rt, act(debugger, &Event::Send(0)) == 0);
    }
}

fn a_full_schedule(rt: &impl Abort, debugger: &mut Debugger) {
    fill(rt, debugger);
    holds(rt, act(debugger, &Event::Send(0)) == 19);
    holds(rt, act(debugger, &Event::Exec(5)) == 19);
    holds(rt, debugger.back(99_999) && debugger.position() == 1);
    holds(rt, goto(debugger, 100_000) == 0 && debugger.back(1));
    holds(rt, act(debugger, &Event::Done(0)) == 0);
    holds(rt, debugger.position() == 100_000);
}

fn break_all(rt: &impl Abort, debugger: &mut Debugger) {
    for k in 1..257 {
        holds(rt, break_of(debugger.break_at(u64::from(k))) == k);
    }
}

fn no_number_is_left(rt: &impl Abort, debugger: &mut Debugger) {
    break_all(rt, debugger);
    holds(rt, break_of(debugger.break_rule(Rule::Exec)) == 1054);
    holds(rt, break_of(debugger.break_replica(1)) == 1037);
    holds(
        rt,
        !debugger.unbreak(0) && !debugger.unbreak(257) && debugger.unbreak(256),
    );
    holds(rt, break_of(debugger.break_replica(0)) == 256);
}

// ---- the tests: a debugger has one owner

#[derive(Clone, Copy)]
enum Test {
    MissingReplicas,
    FullSchedule,
    NoNumberIsLeft,
}

fn run_test(rt: &impl Abort, debugger: &mut Debugger, test: Test) {
    match test {
        Test::MissingReplicas => missing_replicas(rt, debugger),
        Test::FullSchedule => a_full_schedule(rt, debugger),
        Test::NoNumberIsLeft => no_number_is_left(rt, debugger),
    }
}

fn in_debugger(rt: &impl Abort, alloc: Global, text: &str, test: Test) -> Result<(), Fail> {
    let mut debugger = begun(rt, alloc, text)?;
    run_test(rt, &mut debugger, test);
    Ok(())
}

#[test]
fn debugged_replicas_are_missing(rt: HostRuntime) -> Result<(), Fail> {
    in_debugger(&rt, rt.alloc(), YIELD, Test::MissingReplicas)
}

#[test]
fn the_schedule_is_full(rt: HostRuntime) -> Result<(), Fail> {
    in_debugger(&rt, rt.alloc(), YIELD, Test::FullSchedule)
}

#[test]
fn all_numbers_are_taken(rt: HostRuntime) -> Result<(), Fail> {
    in_debugger(&rt, rt.alloc(), YIELD, Test::NoNumberIsLeft)
}

/// There is no debugger where a given event is stuck.
#[test]
fn a_debugger_has_no_start(rt: HostRuntime) -> Result<(), Fail> {
    match Debugger::new(rt.alloc(), scene(rt.alloc(), STUCK_GIVEN)?) {
        Err(StartFault::Given { at, stuck }) => holds(&rt, at == 2 && stuck.number == 30),
        _ => panic!(rt; "a start"),
    }
    match Debugger::of(rt.alloc(), scene(rt.alloc(), STUCK_GIVEN)?) {
        Err(Unstarted::Given { names, at, stuck }) => {
            holds(&rt, names.len() == 2 && at == 2 && stuck.number == 30)
        }
        _ => panic!(rt; "a start"),
    }
    Ok(())
}

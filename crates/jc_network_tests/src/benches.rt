//! Tests of a bench: steps that are recorded, a bench that is full, and limits that are refused, from one thread.

ghost use Rattle.std.specs.Prelude.{◌≡◌, All, IfOk};
ghost use Rattle.jc_rules.specs.Step.{replica_of};
ghost use Rattle.jc_scenario.specs.WellFormed.{IsWellFormedScenario};
ghost use Rattle.jc_scenario.specs.Views.{scenario_view};
ghost use Rattle.jc_lock.specs.Shows.{pass_number};
ghost use Rattle.jc_runner.specs.Benches.{IsPassAt, IsPassFor, IsNewAt};

use crate::nets::{DELETION, STUCK_GIVEN, holds, scene};
use jc_rules::Event;
use jc_rules::limits::MAX_THREAD_EVENTS;
use jc_runner::{Bench, BenchFault, Pass, Recorded, StepAnswer, UnclosedBench};
use jc_scenario::Scenario;
use std::alloc::Global;
use std::process::Abort;
use std::sync::Wait;
use std::test::Fail;

// Takes the last pass out of the list. The bench and the limit are for the clauses alone.
fn last_pass(rt: &impl Abort, bench: &Bench, limit: u64, passes: &mut Vec<Pass>) -> Pass
    requires { All (IsNewAt bench.now limit) passes.old.items }
    ensures { IsNewAt bench.now limit result × All (IsNewAt bench.now limit) passes.new.items }
{
    let _ = bench;
    let _ = limit;
    passes.pop().expect(rt, "a pass")
}

// A bench of two replicas, with the pass of each.
fn opened(rt: &impl Abort, alloc: Global, limit: u64) -> Result<(Bench, Pass, Pass), Fail>
    ensures { IfOk result (λ r. IsPassFor r.0 0 r.1 × IsPassFor r.0 1 r.2) }
{
    let scenario = scene(alloc, DELETION)?;
    let (bench, mut passes) = match Bench::open(alloc, scenario, limit) {
        Ok(opened) => opened,
        Err(_) => panic!(rt; "no bench"),
    };
    let b = last_pass(rt, &bench, limit, &mut passes);
    let a = last_pass(rt, &bench, limit, &mut passes);
    assert!(rt; a.number() == 0 && b.number() == 1 && passes.is_empty());
    Ok((bench, a, b))
}

// The answer to the event. After want of memory nothing was counted, and the event is tried again.
fn stepped<R: Wait + Abort>(rt: &R, bench: &Bench, pass: Pass, event: Event) -> (Pass, StepAnswer)
    requires { IsPassFor bench.now (replica_of event) pass }
    ensures { IsPassFor bench.now (replica_of event) result.0 }
{
    let (mut pass, answer) = bench.step(rt, pass, &event);
    let before = bench.count(&mut pass);
    match answer {
        StepAnswer::Memory => {
            let (mut pass, answer) = bench.step(rt, pass, &event);
            let grew = u64::from(matches!(answer, StepAnswer::Made { .. }));
            holds(rt, bench.count(&mut pass) == before.saturating_add(grew));
            (pass, answer)
        }
        answer => (pass, answer),
    }
}

// The event is made, and has this number.
fn makes<R: Wait + Abort>(rt: &R, bench: &Bench, pass: Pass, event: Event, want: u64) -> Pass
    requires { IsPassFor bench.now (replica_of event) pass }
    ensures { IsPassFor bench.now (replica_of event) result }
{
    match stepped(rt, bench, pass, event) {
        (pass, StepAnswer::Made { number, trace }) => {
            holds(rt, number == want && !trace.runs().is_empty());
            pass
        }
        _ => panic!(rt; "not made"),
    }
}

// The event is stuck with this number after so many events.
fn refuses<R: Wait + Abort>(
    rt: &R,
    bench: &Bench,
    pass: Pass,
    event: Event,
    want: (u64, u8),
) -> Pass
    requires { IsPassFor bench.now (replica_of event) pass }
    ensures { IsPassFor bench.now (replica_of event) result }
{
    match stepped(rt, bench, pass, event) {
        (pass, StepAnswer::Refused { front, stuck }) => {
            holds(rt, (front, stuck.number) == want && stuck.event == event);
            pass
        }
        _ => panic!(rt; "not refused"),
    }
}

// The pass has made its takes.
fn is_spent<R: Wait + Abort>(rt: &R, bench: &Bench, pass: Pass, event: Event) -> Pass
    requires { IsPassFor bench.now (replica_of event) pass }
    ensures { IsPassFor bench.now (replica_of event) result }
{
    match bench.step(rt, pass, &event) {
        (pass, StepAnswer::Spent) => pass,
        _ => panic!(rt; "not spent"),
    }
}

// Makes as many events as can be: the replica, which yields, sends again and again.
fn fills<R: Wait + Abort>(rt: &R, bench: &Bench, mut pass: Pass) -> Pass
    requires { IsPassFor bench.now 1 pass }
    ensures { IsPassFor bench.now 1 result }
{
    for number in 1..=MAX_THREAD_EVENTS {
        pass = makes(rt, bench, pass, Event::Send(1), number);
    }
    pass
}

// No further event can be made.
fn is_full<R: Wait + Abort>(rt: &R, bench: &Bench, pass: Pass, event: Event) -> Pass
    requires { IsPassFor bench.now (replica_of event) pass }
    ensures { IsPassFor bench.now (replica_of event) result }
{
    match bench.step(rt, pass, &event) {
        (pass, StepAnswer::Full { front }) => {
            holds(rt, front == 100_000);
            pass
        }
        _ => panic!(rt; "not full"),
    }
}

// The bench doesn't close with one pass of two, and closes with both.
fn closed(rt: &impl Abort, alloc: Global, bench: Bench, a: Pass, b: Pass) -> Recorded
    requires { IsPassAt bench a × IsPassAt bench b }
{
    let mut one = Vec::new(alloc);
    one.push(a).ok().expect(rt, "memory");
    let UnclosedBench { bench, mut passes } = match bench.close(one) {
        Ok(_) => panic!(rt; "closed without a pass"),
        Err(refused) => refused,
    };
    passes.push(b).ok().expect(rt, "memory");
    match bench.close(passes) {
        Ok(recorded) => recorded,
        Err(_) => panic!(rt; "not closed"),
    }
}

const RECORDED: &[Event] = &[Event::Exec(0), Event::Send(1), Event::Done(1)];

#[test]
fn steps_are_recorded(rt: HostRuntime) -> Result<(), Fail> {
    let alloc = rt.alloc();
    let (bench, a, mut b) = opened(&rt, alloc, 3)?;
    let a = makes(&rt, &bench, a, Event::Exec(0), 1);
    holds(&rt, bench.count(&mut b) == 1);
    let b = refuses(&rt, &bench, b, Event::Exec(1), (1, 31));
    let b = makes(&rt, &bench, b, Event::Send(1), 2);
    let b = makes(&rt, &bench, b, Event::Done(1), 3);
    let b = is_spent(&rt, &bench, b, Event::Done(1));
    let recorded = closed(&rt, alloc, bench, a, b);
    holds(&rt, recorded.schedule.as_slice() == RECORDED);
    holds(
        &rt,
        recorded.net.steps() == 0 && recorded.start.schedule.is_empty(),
    );
    Ok(())
}

#[test]
fn a_bench_is_filled(rt: HostRuntime) -> Result<(), Fail> {
    let alloc = rt.alloc();
    let (bench, a, b) = opened(&rt, alloc, MAX_THREAD_EVENTS)?;
    let b = fills(&rt, &bench, b);
    let b = is_spent(&rt, &bench, b, Event::Send(1));
    let a = is_full(&rt, &bench, a, Event::Exec(0));
    let recorded = closed(&rt, alloc, bench, a, b);
    holds(&rt, recorded.schedule.len() == 100_000);
    Ok(())
}

// The number of the refusal, and which given event is stuck; zeros where there is none.
fn refusal(alloc: Global, scenario: Scenario, limit: u64) -> (u8, u64)
    requires { IsWellFormedScenario (scenario_view scenario) }
{
    match Bench::open(alloc, scenario, limit) {
        Ok(_) => (0, 0),
        Err(BenchFault::LimitTooLarge) => (46, 0),
        Err(BenchFault::Given { at, stuck: _ }) => (44, at),
        Err(BenchFault::Memory) => (255, 0),
    }
}

#[test]
fn limits_are_refused(rt: HostRuntime) -> Result<(), Fail> {
    for (text, limit, want) in [
        (DELETION, MAX_THREAD_EVENTS + 1, (46, 0)),
        (STUCK_GIVEN, MAX_THREAD_EVENTS + 1, (46, 0)),
        (STUCK_GIVEN, MAX_THREAD_EVENTS, (44, 2)),
    ] {
        let scenario = scene(rt.alloc(), text)?;
        holds(&rt, refusal(rt.alloc(), scenario, limit) == want);
    }
    let (bench, _a, mut b) = opened(&rt, rt.alloc(), MAX_THREAD_EVENTS)?;
    holds(&rt, bench.count(&mut b) == 0);
    Ok(())
}

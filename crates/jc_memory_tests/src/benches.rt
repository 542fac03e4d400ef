//! Tests of a bench: steps with too little memory count nothing, and succeed with enough. A step that is refused takes
//! a take of its pass, so each is tried at a bench of its own.

ghost use Rattle.std.specs.Prelude.{All};
ghost use Rattle.jc_rules.specs.Step.{replica_of};
ghost use Rattle.jc_runner.specs.Benches.{IsPassFor, IsNewAt};

use crate::attempts::{MOST, Outcome, done_if, holds};
use crate::memory::{SPARE, budget, fill, leave};
use crate::rows::{DELETION, scene};
use jc_rules::Event;
use jc_runner::{Bench, Pass, StepAnswer};
use std::alloc::Global;
use std::process::Abort;
use std::sync::Wait;

// Takes the last pass out of the list.
fn last_pass(rt: &impl Abort, bench: &Bench, passes: &mut Vec<Pass>) -> Pass
    requires { All (IsNewAt bench.now 10) passes.old.items }
    ensures { IsNewAt bench.now 10 result × All (IsNewAt bench.now 10) passes.new.items }
{
    let _ = bench;
    passes.pop().expect(rt, "a pass")
}

// A bench of two replicas, with the pass of each, which has ten takes.
fn opened(rt: &impl Abort, alloc: Global) -> (Bench, Pass, Pass)
    ensures { IsPassFor result.0 0 result.1 × IsPassFor result.0 1 result.2 }
{
    let scenario = scene(rt, alloc, DELETION);
    let (bench, mut passes) = match Bench::open(alloc, scenario, 10) {
        Ok(opened) => opened,
        Err(_) => panic!(rt; "no bench"),
    };
    let b = last_pass(rt, &bench, &mut passes);
    let a = last_pass(rt, &bench, &mut passes);
    assert!(rt; a.number() == 0 && b.number() == 1 && passes.is_empty());
    (bench, a, b)
}

/// The outcome of an event with enough memory.
#[derive(Clone, Copy)]
enum Want {
    /// It is executed, with this number.
    Made(u64),
    /// It is stuck after this number of events, with the number of its refusal.
    Stuck(u64, u8),
}

fn outcome(answer: StepAnswer, want: Want) -> Outcome {
    match (answer, want) {
        (StepAnswer::Made { number, trace }, Want::Made(wanted)) => {
            done_if(number == wanted && !trace.runs().is_empty())
        }
        (StepAnswer::Refused { front, stuck }, Want::Stuck(wanted, number)) => {
            done_if(front == wanted && stuck.number == number)
        }
        (StepAnswer::Memory, _) => Outcome::Refused,
        _ => Outcome::Wrong,
    }
}

// Asks for the event with this much memory. Returns the length of the schedule after it.
fn stepped_with<R: Wait + Abort>(
    rt: &R,
    alloc: Global,
    bench: &Bench,
    pass: Pass,
    event: &Event,
    bytes: usize,
) -> (Pass, StepAnswer, u64)
    requires { IsPassFor bench.now (replica_of event.now) pass }
    ensures { IsPassFor bench.now (replica_of event.now) result.0 }
{
    let blocks = leave(rt, alloc, bytes);
    let (mut pass, answer) = bench.step(rt, pass, event);
    drop(blocks);
    let count = bench.count(&mut pass);
    (pass, answer, count)
}

// The length of the schedule before the event and after it.
fn lengths(want: Want) -> (u64, u64) {
    match want {
        Want::Made(number) => (number.saturating_sub(1), number),
        Want::Stuck(front, _) => (front, front),
    }
}

// Asks for the event with this much memory. Where that is refused nothing is counted, and with ample memory the answer
// is the event's. Returns whether it was refused.
fn makes<R: Wait + Abort>(
    rt: &R,
    alloc: Global,
    bench: &Bench,
    pass: Pass,
    event: &Event,
    want: Want,
    bytes: usize,
) -> (Pass, bool)
    requires { IsPassFor bench.now (replica_of event.now) pass }
    ensures { IsPassFor bench.now (replica_of event.now) result.0 }
{
    let (before, after) = lengths(want);
    let (pass, answer, count) = stepped_with(rt, alloc, bench, pass, event, bytes);
    match outcome(answer, want) {
        Outcome::Done => {
            holds(rt, count == after);
            (pass, false)
        }
        Outcome::Refused => {
            holds(rt, count == before);
            let (pass, answer, count) = stepped_with(rt, alloc, bench, pass, event, SPARE);
            holds(rt, outcome(answer, want) == Outcome::Done && count == after);
            (pass, true)
        }
        Outcome::Wrong => panic!(rt; "another answer"),
    }
}

// Asks for four events at a new bench, for the one with this number with the memory of attempt n, for the others with
// ample memory. Returns whether one was refused at first.
fn is_refused<R: Wait + Abort>(rt: &R, alloc: Global, at: usize, n: usize) -> bool {
    let (bench, a, b) = opened(rt, alloc);
    let bytes = budget(at != 0, n);
    let (_a, first) = makes(rt, alloc, &bench, a, &Event::Exec(0), Want::Made(1), bytes);
    let bytes = budget(at != 1, n);
    let (b, second) = makes(
        rt,
        alloc,
        &bench,
        b,
        &Event::Exec(1),
        Want::Stuck(1, 31),
        bytes,
    );
    let bytes = budget(at != 2, n);
    let (b, third) = makes(rt, alloc, &bench, b, &Event::Send(1), Want::Made(2), bytes);
    let bytes = budget(at != 3, n);
    let (_b, fourth) = makes(rt, alloc, &bench, b, &Event::Done(1), Want::Made(3), bytes);
    first || second || third || fourth
}

// The number of refusals of the event with this number.
fn refused<R: Wait + Abort>(rt: &R, alloc: Global, at: usize) -> u64 {
    for n in 0..MOST {
        if !is_refused(rt, alloc, at, n) {
            return n as u64;
        }
    }
    panic!(rt; "it is always refused")
}

/// The second event is stuck, which may take no memory.
#[test]
fn steps_at_a_bench_are_refused(rt: HostRuntime) {
    holds(&rt, !is_refused(&rt, rt.alloc(), 4, 0));
    let blocks = fill(&rt, rt.alloc());
    for at in 0..4 {
        holds(&rt, refused(&rt, rt.alloc(), at) > 0 || at == 1);
    }
    drop(blocks);
}

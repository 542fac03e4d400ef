//! Tests of steps: with too little memory they leave the network as it was, and they succeed with enough.

use crate::attempts::{Attempt, Outcome, done_if, holds, refusals};
use crate::memory::fill;
use crate::rows::{DEEP, DELETION, INSERTS, TOMBSTONE, dumps, has_dumps, start};
use jc_network::{Net, StepFault};
use jc_rules::{Event, Trace};
use std::alloc::{AllocError, Global};
use std::process::Abort;
use std::test::Fail;

/// The outcome of an event.
#[derive(Drop)]
pub enum Answer {
    /// It is executed, with this trace.
    Made(Trace),
    /// It is stuck, with the number of its refusal.
    Stuck(u8),
    /// There was no memory.
    Memory,
}

/// Executes the event, unless it is stuck.
pub fn answer_to(net: &mut Net, event: &Event) -> Answer {
    match net.step(event) {
        Ok(trace) => Answer::Made(trace),
        Err(StepFault::Stuck(stuck)) => Answer::Stuck(stuck.number),
        Err(StepFault::Full) => Answer::Stuck(38),
        Err(StepFault::Memory) => Answer::Memory,
    }
}

/// Whether the traces have the same runs. It takes no memory.
pub fn is_trace(trace: &Trace, ample: &Trace) -> bool {
    let mut same = trace.runs().len() == ample.runs().len();
    for (one, other) in trace.runs().iter().zip(ample.runs()) {
        same = same
            && one.rule == other.rule
            && one.count == other.count
            && one.depth == other.depth;
    }
    same
}

fn outcome(answer: &Answer, want: &Answer) -> Outcome {
    match (answer, want) {
        (Answer::Made(trace), Answer::Made(ample)) => done_if(is_trace(trace, ample)),
        (Answer::Stuck(number), Answer::Stuck(ample)) => done_if(number == ample),
        (Answer::Memory, _) => Outcome::Refused,
        _ => Outcome::Wrong,
    }
}

/// An event with ample memory: the dump lines before it, and its outcome.
#[derive(Drop)]
struct Ample {
    lines: String,
    answer: Answer,
}

/// Executes the events with ample memory.
fn ample_run(
    rt: &impl Abort,
    alloc: Global,
    net: &mut Net,
    events: &[Event],
) -> Result<Vec<Ample>, AllocError> {
    let mut run = Vec::with_capacity(alloc, events.len())?;
    for event in events {
        let lines = dumps(alloc, net).ok().expect(rt, "dumps");
        let answer = answer_to(net, event);
        run.push(Ample { lines, answer })?;
    }
    Ok(run)
}

/// A network on its way along events.
#[derive(Drop)]
struct Walk<'a> {
    alloc: Global,
    net: Net,
    events: &'a [Event],
    run: &'a [Ample],
    at: usize,
}

impl<'a> Walk<'a> {
    /// Whether the network is as it was with ample memory before the event with this number.
    fn is_at(&self, at: usize) -> bool {
        match self.run.get(at) {
            Some(ample) => {
                self.net.steps() == at as u64
                    && has_dumps(self.alloc, &self.net, ample.lines.as_str())
            }
            None => false,
        }
    }

    /// Whether it was so before the last event, which is taken back and executed again.
    fn was_before(&mut self) -> bool {
        let Some(before) = self.at.checked_sub(1) else {
            return !self.net.undo();
        };
        let Some(last) = self.events.get(before) else {
            return false;
        };
        self.net.undo() && self.is_at(before) && self.net.step(last).is_ok()
    }
}

impl<'a> Attempt for Walk<'a> {
    fn make(&mut self) -> Outcome {
        match (self.events.get(self.at), self.run.get(self.at)) {
            (Some(event), Some(ample)) => outcome(&answer_to(&mut self.net, event), &ample.answer),
            _ => Outcome::Wrong,
        }
    }

    fn stands(&mut self) -> bool {
        let at = self.at;
        self.is_at(at) && self.was_before() && self.is_at(at)
    }
}

/// Executes each event. Returns the number of refusals.
fn walk_on(rt: &impl Abort, walk: &mut Walk<'_>) -> u64 {
    let mut refused = 0u64;
    for at in 0..walk.events.len() {
        walk.at = at;
        let more = refusals(rt, walk.alloc, walk);
        holds(rt, more > 0);
        refused = refused.saturating_add(more);
    }
    refused
}

/// Executes the events of the scenario with ample memory, and then with little.
fn refused_steps(rt: &impl Abort, alloc: Global, text: &str) -> Result<u64, AllocError> {
    let (mut net, events) = start(rt, alloc, text);
    let run = ample_run(rt, alloc, &mut net, &events)?;
    drop(net);
    let (net, _) = start(rt, alloc, text);
    let mut walk = Walk {
        alloc,
        net,
        events: &events,
        run: &run,
        at: 0,
    };
    let blocks = fill(rt, alloc);
    let refused = walk_on(rt, &mut walk);
    drop(blocks);
    Ok(refused)
}

#[test]
fn steps_are_refused(rt: HostRuntime) -> Result<(), Fail> {
    for text in [DELETION, INSERTS, TOMBSTONE, DEEP] {
        let refused = refused_steps(&rt, rt.alloc(), text)?;
        holds(&rt, refused > 100);
    }
    Ok(())
}

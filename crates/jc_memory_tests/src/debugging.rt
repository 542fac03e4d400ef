//! Tests of a debugger: moves with too little memory stop at an earlier position, and succeed with enough.

ghost use Rattle.jc_scenario.specs.WellFormed.{IsWellFormedScenario};
ghost use Rattle.jc_scenario.specs.Views.{scenario_view};

use crate::attempts::{Attempt, MOST, Outcome, done_if, holds, is_done, refusals};
use crate::memory::{SPARE, UNIT, fill, leave};
use crate::rows::{DEEP, DELETION, INSERTS, TOMBSTONE, dumps, has_dumps, scene};
use jc_debug::{DebugFault, Debugger, RunEnd};
use jc_rules::{Event, Id};
use jc_scenario::Scenario;
use std::alloc::{AllocError, Global};
use std::process::Abort;
use std::test::Fail;

/// A scenario.
#[derive(Clone, Copy)]
struct Row {
    text: &'static str,
    /// The number of its events.
    length: usize,
    /// The number of those that can be made, and the last of them.
    most: u64,
    last: Event,
}

/// The last event where two replicas meet.
const LAST: Event = Event::Apply(
    1,
    Id {
        counter: 2,
        replica: 0,
    },
);

const ROWS: [Row; 4] = [
    Row {
        text: DELETION,
        length: 14,
        most: 14,
        last: LAST,
    },
    Row {
        text: INSERTS,
        length: 14,
        most: 14,
        last: LAST,
    },
    Row {
        text: TOMBSTONE,
        length: 6,
        most: 5,
        last: Event::Exec(0),
    },
    Row {
        text: DEEP,
        length: 12,
        most: 12,
        last: Event::Exec(0),
    },
];

fn begun_of(alloc: Global, scenario: Scenario, length: usize) -> Outcome
    requires { IsWellFormedScenario (scenario_view scenario) }
{
    match Debugger::new(alloc, scenario) {
        Ok(debugger) => done_if(debugger.position() == 0 && debugger.schedule().len() == length),
        Err(_) => Outcome::Refused,
    }
}

fn begun_with(rt: &impl Abort, alloc: Global, row: Row, bytes: usize) -> Outcome {
    let scenario = scene(rt, alloc, row.text);
    let blocks = leave(rt, alloc, bytes);
    let outcome = begun_of(alloc, scenario, row.length);
    drop(blocks);
    outcome
}

/// The number of refusals before a debugger is made.
fn refused_begins(rt: &impl Abort, alloc: Global, row: Row) -> u64 {
    for n in 0..MOST {
        if is_done(rt, begun_with(rt, alloc, row, n * UNIT)) {
            return n as u64;
        }
    }
    panic!(rt; "it is always refused")
}

#[test]
fn debuggers_are_refused(rt: HostRuntime) {
    for row in ROWS {
        holds(
            &rt,
            begun_with(&rt, rt.alloc(), row, SPARE) == Outcome::Done,
        );
        let blocks = fill(&rt, rt.alloc());
        holds(&rt, refused_begins(&rt, rt.alloc(), row) > 0);
        drop(blocks);
    }
}

/// A move of the debugger.
#[derive(Clone, Copy)]
enum Move {
    Step(u64),
    Goto(u64),
    Run,
    Act(Event),
}

fn step(debugger: &mut Debugger, n: u64) -> Outcome {
    match debugger.step(n) {
        Ok(()) => Outcome::Done,
        Err(DebugFault::Memory) => Outcome::Refused,
        Err(_) => Outcome::Wrong,
    }
}

fn goto(debugger: &mut Debugger, n: u64) -> Outcome {
    match debugger.goto(n) {
        Ok(()) => Outcome::Done,
        Err(DebugFault::Memory) => Outcome::Refused,
        Err(_) => Outcome::Wrong,
    }
}

fn run(debugger: &mut Debugger) -> Outcome {
    match debugger.run() {
        Ok(RunEnd::End) | Ok(RunEnd::Stuck(_)) => Outcome::Done,
        Err(DebugFault::Memory) => Outcome::Refused,
        _ => Outcome::Wrong,
    }
}

fn act(debugger: &mut Debugger, event: &Event) -> Outcome {
    match debugger.act(event) {
        Ok(()) => Outcome::Done,
        Err(DebugFault::Memory) => Outcome::Refused,
        Err(_) => Outcome::Wrong,
    }
}

/// A debugger's state at a position: dump lines, and the number of runs of rules of the event that led there.
#[derive(Drop)]
struct Seen {
    lines: String,
    runs: usize,
}

/// A debugger that is to go from one position to another.
#[derive(Drop)]
struct Way<'a> {
    alloc: Global,
    debugger: Debugger,
    /// The number of events of its schedule.
    length: usize,
    seen: &'a [Seen],
    by: Move,
    from: u64,
    to: u64,
    /// The greatest position at which it stopped.
    farthest: u64,
}

/// The number of runs of rules of the last event.
fn runs(debugger: &Debugger) -> usize {
    match debugger.trace() {
        Some(runs) => runs.len(),
        None => 0,
    }
}

impl<'a> Way<'a> {
    /// Whether the debugger shows the state of its position.
    fn shows_its_position(&self) -> bool {
        match self.seen.get(self.debugger.position() as usize) {
            Some(seen) => {
                runs(&self.debugger) == seen.runs
                    && has_dumps(self.alloc, self.debugger.net(), seen.lines.as_str())
            }
            None => false,
        }
    }
}

impl<'a> Attempt for Way<'a> {
    fn make(&mut self) -> Outcome {
        let outcome = match self.by {
            Move::Step(n) => step(&mut self.debugger, n),
            Move::Goto(n) => goto(&mut self.debugger, n),
            Move::Run => run(&mut self.debugger),
            Move::Act(event) => act(&mut self.debugger, &event),
        };
        if outcome == Outcome::Done && self.debugger.position() != self.to {
            return Outcome::Wrong;
        }
        outcome
    }

    fn stands(&mut self) -> bool {
        let here = self.debugger.position();
        self.farthest = self.farthest.max(here);
        // A run goes on to the end, where an event may be stuck.
        let bound = match self.by {
            Move::Run => self.length as u64,
            _ => self.to,
        };
        self.from <= here
            && here < bound
            && self.debugger.schedule().len() == self.length
            && self.shows_its_position()
            && self.debugger.back(here.saturating_sub(self.from))
    }
}

/// Makes the move. Before it succeeds it is refused memory, and comes at least to the position `least`.
fn goes(rt: &impl Abort, way: &mut Way<'_>, by: Move, to: u64, least: u64) {
    way.by = by;
    way.from = way.debugger.position();
    way.to = to;
    way.farthest = 0;
    let refused = refusals(rt, way.alloc, way);
    holds(rt, refused > 0 && way.farthest >= least);
    holds(rt, way.shows_its_position());
}

fn go_all(rt: &impl Abort, way: &mut Way<'_>, most: u64, last: Event) {
    let before = most.saturating_sub(1);
    goes(rt, way, Move::Step(most), most, 1);
    holds(rt, way.debugger.back(most));
    goes(rt, way, Move::Run, most, 1);
    holds(rt, way.debugger.back(most));
    goes(rt, way, Move::Goto(before), before, 1);
    goes(rt, way, Move::Act(last), most, before);
}

fn begun(rt: &impl Abort, alloc: Global, text: &str) -> Debugger {
    let scenario = scene(rt, alloc, text);
    Debugger::new(alloc, scenario).ok().expect(rt, "a debugger")
}

/// The state at each position.
fn seen_by(
    rt: &impl Abort,
    alloc: Global,
    debugger: &mut Debugger,
    most: u64,
) -> Result<Vec<Seen>, AllocError> {
    let mut all = Vec::new(alloc);
    for position in 0..=most {
        holds(rt, debugger.goto(position).is_ok());
        let lines = dumps(alloc, debugger.net()).ok().expect(rt, "dumps");
        let runs = runs(debugger);
        all.push(Seen { lines, runs })?;
    }
    Ok(all)
}

fn goes_all_ways(rt: &impl Abort, alloc: Global, row: Row) -> Result<(), AllocError> {
    let seen = seen_by(rt, alloc, &mut begun(rt, alloc, row.text), row.most)?;
    let mut way = Way {
        alloc,
        debugger: begun(rt, alloc, row.text),
        length: row.length,
        seen: &seen,
        by: Move::Run,
        from: 0,
        to: 0,
        farthest: 0,
    };
    let blocks = fill(rt, alloc);
    go_all(rt, &mut way, row.most, row.last);
    drop(blocks);
    Ok(())
}

#[test]
fn moves_are_refused(rt: HostRuntime) -> Result<(), Fail> {
    for row in ROWS {
        goes_all_ways(&rt, rt.alloc(), row)?;
    }
    Ok(())
}

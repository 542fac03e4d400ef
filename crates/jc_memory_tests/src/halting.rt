//! Tests that a debugger's moves stop where memory is wanting, and not before: with the same memory each makes as many
//! events as moves by one event do. No clause can say this, since none sees how much memory there is.

use crate::attempts::{MOST, holds};
use crate::memory::{SPARE, UNIT, fill, leave};
use crate::rows::{INSERTS, scene};
use jc_debug::Debugger;
use std::alloc::Global;
use std::process::Abort;

/// The number of events of the schedule.
const ALL: u64 = 14;

/// How the debugger goes to the end.
#[derive(Clone, Copy)]
enum Way {
    /// One event after another.
    Single,
    Step,
    Goto,
    Run,
}

fn by_single(debugger: &mut Debugger) -> bool {
    for _ in 0..ALL {
        if debugger.step(1).is_err() {
            return false;
        }
    }
    true
}

/// Goes to the end, and returns whether it came there.
fn go(debugger: &mut Debugger, way: Way) -> bool {
    match way {
        Way::Single => by_single(debugger),
        Way::Step => debugger.step(ALL).is_ok(),
        Way::Goto => debugger.goto(ALL).is_ok(),
        Way::Run => debugger.run().is_ok(),
    }
}

/// The position to which a new debugger comes with so many bytes.
fn come_to(rt: &impl Abort, alloc: Global, way: Way, bytes: usize) -> u64 {
    let mut debugger = Debugger::new(alloc, scene(rt, alloc, INSERTS))
        .ok()
        .expect(rt, "a debugger");
    let blocks = leave(rt, alloc, bytes);
    let is_there = go(&mut debugger, way);
    drop(blocks);
    holds(rt, is_there == (debugger.position() == ALL));
    debugger.position()
}

/// The position to which each way leads with so many bytes.
fn all_come_to(rt: &impl Abort, alloc: Global, bytes: usize) -> u64 {
    let single = come_to(rt, alloc, Way::Single, bytes);
    holds(rt, come_to(rt, alloc, Way::Step, bytes) == single);
    holds(rt, come_to(rt, alloc, Way::Goto, bytes) == single);
    holds(rt, come_to(rt, alloc, Way::Run, bytes) == single);
    single
}

/// The number of positions before the end at which moves stopped for want of memory.
fn stops(rt: &impl Abort, alloc: Global) -> u64 {
    let (mut farthest, mut count) = (0u64, 0u64);
    for n in 1..MOST {
        let here = all_come_to(rt, alloc, n * UNIT);
        if here == ALL {
            return count;
        }
        if here > farthest {
            farthest = here;
            count = count.saturating_add(1);
        }
    }
    panic!(rt; "it never comes to the end")
}

#[test]
fn moves_stop_where_memory_is_wanting(rt: HostRuntime) {
    let alloc = rt.alloc();
    holds(&rt, all_come_to(&rt, alloc, SPARE) == ALL);
    let blocks = fill(&rt, alloc);
    let count = stops(&rt, alloc);
    drop(blocks);
    // At least at three positions between the start and the end.
    holds(&rt, count >= 3);
}

//! Makes a call with more and more memory, until there is enough. The tests of the other files use it.

use crate::memory::{SPARE, UNIT, leave};
use std::alloc::Global;
use std::process::Abort;

/// The number of calls at most.
pub const MOST: usize = SPARE / UNIT;

/// The outcome of a call.
#[derive(Clone, Copy, PartialEq, Eq)]
pub enum Outcome {
    /// The same as with ample memory.
    Done,
    /// It was refused for want of memory.
    Refused,
    /// Anything else.
    Wrong,
}

/// The outcome of a call that was not refused memory.
pub fn done_if(is: bool) -> Outcome {
    if is { Outcome::Done } else { Outcome::Wrong }
}

/// The outcome of a call that was refused memory.
pub fn refused_if(is: bool) -> Outcome {
    if is { Outcome::Refused } else { Outcome::Wrong }
}

/// Whether it is done, and not wrong.
pub fn is_done(rt: &impl Abort, outcome: Outcome) -> bool {
    assert!(rt; outcome != Outcome::Wrong);
    outcome == Outcome::Done
}

pub fn holds(rt: &impl Abort, fact: bool) {
    assert!(rt; fact);
}

/// A call that can be made again and again.
pub trait Attempt {
    /// Makes the call. It takes no memory besides.
    fn make(&mut self) -> Outcome;

    /// With some memory, after a refusal: whether everything is as it was before the call.
    fn stands(&mut self) -> bool;
}

fn made_with<A: Attempt>(rt: &impl Abort, alloc: Global, attempt: &mut A, bytes: usize) -> Outcome {
    let blocks = leave(rt, alloc, bytes);
    let outcome = attempt.make();
    drop(blocks);
    outcome
}

/// Makes the call with no memory, and with a little more each time, until it does what it does with ample memory.
/// Returns the number of refusals. After each refusal everything must be as it was.
pub fn refusals<A: Attempt>(rt: &impl Abort, alloc: Global, attempt: &mut A) -> u64 {
    for n in 0..MOST {
        if is_done(rt, made_with(rt, alloc, attempt, n * UNIT)) {
            return n as u64;
        }
        holds(rt, attempt.stands());
    }
    panic!(rt; "it is always refused")
}

//! What the tests share: they take passes out of a list and put them back.
mod counter;
mod diary;

ghost use Rattle.std.specs.Prelude.{All};
ghost use Rattle.jc_lock.specs.Shows.{IsPassOf};

use jc_lock::{HistoryLock, Kept, Pass};
use std::process::Abort;

// Takes the last pass out of the list.
fn last_pass<K: Kept>(rt: &impl Abort, lock: &HistoryLock<K>, passes: &mut Vec<Pass<K>>) -> Pass<K>
    requires { All (IsPassOf lock.now) passes.old.items }
    ensures { IsPassOf lock.now result × All (IsPassOf lock.now) passes.new.items }
{
    let _ = lock;
    passes.pop().expect(rt, "a pass")
}

// Puts the pass at the list's end.
fn hand_in<K: Kept + Drop>(
    rt: &impl Abort,
    lock: &HistoryLock<K>,
    passes: &mut Vec<Pass<K>>,
    pass: Pass<K>,
)
    requires { IsPassOf lock.now pass × All (IsPassOf lock.now) passes.old.items }
    ensures { All (IsPassOf lock.now) passes.new.items }
{
    let _ = lock;
    passes.push(pass).ok().expect(rt, "memory");
}

fn holds(rt: &impl Abort, fact: bool) {
    assert!(rt; fact);
}

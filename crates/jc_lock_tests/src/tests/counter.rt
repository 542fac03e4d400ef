//! A plain counter under a lock: limits, turns and closing. It has no list, so that only these tests see its changes.
ghost use Rattle.std.specs.Prelude.{All};
ghost use Rattle.jc_lock.specs.Shows.{IsPassOf, IsSameLock};

use super::{hand_in, holds, last_pass};
use jc_lock::{CloseRefused, HistoryLock, Kept, MOST_TAKES, OpenFault, OpenRefused, Pass, Spent};
use std::alloc::Global;
use std::process::Abort;
use std::sync::Wait;
use std::sync::atomic::{AtomicU64, Ordering};
use std::thread::{Threads, join};

#[derive(Drop)]
struct Counter {
    count: u64,
}

impl Kept for Counter {
    ghost use Rattle.std.specs.Prelude.{[]};

    type Entry = u64;

    type Origin = ();

    ghost origin = { λ _. tt };

    ghost list = { λ _. [] };

    ghost maker = { λ e. e };

    fn entries(&self) -> u64 {
        0
    }
}

fn opened(
    rt: &impl Abort,
    alloc: Global,
    passes: u16,
    takes: u64,
) -> (HistoryLock<Counter>, Vec<Pass<Counter>>)
    ensures { All (IsPassOf result.0) result.1.items }
{
    HistoryLock::open(alloc, Counter { count: 0 }, passes, takes)
        .ok()
        .expect(rt, "a lock")
}

// Opens a lock and closes it with the passes of `open`. It is proved that it closes.
fn opened_and_closed(alloc: Global, passes: u16) -> Option<Counter> {
    let Ok((lock, passes)) = HistoryLock::open(alloc, Counter { count: 0 }, passes, 1) else {
        return None;
    };
    match lock.close(passes) {
        Ok(counter) => Some(counter),
        Err(_) => unreachable!(),
    }
}

// Takes turns until the pass is spent, and adds 1 in each. Returns how often, and the pass.
fn add_all<R: Wait>(
    rt: &R,
    lock: &HistoryLock<Counter>,
    mut pass: Pass<Counter>,
) -> (u64, Pass<Counter>)
    requires { IsPassOf lock.now pass }
    ensures { IsPassOf lock.now result.1 }
{
    for made in 0..1000u64 {
        match lock.take(rt, pass) {
            Ok(mut turn) => {
                let counter = turn.value_mut();
                counter.count = counter.count.wrapping_add(1);
                pass = lock.give(turn);
            }
            Err(Spent { pass }) => return (made, pass),
        }
    }
    (1000, pass)
}

// Expects that a lock is refused and the value comes back. Returns the cause.
fn open_refused(rt: &impl Abort, alloc: Global, count: u64, passes: u16, takes: u64) -> OpenFault {
    let Err(OpenRefused { value, why }) = HistoryLock::open(alloc, Counter { count }, passes, takes)
    else {
        panic!(rt; "a lock")
    };
    holds(rt, value.count == count);
    why
}

fn opens_with(rt: &impl Abort, alloc: Global, passes: u16, takes: u64) {
    let (_, given) = opened(rt, alloc, passes, takes);
    holds(rt, given.len() == usize::from(passes));
}

#[test]
fn opens_within_the_limits(rt: HostRuntime) {
    let alloc = rt.alloc();
    let none = open_refused(&rt, alloc, 7, 0, MOST_TAKES + 1);
    holds(&rt, matches!(none, OpenFault::NoPasses));
    let many = open_refused(&rt, alloc, 8, 1, MOST_TAKES + 1);
    holds(&rt, matches!(many, OpenFault::TooManyTakes));
    opens_with(&rt, alloc, 1, 1_099_511_627_776);
    opens_with(&rt, alloc, 65535, 0);
}

// Expects that the pass is spent.
fn is_spent<R: Wait + Abort>(rt: &R, lock: &HistoryLock<Counter>, pass: Pass<Counter>, number: u16)
    requires { IsPassOf lock.now pass }
{
    match lock.take(rt, pass) {
        Ok(turn) => {
            let _pass = lock.give(turn);
            panic!(rt; "a take more")
        }
        Err(Spent { pass }) => holds(rt, pass.number() == number),
    }
}

#[test]
fn fourth_take_of_three_is_spent(rt: HostRuntime) {
    let (lock, mut passes) = opened(&rt, rt.alloc(), 1, 3);
    let pass = last_pass(&rt, &lock, &mut passes);
    let (made, pass) = add_all(&rt, &lock, pass);
    holds(&rt, made == 3 && pass.number() == 0);
    is_spent(&rt, &lock, pass, 0);
}

// Expects that the lock closes with these passes, and that its count is as given.
fn closes(rt: &impl Abort, lock: HistoryLock<Counter>, passes: Vec<Pass<Counter>>, count: u64)
    requires { All (IsPassOf lock) passes.items }
{
    let counter = lock.close(passes).ok().expect(rt, "all passes");
    holds(rt, counter.count == count);
}

#[test]
fn two_threads_take_in_turn(rt: HostRuntime) {
    let (lock, mut passes) = opened(&rt, rt.alloc(), 2, 100);
    let second = last_pass(&rt, &lock, &mut passes);
    let first = last_pass(&rt, &lock, &mut passes);
    let (a, b) = join(
        &rt,
        || add_all(&rt, &lock, first),
        || add_all(&rt, &lock, second),
    );
    holds(&rt, a.0 == 100 && b.0 == 100);
    hand_in(&rt, &lock, &mut passes, b.1);
    hand_in(&rt, &lock, &mut passes, a.1);
    closes(&rt, lock, passes, 200);
}

/// How often a thread looks at most whether the others have come.
const LOOKS: u64 = 1_000_000_000;

// Waits until all threads have come, so that they want turns at once.
fn meets(rt: &impl Abort, come: &AtomicU64, all: u64) {
    come.fetch_add(1, Ordering::SeqCst);
    for _ in 0..LOOKS {
        if come.load(Ordering::SeqCst) == all {
            return;
        }
    }
    panic!(rt; "not all have come")
}

fn meet_and_add<R: Wait + Abort>(
    rt: &R,
    lock: &HistoryLock<Counter>,
    come: &AtomicU64,
    pass: Pass<Counter>,
) -> (u64, Pass<Counter>)
    requires { IsPassOf lock.now pass }
    ensures { IsPassOf lock.now result.1 }
{
    meets(rt, come, 4);
    add_all(rt, lock, pass)
}

// Runs two of the four threads.
fn add_both<R: Threads + Wait + Abort + Sync>(
    rt: &R,
    lock: &HistoryLock<Counter>,
    come: &AtomicU64,
    one: Pass<Counter>,
    other: Pass<Counter>,
) -> (Pass<Counter>, Pass<Counter>)
    requires { IsPassOf lock.now one × IsPassOf lock.now other }
    ensures { IsPassOf lock.now result.0 × IsPassOf lock.now result.1 }
{
    let (a, b) = join(
        rt,
        || meet_and_add(rt, lock, come, one),
        || meet_and_add(rt, lock, come, other),
    );
    holds(rt, a.0 == 1000 && b.0 == 1000);
    (a.1, b.1)
}

// No contract can say that a turn passed on wakes those who wait for it. Without the wake this test doesn't end.
#[test]
fn four_threads_take_a_thousand_turns_each(rt: HostRuntime) {
    let (lock, mut passes) = opened(&rt, rt.alloc(), 4, 1000);
    let fourth = last_pass(&rt, &lock, &mut passes);
    let third = last_pass(&rt, &lock, &mut passes);
    let second = last_pass(&rt, &lock, &mut passes);
    let first = last_pass(&rt, &lock, &mut passes);
    let come = AtomicU64::new(0);
    let (front, back) = join(
        &rt,
        || add_both(&rt, &lock, &come, first, second),
        || add_both(&rt, &lock, &come, third, fourth),
    );
    hand_in(&rt, &lock, &mut passes, front.0);
    hand_in(&rt, &lock, &mut passes, front.1);
    hand_in(&rt, &lock, &mut passes, back.0);
    hand_in(&rt, &lock, &mut passes, back.1);
    closes(&rt, lock, passes, 4000);
}

// The gate refuses no memory here; in `jc_memory_tests` it does so to runs by threads, which open a lock. By hand,
// `rt try --test --fail-alloc N` refuses the Nth request.
#[test]
fn opens_or_gives_the_value_back(rt: HostRuntime) {
    match HistoryLock::open(rt.alloc(), Counter { count: 7 }, 3, 1) {
        Ok((_, passes)) => holds(&rt, passes.len() == 3),
        Err(OpenRefused { value, why }) => {
            holds(&rt, matches!(why, OpenFault::Memory) && value.count == 7);
        }
    }
}

#[test]
fn closes_as_opened(rt: HostRuntime) {
    holds(&rt, opened_and_closed(rt.alloc(), 300).is_some());
}

// Closes without all passes. Lock and passes come back.
fn refused(
    rt: &impl Abort,
    lock: HistoryLock<Counter>,
    passes: Vec<Pass<Counter>>,
) -> (HistoryLock<Counter>, Vec<Pass<Counter>>)
    requires { All (IsPassOf lock) passes.items }
    ensures { IsSameLock lock result.0 × All (IsPassOf result.0) result.1.items }
{
    let Err(CloseRefused { lock, passes }) = lock.close(passes) else {
        panic!(rt; "closed without a pass")
    };
    (lock, passes)
}

// Closes with two passes alone. Lock and passes come back.
fn refused_with(
    rt: &impl Abort,
    lock: HistoryLock<Counter>,
    mut passes: Vec<Pass<Counter>>,
    one: Pass<Counter>,
    other: Pass<Counter>,
) -> (
    HistoryLock<Counter>,
    Vec<Pass<Counter>>,
    Pass<Counter>,
    Pass<Counter>,
)
    requires list { All (IsPassOf lock) passes.items }
    requires passes { IsPassOf lock one × IsPassOf lock other }
    ensures same { IsSameLock lock result.0 }
    ensures list { All (IsPassOf result.0) result.1.items }
    ensures passes { IsPassOf result.0 result.2 × IsPassOf result.0 result.3 }
{
    hand_in(rt, &lock, &mut passes, one);
    hand_in(rt, &lock, &mut passes, other);
    let (lock, mut passes) = refused(rt, lock, passes);
    let other = last_pass(rt, &lock, &mut passes);
    let one = last_pass(rt, &lock, &mut passes);
    holds(rt, passes.is_empty());
    (lock, passes, one, other)
}

#[test]
fn closes_with_each_pass(rt: HostRuntime) {
    let (lock, mut passes) = opened(&rt, rt.alloc(), 3, 1);
    let third = last_pass(&rt, &lock, &mut passes);
    let second = last_pass(&rt, &lock, &mut passes);
    let first = last_pass(&rt, &lock, &mut passes);
    holds(
        &rt,
        first.number() == 0 && second.number() == 1 && third.number() == 2,
    );
    let (lock, passes) = refused(&rt, lock, passes);
    let (lock, passes, second, third) = refused_with(&rt, lock, passes, second, third);
    let (lock, passes, first, third) = refused_with(&rt, lock, passes, first, third);
    let (lock, mut passes, first, second) = refused_with(&rt, lock, passes, first, second);
    hand_in(&rt, &lock, &mut passes, third);
    hand_in(&rt, &lock, &mut passes, second);
    hand_in(&rt, &lock, &mut passes, first);
    closes(&rt, lock, passes, 0);
}

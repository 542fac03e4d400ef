//! The gates of the replicas' threads, by which they meet: starting a thread takes longer than a short script, so without
//! them one replica would have made all its events before the next one begins. `record` makes them. No contract speaks of
//! when a gate lets its thread go on, and none of the order that comes about.

ghost use Rattle.std.specs.Prelude.{◌≡◌, All, None, IfOk, false, vec_len};

use jc_runner::Gate;
use std::alloc::{AllocError, Global};
use std::sync::Wait;
use std::sync::atomic::{AtomicU64, Ordering};
use std::thread::yield_now;

/// How often a gate looks whether all threads have started, before it goes on without them.
const LOOKS_AT_START: u64 = 1_000_000;

/// How often it looks whether another thread has gone on, before it does.
const LOOKS: u64 = 8;

/// What the threads of one run count together.
#[derive(Default, Drop)]
pub struct Counters {
    /// How many threads have started.
    started: AtomicU64,
    /// How many times a thread was let go on.
    takes: AtomicU64,
}

/// The gate of a replica's thread. Before the first event it waits until the threads of all replicas have started, and
/// before each later one it lets another thread go first, if one comes soon. It never waits without end. A gate that is
/// dropped before it was asked lets all others go on: its thread couldn't be made, so they would wait in vain.
pub struct Meeting<'a> {
    /// How many threads it waits for.
    threads: u64,
    /// Whether its thread has started.
    has_come: bool,
    counters: &'a Counters,
}

/// Looks until there are as many, at most `LOOKS_AT_START` times.
fn wait_for(count: &AtomicU64, many: u64) {
    for _ in 0..LOOKS_AT_START {
        if count.load(Ordering::SeqCst) >= many {
            return;
        }
        yield_now();
    }
}

/// Looks until the count has changed, at most `LOOKS` times.
fn wait_for_another(count: &AtomicU64) {
    let before = count.load(Ordering::SeqCst);
    for _ in 0..LOOKS {
        if count.load(Ordering::SeqCst) != before {
            return;
        }
        yield_now();
    }
}

impl Drop for Meeting<'_> {
    fn drop(self) {
        let Meeting {
            threads,
            has_come,
            counters,
        } = self;
        if !has_come {
            counters.started.fetch_add(threads, Ordering::SeqCst);
        }
    }
}

impl<'a> Gate for Meeting<'a> {
    ghost asked = { λ _. None };

    fn before<R: Wait>(&mut self, _rt: &R, _replica: u16, step: u64) {
        if step == 0 {
            self.has_come = true;
            self.counters.started.fetch_add(1, Ordering::SeqCst);
            wait_for(&self.counters.started, self.threads);
        } else {
            wait_for_another(&self.counters.takes);
        }
        self.counters.takes.fetch_add(1, Ordering::SeqCst);
    }
}

/// A gate for each of so many replicas, which waits for that many threads. None of them has come.
pub fn gates_of<'a>(
    alloc: Global,
    count: usize,
    counters: &'a Counters,
) -> Result<Vec<Meeting<'a>>, AllocError>
    ensures { IfOk result (λ gates. (vec_len gates ≡ count)
        × All (λ gate. (gate.threads ≡ count) × (gate.has_come ≡ false)) gates.items) }
{
    let mut gates = Vec::new(alloc);
    for _ in 0..count {
        gates.push(Meeting {
            threads: count as u64,
            has_come: false,
            counters,
        })?;
    }
    Ok(gates)
}

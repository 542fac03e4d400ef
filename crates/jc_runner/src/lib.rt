//! Threads over one network: a bench at which replicas step in turn, and runs with a thread for each replica, which
//! chooses its events. The program's runs by threads use it.
//!
//! In the field's words a bench is a shared network, a gate is a hook, a pass is a handle, and a turn is a guard; to
//! take and give a turn is to acquire and release a lock.
//!
//! `Bench::open` makes a bench and a pass for each replica. A thread steps with its pass, and each event is recorded;
//! `count` returns how many there are. `close` returns the network and its schedule. `run_threads` does this with one
//! thread for each replica, which makes the events that `choose` returns.
//!
//! Refusals: 42 of a step whose pass is spent, 43 of `close`, 44 where a given event is stuck, 45 `GateCount`, 46
//! `LimitTooLarge`, 47 `NoThread`; and those of the network's events.
#![tactic(auto)]

mod bench;
mod recorded;
mod run;
mod starting;
mod worker;

pub use bench::{Bench, BenchFault, Pass, StepAnswer, UnclosedBench};
pub use recorded::Recorded;
pub use run::{Report, RunFault, run_threads};
pub use starting::SpawnRefused;
pub use worker::Gate;

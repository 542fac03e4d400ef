//! One history for all threads: a lock whose value keeps a list of entries. `jc_runner` has its network under one.
//!
//! In the field's words a pass is a handle of the lock, a turn is a guard, and to take and give a turn is to acquire
//! and release the lock.
//!
//! `HistoryLock::open` makes the lock and its passes. A thread takes a turn with its pass, works on the value, adds one
//! entry at most, and gives the turn back. `count` returns the length of the history, and waits for nobody. `close`
//! takes all passes and returns the value.
//!
//! Refusals: 40 `NoPasses` and 41 `TooManyTakes` of `open`, 42 `Spent` of `take`, 43 `MissingPass` of `close`.
#![tactic(auto)]

mod close;
mod kept;
mod lock;
mod marks;
mod open;
mod plays;
mod readers;
mod steps;
mod turns;
mod view;

pub use kept::Kept;
pub use lock::{CloseRefused, HistoryLock, OpenFault, OpenRefused, Pass, Spent, Turn};
pub use open::MOST_TAKES;

//! Schedules from seeds: replicas choose their events as their threads do, in turns that a generator draws. The
//! program's command `weave` uses it.
//!
//! `weave` begins at a scenario's start. In each turn one replica is drawn, and it makes the event that it chooses. A
//! replica that chooses none, or one that is stuck, leaves. Replicas wait at a last `yield` where they have sent, so
//! that what anybody sends at its end is there when they receive (docs/FORMATS.md).
//!
//! Nothing here waits for a thread, and the same scenario, seed and limit give the same schedule.
#![tactic(auto)]

mod drawing;
mod ending;
pub mod laws;
mod weaving;

pub use weaving::{Woven, weave};

//! The rule by which a replica chooses its next event, for who lets replicas run by themselves: runs by threads and
//! woven schedules.
//!
//! `choose` returns the event that a replica makes next, and its phase after it. How far a replica is in a yield is its
//! `Phase`, and how it ended is an `End`. Nothing here makes an event, starts a thread or waits.
#![tactic(auto)]

mod choosing;
mod end;
pub mod laws;
mod phase;

pub use choosing::{choose, yields};
pub use end::End;
pub use phase::Phase;

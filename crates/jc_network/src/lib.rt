//! A network: all replicas of a scenario, their steps and their way back, and laws of every run.
#![tactic(auto)]

mod applied;
mod enabled;
mod fault;
pub mod laws;
mod net;
mod replicas;
mod stepping;

pub use fault::{CompareFault, StartFault, StepFault, Stuck, Unstarted};
pub use net::Net;

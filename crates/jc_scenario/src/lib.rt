//! Scenarios from their texts, and their canonical texts. Networks and sessions start from here.
#![tactic(auto)]

pub mod laws;
mod names;
mod order;
mod printing;
mod reading;
mod scenario;

pub use jc_parser::ScenarioFault;
pub use names::{UnknownReplica, resolve};
pub use printing::print;
pub use reading::read;
pub use scenario::{Scenario, copy_names, copy_scripts};

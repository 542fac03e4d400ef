//! A debugger that moves forwards and backwards along a schedule, for the sessions of `jc_session`. It prints nothing.
#![tactic(auto)]

mod breaks;
mod debugger;
mod fault;
pub mod laws;

pub use breaks::Break;
pub use debugger::Debugger;
pub use fault::{DebugFault, RunEnd};

//! What could stand where a scenario's text doesn't fit or ends too early, as a list for programs.
#![tactic(auto)]

mod place;
mod trying;

pub use place::expected;

//! Outputs: sinks whose bytes are written many at a time, and to which nothing more is written once a write failed.
#![tactic(auto)]

pub mod laws;
mod output;

pub use output::{Out, room};

//! The lines in which networks are shown: dumps of replicas, traces, stuck events and refused texts. Sessions and the
//! program print them. And parts of dumps as texts of their own, for programs.
#![tactic(auto)]

mod bounds;
mod bytes;
mod dump;
mod lines;
mod replica;
mod rows;
mod texts;
mod vars;

pub use bounds::{bound_text, cursor_text};
pub use lines::{stuck_text, trace_text};
pub use replica::{brief_replica, dump_replica};
pub use texts::{block_text, given_text, named_given_text, push_block, refused_text};

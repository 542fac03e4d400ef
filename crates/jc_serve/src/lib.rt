//! The command `serve`: requests of programs, each answered by a line of JSON.
#![tactic(auto)]

mod answers;
mod asking;
mod marks;
mod runs;
mod served;
mod serving;
mod stuck;
mod subjects;
mod texts;

pub use serving::{ServeFault, serve};
pub use subjects::command_count;

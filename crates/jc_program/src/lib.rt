//! The program as a library: executes the command that the arguments are. jc_app calls it with the process's streams.
#![tactic(auto)]

mod alone;
mod fault;
mod files;
mod gates;
mod journal;
pub mod laws;
mod lines;
mod program;
mod reading;
mod recording;
mod run;
mod sending;
mod serving;
mod sessions;
mod telling;
mod texts;
mod threads;
mod weaving;
mod words;

pub use alone::work_alone;
pub use files::Files;
pub use program::{exit, work};
pub use recording::{Outcome, RecordFault, Recording, record};
pub use weaving::weave_text;
pub use words::refuse_words;

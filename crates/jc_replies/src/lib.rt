//! The answers to a session's requests, for programs: JSON where a session has its lines.
#![tactic(auto)]

mod moves;
mod replies;
mod shown;

pub use moves::position_with;
pub use replies::{answer_of, answer_to};
pub use shown::events_answer;

//! The journal of a scenario: a line of JSON for each event that is made, with its operation in full, and one for an
//! event that is stuck.
#![tactic(auto)]

mod effects;
mod event;
mod members;
mod operation;
mod stuck;

pub use effects::event_effects;
pub use event::{NumberedEvent, event_line, event_op_id};
pub use stuck::stuck_line;

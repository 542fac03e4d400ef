//! Parses texts and tokens into expressions, scripts, events and scenarios, with exact faults. Names are not looked up.
#![tactic(auto)]

mod cursor;
mod events;
mod expressions;
mod fault;
pub mod laws;
mod parse_fault;
mod parts;
mod scenarios;
mod scripts;

pub use events::{event_at, parse_event};
pub use expressions::parse_expr;
pub use fault::ScenarioFault;
pub use parse_fault::ParseFault;
pub use scenarios::{NamedReplica, NamedScenario, scenario_of};
pub use scripts::{parse_script, script_at};

//! The canonical text of scripts, expressions, values and events, which scenarios and sessions are written with.
#![tactic(auto)]

pub mod laws;
mod print;
mod quote;

pub use print::{print_event, print_expr, print_script, print_value, push_cmd};
pub use quote::push_quoted;

//! The requests of programs, as the command `serve` reads them: how an input is cut into requests, and what a line of it
//! asks for.
#![tactic(auto)]

mod forms;
mod input;
mod kinds;
mod options;
mod text;
mod turn;

pub use forms::asked;
pub use input::{Input, MAX_INPUT, MAX_REQUESTS};
pub use kinds::{Asked, Position};
pub use turn::Turn;

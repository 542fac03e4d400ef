//! Parses the command line: from the program's arguments to a command and its file. jc_program executes it.
#![tactic(auto)]

mod definition;
mod fault;
mod help;
pub mod laws;
mod order;
mod reading;

pub use fault::WordsFault;
pub use order::{Order, Task, View};
pub use reading::order_of;

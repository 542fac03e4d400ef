//! Sessions of the debugger, for the program: lines are read and answered one by one.
#![tactic(auto)]

mod ahead;
mod answers;
pub mod laws;
mod line_buffer;
mod lines;
mod replies;
mod request;
mod sessions;
mod texts;

pub use ahead::Ahead;
pub use line_buffer::Line;
pub use lines::{Next, read_line};
pub use replies::{Reply, Spelling, event_of, number_of, reply_to, rule_of};
pub use request::{
    Meaning, Request, all_ascii, all_digits, ascii_text, first_word, meaning_of, number_in,
    past_blanks, word_len,
};
pub use sessions::{SessionEnd, SessionFault, session};

//! The JSON texts of answers to programs: objects and arrays, and refusals with their places in a text.
#![tactic(auto)]

mod arrays;
mod objects;
mod refusals;

pub use arrays::ArrayText;
pub use objects::{Member, Value, object_text, quoted, unended};
pub use refusals::{refused, refused_text, refused_text_with};

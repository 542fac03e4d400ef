//! Identifiers, keys, values and trees of documents as JSON: dumps and views are made of them.
#![tactic(auto)]

mod send;
mod texts;
mod tree;
mod values;
mod writing;

pub use send::{granted, send_ids, send_value};
pub use texts::{id_text, key_text, tagged_text};
pub use tree::Tree;
pub use values::json_value;
pub use writing::{Numbers, write_id, write_ids, write_pairs, write_value};

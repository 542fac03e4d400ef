//! The rules of clearing, over any store of a document's tree.
#![tactic(auto)]

mod cleared;
mod clearing;
mod registers;
mod sets;

pub use clearing::{clear, clear_at, clear_elem, clear_elem_at};

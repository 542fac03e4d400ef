//! What a set of operations means: a tree that depends on the set alone, whatever the order in which it was applied.
#![tactic(auto)]

mod building;
mod comparison;
pub mod laws;
mod ordering;
mod sameness;
mod touching;
mod tree;

pub use comparison::{Comparison, compare};
pub use sameness::same_tree;
pub use tree::{have_distinct_ids, meaning};

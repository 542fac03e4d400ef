//! The rules of expressions, over any store of a document's tree: replicas evaluate the commands of scripts by them.
#![tactic(auto)]

mod along;
mod bound;
mod evaluating;
mod select;
mod walk;

pub use bound::Bound;
pub use evaluating::{EvalFault, eval, eval_in_map};

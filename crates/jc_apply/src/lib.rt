//! The rules of operations, over any store of a document's tree: replicas apply operations by them.
#![tactic(auto)]

mod apply;
mod assigning;
mod entering;
mod fitting;
mod inserting;
mod passing;

pub use apply::{ApplyFault, apply_op};
pub use fitting::fits;

//! The document of a replica as an application sees it.
#![tactic(auto)]

mod alive;
mod document;
pub mod laws;
mod place;
mod replica;

pub use document::view_line;
pub use place::view_place;
pub use replica::view_replica;

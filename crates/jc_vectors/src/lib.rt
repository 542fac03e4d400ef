//! Laws of version vectors: clearing, operations and states may use them in place of the sets that they represent.
#![tactic(auto)]

pub mod laws;
pub mod state_laws;

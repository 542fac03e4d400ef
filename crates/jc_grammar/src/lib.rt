//! The language of scenarios as one value, and one theorem for all grammars in which the next symbol decides.
#![tactic(auto)]

pub mod laws;

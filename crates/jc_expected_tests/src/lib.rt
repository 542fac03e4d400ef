//! Tests of what could stand at an offset of a text, by lists that were worked out by hand.
#![tactic(auto)]

#[cfg(test)]
mod lists;

//! Tests of objects, lists and refusals as texts, by texts that were worked out by hand.
#![tactic(auto)]

#[cfg(test)]
mod objects;
#[cfg(test)]
mod refusals;

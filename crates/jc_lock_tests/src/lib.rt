//! The tests of `jc_lock`: threads that really run, and callers that know no more than the public contracts.
#![tactic(auto)]

#[cfg(test)]
mod tests;

//! Tests of what is shown of networks, by answers that are the formats' or the rules' in Python.
#![tactic(auto)]

#[cfg(test)]
mod faults;
#[cfg(test)]
mod looks;

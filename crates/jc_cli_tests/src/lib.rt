//! Tests of jc_cli: the commands that arguments are, and the texts of help and faults.
#![tactic(auto)]

#[cfg(test)]
mod tests;

//! Tests of jc_serve: requests as data, and the lines that answer them.
#![tactic(auto)]

#[cfg(test)]
mod in_turn;
#[cfg(test)]
mod requests;

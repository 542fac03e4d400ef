//! Tests of the requests of programs, worked out by hand from their forms: what lines ask for, and how an input is cut
//! into requests.
#![tactic(auto)]

#[cfg(test)]
mod inputs;
#[cfg(test)]
mod lines;

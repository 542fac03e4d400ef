//! Tests of stores and of all that works on one alone: calls that no session shows, or that are made on a plain store.
//! What a session shows is in the rows of jc_rows.
#![tactic(auto)]

#[cfg(test)]
mod by_hand;
#[cfg(test)]
mod chains;
#[cfg(test)]
mod clearing;
#[cfg(test)]
mod documents;
#[cfg(test)]
mod expressions;
#[cfg(test)]
mod faults;
#[cfg(test)]
mod keys;
#[cfg(test)]
mod large;
#[cfg(test)]
mod last_steps;
#[cfg(test)]
mod long;
#[cfg(test)]
mod operations;
#[cfg(test)]
mod placed;
#[cfg(test)]
mod replicas;
#[cfg(test)]
mod steps;
#[cfg(test)]
mod tables;
#[cfg(test)]
mod texts;
#[cfg(test)]
mod turns;
#[cfg(test)]
mod twins;
#[cfg(test)]
mod walk;

//! Tests of the answers to a session's requests, by answers that were worked out by hand from their forms.
#![tactic(auto)]

#[cfg(test)]
mod debuggers;
#[cfg(test)]
mod replies;
#[cfg(test)]
mod requests;

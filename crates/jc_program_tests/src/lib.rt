//! Tests of jc_program: calls of the program in memory, by its arguments, streams and files.
#![tactic(auto)]

#[cfg(test)]
mod commands;
#[cfg(test)]
mod examples;
#[cfg(test)]
mod recordings;
#[cfg(test)]
mod refused_words;
#[cfg(test)]
mod scenarios;
#[cfg(test)]
mod sessions;
#[cfg(test)]
mod threads;
#[cfg(test)]
mod whole_runs;

#[cfg(test)]
use std::process::Abort;

#[cfg(test)]
fn holds(rt: &impl Abort, fact: bool) {
    assert!(rt; fact);
}

#[cfg(test)]
fn counts(rt: &impl Abort, got: usize, want: usize) {
    assert_eq!(rt; got, want);
}

//! Tests of all crates with too little memory: each call is made with no memory, and with a little more each time,
//! until there is enough. After each refusal everything must be as it was before the call.
#![tactic(auto)]

#[cfg(test)]
mod attempts;
#[cfg(test)]
mod benches;
#[cfg(test)]
mod commands;
#[cfg(test)]
mod debugging;
#[cfg(test)]
mod due;
#[cfg(test)]
mod halting;
#[cfg(test)]
mod lists;
#[cfg(test)]
mod memory;
#[cfg(test)]
mod networks;
#[cfg(test)]
mod rows;
#[cfg(test)]
mod scenarios;
#[cfg(test)]
mod sessions;
#[cfg(test)]
mod sharing;
#[cfg(test)]
mod steps;
#[cfg(test)]
mod stores;
#[cfg(test)]
mod threads;

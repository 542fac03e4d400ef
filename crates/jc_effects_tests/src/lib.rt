//! Tests of what events change, by events whose effects were worked out by hand.
#![tactic(auto)]

#[cfg(test)]
mod networks;
#[cfg(test)]
mod values;
#[cfg(test)]
mod worked;

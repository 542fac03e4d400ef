//! Tests of networks and of the crates above them: calls that no session of the debugger shows, sessions that are cut
//! short, and threads. What sessions show is in the rows of `jc_rows`.
#![tactic(auto)]

#[cfg(test)]
mod benches;
#[cfg(test)]
mod choices;
#[cfg(test)]
mod copies;
#[cfg(test)]
mod cut_short;
#[cfg(test)]
mod debugging;
#[cfg(test)]
mod documents;
#[cfg(test)]
mod gates;
#[cfg(test)]
mod hundred;
#[cfg(test)]
mod in_turn;
#[cfg(test)]
mod limits;
#[cfg(test)]
mod meanings;
#[cfg(test)]
mod nets;
#[cfg(test)]
mod networks;
#[cfg(test)]
mod places;
#[cfg(test)]
mod runs;
#[cfg(test)]
mod sessions;
#[cfg(test)]
mod trees;
#[cfg(test)]
mod turns;
#[cfg(test)]
mod undoing;

//! Tests of texts: their tokens, what they are parsed to, what is printed, and scenarios.
//! What a session shows of a refused scenario is among the rows of `jc_rows`.
#![tactic(auto)]

#[cfg(test)]
mod parsing;
#[cfg(test)]
mod printing;
#[cfg(test)]
mod scenarios;
#[cfg(test)]
mod testing;
#[cfg(test)]
mod tokens;
#[cfg(test)]
mod trees;

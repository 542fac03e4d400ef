//! Tests of `jc_rules`, of outputs, and of the sources and sinks of `jc_fakes`: each call where memory is ample, readings
//! and writings whole and cut short, and what is shown by name and number.
#![tactic(auto)]

#[cfg(test)]
mod calls;
#[cfg(test)]
mod fakes;
#[cfg(test)]
mod id_sets;
#[cfg(test)]
mod io;
#[cfg(test)]
mod outputs;
#[cfg(test)]
mod shown;
#[cfg(test)]
mod testing;

//! The executable `jsoncrdt`: calls jc_program with the process's arguments, streams and files.
#![tactic(auto)]

mod files;
mod process;
mod words;

use crate::files::Host;
use crate::process::{Ended, run};
use crate::words::words_of;
use jc_io::{FromRead, ToWrite};

/// Calls `run` with the process's arguments, its standard streams and the files of its machine.
fn main(rt: HostRuntime) -> Ended {
    let mut input = FromRead::new(rt.stdin());
    let mut out = ToWrite::new(rt.stdout());
    let mut err = ToWrite::new(rt.stderr());
    run(
        &Host { rt: &rt },
        words_of(&rt),
        &mut input,
        &mut out,
        &mut err,
    )
}

#[cfg(test)]
mod tests;

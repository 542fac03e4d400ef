//! Arguments that are no command, or can't be read: help, or why they are wrong.

ghost use Rattle.jc_io.specs.Written.{sink};
ghost use Rattle.jc_program.specs.WorkFaults.{Explains, RefusesWords};

use crate::fault::{WorkFault, end};
use crate::sending::report;
use jc_cli::WordsFault;
use jc_io::{Failed, Sink, write_all};
use std::io::ErrorKind;

/// Writes help on the output, or on `err` why the arguments are wrong, and returns the status.
pub fn explain<K: Sink, E: Sink>(fault: &WordsFault, out: &mut K, err: &mut E) -> u8
    ensures { Explains fault.now (sink K.Sink out.old) (sink K.Sink out.new)
        (sink E.Sink err.old) (sink E.Sink err.new) result }
{
    match fault {
        WordsFault::Help(text) => match write_all(out, text.as_str().as_bytes()) {
            Ok(()) => 0,
            Err(Failed) => end(WorkFault::Write, err),
        },
        WordsFault::Usage(text) => {
            report(err, text.as_str());
            2
        }
        WordsFault::Memory => end(WorkFault::Memory, err),
    }
}

/// Writes on `err` why the arguments can't be read, and returns the status: 5 where there was no memory, and else 2,
/// since then an argument is not UTF-8. A failure of `err` is ignored.
pub fn refuse_words<E: Sink>(why: ErrorKind, err: &mut E) -> u8
    ensures { RefusesWords why (sink E.Sink err.old) (sink E.Sink err.new) result }
{
    match why {
        ErrorKind::OutOfMemory => end(WorkFault::Memory, err),
        _ => {
            report(err, "a word is not UTF-8\n");
            2
        }
    }
}

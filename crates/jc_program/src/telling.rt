//! Writes a recording, or why there is none. For `threads` and `weave`.

ghost use Rattle.std.specs.Prelude.{◌≡◌, OnErr};
ghost use Rattle.jc_io.specs.Written.{sink};
ghost use Rattle.jc_program.specs.ThreadRuns.{outcome_status, IsTold};

use crate::fault::WorkFault;
use crate::recording::{Outcome, RecordFault, Recording};
use crate::sending::{report, send};
use jc_io::Sink;

fn status_of(outcome: Outcome) -> u8
    ensures { result ≡ outcome_status outcome }
{
    match outcome {
        Outcome::NoMemory => 5,
        Outcome::Stuck => 3,
        Outcome::Done => 0,
    }
}

/// Writes a recording: its text on the output, and then its lines on `err`, where a failure is ignored. Where there is
/// none, writes the lines of a stuck given event, with the status 3, or returns the fault.
pub fn tell<K: Sink, E: Sink>(
    recorded: &Result<Recording, RecordFault>,
    out: &mut K,
    err: &mut E,
) -> Result<u8, WorkFault>
    ensures told { IsTold recorded.now result (sink K.Sink out.old) (sink K.Sink out.new)
        (sink E.Sink err.old) (sink E.Sink err.new) }
    ensures quiet { OnErr result (err.new ≡ err.old) }
{
    match recorded {
        Ok(recording) => {
            send(out, recording.text.as_str())?;
            report(err, recording.lines.as_str());
            Ok(status_of(recording.outcome))
        }
        Err(RecordFault::Given(lines)) => {
            send(out, lines.as_str())?;
            Ok(3)
        }
        Err(RecordFault::Memory) => Err(WorkFault::Memory),
        Err(RecordFault::NoThread(refused)) => Err(WorkFault::NoThread(*refused)),
    }
}

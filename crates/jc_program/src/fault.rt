//! The faults that end a command, with their lines and statuses.

ghost use Rattle.std.specs.Prelude.{◌≡◌};
ghost use Rattle.jc_program.specs.WorkFaults.{fault_status, fault_line};
ghost use Rattle.jc_io.specs.Written.{sink, Sent};

use crate::sending::report;
use jc_io::{ReadFault, Sink};
use jc_runner::SpawnRefused;

/// Why a command didn't come to its end.
#[derive(Clone, Copy, Debug, PartialEq, Eq)]
pub enum WorkFault {
    /// A read failed.
    Read,
    /// A write failed.
    Write,
    /// A session had more lines or bytes than it may have, or `serve` more requests or bytes.
    TooManyLines,
    /// The input of `serve` ended within a text.
    CutShort,
    /// A thread could not be made: the start of one was refused.
    NoThread(SpawnRefused),
    /// There was no memory.
    Memory,
}

impl From<ReadFault> for WorkFault {
    ghost use Rattle.jc_program.specs.WorkFaults.{read_fault};

    ghost from_gives = { λ why fault. fault ≡ read_fault why };

    fn from(why: ReadFault) -> Self {
        match why {
            ReadFault::Failed => WorkFault::Read,
            ReadFault::Memory => WorkFault::Memory,
        }
    }
}

impl WorkFault {
    fn line(self) -> &'static str
        ensures { result.now ≡ fault_line self }
    {
        match self {
            WorkFault::Read => "read failed\n",
            WorkFault::Write => "write failed\n",
            WorkFault::TooManyLines => "too many lines\n",
            WorkFault::CutShort => "the input ended within a text\n",
            WorkFault::NoThread(_) => "no thread\n",
            WorkFault::Memory => "no memory\n",
        }
    }

    fn status(self) -> u8
        ensures { result ≡ fault_status self }
    {
        match self {
            WorkFault::Read => 4,
            WorkFault::Write => 4,
            WorkFault::TooManyLines => 4,
            WorkFault::CutShort => 4,
            WorkFault::NoThread(_) => 5,
            WorkFault::Memory => 5,
        }
    }
}

/// Writes the line of a fault on `err`, where a failure is ignored, and returns its status.
pub fn end<E: Sink>(fault: WorkFault, err: &mut E) -> u8
    ensures status { result ≡ fault_status fault }
    ensures line { Sent (fault_line fault) (sink E.Sink err.old) (sink E.Sink err.new) }
{
    report(err, fault.line());
    fault.status()
}

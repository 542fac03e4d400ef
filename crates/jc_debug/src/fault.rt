//! How the calls of a debugger end: their faults, and the ends of runs.

ghost use Rattle.std.specs.Prelude.{◌≡◌, IfOk};

use jc_network::Stuck;
use jc_rules::Refusal;
use std::alloc::AllocError;

/// Why the next event wasn't made.
#[derive(Drop)]
pub(crate) enum Halt {
    Stuck(Stuck),
    /// There was no memory for the event after this position.
    Memory { at: u64 },
}

/// Why a call didn't do what was asked for. The contract of each says which of these it can return.
#[derive(Drop)]
pub enum DebugFault {
    /// It is refused, and nothing changed.
    Refused(Refusal),
    /// The event that was to be made next can't be made.
    Stuck(Stuck),
    /// There was no memory for that event.
    Memory,
}

impl DebugFault {
    /// A copy.
    pub fn copy(&self) -> Result<Self, AllocError>
        ensures { IfOk result (λ fault. fault ≡ self.now) }
    {
        match self {
            DebugFault::Refused(refusal) => Ok(DebugFault::Refused(*refusal)),
            DebugFault::Stuck(stuck) => Ok(DebugFault::Stuck(stuck.copy()?)),
            DebugFault::Memory => Ok(DebugFault::Memory),
        }
    }
}

impl From<Halt> for DebugFault {
    ghost use Rattle.std.specs.Prelude.{◌≡◌};
    ghost use Rattle.jc_debug.specs.Moves.{halt_fault};

    ghost from_gives = { λ halt fault. fault ≡ halt_fault halt };

    fn from(halt: Halt) -> Self {
        match halt {
            Halt::Stuck(stuck) => DebugFault::Stuck(stuck),
            Halt::Memory { at: _ } => DebugFault::Memory,
        }
    }
}

/// How a run ended.
#[derive(Drop)]
pub enum RunEnd {
    /// At a position that breakpoint k names, and none with a smaller number.
    Break(u16),
    /// Before an event that can't be made.
    Stuck(Stuck),
    /// At the schedule's end.
    End,
}

impl RunEnd {
    /// A copy.
    pub fn copy(&self) -> Result<Self, AllocError>
        ensures { IfOk result (λ end. end ≡ self.now) }
    {
        match self {
            RunEnd::Break(k) => Ok(RunEnd::Break(*k)),
            RunEnd::Stuck(stuck) => Ok(RunEnd::Stuck(stuck.copy()?)),
            RunEnd::End => Ok(RunEnd::End),
        }
    }
}

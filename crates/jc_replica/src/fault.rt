//! The faults for which events of a replica are refused. A network makes its own faults of them.

ghost use Rattle.std.specs.Prelude.{◌≡◌, IfOk};
ghost use Rattle.jc_cursor.specs.Evaluates.{eval_cause_of as eval_cause};
ghost use Rattle.jc_replica.specs.declared.fault.ReplicaFault.TheVariants.{Memory as NoMemory};
ghost use Rattle.jc_replica.specs.Answers.{fault_cause_of, fault_refusal_of, apply_cause};

use jc_apply::ApplyFault;
use jc_cursor::EvalFault;
use jc_rules::{Refusal, Tagged};
use std::alloc::AllocError;

/// Why an event was refused.
#[derive(Debug, PartialEq, Eq, Drop)]
pub enum ReplicaFault {
    /// The list doesn't have the place of an insert.
    NotInList,
    /// The variable isn't bound.
    UnboundVariable,
    /// `get` on the head of a list.
    GetOnHead,
    /// What is before a selector, or what a command makes an operation at, is no cursor.
    NotACursor,
    /// There is no node under this tagged key of a cursor's path.
    NoSuchNode(Tagged),
    /// The list has no such element.
    PastEnd,
    /// There is no map at the cursor.
    NoMap,
    /// There is no register at the cursor.
    NoRegister,
    /// The cursor's path would be longer than 512 keys.
    TooDeep,
    /// No command is left.
    NoCommand,
    /// The next command is `yield`.
    AtYield,
    /// The next command isn't `yield`.
    NotAtYield,
    /// No event of the yield was made.
    NotActed,
    /// No operation with the identifier was received.
    NotReceived,
    /// The operation was applied before.
    AlreadyApplied,
    /// Not all that the operation depends on was applied.
    DepsMissing,
    /// There was no memory.
    Memory,
}

impl ReplicaFault {
    /// The refusal; none where there was no memory.
    pub fn refusal(&self) -> Option<Refusal>
        ensures { result ≡ fault_refusal_of self.now }
    {
        match self {
            ReplicaFault::NotInList => Some(Refusal::NotInList),
            ReplicaFault::UnboundVariable => Some(Refusal::UnboundVariable),
            ReplicaFault::GetOnHead => Some(Refusal::GetOnHead),
            ReplicaFault::NotACursor => Some(Refusal::NotACursor),
            ReplicaFault::NoSuchNode(_) => Some(Refusal::NoSuchNode),
            ReplicaFault::PastEnd => Some(Refusal::PastEnd),
            ReplicaFault::NoMap => Some(Refusal::NoMap),
            ReplicaFault::NoRegister => Some(Refusal::NoRegister),
            ReplicaFault::TooDeep => Some(Refusal::TooDeep),
            ReplicaFault::NoCommand => Some(Refusal::NoCommand),
            ReplicaFault::AtYield => Some(Refusal::AtYield),
            ReplicaFault::NotAtYield => Some(Refusal::NotAtYield),
            ReplicaFault::NotActed => Some(Refusal::NotActed),
            ReplicaFault::NotReceived => Some(Refusal::NotReceived),
            ReplicaFault::AlreadyApplied => Some(Refusal::AlreadyApplied),
            ReplicaFault::DepsMissing => Some(Refusal::DepsMissing),
            ReplicaFault::Memory => None,
        }
    }

    /// A copy.
    pub fn copy(&self) -> Result<Self, AllocError>
        ensures { IfOk result (λ fault. fault ≡ self.now) }
    {
        match self {
            ReplicaFault::NotInList => Ok(ReplicaFault::NotInList),
            ReplicaFault::UnboundVariable => Ok(ReplicaFault::UnboundVariable),
            ReplicaFault::GetOnHead => Ok(ReplicaFault::GetOnHead),
            ReplicaFault::NotACursor => Ok(ReplicaFault::NotACursor),
            ReplicaFault::NoSuchNode(key) => Ok(ReplicaFault::NoSuchNode(key.copy()?)),
            ReplicaFault::PastEnd => Ok(ReplicaFault::PastEnd),
            ReplicaFault::NoMap => Ok(ReplicaFault::NoMap),
            ReplicaFault::NoRegister => Ok(ReplicaFault::NoRegister),
            ReplicaFault::TooDeep => Ok(ReplicaFault::TooDeep),
            ReplicaFault::NoCommand => Ok(ReplicaFault::NoCommand),
            ReplicaFault::AtYield => Ok(ReplicaFault::AtYield),
            ReplicaFault::NotAtYield => Ok(ReplicaFault::NotAtYield),
            ReplicaFault::NotActed => Ok(ReplicaFault::NotActed),
            ReplicaFault::NotReceived => Ok(ReplicaFault::NotReceived),
            ReplicaFault::AlreadyApplied => Ok(ReplicaFault::AlreadyApplied),
            ReplicaFault::DepsMissing => Ok(ReplicaFault::DepsMissing),
            ReplicaFault::Memory => Ok(ReplicaFault::Memory),
        }
    }
}

impl From<AllocError> for ReplicaFault {
    ghost from_gives = { λ _ fault. fault ≡ NoMemory };

    fn from(_: AllocError) -> Self {
        ReplicaFault::Memory
    }
}

impl From<EvalFault> for ReplicaFault {
    ghost from_gives = { λ why fault. fault_cause_of fault ≡ eval_cause why };

    fn from(fault: EvalFault) -> Self {
        match fault {
            EvalFault::UnboundVariable => ReplicaFault::UnboundVariable,
            EvalFault::GetOnHead => ReplicaFault::GetOnHead,
            EvalFault::NotACursor => ReplicaFault::NotACursor,
            EvalFault::NoSuchNode(key) => ReplicaFault::NoSuchNode(key),
            EvalFault::PastEnd => ReplicaFault::PastEnd,
            EvalFault::NoMap => ReplicaFault::NoMap,
            EvalFault::NoRegister => ReplicaFault::NoRegister,
            EvalFault::TooDeep => ReplicaFault::TooDeep,
            EvalFault::Memory => ReplicaFault::Memory,
        }
    }
}

impl From<ApplyFault> for ReplicaFault {
    ghost from_gives = { λ why fault. fault_cause_of fault ≡ apply_cause why };

    fn from(fault: ApplyFault) -> Self {
        match fault {
            ApplyFault::NotInList => ReplicaFault::NotInList,
            ApplyFault::Memory => ReplicaFault::Memory,
        }
    }
}

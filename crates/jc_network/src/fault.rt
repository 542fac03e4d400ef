//! The faults of a network's calls: stuck events, and want of memory.

ghost use Rattle.std.specs.Prelude.{◌≡◌, IfOk};

use jc_rules::{Event, Refusal, Tagged, Text};
use std::alloc::AllocError;

/// Why an event can't be made: the refusal of the first condition that fails and its number, the tagged key for 25
/// alone, and the event.
#[derive(Drop)]
pub struct Stuck {
    pub number: u8,
    pub refusal: Refusal,
    pub key: Option<Tagged>,
    pub event: Event,
}

/// A copy of the key, if there is one.
fn copy_key(key: &Option<Tagged>) -> Result<Option<Tagged>, AllocError>
    ensures { IfOk result (λ copy. copy ≡ key.now) }
{
    match key {
        Some(key) => Ok(Some(key.copy()?)),
        None => Ok(None),
    }
}

impl Stuck {
    /// A copy.
    pub fn copy(&self) -> Result<Self, AllocError>
        ensures { IfOk result (λ stuck. stuck ≡ self.now) }
    {
        Ok(Stuck {
            number: self.number,
            refusal: self.refusal,
            key: copy_key(&self.key)?,
            event: self.event,
        })
    }
}

/// Why an event wasn't made.
#[derive(Drop)]
pub enum StepFault {
    /// The network has made 100,000 steps.
    Full,
    /// The event can't be made.
    Stuck(Stuck),
    /// There was no memory.
    Memory,
}

impl StepFault {
    /// A copy.
    pub fn copy(&self) -> Result<Self, AllocError>
        ensures { IfOk result (λ fault. fault ≡ self.now) }
    {
        match self {
            StepFault::Full => Ok(StepFault::Full),
            StepFault::Stuck(stuck) => Ok(StepFault::Stuck(stuck.copy()?)),
            StepFault::Memory => Ok(StepFault::Memory),
        }
    }
}

impl From<AllocError> for StepFault {
    ghost use Rattle.jc_network.specs.declared.fault.StepFault.TheVariants.{Memory as NoMemory};

    ghost from_gives = { λ _ fault. fault ≡ NoMemory };

    fn from(_: AllocError) -> Self {
        StepFault::Memory
    }
}

/// Why a network didn't come to the start of a scenario.
#[derive(Drop)]
pub enum StartFault {
    /// 44: the given event of this number, from 1, is the first that is stuck.
    Given { at: u64, stuck: Stuck },
    /// There was no memory.
    Memory,
}

impl StartFault {
    /// A copy.
    pub fn copy(&self) -> Result<Self, AllocError>
        ensures { IfOk result (λ fault. fault ≡ self.now) }
    {
        match self {
            StartFault::Given { at, stuck } => Ok(StartFault::Given {
                at: *at,
                stuck: stuck.copy()?,
            }),
            StartFault::Memory => Ok(StartFault::Memory),
        }
    }
}

impl From<AllocError> for StartFault {
    ghost use Rattle.jc_network.specs.declared.fault.StartFault.TheVariants.{Memory as NoMemory};

    ghost from_gives = { λ _ fault. fault ≡ NoMemory };

    fn from(_: AllocError) -> Self {
        StartFault::Memory
    }
}

/// Why no network was started of a whole scenario.
#[derive(Drop)]
pub enum Unstarted {
    /// 44: the given event of this number, from 1, is the first that is stuck. The names are the scenario's.
    Given {
        names: Vec<Text>,
        at: u64,
        stuck: Stuck,
    },
    /// There was no memory.
    Memory,
}

impl From<AllocError> for Unstarted {
    ghost use Rattle.jc_network.specs.declared.fault.Unstarted.TheVariants.{Memory as NoMemory};

    ghost from_gives = { λ _ fault. fault ≡ NoMemory };

    fn from(_: AllocError) -> Self {
        Unstarted::Memory
    }
}

/// Why the operations of a replica weren't listed, or replicas weren't compared.
#[derive(Clone, Copy, PartialEq, Eq)]
pub enum CompareFault {
    /// The network has no such replica.
    NoSuchReplica,
    /// There was no memory.
    Memory,
}

impl From<AllocError> for CompareFault {
    ghost use Rattle.jc_network.specs.declared.fault.CompareFault.TheVariants.{Memory as NoMemory};

    ghost from_gives = { λ _ fault. fault ≡ NoMemory };

    fn from(_: AllocError) -> Self {
        CompareFault::Memory
    }
}

//! Which events a replica can make, asked before the event is made. A network lists its events by it.

ghost use Rattle.std.specs.Prelude.{◌≡◌, List, [], IfOk, IfErr, IsFalse, IsSome};
ghost use Rattle.jc_rules.specs.declared.operation.Event.TheVariants as E;
ghost use Rattle.jc_rules.specs.declared.operation.Op.{Op as AnyOp};
ghost use Rattle.jc_rules.specs.Step.{replica_of};
ghost use Rattle.jc_replica.specs.Answers.{fault_cause_of, IsEventRefused};
ghost use Rattle.jc_replica.specs.Can.{CanOccur, MayRead};

use crate::fault::ReplicaFault;
use crate::replica::Replica;
use jc_apply::fits;
use jc_rules::{Event, Id, Trace};
use jc_tree::TreeStore;
use std::alloc::AllocError;

/// An event that is refused for this fault can't be made. Where memory was refused, that isn't known.
fn cannot(fault: ReplicaFault) -> Result<bool, AllocError>
    ensures { IfOk result (λ b. IsFalse b × IsSome (fault_cause_of fault)) }
{
    match fault {
        ReplicaFault::Memory => Err(AllocError),
        _ => Ok(false),
    }
}

impl<S: TreeStore> Replica<S> {
    /// Whether the event, which is the replica's own, can be made: its call isn't refused, whatever a replica
    /// offers, other than for want of memory. For one operation to receive, the answer is that for a replica which
    /// offers it. Only a command takes memory.
    pub fn can(&self, event: &Event) -> Result<bool, AllocError>
        requires { replica_of event.now ≡ self.now.number }
        ensures { IfOk result (λ b. CanOccur event.now self.now b) }
    {
        match self.tells(event) {
            Ok(can) => Ok(can),
            Err(fault) => cannot(fault),
        }
    }

    /// Whether the event can be made, or why it can't.
    fn tells(&self, event: &Event) -> Result<bool, ReplicaFault>
        requires { replica_of event.now ≡ self.now.number }
        ensures ok { IfOk result (λ b. CanOccur event.now self.now b) }
        ensures err { IfErr result (λ f. (read : List AnyOp)
            → MayRead event.now read → IsEventRefused event.now read self.now f) }
    {
        match event {
            Event::Exec(_) => self.runs(),
            Event::Apply(_, id) => self.applies(*id),
            Event::Send(_) | Event::Recv(_, _) | Event::Take(_, _, _) => {
                self.at_yield()?;
                Ok(true)
            }
            Event::Done(_) => {
                self.at_yield()?;
                Ok(self.acted)
            }
        }
    }

    /// Whether the next command can be run, or why it can't.
    fn runs(&self) -> Result<bool, ReplicaFault>
        ensures ok { IfOk result (λ b. CanOccur (E.Exec self.now.number) self.now b) }
        ensures err { IfErr result (λ f. IsEventRefused (E.Exec self.now.number) [] self.now f) }
    {
        let mut trace = Trace::new(self.alloc);
        if self.binds_next()? {
            drop(self.bound_next(&mut trace)?);
            return Ok(true);
        }
        let op = self.make_op(&mut trace)?;
        Ok(fits(&self.store, &op.cursor, &op.mutation))
    }

    /// Whether the received operation with the identifier can be applied, or why it can't.
    fn applies(&self, id: Id) -> Result<bool, ReplicaFault>
        ensures ok { IfOk result (λ b. CanOccur (E.Apply self.now.number id) self.now b) }
        ensures err { IfErr result (λ f. IsEventRefused (E.Apply self.now.number id) [] self.now f) }
    {
        let op = self.takes(id)?;
        Ok(fits(&self.store, &op.cursor, &op.mutation))
    }
}

//! The event `apply` of a replica: it applies an operation that was received.

ghost use Rattle.std.specs.Prelude.{[], IfOk, IfErr};
ghost use Rattle.jc_rules.specs.declared.operation.Event.TheVariants as E;
ghost use Rattle.jc_replica.specs.Answers.{AnswersEvent, IsEventRefused};
ghost use Rattle.jc_replica.specs.MayApply.{TakesOp, IsDueOp, IsUndueFor};

use crate::fault::ReplicaFault;
use crate::operation::apply_to;
use crate::received::Received;
use crate::record::{Change, Record};
use crate::replica::Replica;
use jc_rules::{Id, IdSet, Op, Rule, Trace};
use jc_tree::TreeStore;

/// The received operation with the identifier, which can be applied: all that it depends on was applied, but not the
/// operation itself.
fn due_op<'a>(received: &'a Received, ops: &IdSet, id: Id) -> Result<&'a Op, ReplicaFault>
    ensures ok { IfOk result (λ op. IsDueOp received.now ops.now id op.now) }
    ensures err { IfErr result (λ f. IsUndueFor received.now ops.now id f) }
{
    let Some(op) = received.find(id) else {
        return Err(ReplicaFault::NotReceived);
    };
    if ops.contains(id) {
        return Err(ReplicaFault::AlreadyApplied);
    }
    if !op.deps.is_subset(ops) {
        return Err(ReplicaFault::DepsMissing);
    }
    Ok(op)
}

impl<S: TreeStore> Replica<S> {
    /// The received operation with the identifier. A yield comes next, and all that the operation depends on was
    /// applied, but not the operation itself.
    pub(crate) fn takes(&self, id: Id) -> Result<&Op, ReplicaFault>
        ensures ok { IfOk result (λ op. TakesOp self.now.history.now id op.now) }
        ensures err { IfErr result (λ f. IsEventRefused (E.Apply self.now.number id) [] self.now f) }
    {
        self.at_yield()?;
        due_op(&self.recv, &self.ops, id)
    }

    /// Applies the received operation with the identifier, and returns the trace of the event.
    ///
    /// It is refused, in this order, with `NoCommand` or `NotAtYield` where no yield comes next, `NotReceived`,
    /// `AlreadyApplied`, `DepsMissing` where it depends on an operation that isn't applied, and `NotInList`. After a
    /// refusal all is as it was.
    pub fn apply(&mut self, id: Id) -> Result<Trace, ReplicaFault>
        ensures { AnswersEvent (E.Apply self.old.number id) [] self.old self.new result }
    {
        self.at_yield()?;
        let op = due_op(&self.recv, &self.ops, id)?;
        let mut trace = Trace::new(self.alloc);
        trace.open(Rule::ApplyRemote)?;
        self.steps.reserve(1)?;
        let mark = self.store.mark();
        let before = apply_to(self.alloc, &mut self.store, &mut self.ops, op, &mut trace)?;
        trace.close(0);
        let change = Change::Applied {
            id,
            before,
            acted: self.acted,
        };
        self.acted = true;
        self.steps.push(Record { mark, change }).unwrap();
        Ok(trace)
    }
}

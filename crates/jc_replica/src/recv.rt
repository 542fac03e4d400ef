//! The events `recv` and `take` of a replica: it receives operations that a replica offers.

ghost use Rattle.std.specs.Prelude.{◌≡◌, ℕ, IfSome, option_copied, unwrap_or};
ghost use Rattle.jc_rules.specs.declared.operation.Event.TheVariants as E;
ghost use Rattle.jc_replica.specs.Answers.{AnswersEvent};
ghost use Rattle.jc_replica.specs.Operations.{AreInOrder, AreHanded, AreOfOne};
ghost use Rattle.jc_replica.specs.Received.{receiving_event, receiving_rule, read_of};

use crate::fault::ReplicaFault;
use crate::received::find;
use crate::record::{Change, Record};
use crate::replica::Replica;
use jc_rules::{Id, Op, Rule, Trace};
use jc_tree::TreeStore;
use std::slice::from_ref;

/// The rule by which all is received, or the operation with the identifier.
fn rule_of(id: Option<Id>) -> Rule
    ensures { result ≡ receiving_rule id }
{
    match id {
        None => Rule::Recv,
        Some(_) => Rule::RecvOne,
    }
}

/// What is received of what is offered: all of it, or the operation with the identifier, if it is there.
fn read_of(ops: &[Op], id: Option<Id>) -> Option<&[Op]>
    requires { AreInOrder ops.now }
    ensures { option_copied result ≡ read_of id ops.now }
{
    match id {
        None => Some(ops),
        Some(id) => match find(ops, id) {
            Some(op) => Some(from_ref(op)),
            None => None,
        },
    }
}

impl<S: TreeStore> Replica<S> {
    /// Receives what a replica offers, its own operations by identifier, and returns the trace of the
    /// event. What it offered before isn't read again.
    ///
    /// It is refused with `NoCommand` or `NotAtYield` where no yield comes next. After a refusal all
    /// is as it was.
    pub fn recv(&mut self, ops: &[Op]) -> Result<Trace, ReplicaFault>
        requires order { AreInOrder ops.now }
        requires handed { AreHanded ops.now }
        requires own { AreOfOne ops.now }
        ensures { (q : ℕ) → AnswersEvent (E.Recv self.old.number q) ops.now self.old self.new result }
    {
        self.receive(Some(ops), None)
    }

    /// Receives what the replica itself offers, as `recv` does.
    pub fn recv_own(&mut self) -> Result<Trace, ReplicaFault>
        requires { AreHanded self.old.history.now.send }
        ensures { AnswersEvent (E.Recv self.old.number self.old.number) self.old.history.now.send
            self.old self.new result }
    {
        self.receive(None, None)
    }

    /// Receives the operation with the identifier of what a replica offers, its own operations by identifier.
    /// It returns the trace of the event.
    ///
    /// It is refused, in this order, with `NoCommand` or `NotAtYield` where no yield comes next, and
    /// `NotReceived` where no operation that is offered has the identifier. After a refusal all is as
    /// it was.
    pub fn recv_one(&mut self, ops: &[Op], id: Id) -> Result<Trace, ReplicaFault>
        requires order { AreInOrder ops.now }
        requires handed { AreHanded ops.now }
        requires own { AreOfOne ops.now }
        ensures { (q : ℕ) → AnswersEvent (E.Take self.old.number q id) ops.now self.old self.new result }
    {
        self.receive(Some(ops), Some(id))
    }

    /// Receives one operation of what the replica itself offers, as `recv_one` does.
    pub fn recv_one_own(&mut self, id: Id) -> Result<Trace, ReplicaFault>
        requires { AreHanded self.old.history.now.send }
        ensures { AnswersEvent (E.Take self.old.number self.old.number id) self.old.history.now.send
            self.old self.new result }
    {
        self.receive(None, Some(id))
    }

    /// Receives what is offered, or else what the replica itself offers: all of it, or the operation with the
    /// identifier. Returns the trace of the event. After a refusal all is as it was.
    fn receive(&mut self, offered: Option<&[Op]>, id: Option<Id>) -> Result<Trace, ReplicaFault>
        requires order { IfSome offered (λ ops. AreInOrder ops.now) }
        requires handed { AreHanded (unwrap_or (option_copied offered) self.old.history.now.send) }
        ensures { (q : ℕ) → AnswersEvent (receiving_event q id self.old.number)
            (unwrap_or (option_copied offered.entry) self.old.history.now.send) self.old self.new result }
    {
        self.at_yield()?;
        let ops = offered.unwrap_or(&self.queue[..self.sent]);
        let Some(read) = read_of(ops, id) else {
            return Err(ReplicaFault::NotReceived);
        };
        let mut trace = Trace::new(self.alloc);
        trace.push(rule_of(id))?;
        self.steps.reserve(1)?;
        let came = self.recv.unite(self.alloc, read)?;
        let mark = self.store.mark();
        let acted = self.acted;
        self.acted = true;
        let change = Change::Received { came, acted };
        self.steps.push(Record { mark, change }).unwrap();
        Ok(trace)
    }
}

//! The events `send` and `done` of a replica: it offers its operations, or ends the yield.

ghost use Rattle.std.specs.Prelude.{◌≡◌, ◌∷◌, [], ◌↔◌, IsTrue, List, IfOk, IfErr};
ghost use Rattle.jc_rules.specs.declared.operation.Event.{Event as AnyEvent};
ghost use Rattle.jc_rules.specs.declared.operation.Event.TheVariants as E;
ghost use Rattle.jc_rules.specs.declared.operation.Op.{Op as AnyOp};
ghost use Rattle.jc_rules.specs.Refused.{IsYieldEvent};
ghost use Rattle.jc_rules.specs.Syntax.{Cmd as AnyCmd, Yield};
ghost use Rattle.jc_syntax.specs.Trees.{cmd_of};
ghost use Rattle.jc_replica.specs.Answers.{AnswersEvent, IsEventRefused};

use crate::fault::ReplicaFault;
use crate::record::{Change, Record};
use crate::replica::Replica;
use jc_rules::{Rule, Trace};
use jc_syntax::Cmd;
use jc_tree::TreeStore;

/// Whether the command is `yield`.
pub fn is_yield(command: &Cmd) -> bool
    ensures { IsTrue result ↔ (cmd_of command.now ≡ Yield) }
{
    match command {
        Cmd::Yield => true,
        Cmd::Let(_, _) | Cmd::Set(_, _) | Cmd::InsertAfter(_, _) | Cmd::Delete(_) => false,
    }
}

impl<S: TreeStore> Replica<S> {
    /// Ok where the next command is `yield`; else the fault for which each event of a yield is refused.
    pub(crate) fn at_yield(&self) -> Result<(), ReplicaFault>
        ensures ok { IfOk result (λ _. (rest : List AnyCmd) × (self.now.history.now.left ≡ Yield ∷ rest)) }
        ensures err { IfErr result (λ f. (event : AnyEvent) → (read : List AnyOp)
            → IsYieldEvent event → IsEventRefused event read self.now f) }
    {
        if self.done == self.script.len() {
            return Err(ReplicaFault::NoCommand);
        }
        let command = &self.script[self.done];
        if is_yield(command) {
            Ok(())
        } else {
            Err(ReplicaFault::NotAtYield)
        }
    }

    /// Offers what the replica has made, and returns the trace of the event.
    ///
    /// It is refused with `NoCommand` or `NotAtYield` where no yield comes next. After a refusal all
    /// is as it was.
    pub fn send(&mut self) -> Result<Trace, ReplicaFault>
        ensures { AnswersEvent (E.Send self.old.number) [] self.old self.new result }
    {
        self.at_yield()?;
        let mut trace = Trace::new(self.alloc);
        trace.push(Rule::Send)?;
        self.steps.reserve(1)?;
        let record = Record {
            mark: self.store.mark(),
            change: Change::Sent {
                sent: self.sent,
                acted: self.acted,
            },
        };
        self.sent = self.queue.len();
        self.acted = true;
        self.steps.push(record).unwrap();
        Ok(trace)
    }

    /// Ends the yield, and returns the trace of the event.
    ///
    /// It is refused, in this order, with `NoCommand` or `NotAtYield` where no yield comes next, and
    /// `NotActed` where no event of the yield was made. After a refusal all is as it was.
    pub fn done(&mut self) -> Result<Trace, ReplicaFault>
        ensures { AnswersEvent (E.Done self.old.number) [] self.old self.new result }
    {
        self.at_yield()?;
        if !self.acted {
            return Err(ReplicaFault::NotActed);
        }
        let mut trace = Trace::new(self.alloc);
        trace.push(Rule::Done)?;
        self.steps.reserve(1)?;
        let record = Record {
            mark: self.store.mark(),
            change: Change::Ended,
        };
        self.done += 1;
        self.acted = false;
        self.steps.push(record).unwrap();
        Ok(trace)
    }
}

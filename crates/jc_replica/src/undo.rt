//! The way back: a replica's last step is taken back by its undo record, or no step can be any more.

ghost use Rattle.std.specs.Prelude.{◌≡◌, ◌-◌, [], length, take, IsTrue, IsFalse};
ghost use Rattle.jc_rules.specs.History.{timeline, begun};

use crate::record::{Change, Record};
use crate::replica::Replica;
use crate::vars::unbind_var;
use jc_rules::Op;
use jc_tree::TreeStore;

/// Removes the last operation.
fn drop_last(queue: &mut Vec<Op>)
    ensures { queue.new.items ≡ take (length queue.old.items - 1) queue.old.items }
{
    let last = queue.len().saturating_sub(1);
    queue.truncate(last);
}

impl<S: TreeStore> Replica<S> {
    /// Takes the last step back, and returns whether there was one. It takes no memory.
    pub fn undo(&mut self) -> bool
        ensures undone { IsTrue result → timeline self.new.history ≡ self.old.history.earlier }
        ensures none { IsFalse result → (self.new ≡ self.old) × (self.old.history.earlier ≡ []) }
        ensures number { self.new.number ≡ self.old.number }
    {
        let Some(Record { mark, change }) = self.steps.pop() else {
            return false;
        };
        self.store.undo_to(mark);
        let ended = self.done.saturating_sub(1);
        match change {
            Change::Bound { name, before } => {
                self.done = ended;
                unbind_var(&mut self.vars, &name, before);
            }
            Change::Made { id, before } => {
                self.done = ended;
                self.ops.withdraw(id, before);
                drop_last(&mut self.queue);
            }
            Change::Sent { sent, acted } => {
                self.sent = sent;
                self.acted = acted;
            }
            Change::Received { came, acted } => {
                self.acted = acted;
                self.recv.withdraw(came.as_slice());
            }
            Change::Applied { id, before, acted } => {
                self.acted = acted;
                self.ops.withdraw(id, before);
            }
            Change::Ended => {
                self.done = ended;
                self.acted = true;
            }
        }
        true
    }

    /// Begins at the state now: no step that was made can be taken back any more. It takes no memory.
    pub fn begin(&mut self)
        ensures { self.new ≡ record self.old { history = begun self.old.history.now } }
    {
        self.steps.clear();
        self.store.forget_marks();
    }
}

//! What the last step did, read from its undo record. A journal writes it.

ghost use Rattle.std.specs.Prelude.{◌≡◌, ◌-◌, ◌<◌, ◌≤◌, [], length, drop, get_or, slice_get, Some, IfSome, IfNone};
ghost use Rattle.jc_replica.specs.LastStep.{HasLastStep};

use crate::record::Change;
use crate::replica::Replica;
use jc_rules::{Id, Op};
use jc_syntax::Cmd;
use jc_tree::TreeStore;

/// What a step did.
#[derive(Clone, Copy)]
pub enum LastStep<'a> {
    /// This command bound a variable.
    Bound(&'a Cmd),
    /// The command made the operation.
    Made { command: &'a Cmd, op: &'a Op },
    /// These operations were offered, and weren't before. They are by identifier.
    Sent(&'a [Op]),
    /// The operations with these identifiers were received, and weren't before. They rise.
    Received(&'a [Id]),
    /// This operation was applied. It was received before.
    Applied(&'a Op),
    /// A yield ended.
    Ended,
}

/// The last of so many commands.
fn last_of(script: &[Cmd], count: usize) -> &Cmd
    requires some { 0 < count }
    requires within { count ≤ length script.now }
    ensures { slice_get script.now (count - 1) ≡ Some result.now }
{
    &script[count - 1]
}

/// The last operation.
fn last_op(ops: &[Op]) -> &Op
    requires { 0 < length ops.now }
    ensures { result.now ≡ get_or ops.now (length ops.now - 1) result.now }
{
    &ops[ops.len() - 1]
}

/// The operations behind so many.
fn ops_behind(ops: &[Op], count: usize) -> &[Op]
    requires { count ≤ length ops.now }
    ensures { result.now ≡ drop count ops.now }
{
    &ops[count..]
}

impl<S: TreeStore> Replica<S> {
    /// What the last step did; nothing where there is none that can be taken back. It takes no memory.
    pub fn last_step(&self) -> Option<LastStep<'_>>
        ensures some { IfSome result (λ step. HasLastStep self.now.history step) }
        ensures none { IfNone result (self.now.history.earlier ≡ []) }
    {
        let record = self.steps.last()?;
        match &record.change {
            Change::Bound { .. } => Some(LastStep::Bound(last_of(&self.script, self.done))),
            Change::Made { .. } => Some(LastStep::Made {
                command: last_of(&self.script, self.done),
                op: last_op(&self.queue),
            }),
            Change::Sent { sent, .. } => Some(LastStep::Sent(ops_behind(self.sent(), *sent))),
            Change::Received { came, .. } => Some(LastStep::Received(came.as_slice())),
            Change::Applied { id, .. } => {
                let Some(op) = self.recv.find(*id) else {
                    unreachable!();
                };
                Some(LastStep::Applied(op))
            }
            Change::Ended => Some(LastStep::Ended),
        }
    }
}

//! A replica's type: its state, and an undo record for each step. The other files have its events.

ghost use Rattle.std.specs.Prelude.{◌≡◌, ◌≤◌, [], length, map};
ghost use Rattle.jc_rules.specs.History.{begun};
ghost use Rattle.jc_rules.specs.declared.limits.TheConstants.{MAX_COMMANDS};
ghost use Rattle.jc_rules.specs.Context.{empty};
ghost use Rattle.jc_rules.specs.State.{start};
ghost use Rattle.jc_syntax.specs.Trees.{cmd_of};
ghost use Rattle.jc_cursor.specs.Bounds.{vars_of};
ghost use Rattle.jc_replica.specs.Operations.{AreInOrder};

use crate::received::Received;
use crate::record::Record;
use jc_cursor::Bound;
use jc_rules::{IdSet, Op, Text};
use jc_syntax::Cmd;
use jc_tree::TreeStore;
use std::alloc::Global;
use std::collections::BTreeMap;
use std::marker::Model;

/// A replica with its script, its document in a store, and an undo record of each of its steps. It is seen
/// as its number in the order of names, its state, and the states before its steps.
#[derive(Drop)]
pub struct Replica<S: TreeStore> {
    pub(crate) number: u16,
    pub(crate) script: Vec<Cmd>,
    /// The number of commands that have ended.
    pub(crate) done: usize,
    /// Whether an event of the yield was made.
    pub(crate) acted: bool,
    pub(crate) vars: BTreeMap<Text, Bound>,
    pub(crate) store: S,
    /// The identifiers applied.
    pub(crate) ops: IdSet,
    /// The operations made, by identifier. The first `sent` of them are offered.
    pub(crate) queue: Vec<Op>,
    pub(crate) sent: usize,
    /// The operations received, by identifier.
    pub(crate) recv: Received,
    pub(crate) steps: Vec<Record>,
    pub(crate) alloc: Global,
}

impl<S: TreeStore> Model for Replica<S> {
    ghost use Rattle.std.specs.Prelude.{map};
    ghost use Rattle.jc_syntax.specs.Trees.{cmd_of};
    ghost use Rattle.jc_cursor.specs.Bounds.{vars_of};
    ghost use Rattle.jc_replica.specs.ReplicaHistory.{ReplicaHistory, replica_history_code};
    ghost use Rattle.jc_replica.specs.Undo.{replica_history_of, held_of};
    ghost use Rattle.jc_replica.specs.Invariant.{IsReplica};

    ghost Value = { ReplicaHistory };

    ghost coded = { replica_history_code };

    ghost view = { λ a. replica_history_of a.number (map cmd_of a.script.items) (S.tree a.store) a.steps.items
        (held_of a.done a.acted (vars_of a.vars.entries) a.ops a.queue.items a.sent a.recv) };

    ghost invariant = { λ a. IsReplica (map cmd_of a.script.items) (S.tree a.store) a.steps.items
        (held_of a.done a.acted (vars_of a.vars.entries) a.ops a.queue.items a.sent a.recv) };
}

impl<S: TreeStore> Replica<S> {
    /// The replica at its start.
    pub fn new(alloc: Global, number: u16, script: Vec<Cmd>, store: S) -> Self
        requires short { length script.items ≤ MAX_COMMANDS }
        requires empty { S.tree store ≡ begun empty }
        ensures { result ≡ record { number = number; history = begun (start (map cmd_of script.items)) } }
    {
        Replica {
            number,
            script,
            done: 0,
            acted: false,
            vars: BTreeMap::new(alloc),
            store,
            ops: IdSet::new(alloc),
            queue: Vec::new(alloc),
            sent: 0,
            recv: Received::new(alloc),
            steps: Vec::new(alloc),
            alloc,
        }
    }

    /// The replica's number in the order of names.
    pub fn number(&self) -> u16
        ensures { result ≡ self.now.number }
    {
        self.number
    }

    /// The commands left.
    pub fn left(&self) -> &[Cmd]
        ensures { map cmd_of result.now ≡ self.now.history.now.left }
    {
        &self.script[self.done..]
    }

    /// Whether an event of the yield was made.
    pub fn acted(&self) -> bool
        ensures { result ≡ self.now.history.now.acted }
    {
        self.acted
    }

    /// The variables and what they are bound to, by name.
    pub fn vars(&self) -> &BTreeMap<Text, Bound>
        ensures { vars_of result.now.entries ≡ self.now.history.now.vars }
    {
        &self.vars
    }

    /// The identifiers of the operations applied.
    pub fn ops(&self) -> &IdSet
        ensures { result.now ≡ self.now.history.now.ops }
    {
        &self.ops
    }

    /// The operations made, by identifier.
    pub fn queue(&self) -> &[Op]
        ensures queue { result.now ≡ self.now.history.now.queue }
        ensures order { AreInOrder result.now }
    {
        self.queue.as_slice()
    }

    /// The operations offered, by identifier. They are a prefix of those made.
    pub fn sent(&self) -> &[Op]
        ensures sent { result.now ≡ self.now.history.now.send }
        ensures order { AreInOrder result.now }
    {
        &self.queue[..self.sent]
    }

    /// The operations received, by identifier.
    pub fn received(&self) -> &[Op]
        ensures received { result.now ≡ self.now.history.now.recv }
        ensures order { AreInOrder result.now }
    {
        self.recv.as_slice()
    }

    /// The store with the document.
    pub fn tree(&self) -> &S
        ensures { (S.tree result.now).now ≡ self.now.history.now.tree }
    {
        &self.store
    }
}

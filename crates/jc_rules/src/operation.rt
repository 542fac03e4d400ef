//! Cursors, mutations, operations and events, as every layer above passes them.

ghost use Rattle.std.specs.Prelude.{◌≡◌, IfOk};
ghost use Rattle.jc_rules.specs.Step.{replica_of};

use crate::id::Id;
use crate::id_set::IdSet;
use crate::key::Key;
use crate::path::Path;
use crate::value::Value;
use std::alloc::AllocError;

/// A cursor: the path of a context, and a key in it.
#[derive(Drop)]
pub struct Cursor {
    pub path: Path,
    pub last: Key,
}

impl Cursor {
    /// The same cursor once more.
    pub fn copy(&self) -> Result<Self, AllocError>
        ensures { IfOk result (λ cursor. cursor ≡ self.now) }
    {
        Ok(Cursor {
            path: self.path.copy()?,
            last: self.last.copy()?,
        })
    }
}

/// What an operation does at its cursor.
#[derive(PartialEq, Eq, Drop)]
pub enum Mutation {
    Assign(Value),
    Insert(Value),
    Delete,
}

impl Mutation {
    /// The same mutation once more.
    pub fn copy(&self) -> Result<Self, AllocError>
        ensures { IfOk result (λ mutation. mutation ≡ self.now) }
    {
        match self {
            Mutation::Assign(value) => Ok(Mutation::Assign(value.copy()?)),
            Mutation::Insert(value) => Ok(Mutation::Insert(value.copy()?)),
            Mutation::Delete => Ok(Mutation::Delete),
        }
    }
}

/// An operation: its identifier, those it depends on, its cursor and what it does there.
#[derive(Drop)]
pub struct Op {
    pub id: Id,
    pub deps: IdSet,
    pub cursor: Cursor,
    pub mutation: Mutation,
}

impl Op {
    /// The same operation once more.
    pub fn copy(&self) -> Result<Self, AllocError>
        ensures { IfOk result (λ op. op ≡ self.now) }
    {
        Ok(Op {
            id: self.id,
            deps: self.deps.copy()?,
            cursor: self.cursor.copy()?,
            mutation: self.mutation.copy()?,
        })
    }
}

/// One action of one replica, whose number comes first. Replicas are numbered in the order of
/// their names.
#[derive(Clone, Copy, PartialEq, Eq)]
pub enum Event {
    /// Runs the next command.
    Exec(u16),
    /// At a yield: offers what the replica has made.
    Send(u16),
    /// At a yield: takes what the second replica offers.
    Recv(u16, u16),
    /// At a yield: takes one operation of what the second replica offers.
    Take(u16, u16, Id),
    /// At a yield: applies a received operation.
    Apply(u16, Id),
    /// Ends the yield.
    Done(u16),
}

impl Event {
    /// The number of the replica whose event it is.
    pub fn replica(&self) -> u16
        ensures { result ≡ replica_of self.now }
    {
        match self {
            Event::Exec(p) | Event::Send(p) | Event::Done(p) => *p,
            Event::Recv(p, _) => *p,
            Event::Take(p, _, _) => *p,
            Event::Apply(p, _) => *p,
        }
    }
}

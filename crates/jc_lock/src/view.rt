//! What a seat at the lock's table knows, for the rule of the table. At run time there are values of `Terms` alone.
use std::collections::LinkedList;
use std::snapshot::Snapshot;

/// The state of a seat: it rests, it waits in the queue with a ticket, or it holds the turn of its ticket.
pub enum Stage {
    Rests,
    Waits(u64),
    Holds(u64),
}

/// What a seat knows under the number of one pass: the history that was seen, and the pass's own entries.
pub struct Known<E> {
    pub number: u64,
    pub seen: LinkedList<E>,
    pub mine: LinkedList<E>,
}

/// What one seat knows. A pass's seat knows for one number, the seat that deals the passes for those that are left, a
/// joined seat for the numbers of both, and a spent one for none.
pub struct View<E, O> {
    pub stage: Stage,
    /// The takes that are left to all its numbers together.
    pub left: u64,
    /// The takes of each pass that is dealt.
    pub share: u64,
    pub origin: Option<O>,
    pub knows: LinkedList<Known<E>>,
}

/// What the lock was opened with.
#[derive(Drop)]
pub struct Terms<K> {
    pub passes: u64,
    /// The takes of each pass.
    pub takes: u64,
    pub opened: Snapshot<K>,
}

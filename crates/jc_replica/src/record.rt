//! The undo record of a step, which a replica keeps for each of its steps.

use jc_cursor::Bound;
use jc_rules::{Id, Text};
use jc_tree::Mark;

/// The undo record of what a step changed outside the store.
#[derive(Drop)]
pub enum Change {
    /// A command bound the variable of this name. It was bound to `before`, or is new. Few steps bind
    /// a variable that was bound, so that is in a box: each record would have room for it else.
    Bound {
        name: Text,
        before: Option<Box<Bound>>,
    },
    /// A command made the last operation of the queue, which has this identifier. The greatest
    /// counter of its replica was `before`.
    Made {
        id: Id,
        before: u64,
    },
    /// The number of operations of the queue that were offered before.
    Sent {
        sent: usize,
        acted: bool,
    },
    /// Operations with these identifiers were received.
    Received {
        came: Vec<Id>,
        acted: bool,
    },
    /// The received operation with this identifier was applied. The greatest counter of its replica
    /// was `before`.
    Applied {
        id: Id,
        before: u64,
        acted: bool,
    },
    /// A yield ended.
    Ended,
}

/// The undo record of a step: the store's mark before it, and what else it changed.
#[derive(Drop)]
pub struct Record {
    pub mark: Mark,
    pub change: Change,
}

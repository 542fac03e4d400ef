//! Lamport identifiers, which every operation has, and their order.

/// The Lamport identifier of an operation. Identifiers are ordered by counter, then by replica.
#[derive(Clone, Copy, Debug, PartialEq, Eq, PartialOrd, Ord, Hash)]
pub struct Id {
    /// At least 1 in an operation.
    pub counter: u64,
    /// The number of the replica that made the operation, in the order of names.
    pub replica: u16,
}

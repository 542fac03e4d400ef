//! The phase of a replica: how far it is in a yield. choosing.rt chooses by it.

/// What a replica does next at a yield.
#[derive(Clone, Copy, Debug, PartialEq, Eq)]
pub enum Phase {
    /// It sends.
    Start,
    /// It receives from this replica and from those after it.
    Receiving(u16),
    /// It applies what is ready, and then ends the yield.
    Applying,
}

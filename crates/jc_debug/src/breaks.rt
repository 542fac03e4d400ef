//! Breakpoints: what they name. The debugger's file has the moves.

use jc_rules::Rule;

/// A breakpoint: the positions that it names.
#[derive(Clone, Copy)]
pub enum Break {
    /// The position with this number.
    Position(u64),
    /// Each position whose event has the rule in its trace.
    Rule(Rule),
    /// Each position whose event is of the replica.
    Replica(u16),
}

//! What a line can ask for.

use jc_session::Request;

/// A position: so many events of the schedule behind position 0, or so many given ones before it.
#[derive(Clone, Copy, Debug, PartialEq, Eq)]
pub enum Position {
    After(u64),
    /// Not 0.
    Before(u64),
}

/// What a line asks for. Names are those of replicas, each a word as it stands in the line; an expression is the rest of
/// the line, and empty where there is none.
#[derive(Clone, Copy)]
pub enum Asked<'a> {
    /// The text is as many bytes as this, behind the line.
    Scenario(u64),
    Places,
    Print,
    /// What a session has too.
    OfSession(Request<'a>),
    GotoEnd,
    BackRun,
    /// A breakpoint for an operation, by the counter and the replica of its identifier.
    BreakOp(u64, &'a [u8]),
    /// A breakpoint for the place of an expression at a replica.
    BreakPlace(&'a [u8], &'a str),
    Breaks,
    View {
        at: Option<Position>,
        name: Option<&'a [u8]>,
    },
    ViewPlace {
        at: Option<Position>,
        name: &'a [u8],
        expression: &'a str,
    },
    /// The states at another position; those here are a session's request.
    StateAt {
        at: Position,
        name: Option<&'a [u8]>,
    },
    Brief {
        at: Option<Position>,
        name: &'a [u8],
    },
    Eval {
        at: Option<Position>,
        name: &'a [u8],
        expression: &'a str,
    },
    Event {
        at: Option<Position>,
        /// Whether the line has the rules of its event.
        trace: bool,
        /// Whether it has what the event changed.
        effects: bool,
    },
    Journal {
        trace: bool,
        effects: bool,
        /// The events behind the first position, up to the second; all where there are none.
        between: Option<(Position, Position)>,
    },
    Weave {
        seed: u64,
        limit: u64,
    },
}

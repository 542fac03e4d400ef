//! How a replica ended that chose its events. Runs by threads and woven schedules report it.

use jc_network::Stuck;

/// How a replica ended.
#[derive(Drop)]
pub enum End {
    /// No command was left.
    Finished,
    /// The event that it chose is stuck.
    StuckAt(Stuck),
    /// No more events may be made.
    LimitReached,
    /// A request for memory was refused.
    NoMemory,
}

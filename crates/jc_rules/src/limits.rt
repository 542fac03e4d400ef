//! The limits of texts, scenarios, runs and sessions, once. Contracts and definitions cite them.

/// Bytes of a text: a scenario, a script, an expression or an event.
pub const MAX_TEXT: usize = 8_388_608;

/// Bytes of a number, and of a string once it is decoded.
pub const MAX_STRING: usize = 65_535;

/// Bytes of a name.
pub const MAX_NAME: usize = 255;

/// Replicas of a scenario.
pub const MAX_REPLICAS: usize = 64;

/// Commands of a script.
pub const MAX_COMMANDS: usize = 65_536;

/// Selectors of an expression.
pub const MAX_SELECTORS: usize = 256;

/// Keys of a path.
pub const MAX_PATH: usize = 512;

/// Events of a schedule, given events of a scenario, and steps of a network from its start on.
pub const MAX_EVENTS: usize = 100_000;

/// The greatest counter of an operation: that of a scenario with as many commands as there can be.
pub const MAX_COUNTER: u64 = 4_194_304;

/// Events that each replica's thread may be asked to make at most.
pub const MAX_THREAD_EVENTS: u64 = 100_000;

/// Breakpoints of a debugger at once.
pub const MAX_BREAKS: usize = 256;

/// Bytes of a line of a session, its end not counted.
pub const MAX_LINE: usize = 4_096;

/// Lines of a session.
pub const MAX_LINES: u64 = 1_000_000;

/// Bytes of the lines of a session.
pub const MAX_SESSION: u64 = 67_108_864;

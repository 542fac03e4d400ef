//! The commands of the program, which `order_of` returns and jc_program executes.

use jc_rules::Text;

/// What is shown of a scenario.
#[derive(Clone, Copy, Debug, PartialEq, Eq)]
pub enum View {
    /// How many replicas, commands and events it has.
    Check,
    /// Its canonical text.
    Print,
    /// The replicas' states after the events of its schedule.
    Run {
        /// Whether the rules of each event are shown too.
        trace: bool,
    },
    /// Each replica's document after the first events, as an application sees it.
    Document {
        /// The number of events executed at most.
        events: u64,
    },
    /// A line of JSON for each event, given ones too, with its operation in full.
    Journal {
        /// Whether each line has the rules of its event.
        trace: bool,
        /// Whether each line that has an operation has what it changed.
        effects: bool,
    },
}

/// What a command does with a scenario.
#[derive(Clone, Copy, Debug, PartialEq, Eq)]
pub enum Task {
    /// Show something of it.
    Show(View),
    /// Debug its run: answer the lines of standard input.
    Debug,
    /// Answer the requests of a program, from standard input. There is no file: its name is empty.
    Serve,
    /// Run each replica in a thread of its own, and print the scenario with the schedule that they made.
    Threads {
        /// The number of events executed by each replica at most.
        limit: u64,
    },
    /// Print it with a schedule that is drawn from the seed.
    Weave {
        seed: u64,
        /// The number of events of the schedule at most.
        limit: u64,
    },
}

/// A command: its task, and the file with the scenario's text. The file `-` is standard input.
#[derive(Debug, Drop)]
pub struct Order {
    pub task: Task,
    pub file: Text,
}

//! Laws of canonical texts, for the layers above: each is read back as what it was printed from.

ghost use Rattle.jc_printer.specs.Laws.{ExpressionsReadBack, ScriptsReadBack, EventsReadBack};

/// A canonical expression is read back as itself.
pub fn expressions_read_back()
    ensures { ExpressionsReadBack }
{}

/// A canonical script is read back as itself.
pub fn scripts_read_back()
    ensures { ScriptsReadBack }
{}

/// A canonical event is read back with the names of its replicas, in each version that has it.
pub fn events_read_back()
    ensures { EventsReadBack }
{}

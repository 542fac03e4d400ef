//! Versions of scenarios, and which events each has.

ghost use Rattle.std.specs.Prelude.{◌↔◌, IsTrue};
ghost use Rattle.jc_rules.specs.Version.{Allows};

use crate::operation::Event;

/// The version of a scenario.
#[derive(Clone, Copy, PartialEq, Eq)]
pub enum Version {
    One,
    /// It alone has events that take one operation.
    Two,
}

impl Version {
    /// Whether the version has this event.
    pub fn allows(self, event: &Event) -> bool
        ensures { IsTrue result ↔ Allows event.now self }
    {
        match event {
            Event::Take(_, _, _) => self == Version::Two,
            Event::Exec(_)
            | Event::Send(_)
            | Event::Recv(_, _)
            | Event::Apply(_, _)
            | Event::Done(_) => true,
        }
    }
}

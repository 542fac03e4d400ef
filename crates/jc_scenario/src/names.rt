//! The numbers of the replicas that an event names. `reading` and sessions resolve events with it.

ghost use Rattle.std.specs.Prelude.{◌≡◌, ◌≢◌, ◌≤◌, IfOk, IfErr, Some, length, slice_get, Contains};
ghost use Rattle.jc_parser.specs.declared.fault.ScenarioFault.TheVariants as faults;
ghost use Rattle.jc_scenario.specs.Resolved.{IsResolved, names_in_event, IsFirstStranger};

use jc_parser::ScenarioFault;
use jc_rules::{Event, Id, Text};
use jc_syntax::{Named, NamedEvent};

/// A name in an event that no replica has.
#[derive(Clone, Copy, Debug, PartialEq, Eq)]
pub struct UnknownReplica {
    /// The offset of the name in the text.
    pub place: usize,
}

impl From<UnknownReplica> for ScenarioFault {
    ghost from_gives = { λ unknown e. e ≡ faults.UnknownReplica unknown.place };

    fn from(unknown: UnknownReplica) -> ScenarioFault {
        ScenarioFault::UnknownReplica {
            place: unknown.place,
        }
    }
}

/// The number of the replica that has the name.
fn number_of(names: &[Text], named: &Named) -> Result<u16, UnknownReplica>
    requires few { length names.now ≤ 65536 }
    ensures number { IfOk result (λ p. slice_get names.now p ≡ Some named.now.name) }
    ensures unknown { IfErr result (λ e. (Contains names.now named.now.name → ⊥) × (e.place ≡ named.now.place)) }
{
    for (number, name) in names.iter().enumerate() {
        if name.as_str() == named.name.as_str() {
            return Ok(number as u16);
        }
    }
    Err(UnknownReplica { place: named.place })
}

/// The event by the numbers of its replicas. A replica's number is where its name is in the list. It takes no memory.
///
/// `UnknownReplica` is at the first of the event's names, from the left, that isn't in the list.
pub fn resolve(names: &[Text], event: &NamedEvent) -> Result<Event, UnknownReplica>
    requires few { length names.now ≤ 65536 }
    // Each name is the one at its replica's number.
    ensures event { IfOk result (λ e. IsResolved names.now event.now e) }
    // At this offset is the first name that no replica has.
    ensures fault { IfErr result (λ e. IsFirstStranger names.now (names_in_event event.now) e.place) }
{
    match event {
        NamedEvent::Exec(p) => Ok(Event::Exec(number_of(names, p)?)),
        NamedEvent::Send(p) => Ok(Event::Send(number_of(names, p)?)),
        NamedEvent::Recv(p, q) => {
            let receiver = number_of(names, p)?;
            let sender = number_of(names, q)?;
            Ok(Event::Recv(receiver, sender))
        }
        NamedEvent::Take {
            replica,
            sender,
            counter,
            author,
        } => {
            let receiver = number_of(names, replica)?;
            let from = number_of(names, sender)?;
            let id = Id {
                counter: u64::from(*counter),
                replica: number_of(names, author)?,
            };
            Ok(Event::Take(receiver, from, id))
        }
        NamedEvent::Apply {
            replica,
            counter,
            author,
        } => {
            let own = number_of(names, replica)?;
            let id = Id {
                counter: u64::from(*counter),
                replica: number_of(names, author)?,
            };
            Ok(Event::Apply(own, id))
        }
        NamedEvent::Done(p) => Ok(Event::Done(number_of(names, p)?)),
    }
}

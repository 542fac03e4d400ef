//! All events of a scenario: the given ones, and then those of a schedule.

ghost use Rattle.std.specs.Prelude.{◌≡◌, ◌<◌, length, slice_get, Some};
ghost use Rattle.jc_scenario.specs.Views.{scenario_view};
ghost use Rattle.jc_listings.specs.Positions.{all_events, number_behind};

use jc_journal::NumberedEvent;
use jc_rules::Event;
use jc_scenario::Scenario;

/// The given events of a scenario, and a schedule.
#[derive(Clone, Copy)]
pub(crate) struct AllEvents<'a> {
    pub(crate) scenario: &'a Scenario,
    pub(crate) schedule: &'a [Event],
}

impl<'a> AllEvents<'a> {
    /// The event behind so many of all, with its number among the given ones or in the schedule.
    pub(crate) fn behind(&self, count: usize) -> NumberedEvent
        requires { count < length (all_events (scenario_view self.now.scenario.now) self.now.schedule.now) }
        ensures event { slice_get (all_events (scenario_view self.now.scenario.now) self.now.schedule.now) count
            ≡ Some result.event }
        ensures number { (result.given, result.number) ≡ number_behind (scenario_view self.now.scenario.now) count }
    {
        let given = self.scenario.given.as_slice();
        if count < given.len() {
            NumberedEvent {
                event: given[count],
                number: count as u64 + 1,
                given: true,
            }
        } else {
            let at = count - given.len();
            NumberedEvent {
                event: self.schedule[at],
                number: at as u64 + 1,
                given: false,
            }
        }
    }
}

//! Positions as counts of all events of a scenario, the given ones first.

ghost use Rattle.std.specs.Prelude.{◌≡◌, ◌+◌, ◌^◌, ◌<◌, List, length};
ghost use Rattle.jc_rules.specs.declared.operation.Event.{Event as AnyEvent};
ghost use Rattle.jc_scenario.specs.WellFormed.{Scenario as AnyScenario};
ghost use Rattle.jc_requests.specs.Views.{position_view};
ghost use Rattle.jc_listings.specs.Positions.{count_of};

use jc_requests::Position;
use jc_rules::Refusal;

/// How many events lead to a position, or why there is no such position: of so many that are given, and so many of a
/// schedule.
pub fn count_of(given: u64, scheduled: u64, position: Position) -> Result<u64, Refusal>
    requires { given + scheduled < 2 ^ 64 }
    ensures { (s : AnyScenario) (schedule : List AnyEvent)
        → length s.given ≡ given
        → length schedule ≡ scheduled
        → result ≡ count_of s schedule (position_view position) }
{
    match position {
        Position::After(n) if n <= scheduled => Ok(given + n),
        Position::After(_) => Err(Refusal::PastSchedule),
        Position::Before(k) if k <= given => Ok(given - k),
        Position::Before(_) => Err(Refusal::AtStart),
    }
}

//! Networks before the start of a scenario.

ghost use Rattle.std.specs.Prelude.{◌≡◌, ◌≤◌, length, take, IfOk};
ghost use Rattle.jc_rules.specs.Step.{Network as AnyNetwork, AfterIn};
ghost use Rattle.jc_scenario.specs.WellFormed.{IsWellFormedScenario};
ghost use Rattle.jc_scenario.specs.Views.{scenario_view};
ghost use Rattle.jc_network.specs.Given.{before_given};

use jc_network::{Net, StartFault};
use jc_scenario::Scenario;
use std::alloc::{AllocError, Global};

/// The network to which the first events of those that are given lead.
pub fn given_network(alloc: Global, scenario: &Scenario, count: usize) -> Result<Net, AllocError>
    requires formed { IsWellFormedScenario (scenario_view scenario.now) }
    requires within { count ≤ length (scenario_view scenario.now).given }
    // None of these is stuck.
    requires leads { (last : AnyNetwork) × AfterIn (before_given (scenario_view scenario.now))
        (take count (scenario_view scenario.now).given) last }
    ensures leads { IfOk result (λ net. AfterIn (before_given (scenario_view scenario.now))
        (take count (scenario_view scenario.now).given) net.history.now) }
    ensures names { IfOk result (λ net. net.names ≡ (scenario_view scenario.now).names) }
{
    let mut net = Net::first(alloc, scenario)?;
    match net.lead(&scenario.given[..count]) {
        Ok(()) => {}
        Err(StartFault::Memory) => return Err(AllocError),
        Err(StartFault::Given { .. }) => unreachable!(),
    }
    net.begin();
    Ok(net)
}

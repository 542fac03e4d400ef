//! Debuggers of scenarios, for the tests: each has one owner, which lends it.

ghost use Rattle.std.specs.Prelude.{◌≡◌, All, IfOk, length};
ghost use Rattle.jc_printer.specs.Canon.{AreNamed};
ghost use Rattle.jc_scenario.specs.Views.{scenario_view};
ghost use Rattle.jc_scenario.specs.WellFormed.{IsWellFormedScenario};
ghost use Rattle.jc_session.specs.AnswerOf.{AllNamed};

use jc_debug::Debugger;
use jc_scenario::Scenario;
use std::alloc::{AllocError, Global};
use std::process::Abort;

/// A debugger at the start of a scenario of which no given event is stuck.
pub fn begun(rt: &impl Abort, alloc: Global, scenario: Scenario) -> Result<Debugger, AllocError>
    requires { IsWellFormedScenario (scenario_view scenario) }
    ensures all { IfOk result (λ debugger. AllNamed debugger) }
    ensures given { IfOk result (λ debugger.
        All (λ e. AreNamed e (length debugger.net.names)) scenario.given.items) }
{
    match Debugger::new(alloc, scenario) {
        Ok(debugger) => Ok(debugger),
        Err(_) => panic!(rt; "no debugger"),
    }
}

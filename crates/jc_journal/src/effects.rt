//! What an event changed in its replica's tree.

ghost use Rattle.std.specs.Prelude.{◌≡◌, ℕ, List, true, Some, IfOk};
ghost use Rattle.jc_rules.specs.declared.rule.Rule.{Rule as AnyRule};
ghost use Rattle.jc_rules.specs.Step.{StepIn};
ghost use Rattle.jc_effects.specs.Laws.{IsChangedBy};
ghost use Rattle.jc_effects.specs.Difference.{IsDifference};
ghost use Rattle.jc_journal.specs.EventLine.{AreEffects, IsBeforeLast};
ghost use Rattle.jc_journal.specs.Parts.{differences_in};

use crate::event::op_of;
use jc_effects::{Effects, effects_of};
use jc_network::Net;
use jc_rules::Event;
use std::alloc::{AllocError, Global};

/// What the event, which led from the network `old` to `new` as the last step of `new`, changed in its replica's tree:
/// what differs between the trees, where the event has an operation. Nothing but memory is refused.
pub fn event_effects(
    alloc: Global,
    old: &Net,
    new: &Net,
    event: &Event,
) -> Result<Option<Effects>, AllocError>
    requires made { (rows : List (AnyRule × ℕ)) × StepIn old.now.history.now event.now new.now.history.now rows }
    requires last { IsBeforeLast old.now.history.now new.now.history }
    ensures { IfOk result (λ effects. (rows : List (AnyRule × ℕ))
        → (made : StepIn old.now.history.now event.now new.now.history.now rows)
        → AreEffects true event.now made.step.before made.step.after (differences_in effects)) }
{
    // For its contract: events have led to the network from a start.
    let _steps = old.steps();
    let Some(was) = old.replica(event.replica()) else {
        unreachable!();
    };
    let Some(now) = new.replica(event.replica()) else {
        unreachable!();
    };
    let Some(op) = op_of(new.last_step()) else {
        return Ok(None);
    };
    let effects = effects_of(alloc, was.tree(), now.tree(), op)?;
    Ok(Some(effects))
}

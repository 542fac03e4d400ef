//! Laws of the definitions of this crate. Each function does nothing: its contract is the law, and proofs above cite it.

ghost use Rattle.jc_rules.specs.Laws.{OneDerivation, FiftyRulesStand, OneStep, OneAfter, OneStepIn, OneAfterIn, RefusedHasNone, OneCause, StuckHasNone, OneStuck, StuckInHasNone, OneStuckIn, AreExactOrders, AreSets, NamesDiffer, NumbersDiffer};

/// A question has at most one derivation.
pub fn one_derivation()
    ensures { OneDerivation }
{}

/// A derivation without RECV-ONE holds by the table exactly where it holds by its other fifty rules, which are those of
/// version 1.
pub fn fifty_rules_stand()
    ensures { FiftyRulesStand }
{}

/// An event leads a network to one network at most, by one trace.
pub fn one_step()
    ensures { OneStep }
{}

/// The same events lead a network to one network at most.
pub fn one_after()
    ensures { OneAfter }
{}

/// In a network of some version an event leads to one network at most, by one trace.
pub fn one_step_in()
    ensures { OneStepIn }
{}

/// The same events lead it to one network at most.
pub fn one_after_in()
    ensures { OneAfterIn }
{}

/// A question that is refused has no derivation, whatever the answer.
pub fn refused_has_none()
    ensures { RefusedHasNone }
{}

/// A question is refused in one way only: by one number, and for a node that isn't there by one tagged key.
pub fn one_cause()
    ensures { OneCause }
{}

/// An event that is stuck leads a network nowhere.
pub fn stuck_has_none()
    ensures { StuckHasNone }
{}

/// An event is stuck in one way only.
pub fn one_stuck()
    ensures { OneStuck }
{}

/// In a network of some version an event that is stuck leads nowhere.
pub fn stuck_in_has_none()
    ensures { StuckInHasNone }
{}

/// It is stuck in one way only.
pub fn one_stuck_in()
    ensures { OneStuckIn }
{}

/// Identifiers, names and keys are totally ordered, and their orders tell different ones apart.
pub fn exact_orders()
    ensures { AreExactOrders }
{}

/// Rising lists of identifiers are sets: their operations are those of sets, and a set has one such list.
pub fn sets()
    ensures { AreSets }
{}

/// Different rules have different names.
pub fn names_differ()
    ensures { NamesDiffer }
{}

/// Different refusals have different numbers.
pub fn numbers_differ()
    ensures { NumbersDiffer }
{}

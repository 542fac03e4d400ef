//! Laws of networks, for the crates above. Each function does nothing: its contract is the law.

ghost use Rattle.jc_network.specs.Applied.{AppliedAreAll};
ghost use Rattle.jc_network.specs.Enabled.{OthersAreStuck, EnabledHaveSteps};
ghost use Rattle.jc_network.specs.Given.{OneStart, OneGivenStuck, LedOrStuck};
ghost use Rattle.jc_network.specs.Laws.{HeldIsSound, OfferedIsOwn, CountersAreRun, AppliesAtYield, NeverStuckAtYield, LinksAreApplied, StepOrStuck};
ghost use Rattle.jc_network.specs.Invariant.{OwnCountersAreRun};
ghost use Rattle.jc_network.specs.Refines.{StartIsSeen, EventSteps, EventIsStuck, OfferedIsHanded};

/// In each network that is reached from a start, all operations are a sound and rooted set, and what each replica has
/// applied is what it made or received, closed under dependencies.
pub fn held_is_sound()
    ensures { HeldIsSound }
{}

/// What a replica offers it made itself.
pub fn offered_is_own()
    ensures { OfferedIsOwn }
{}

/// No operation's counter is above the number of commands that were run.
pub fn counters_are_run()
    ensures { CountersAreRun }
{}

/// In a network that began at the start of a scenario, no counter is above the number of that scenario's commands that
/// were run.
pub fn own_counters_are_run()
    ensures { OwnCountersAreRun }
{}

/// At a yield, a received operation that isn't applied can be applied where its dependencies are.
pub fn applies_at_yield()
    ensures { AppliesAtYield }
{}

/// At a yield, applying such an operation is stuck for no cause.
pub fn never_stuck_at_yield()
    ensures { NeverStuckAtYield }
{}

/// Lists are chained, and only what is applied is linked.
pub fn links_are_applied()
    ensures { LinksAreApplied }
{}

/// An event has a step or is stuck for a cause, and never both.
pub fn step_or_stuck()
    ensures { StepOrStuck }
{}

/// At the start stored states represent themselves.
pub fn start_is_seen()
    ensures { StartIsSeen }
{}

/// What a replica's call makes of its stored state is a step of the network that the stored states represent.
pub fn event_steps()
    ensures { EventSteps }
{}

/// The cause for which a replica's call is refused is one for which the network's event is stuck.
pub fn event_is_stuck()
    ensures { EventIsStuck }
{}

/// Where scripts are short, a replica may receive all that is offered: its counters are small enough.
pub fn offered_is_handed()
    ensures { OfferedIsHanded }
{}

/// An event that isn't among the candidates is stuck: a replica is missing, or the version has no such event, or an
/// operation wasn't offered or received, or no yield comes next.
pub fn others_are_stuck()
    ensures { OthersAreStuck }
{}

/// The enabled events are just those that have a step, each listed once.
pub fn enabled_have_steps()
    ensures { EnabledHaveSteps }
{}

/// What a replica has applied is among what it made or received, sorted by identifier, with each identifier applied.
pub fn applied_are_all()
    ensures { AppliedAreAll }
{}

/// A scenario has one start at most.
pub fn one_start()
    ensures { OneStart }
{}

/// One given event is the first that is stuck, for one cause.
pub fn one_given_stuck()
    ensures { OneGivenStuck }
{}

/// Given events lead to a network, or one of them is the first that is stuck, and never both.
pub fn led_or_stuck()
    ensures { LedOrStuck }
{}

//! Laws of woven schedules. Each function does nothing: its contract is the law.

ghost use Rattle.jc_weave.specs.Laws.{OneSchedule, EachSeedWeaves, SchedulesLead, EachIsChosen, LimitsAreMet};

/// A scenario, a seed and a limit have one schedule at most.
pub fn one_schedule()
    ensures { OneSchedule }
{}

/// From the start of a scenario each seed and limit give a schedule.
pub fn each_seed_weaves()
    ensures { EachSeedWeaves }
{}

/// A woven schedule leads from the scenario's start to the network.
pub fn schedules_lead()
    ensures { SchedulesLead }
{}

/// Each event of a woven schedule is the one that its replica chooses at its place.
pub fn each_is_chosen()
    ensures { EachIsChosen }
{}

/// Where the end of a replica is the limit, the schedule has as many events as that.
pub fn limits_are_met()
    ensures { LimitsAreMet }
{}

//! Laws of choices and of schedules. Each function does nothing: its contract is the law.

ghost use Rattle.jc_choice.specs.Laws.{ChoicesAreOwn, NoChoiceIsTheEnd, SchedulesAreWellFormed};

/// What a replica chooses is an event of its own, and its phase is then a function of this event.
pub fn choices_are_own()
    ensures { ChoicesAreOwn }
{}

/// A replica of the network that chooses nothing has no command left.
pub fn no_choice_is_the_end()
    ensures { NoChoiceIsTheEnd }
{}

/// A scenario whose schedule is replaced by one that leads from its start, with `MAX_EVENTS` events at most, is well
/// formed too. So it can be printed, and its text, within the limit for texts, can be read.
pub fn schedules_are_well_formed()
    ensures { SchedulesAreWellFormed }
{}

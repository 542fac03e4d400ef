//! Laws of the definitions alone. The functions do nothing: their contracts are the laws.

ghost use Rattle.jc_debug.specs.Laws.{OneNetwork, OneTrace, OneStuckEvent, OneMove, OneDebugRun};

/// A position of a schedule has one network at most.
pub fn one_network()
    ensures { OneNetwork }
{}

/// One event at most leads on from a position, by one trace.
pub fn one_trace()
    ensures { OneTrace }
{}

/// One event at most is stuck at a position, for one cause, and then none leads on.
pub fn one_stuck_event()
    ensures { OneStuckEvent }
{}

/// A move forward has one end: a position, and the stuck event there, if any.
pub fn one_move()
    ensures { OneMove }
{}

/// A run has one end: a position and an outcome.
pub fn one_run()
    ensures { OneDebugRun }
{}

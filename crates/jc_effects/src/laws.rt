//! Laws of differences, of one operation and of the events of a run. Each function does nothing: its contract is the law.

ghost use Rattle.jc_effects.specs.Laws.{NothingElsewhere, LossesGoDown, EffectsOfOne, OneDifference, SomeDifference, SameWhereNoneDiffers, EventsChange, EventsApplyOne, OthersChangeNothing, StoredOpsChange};

/// Away from an operation, and in another list than that into which it inserts, nothing differs.
pub fn nothing_elsewhere()
    ensures { NothingElsewhere }
{}

/// What a delete clears is cleared from the top: where a key keeps its identifiers, nothing below it goes.
pub fn losses_go_down()
    ensures { LossesGoDown }
{}

/// The effects of an operation are exactly what it gains on its path and takes at and below its target.
pub fn effects_of_one()
    ensures { EffectsOfOne }
{}

/// Two trees have one difference.
pub fn one_difference()
    ensures { OneDifference }
{}

/// Where an operation leads from the one tree to the other, they have a difference.
pub fn some_difference()
    ensures { SomeDifference }
{}

/// Where a difference says that nothing differs at a place or below it, everything is the same there and below.
pub fn same_where_none_differs()
    ensures { SameWhereNoneDiffers }
{}

/// In each network that is reached from a start, an event that applies an operation leads to the next tree by it.
pub fn events_change()
    ensures { EventsChange }
{}

/// There an event applies one operation at most.
pub fn events_apply_one()
    ensures { EventsApplyOne }
{}

/// There an event that applies none leaves the tree as it was.
pub fn others_change_nothing()
    ensures { OthersChangeNothing }
{}

/// The next tree by an operation is one by the operation as it is kept.
pub fn stored_ops_change()
    ensures { StoredOpsChange }
{}

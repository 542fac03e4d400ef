//! Laws of stored states, which have version vectors. Each function does nothing: its contract is the law. jc_replica
//! and jc_network cite them.

ghost use Rattle.jc_vectors.specs.StateLaws.{OneState, StateStays, StateShrinks, NewIsUnknown, ApplyStands, MakeStands, UnionStands, OwnAreApplied};

/// A stored state represents one state at most.
pub fn one_state()
    ensures { OneState }
{}

/// A stored state represents the same state where the set of operations grows by a new one.
pub fn state_stays()
    ensures { StateStays }
{}

/// A stored state represents the same state where an operation leaves the set on which none depends and which the state
/// doesn't know. This is so where the operation that was made last is undone.
pub fn state_shrinks()
    ensures { StateShrinks }
{}

/// A state knows no identifier that no operation of its set has; so none knows an operation before it is made.
pub fn new_is_unknown()
    ensures { NewIsUnknown }
{}

/// Applying a received operation asks the same of a stored state and of the state that it represents, and does the same
/// to both.
pub fn apply_stands()
    ensures { ApplyStands }
{}

/// Making an operation does the same to a stored state and to the state that it represents; the set of operations stays
/// sound with it.
pub fn make_stands()
    ensures { MakeStands }
{}

/// Uniting stored operations is uniting the operations that they represent.
pub fn union_stands()
    ensures { UnionStands }
{}

/// A replica has applied all of its own operations of the set. This stays so by each of its events, where the set grows
/// by what it applied or by what another one made, and where the set shrinks.
pub fn own_are_applied()
    ensures { OwnAreApplied }
{}

//! Laws of version vectors in sets of operations and in derivations. Each function does nothing: its contract is the
//! law. jc_clear and jc_apply cite them.

ghost use Rattle.jc_vectors.specs.Laws.{CountersTell, WithinIs, InsertedWithdrawn, OperateAlike, ClearAlike, ClearElemAlike, OperateStands, ClearStands, ClearElemStands, KnownAtPaths};

/// In a sound set of operations, a causally closed set has an operation's identifier exactly where the version vector
/// covers it.
pub fn counters_tell()
    ensures { CountersTell }
{}

/// The causally closed set that a version vector represents can be computed from the operations' identifiers.
pub fn within_is()
    ensures { WithinIs }
{}

/// Withdrawing an identifier that was inserted above all of its replica gives back what was there.
pub fn inserted_withdrawn()
    ensures { InsertedWithdrawn }
{}

/// Dependencies that agree on all identifiers that a document knows and on the operation's own apply it alike: by the same
/// rules, to the same document.
pub fn operate_alike()
    ensures { OperateAlike }
{}

/// Such dependencies clear what is under a tagged key alike.
pub fn clear_alike()
    ensures { ClearAlike }
{}

/// Such dependencies clear a key under each tag alike.
pub fn clear_elem_alike()
    ensures { ClearElemAlike }
{}

/// What is derived for a stored operation is derived, by the same rules, for the operation that it represents.
pub fn operate_stands()
    ensures { OperateStands }
{}

/// Clearing what is under a tagged key gives the same by a version vector and by the set that it represents.
pub fn clear_stands()
    ensures { ClearStands }
{}

/// Clearing a key under each tag gives the same by a version vector and by the set that it represents.
pub fn clear_elem_stands()
    ensures { ClearElemStands }
{}

/// Where a document has only these identifiers, so has the context at a path, and so has the document with another such
/// context there. So the laws of clearing hold of a whole document.
pub fn known_at_paths()
    ensures { KnownAtPaths }
{}
